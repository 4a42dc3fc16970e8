//! The filter of variables that differ: no two of the variables have one value.
#![tactic(auto)]

mod differ;
mod others;

pub use differ::DifferFilter;
