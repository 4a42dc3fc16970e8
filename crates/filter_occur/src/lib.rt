//! Filters of counts: how many of some variables have a value, against a number or a variable.
#![tactic(auto)]

mod count;
mod counts;
mod rule;

pub use count::OccurFilter;
