//! Filters of elements of a list: a variable that is the entry at the index that another variable gives.
#![tactic(auto)]

mod element;
mod rule;

pub use element::ElementFilter;
