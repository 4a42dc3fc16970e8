//! Filters of comparisons, of a variable with another one and an offset or with a value, and of the constraint that a
//! variable has one of some values.
#![tactic(auto)]

mod compare;
mod demand;
mod rule;
mod within;

pub use compare::CompareFilter;
pub use within::WithinFilter;
