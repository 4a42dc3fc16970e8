//! The filter of linear constraints: sums of variables with coefficients.
#![tactic(auto)]

mod end;
mod linear;
mod reasons;
mod rule;
mod span;

pub use linear::LinearFilter;
