//! The filters of all kinds of constraint as one.
#![tactic(auto)]

mod kind;

pub use kind::Kind;
