//! Where a text differs first from the expected one: what the crates of tests share, so that a failed comparison says so.
#![tactic(auto)]

mod difference;

pub use difference::{Difference, first_difference};
