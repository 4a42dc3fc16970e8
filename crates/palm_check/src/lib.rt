//! The checker of certificates: what a certificate has besides what all texts list, which is its steps and its claim.
#![tactic(auto)]

mod body;
mod phrases;

pub use body::check;
pub use palm_claim::{Cause, Proved, Verdict};
