//! The checker of proofs that constraints have no solution: what a proof has besides what all texts list, which is its lemmas
//! and their users.
#![tactic(auto)]

mod assumed;
mod body;
mod lemmas;
mod marks;
mod phrases;
mod users;

pub use body::check_proof;
pub use proof_text::{Cause, ProofVerdict};
