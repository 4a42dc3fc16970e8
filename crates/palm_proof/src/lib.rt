//! Proofs that constraints have no solution: what a program needs of them. The definitions, the laws and the checker stand
//! below.
#![tactic(auto)]

pub use palm_claim::Cause as ProofCause;
pub use proof_check::check_proof;
pub use proof_text::ProofVerdict;
pub use proof_write::{ProofEnd, ProofStop, prove};
