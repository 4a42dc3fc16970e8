//! Certificates: what their lines say, when a step is right and a claim is reached, what the verdict on a text is, and
//! the laws of verdicts. What they share with proofs of 'none', right steps and the way to a verdict, is said for both. It
//! has no code but the types and the copy of a claim.
#![tactic(auto)]

mod ground;
mod laws;
mod statement;
mod verdict;

pub use ground::{Ground, StepList};
pub use laws::{
    accepted_claims_are_explained, accepted_claims_hold_of_the_greatest_domains,
    each_text_has_a_verdict, no_text_has_two_verdicts,
};
pub use statement::{CertificatePhrase, Stage, Statement};
pub use verdict::{Cause, Claim, Proved, Verdict};
