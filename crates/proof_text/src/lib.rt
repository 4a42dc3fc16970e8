//! Proofs that constraints have no solution: what their lines say, which constraints a lemma uses, what the verdict on a
//! text is, and the laws of verdicts. A step is right as in a certificate, over what the lemma assumes. It has no code but
//! the types.
#![tactic(auto)]

mod laws;
mod lemma;
mod statement;
mod verdict;

pub use laws::{
    accepted_users_have_no_solution, each_text_has_a_verdict, no_text_has_two_verdicts,
    right_steps_hold,
};
pub use lemma::{Lemma, LemmaList, NumberList, PairList};
pub use palm_claim::Cause;
pub use statement::{NamedPair, NamedPairList, ProofPhrase, Stage};
pub use verdict::ProofVerdict;
