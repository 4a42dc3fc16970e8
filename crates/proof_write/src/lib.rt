//! Writes the proof of a search while it runs: the lemma of each conflict before it is undone, line by line. Nothing of the
//! text is kept.
#![tactic(auto)]

mod declarations;
mod ending;
mod lemma;
mod lines;
mod notes;
mod numbers;
mod proving;

pub use palm_lang::WriteStop as ProofStop;
pub use palm_search::SearchEnd as ProofEnd;
pub use proving::{prove, prove_by};
