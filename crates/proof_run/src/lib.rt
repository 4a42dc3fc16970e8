//! The proof that a search writes: its text turn by turn, and the law that a checker accepts it where the search finds that
//! there is no solution. It has no code.
#![tactic(auto)]

mod laws;

pub use laws::{one_text_is_written, proofs_are_accepted, proofs_go_on};
