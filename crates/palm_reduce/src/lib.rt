//! Minimal sets: of the active constraints of a book, or of those at marked places, the ones without any of which the rest
//! is no conflict, or does not explain the absence of a value.
#![tactic(auto)]

mod kinds;
mod posting;
mod property;
mod reduce;

pub use kinds::{Kinds, Lent};
pub use posting::{engine_of, post, post_others};
pub use reduce::{
    active_marks, minimal_conflict, minimal_conflict_among, minimal_conflict_in, minimal_why,
};
