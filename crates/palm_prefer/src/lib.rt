//! What is preferred of the active constraints of a book, by their weights: which are kept where not all can be, and why
//! the others are left out.
#![tactic(auto)]

mod answer;
mod choosing;
mod laws;
mod order;
mod walking;
mod weights;

pub use answer::{LeftList, LeftOut, Preferred};
pub use choosing::preferred;
pub use laws::{
    conflicts_are_tight, conflicts_hold_the_one_left_out, kept_constraints_are_no_conflict,
    one_answer_is_preferred,
};
pub use weights::{Weight, WeightList};
