//! The book of a session: its variables and constraints by number and by name, names turned into variables, and the
//! values of domains that were read.
#![tactic(auto)]

mod book;
mod domains;
mod laws;
mod limits;
mod resolve;

pub use book::{Book, BookCon};
pub use domains::values_in;
pub use laws::{active_constraints_rise, limits_are_these_numbers};
pub use limits::{
    MOST_ADDED, MOST_CONSTRAINTS, MOST_CONSTRAINTS_IN_ONE, MOST_VARIABLES, MOST_VARIABLES_IN_ONE,
    most_constraints, most_variables,
};
pub use resolve::Unresolved;
