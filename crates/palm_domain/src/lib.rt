//! The domains of a problem's variables: the innermost loop of the solver.
#![tactic(auto)]

mod bits;
mod domain;
mod laws;
mod limits;
mod marks;
mod placed;
mod places;
mod store;

pub use laws::limits_are_these_numbers;
pub use limits::MOST_VALUES;
pub use placed::Placed;
pub use store::DomainStore;
