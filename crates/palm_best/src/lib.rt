//! The least value of a variable: mac-dbt that goes on below all values that it finds.
#![tactic(auto)]

mod best;
mod cuts;
mod incumbent;
pub mod laws;
mod limits;
mod minimizing;

pub use best::Best;
pub use laws::{
    ends_are_true, limits_are_these_numbers, minimizations_are_bounded,
    minimizations_leave_the_constraints, minimizations_leave_the_log,
};
pub use limits::FIRST_CUT;
pub use minimizing::{minimize, minimize_by};
