//! The steps that every way of searching is made of, the run of mac-dbt, and the laws on them.
#![tactic(auto)]

mod choice;
mod conflict;
mod ending;
pub mod laws;
mod machine;
mod next;
mod search;
pub mod turn;
mod undoing;
mod view;

pub use choice::open_variable;
pub use conflict::{decided_vars, holds, tell, users_of};
pub use ending::SearchEnd;
pub use laws::bound::{
    deciding_keeps_the_measure, posting_users_keeps_searching, searches_are_bounded,
    settling_leaves_the_measure, spent_budgets_are_small, the_measure_is_bounded,
    undoing_raises_the_measure,
};
pub use laws::{
    found_values_are_a_solution, searches_begin, searches_exist, searches_leave_the_constraints,
    searches_leave_the_log, searches_without_guide_and_order_are_unique, settlings_keep_searching,
    turns_keep_searching, turns_with_settlings_keep_searching, users_of_no_solution_have_none,
};
pub use machine::Machine;
pub use next::Next;
pub use search::Search;
pub use turn::{Pick, Turn};
