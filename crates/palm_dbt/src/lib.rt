//! mac-dbt: a search that undoes, at a conflict, the latest decision of it, and keeps all others.
#![tactic(auto)]

mod solving;

pub use palm_search::SearchEnd as Answer;
pub use solving::{solve, solve_by};
