//! How a search ended.
use palm_base::{CidList, ValueList};

/// How a search ended.
#[derive(Debug, Drop)]
pub enum SearchEnd {
    /// One value per variable, in order; together they satisfy all constraints.
    Found(ValueList),
    /// Constraints of users that have no common solution.
    NoSolution(CidList),
    /// So many turns were taken, as many as the budget allows, and the search is not over.
    Spent(u64),
}
