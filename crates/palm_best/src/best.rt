//! What a minimization answers.
use palm_base::{CidList, ValueList};

/// How a minimization ended.
#[derive(Debug, Drop)]
pub enum Best {
    /// One value per variable, in order, which together satisfy all constraints; and constraints of users that no values
    /// satisfy which give the target a lesser one.
    Least { values: ValueList, users: CidList },
    /// Constraints of users that have no common solution.
    NoSolution(CidList),
    /// So many turns were taken, as many as the budget allows, and the search is not over; and the best values that were found
    /// by then.
    Spent { turns: u64, best: Option<ValueList> },
}
