//! What a repair answers.
ghost use Rattle.std.specs.Prelude.{◌≡◌};
ghost use Rattle.palm_repair.specs.Answers.{TellsDropped, end_of};

use palm_base::{CidList, ValueList};
use palm_search::SearchEnd;

/// How a repair ended.
#[derive(Debug, Drop)]
pub enum RepairAnswer {
    /// One value per variable, in order; together they satisfy all constraints.
    Found(ValueList),
    /// Constraints of users that have no common solution.
    NoSolution(CidList),
    /// So many turns were taken, as many as the budget allows, and the repair is not over; so many nogoods were dropped.
    Spent { turns: u64, dropped: u64 },
}

/// The answer that tells this end, after so many nogoods were dropped.
pub(crate) fn answer_of(end: SearchEnd, dropped: u64) -> RepairAnswer
    ensures end { end_of result ≡ end }
    ensures dropped { TellsDropped result dropped }
{
    match end {
        SearchEnd::Found(values) => RepairAnswer::Found(values),
        SearchEnd::NoSolution(users) => RepairAnswer::NoSolution(users),
        SearchEnd::Spent(turns) => RepairAnswer::Spent { turns, dropped },
    }
}
