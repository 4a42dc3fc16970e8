//! What is replied to a line, before it is written.
use palm_base::{CidList, ValueList, Var};
use palm_lang::{Claim, Fixed, Lead, Refusal};
use palm_prefer::Preferred;

/// A reply. What it shows of the book, the domains and the log is read when it is written.
#[derive(Debug, Drop)]
pub(crate) enum Reply {
    /// Nothing, to a comment.
    Nothing,
    /// One word.
    Word(Fixed),
    /// The line changes nothing.
    Refused(Refusal),
    /// How many revisions ran.
    Ran(u64),
    /// The values of every variable.
    Domains,
    /// The values of one variable.
    Domain(Var),
    /// The book.
    Listing,
    /// The removals.
    Log,
    /// The names of users' constraints behind a word.
    Users { lead: Lead, users: CidList },
    /// The certificate of a claim.
    Certificate(Claim),
    /// One value for each variable.
    Found(ValueList),
    /// How many turns were taken, and how many nogoods dropped, where that is told.
    Spent { turns: u64, dropped: Option<u64> },
    /// One value for each variable, one of them the least that it can have, and the users' constraints that prove it.
    Best { values: ValueList, users: CidList },
    /// How many turns were taken, and the best values so far.
    SpentBest { turns: u64, values: ValueList },
    /// What is preferred, by the weights.
    Weighed(Preferred),
}
