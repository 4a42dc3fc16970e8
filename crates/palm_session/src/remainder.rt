//! What is left of a request when its change is made.
use crate::reply::Reply;
use crate::request::{Procedure, Question};

/// What is said of a request by itself.
#[derive(Debug, Drop)]
pub(crate) enum Own {
    /// This reply.
    Said(Reply),
    /// The answer to a question.
    Answer(Question),
    /// How this search ends, which is still to run.
    Search(Procedure),
}

/// What is left of a request when its change is made.
#[derive(Debug, Drop)]
pub(crate) enum Remainder {
    /// Nothing but to say this.
    Say(Own),
    /// To filter, unless filtering waits.
    Filter,
    /// To run so many revisions at most.
    Run(u64),
    /// To search.
    Search(Procedure),
    /// Nothing but to end the session.
    End,
}
