//! What became of a request.
use crate::going::Going;
use crate::reply::Reply;
use crate::request::Procedure;

/// What became of a request.
#[derive(Debug, Drop)]
pub(crate) enum Taken {
    /// It was taken: this is to be said, and the session goes on or ends.
    Said(Reply, Going),
    /// It is a search, which is still to run. Nothing has happened yet.
    ToSearch(Procedure),
}
