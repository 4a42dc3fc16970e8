//! What a search records of its turns.
use palm_base::{CidList, Pair};

/// What the guide answered when a decision was to be taken.
#[derive(Clone, Copy, Debug, PartialEq, Eq)]
pub enum Pick {
    /// No guide is chosen.
    NoGuide,
    /// The guide had no pair to propose.
    Nothing,
    /// The pair that the guide proposed, lawful or not.
    Asked(Pair),
}

/// One turn of a search.
#[derive(Debug, Drop)]
pub enum Turn {
    /// The pair was decided, after this pick.
    Decide { pair: Pair, pick: Pick },
    /// The decision of the pair was undone, for this flat conflict.
    Undo { gone: Pair, conflict: CidList },
}
