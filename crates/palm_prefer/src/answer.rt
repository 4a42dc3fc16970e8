//! What is preferred.
use palm_base::{CidList, Sequence};

/// A constraint that is left out.
#[derive(Debug, Drop)]
pub struct LeftOut {
    /// Its number.
    pub number: u32,
    /// The minimal conflict of it and those kept before it.
    pub conflict: CidList,
}

/// Constraints that are left out, in the order of the walk.
pub type LeftList = Sequence<LeftOut>;

/// What is preferred.
#[derive(Debug, Drop)]
pub enum Preferred {
    /// The constraints without a weight are a conflict, and this is their minimal one.
    Hard(CidList),
    /// The constraints without a weight are no conflict.
    Kept {
        /// The constraints that are kept, by rising number.
        keep: CidList,
        /// The others that have a weight.
        left: LeftList,
    },
}
