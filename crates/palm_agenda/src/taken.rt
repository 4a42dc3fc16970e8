//! A constraint that was taken from an agenda.

use palm_base::Cid;

/// A constraint that was taken: its id, and at which place it stands among the connected ones by rising id.
#[derive(Clone, Copy, Debug, PartialEq, Eq)]
pub struct Taken {
    /// The id.
    pub cid: Cid,
    /// How many connected constraints have ids that come before it.
    pub at: usize,
}
