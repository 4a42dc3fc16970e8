//! The limits of a hub.

/// How many sessions are opened at most.
pub const MOST_SESSIONS: usize = 16;

/// How many bytes of a line tell for certain whether it begins with a name and a space or a tab: those of the longest name,
/// and one.
pub(crate) const MOST_HEAD_BYTES: usize = 33;
