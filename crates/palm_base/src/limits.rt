//! Where counts end.

/// The last number of a count of faults, calls or bytes; a count that stands there stays.
pub const LAST_COUNT: u64 = u64::MAX;
