//! The numbers of cuts.

/// The number of the first cut. Each constraint of a user has a lesser one.
pub const FIRST_CUT: u32 = 65_536;

/// There are no more cuts than this in a run: each falls below the one before it, and there are so many values.
pub const MOST_CUTS: u32 = 2_000_001;
