//! Limits on what a session keeps.

/// The most bytes of an unfinished line that a session keeps. What it answers to a longer line depends on these alone:
/// the longest line of the language, its carriage return and one byte more.
pub const MOST_KEPT_BYTES: usize = 65_538;
