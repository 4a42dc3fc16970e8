//! The limits of the commands.

/// How many queens a generated session has at most.
pub const MOST_QUEENS: u8 = 16;

/// How many digits tell the number of queens at most.
pub const MOST_SIZE_DIGITS: usize = 3;

/// How many turns each search of a generated session may take.
pub const SEARCH_BUDGET: u32 = 20_000;
