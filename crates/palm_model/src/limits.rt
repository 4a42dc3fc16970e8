//! The limits of the language on the numbers and lists of a constraint.

/// The most variables of a constraint.
pub const MOST_SCOPE: usize = 16;

/// The most values that a constraint on one variable may list.
pub const MOST_LISTED: usize = 256;

/// The most rows of a table, and the most entries of a list that `element` looks up.
pub const MOST_ROWS: usize = 256;

/// The size of the greatest and of the least value.
pub const GREATEST_VALUE: u32 = 1_000_000;

/// The size of the greatest and of the least offset in a comparison.
pub const GREATEST_OFFSET: u32 = 2_000_000;

/// The size of the greatest and of the least coefficient of a sum.
pub const GREATEST_FACTOR: u32 = 100_000;

/// The size of the greatest and of the least number that a sum is compared with.
pub const GREATEST_BOUND: u64 = 1_000_000_000_000;

/// The size of the greatest coefficient times the least number of 32 bits: no term of a sum is greater.
pub const GREATEST_PRODUCT: u64 = 214_748_364_800_000;
