//! The limit on the domain of a variable.

/// The most values that a variable is declared with: there is a mark for each.
pub const MOST_VALUES: usize = 256;
