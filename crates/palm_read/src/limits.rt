//! The limits of the language on lines, names, domains and numbers. Those on constraints are palm_model's.

/// The most bytes of a line, without its end.
pub const MOST_LINE_BYTES: usize = 65_536;

/// The most bytes of a name.
pub const MOST_NAME_BYTES: usize = 32;

/// The most values of a variable.
pub const MOST_VALUES: usize = 256;

/// The greatest number of steps, of a guide and of an order.
pub const GREATEST_NUMBER: u64 = 1_000_000;

/// The greatest length of a list of nogoods.
pub const GREATEST_TABU: u64 = 1_024;

/// The greatest weight of a constraint.
pub const GREATEST_WEIGHT: u64 = 1_000_000;

/// The greatest budget of a search, and that of one without a limit.
pub const NO_BUDGET: u64 = u64::MAX;
