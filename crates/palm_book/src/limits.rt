//! The limits of a session's book.
ghost use Rattle.std.specs.Prelude.{◌≡◌};
ghost use Rattle.palm_book.specs.Limits.{most_constraints, most_variables};

use palm_read::Mode;

/// The most variables of a book.
pub const MOST_VARIABLES: usize = 128;

/// The most constraints of a book at a time.
pub const MOST_CONSTRAINTS: usize = 512;

/// The most variables in version 1.
pub const MOST_VARIABLES_IN_ONE: usize = 64;

/// The most constraints at a time in version 1.
pub const MOST_CONSTRAINTS_IN_ONE: usize = 256;

/// The most constraints that are added in a session, and the greatest number of one.
pub const MOST_ADDED: u32 = 65_535;

/// The most variables that lines of the mode declare.
pub fn most_variables(mode: Mode) -> usize
    ensures { result ≡ most_variables mode }
{
    match mode {
        Mode::First | Mode::One => MOST_VARIABLES_IN_ONE,
        Mode::Two => MOST_VARIABLES,
    }
}

/// The most constraints that lines of the mode leave at a time.
pub fn most_constraints(mode: Mode) -> usize
    ensures { result ≡ most_constraints mode }
{
    match mode {
        Mode::First | Mode::One => MOST_CONSTRAINTS_IN_ONE,
        Mode::Two => MOST_CONSTRAINTS,
    }
}
