//! For which reasons a constraint takes values of a variable out, told without a list for each value.
ghost use Rattle.std.specs.Prelude.{◌≡◌, ◌≤ℤ◌, ℤ, FitsSigned};
ghost use Rattle.std.specs.Int.{w32};

use palm_base::{Value, Var};

/// A variable, and the number that is added to the value that is taken out, to be compared with its values.
#[derive(Clone, Copy, Debug, PartialEq, Eq)]
pub struct Shift {
    pub var: Var,
    pub by: i32,
}

/// The declared values of a variable from a first place on up to before an end, where places are counted from 0.
#[derive(Clone, Copy, Debug, PartialEq, Eq)]
pub struct Interval {
    pub var: Var,
    pub first: usize,
    pub end: usize,
}

/// A list of intervals, filled again and again.
pub type Intervals = Vec<Interval>;

/// The reasons of a value that is taken out, by the declared values and the value alone.
#[derive(Clone, Copy, Debug, PartialEq, Eq)]
pub enum Rule {
    /// There is none.
    Empty,
    /// Each declared value of the variable from the shifted value on.
    Above(Shift),
    /// Each declared value of the variable up to the shifted value.
    Below(Shift),
    /// The shifted value, where it is declared.
    At(Shift),
    /// Each declared value of the variable but the shifted value.
    Other(Shift),
    /// Those of a list of intervals, in its order.
    Listed,
}

/// A rule, and the greatest value that it is known of.
#[derive(Clone, Copy, Debug, PartialEq, Eq)]
pub struct Known {
    pub rule: Rule,
    pub last: Value,
}

impl Known {
    /// The rule, known of every value.
    pub fn always(rule: Rule) -> Known
        ensures rule { result.rule ≡ rule }
        ensures last { (v : ℤ) → FitsSigned w32 v → v ≤ℤ result.last }
    {
        Known {
            rule,
            last: Value(i32::MAX),
        }
    }
}
