//! What a withdrawal tells of the values that it put back.
ghost use Rattle.std.specs.Prelude.{◌≡◌, ◌⊎◌, ◌≤ℤ◌};

use palm_base::{Pair, Value, Var};

/// A variable of which a withdrawal put values back: the least of them, and the greatest.
#[derive(Clone, Copy, Debug, PartialEq, Eq)]
pub struct Restored {
    pub var: Var,
    pub low: Value,
    pub high: Value,
}

impl Restored {
    /// The variable with its first value.
    #[inline(always)]
    pub(crate) fn of(pair: Pair) -> Restored
        ensures { result ≡ record { var = pair.var; low = pair.value; high = pair.value } }
    {
        Restored {
            var: pair.var,
            low: pair.value,
            high: pair.value,
        }
    }

    /// Reaches to one more value.
    #[inline(always)]
    pub(crate) fn widen(&mut self, value: Value)
        ensures var { self.new.var ≡ self.old.var }
        ensures low { (self.new.low ≤ℤ self.old.low) × (self.new.low ≤ℤ value) }
        ensures high { (self.old.high ≤ℤ self.new.high) × (value ≤ℤ self.new.high) }
        ensures least { (self.new.low ≡ self.old.low) ⊎ (self.new.low ≡ value) }
        ensures greatest { (self.new.high ≡ self.old.high) ⊎ (self.new.high ≡ value) }
    {
        if value < self.low {
            self.low = value;
        }
        if self.high < value {
            self.high = value;
        }
    }
}
