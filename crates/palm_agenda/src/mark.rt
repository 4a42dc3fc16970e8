//! Marks at the places of a scope.
ghost use Rattle.std.specs.Prelude.{◌≡◌};
ghost use Rattle.palm_agenda.specs.Marks.{changed, widened};

use palm_base::Value;

/// Which values of a variable may lack support in a constraint.
#[derive(Clone, Copy, Debug, PartialEq, Eq)]
pub enum Mark {
    /// None.
    Clear,
    /// Those from the one to the other.
    Between { low: Value, high: Value },
    /// All.
    Whole,
}

impl Mark {
    /// The mark, and the values from the one to the other besides.
    #[inline(always)]
    pub fn widened(self, low: Value, high: Value) -> Mark
        ensures { result ≡ widened low high self }
    {
        match self {
            Mark::Clear => Mark::Between { low, high },
            Mark::Between {
                low: from,
                high: to,
            } => Mark::Between {
                low: Value(from.0.min(low.0)),
                high: Value(to.0.max(high.0)),
            },
            Mark::Whole => Mark::Whole,
        }
    }
}

/// What is done to a mark.
#[derive(Clone, Copy, Debug, PartialEq, Eq)]
pub(crate) enum Change {
    /// It stays.
    Keeps,
    /// It names the values from the one to the other besides.
    Widens { low: Value, high: Value },
    /// It names all values.
    Fills,
}

impl Change {
    /// The mark after the change.
    #[inline(always)]
    pub(crate) fn after(&self, mark: Mark) -> Mark
        ensures { result ≡ changed self.now mark }
    {
        match self {
            Change::Keeps => mark,
            Change::Widens { low, high } => mark.widened(*low, *high),
            Change::Fills => Mark::Whole,
        }
    }
}
