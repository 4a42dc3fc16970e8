//! What a removal leaves of the values of its variable.
ghost use Rattle.std.specs.Prelude.{◌≡◌};
ghost use Rattle.palm_agenda.specs.declared.mark.Mark.{Mark as MarkTerm};
ghost use Rattle.palm_agenda.specs.Losses.{mark_after, matters, shifted};
ghost use Rattle.palm_agenda.specs.Marks.{changed};

use crate::mark::Change;
use palm_base::Value;
use palm_filter::Heed;
use palm_model::number_of;

/// A value that was taken out of a variable's domain, and what is left there.
#[derive(Clone, Copy, Debug, PartialEq, Eq)]
pub struct Loss {
    pub value: Value,
    /// A lesser value is left.
    pub below: bool,
    /// A greater value is left.
    pub above: bool,
    /// Two values are left, or more.
    pub several: bool,
}

impl Loss {
    /// Whether it may take support from a value of another variable, where it is heeded so.
    #[inline(always)]
    pub(crate) fn matters(&self, heed: Heed) -> bool
        ensures { result ≡ matters heed self.now }
    {
        match heed {
            Heed::Each | Heed::Shifted(_) => true,
            Heed::Least => !self.below,
            Heed::Greatest => !self.above,
            Heed::Ends => !self.below || !self.above,
            Heed::Alone => !self.several,
        }
    }

    /// What it does to the mark of another variable's place, where it is heeded so.
    #[inline(always)]
    pub(crate) fn change(&self, heed: Heed) -> Change
        ensures { (mark : MarkTerm) → changed result mark ≡ mark_after heed self.now mark }
    {
        match heed {
            Heed::Shifted(by) => shifted(&self.value, by),
            _ if self.matters(heed) => Change::Fills,
            _ => Change::Keeps,
        }
    }
}

/// That a mark names the value besides that is more by this number, and where no value is, all.
fn shifted(value: &Value, by: i32) -> Change
    ensures { (mark : MarkTerm) → changed result mark ≡ shifted by value.now mark }
{
    let number = number_of(value) + i64::from(by);
    if number < i64::from(i32::MIN) || i64::from(i32::MAX) < number {
        return Change::Fills;
    }
    let moved = Value(number as i32);
    Change::Widens {
        low: moved,
        high: moved,
    }
}
