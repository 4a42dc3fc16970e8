//! What a waking has heard of the constraints so far.
ghost use Rattle.std.specs.Prelude.{◌≡◌, false};
ghost use Rattle.palm_agenda.specs.declared.loss.Loss.{Loss as LossTerm};
ghost use Rattle.palm_agenda.specs.Heard.{HasHeard, IsHearing};
ghost use Rattle.palm_agenda.specs.Open.{is_open};

use crate::connection::{Places, change_at};
use crate::mark::Change;
use crate::open::Open;
use palm_filter::Heed;

/// How the last constraint heeds losses of the variable that wakes, what is done to its marks, and which losses may mark
/// something more. Constraints that heed them alike mostly stand side by side.
#[derive(Clone, Copy, Debug)]
pub(crate) struct Heard {
    pub(crate) heed: Heed,
    pub(crate) change: Change,
    pub(crate) still: Open,
}

impl Heard {
    /// Nothing was heard: as of a constraint that heeds each loss.
    #[inline(always)]
    pub(crate) fn new(places: &Places) -> Heard
        ensures { IsHearing result places.now }
    {
        Heard {
            heed: Heed::Each,
            change: change_at(places, Heed::Each),
            still: Open::none(),
        }
    }

    /// Takes in how one more constraint heeds losses, which is nothing new where it is as before. A value that is back marks
    /// alike whatever is heeded.
    #[inline(always)]
    pub(crate) fn hear(&mut self, heed: Heed, places: &Places)
        requires { IsHearing self.old places.now }
        ensures hearing { IsHearing self.new places.now }
        ensures heard { HasHeard self.new places.now heed }
        ensures more { (l : LossTerm) → is_open self.new.still l ≡ false
            → is_open self.old.still l ≡ false }
    {
        if let Places::Others(loss) = places {
            if heed != self.heed {
                self.heed = heed;
                self.change = loss.change(heed);
                self.still.note(heed, loss);
            }
        }
    }
}
