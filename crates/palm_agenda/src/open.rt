//! What another loss of a variable may still change.
ghost use Rattle.std.specs.Prelude.{◌≡◌, false, not};
ghost use Rattle.palm_agenda.specs.declared.loss.Loss.{Loss as LossTerm};
ghost use Rattle.palm_agenda.specs.declared.mark.Mark.{Mark as MarkTerm};
ghost use Rattle.palm_agenda.specs.Losses.{mark_after};
ghost use Rattle.palm_agenda.specs.Open.{is_open};

use crate::loss::Loss;
use palm_filter::Heed;

/// Which losses of a variable may mark something more, after one that woke the constraints over it.
#[derive(Clone, Copy, Debug)]
pub(crate) struct Open {
    /// Each.
    pub(crate) each: bool,
    /// That of the least value.
    pub(crate) least: bool,
    /// That of the greatest value.
    pub(crate) greatest: bool,
    /// One that leaves one value.
    pub(crate) alone: bool,
}

impl Open {
    /// None.
    #[inline(always)]
    pub(crate) fn none() -> Open
        ensures { (l : LossTerm) → is_open result l ≡ false }
    {
        Open {
            each: false,
            least: false,
            greatest: false,
            alone: false,
        }
    }

    /// Those that leave one value.
    #[inline(always)]
    pub(crate) fn of_alone() -> Open
        ensures { (l : LossTerm) → is_open result l ≡ not l.several }
    {
        Open {
            each: false,
            least: false,
            greatest: false,
            alone: true,
        }
    }

    /// Whether the loss may mark something more.
    #[inline(always)]
    pub(crate) fn lets(&self, loss: &Loss) -> bool
        ensures { result ≡ is_open self.now loss.now }
    {
        self.each
            || self.least && !loss.below
            || self.greatest && !loss.above
            || self.alone && !loss.several
    }

    /// Notes a constraint that heeds losses so, and was woken by this one.
    #[inline(always)]
    pub(crate) fn note(&mut self, heed: Heed, loss: &Loss)
        ensures more { (l : LossTerm) → is_open self.new l ≡ false → is_open self.old l ≡ false }
        ensures covers { (l : LossTerm) (mark : MarkTerm) → is_open self.new l ≡ false
            → mark_after heed l (mark_after heed loss.now mark) ≡ mark_after heed loss.now mark }
    {
        match heed {
            Heed::Each => {}
            Heed::Least => self.least |= loss.below,
            Heed::Greatest => self.greatest |= loss.above,
            Heed::Ends => {
                self.least |= loss.below && loss.above;
                self.greatest |= loss.below && loss.above;
            }
            Heed::Alone => self.alone |= loss.several,
            Heed::Shifted(_) => self.each = true,
        }
    }
}
