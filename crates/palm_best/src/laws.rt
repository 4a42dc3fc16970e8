//! Laws on minimizations.
ghost use Rattle.std.specs.Prelude.{◌≡◌, ℕ, ◌<◌, Bool, List, length};
ghost use Rattle.palm_model.specs.State.{EngineState, IsValid};
ghost use Rattle.palm_model.specs.Trial.{value_count};
ghost use Rattle.palm_events.specs.Along.{IsStill};
ghost use Rattle.palm_search.specs.declared.turn.Turn.{Turn};
ghost use Rattle.palm_search.specs.Kept.{HasNone, Rests};
ghost use Rattle.palm_search.specs.Measure.{most_turns};
ghost use Rattle.palm_best.specs.declared.best.Best.{Best};
ghost use Rattle.palm_best.specs.Answers.{IsTrueOf};
ghost use Rattle.palm_best.specs.Cuts.{is_own};
ghost use Rattle.palm_best.specs.Ends.{Minimizes};

use crate::limits::{FIRST_CUT, MOST_CUTS};

/// The numbers of the cuts, which an order object is shown.
pub fn limits_are_these_numbers()
    ensures first { FIRST_CUT ≡ 65536 }
    ensures most { MOST_CUTS ≡ 2000001 }
{}

/// A minimization has fewer turns than this, whatever the guide and the order, and however often it finds values.
pub fn minimizations_are_bounded()
    ensures { (guided ordered : Bool) (target budget : ℕ) (s t : EngineState) (turns : List Turn) (best : Best)
        → HasNone is_own s → IsValid s → Minimizes guided ordered target budget s turns best t
        → length turns < most_turns (length s.initial) (value_count s.initial) }
{}

/// The end of a minimization is true of the constraints that were active before it.
pub fn ends_are_true()
    ensures { (guided ordered : Bool) (target budget : ℕ) (s t : EngineState) (turns : List Turn) (best : Best)
        → HasNone is_own s → IsValid s → Minimizes guided ordered target budget s turns best t
        → IsTrueOf s target budget best }
{}

/// After a minimization no decision, negation or cut is active: the constraints are those from before, and at rest.
pub fn minimizations_leave_the_constraints()
    ensures { (guided ordered : Bool) (target budget : ℕ) (s t : EngineState) (turns : List Turn) (best : Best)
        → HasNone is_own s → IsValid s → Minimizes guided ordered target budget s turns best t → Rests s t }
{}

/// After one from a settled state or a contradiction the log is the log from before.
pub fn minimizations_leave_the_log()
    ensures { (guided ordered : Bool) (target budget : ℕ) (s t : EngineState) (turns : List Turn) (best : Best)
        → HasNone is_own s → IsValid s → IsStill s → Minimizes guided ordered target budget s turns best t → t.log ≡ s.log }
{}
