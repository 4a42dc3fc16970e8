//! Laws on settlings: they are runs, they end, and what they lead to.
ghost use Rattle.std.specs.Prelude.{◌≡◌, ℕ, ◌+◌, ◌≤◌, Option, None, Bool, false, List, length};
ghost use Rattle.palm_model.specs.Log.{Active};
ghost use Rattle.palm_model.specs.State.{EngineState, IsValid, IsSettled, present};
ghost use Rattle.palm_model.specs.Event.{Posts, Withdraws};
ghost use Rattle.palm_events.specs.Along.{IsStill};
ghost use Rattle.palm_engine.specs.Engine.{View, IsInterrupted};
ghost use Rattle.palm_engine.specs.Settling.{Revision, Revises, Revisions, Settles, SettlesSome, SettlesPlainly, IsSameSettling, IsAnswered, FitsOrder, Filters};
ghost use Rattle.palm_engine.specs.Work.{Falls, effort};

/// A revision is a run of removals, or its constraint is closed and stops being pending.
pub fn revisions_filter()
    ensures { (s t : EngineState) (r : Revision) → Revises s r t → Filters s t }
{}

/// A settling is a run of the machine.
pub fn settlings_filter()
    ensures { (limit : Option ℕ) (s t : EngineState) (rs : List Revision) → Settles limit s rs t → Filters s t }
{}

/// What an interrupted settling leaves is reached by events.
pub fn interrupted_settlings_filter()
    ensures { (limit : Option ℕ) (ordered : Bool) (before after : View)
        → IsInterrupted limit ordered before after → Filters before.state after.state }
{}

/// A settling keeps a state valid.
pub fn settlings_keep_validity()
    ensures { (limit : Option ℕ) (s t : EngineState) (rs : List Revision)
        → Settles limit s rs t → IsValid s → IsValid t }
{}

/// Each revision takes out a value, or takes out none and leaves fewer constraints pending.
pub fn revisions_fall()
    ensures { (s t : EngineState) (r : Revision) → Revises s r t → Falls s t }
{}

/// So only so many revisions follow one another.
pub fn settlings_end()
    ensures { (s t : EngineState) (rs : List Revision) → Revisions s rs t → length rs + effort t ≤ effort s }
{}

/// Without a limit a settling ends with nothing pending, or with an empty domain.
pub fn settlings_without_limit_end_still()
    ensures { (s t : EngineState) (rs : List Revision) → Settles None s rs t → IsStill t }
{}

/// Whatever an order object answers, there is a settling.
pub fn settlings_exist()
    ensures { (limit : Option ℕ) (f : ℕ → ℕ) (s : EngineState) → IsValid s → SettlesSome limit f s }
{}

/// The same answers lead to the same revisions and to the same state.
pub fn the_same_answers_give_the_same_settling()
    ensures { (limit : Option ℕ) (f : ℕ → ℕ) (s t u : EngineState) (qs rs : List Revision)
        → IsValid s → IsAnswered f qs → IsAnswered f rs
        → Settles limit s qs t → Settles limit s rs u → IsSameSettling qs t rs u }
{}

/// Without an order object there is a settling.
pub fn settlings_without_order_exist()
    ensures { (limit : Option ℕ) (s : EngineState) → IsValid s → SettlesPlainly limit s }
{}

/// And no other one.
pub fn settlings_without_order_are_unique()
    ensures { (limit : Option ℕ) (s t u : EngineState) (qs rs : List Revision)
        → IsValid s → FitsOrder false qs → FitsOrder false rs
        → Settles limit s qs t → Settles limit s rs u → IsSameSettling qs t rs u }
{}

/// And the count of an interrupted one follows from where it began and from what it left.
pub fn interruptions_without_order_count_the_same()
    ensures { (limit : Option ℕ) (before after other : View)
        → IsValid before.state → IsInterrupted limit false before after → IsInterrupted limit false before other
        → other.state ≡ after.state → other.revisions ≡ after.revisions }
{}

/// Where filtering can reach a settled state, every settling without a limit ends in its domains, whatever the order.
pub fn settled_domains_do_not_depend_on_the_order()
    ensures { (s t u : EngineState) (rs : List Revision)
        → IsValid s → Filters s t → IsSettled t → Settles None s rs u → present u ≡ present t }
{}

/// Posting a constraint, any settling, and withdrawing that constraint give back the log, each removal with the same
/// reasons.
pub fn settling_and_withdrawing_gives_back_the_log()
    ensures { (limit : Option ℕ) (s m n t : EngineState) (a : Active) (rs : List Revision)
        → IsValid s → IsStill s → Posts s a m → Settles limit m rs n → Withdraws n a.cid t → t.log ≡ s.log }
{}
