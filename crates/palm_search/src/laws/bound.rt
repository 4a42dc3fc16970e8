//! Laws on how many turns a search may have.
ghost use Rattle.std.specs.Prelude.{◌≡◌, ℕ, ◌+◌, ◌^◌, ◌<◌, ◌≤◌, Bool, true, List, length};
ghost use Rattle.palm_base.specs.declared.terms.Cid.{Cid};
ghost use Rattle.palm_base.specs.declared.terms.Pair.{Pair};
ghost use Rattle.palm_model.specs.Trial.{value_count};
ghost use Rattle.palm_model.specs.Log.{Active};
ghost use Rattle.palm_model.specs.State.{EngineState, IsValid, is_user};
ghost use Rattle.palm_model.specs.Event.{Posts};
ghost use Rattle.palm_search.specs.declared.turn.Pick.{Pick};
ghost use Rattle.palm_search.specs.declared.turn.Turn.{Turn};
ghost use Rattle.palm_search.specs.Turns.{SearchState, Decides, Undoes, SettlesAfter};
ghost use Rattle.palm_search.specs.declared.ending.SearchEnd.{SearchEnd};
ghost use Rattle.palm_search.specs.Search.{Searches};
ghost use Rattle.palm_search.specs.declared.ending.SearchEnd.TheVariants.{Spent};
ghost use Rattle.palm_search.specs.Kept.{HasOnlyUsers, IsSearching};
ghost use Rattle.palm_search.specs.Measure.{measure, most_turns};

/// A decision does not lower the measure.
pub fn deciding_keeps_the_measure()
    ensures { (guided : Bool) (s t : SearchState) (p : Pair) (pick : Pick)
        → Decides guided s p pick t → measure s ≤ measure t }
{}

/// An undoing raises it.
pub fn undoing_raises_the_measure()
    ensures { (s t : SearchState) (gone : Pair) (conflict : List Cid)
        → Undoes s gone conflict t → IsSearching s → measure s < measure t }
{}

/// A settling leaves it as it is.
pub fn settling_leaves_the_measure()
    ensures { (ordered : Bool) (s t : SearchState) → SettlesAfter ordered s t → measure t ≡ measure s }
{}

/// A user's constraint that is posted between two turns keeps what a search keeps, and does not lower the measure.
pub fn posting_users_keeps_searching()
    ensures searching { (s t : SearchState) (a : Active) → is_user a.cid ≡ true → Posts s.engine a t.engine
        → t.decisions ≡ s.decisions → IsSearching s → IsSearching t }
    ensures rises { (s t : SearchState) (a : Active) → is_user a.cid ≡ true → Posts s.engine a t.engine
        → t.decisions ≡ s.decisions → measure s ≤ measure t }
{}

/// It stays below a power of the number of declared values.
pub fn the_measure_is_bounded()
    ensures { (s : SearchState) → IsSearching s
        → measure s < (value_count s.engine.initial + 1) ^ (length s.engine.initial + 1) }
{}

/// So a search has fewer turns than this, whatever the guide and the order.
pub fn searches_are_bounded()
    ensures { (guided ordered : Bool) (budget : ℕ) (s t : EngineState) (turns : List Turn) (end : SearchEnd)
        → HasOnlyUsers s → IsValid s → Searches guided ordered budget s turns end t
        → length turns < most_turns (length s.initial) (value_count s.initial) }
{}

/// And it spends its budget only where the budget is below that.
pub fn spent_budgets_are_small()
    ensures { (guided ordered : Bool) (budget spent : ℕ) (s t : EngineState) (turns : List Turn)
        → HasOnlyUsers s → IsValid s → Searches guided ordered budget s turns (Spent spent) t
        → (spent ≡ budget) × (spent < most_turns (length s.initial) (value_count s.initial)) }
{}
