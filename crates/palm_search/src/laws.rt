//! Laws on searches. In each of them all active negations are justified (`IsSearching`).
ghost use Rattle.std.specs.Prelude.{◌≡◌, ℕ, ℤ, Bool, false, List, Contains};
ghost use Rattle.palm_base.specs.declared.terms.Cid.{Cid};
ghost use Rattle.palm_model.specs.Domains.{Assignment};
ghost use Rattle.palm_model.specs.Closure.{IsSolution};
ghost use Rattle.palm_model.specs.Trial.{listed};
ghost use Rattle.palm_model.specs.Log.{IsActive, Named, cons_of};
ghost use Rattle.palm_model.specs.State.{EngineState, IsValid};
ghost use Rattle.palm_events.specs.Along.{IsStill};
ghost use Rattle.palm_search.specs.declared.turn.Pick.{Pick};
ghost use Rattle.palm_search.specs.declared.turn.Turn.{Turn};
ghost use Rattle.palm_search.specs.Turns.{SearchState, FitsGuide, Takes, SettlesAfter, Turns};
ghost use Rattle.palm_search.specs.declared.ending.SearchEnd.{SearchEnd};
ghost use Rattle.palm_search.specs.Search.{Searches, SearchesTo, IsSameSearch, begun};
ghost use Rattle.palm_search.specs.declared.ending.SearchEnd.TheVariants.{Found, NoSolution};
ghost use Rattle.palm_search.specs.Kept.{HasOnlyUsers, IsSearching, Rests};

pub mod bound;

/// A valid state in which no decision and no negation is active begins a search.
pub fn searches_begin()
    ensures { (s : EngineState) → IsValid s → HasOnlyUsers s → IsSearching (begun s) }
{}

/// A turn keeps the engine valid, all its negations justified, and its decisions those of the search.
pub fn turns_keep_searching()
    ensures { (guided : Bool) (s t : SearchState) (turn : Turn) → Takes guided s turn t → IsSearching s → IsSearching t }
{}

/// And so does a settling.
pub fn settlings_keep_searching()
    ensures { (ordered : Bool) (s t : SearchState) → SettlesAfter ordered s t → IsSearching s → IsSearching t }
{}

/// So all active negations are justified after any turns.
pub fn turns_with_settlings_keep_searching()
    ensures { (guided ordered : Bool) (s t : SearchState) (turns : List Turn)
        → Turns guided ordered s turns t → IsSearching s → IsSearching t }
{}

/// Where a search has found values, they satisfy all constraints that were active before it.
pub fn found_values_are_a_solution()
    ensures { (guided ordered : Bool) (budget : ℕ) (s t : EngineState) (turns : List Turn) (values : List ℤ)
        → HasOnlyUsers s → IsValid s → Searches guided ordered budget s turns (Found values) t
        → IsSolution s.initial (Contains (cons_of s.active)) (listed values) }
{}

/// Where a search ends without a solution, the users that it tells were active before it, and have none in common.
pub fn users_of_no_solution_have_none()
    ensures unsolved { (guided ordered : Bool) (budget : ℕ) (s t : EngineState) (turns : List Turn) (users : List Cid)
        → HasOnlyUsers s → IsValid s → Searches guided ordered budget s turns (NoSolution users) t
        → (a : Assignment) → IsSolution s.initial (Named s.active (Contains users)) a → ⊥ }
    ensures active { (guided ordered : Bool) (budget : ℕ) (s t : EngineState) (turns : List Turn) (users : List Cid)
        → HasOnlyUsers s → IsValid s → Searches guided ordered budget s turns (NoSolution users) t
        → (c : Cid) → Contains users c → IsActive s.active c }
{}

/// After a search no decision and no negation is active: the constraints are those from before, and they are at rest.
pub fn searches_leave_the_constraints()
    ensures { (guided ordered : Bool) (budget : ℕ) (s t : EngineState) (turns : List Turn) (end : SearchEnd)
        → HasOnlyUsers s → IsValid s → Searches guided ordered budget s turns end t → Rests s t }
{}

/// After a search from a settled state or a contradiction the log is the log from before, whatever its end.
pub fn searches_leave_the_log()
    ensures { (guided ordered : Bool) (budget : ℕ) (s t : EngineState) (turns : List Turn) (end : SearchEnd)
        → HasOnlyUsers s → IsValid s → IsStill s → Searches guided ordered budget s turns end t → t.log ≡ s.log }
{}

/// Whatever a guide picks, there is a search with these picks for every budget.
pub fn searches_exist()
    ensures { (guided ordered : Bool) (f : ℕ → Pick) → ((k : ℕ) → FitsGuide guided (f k))
        → (budget : ℕ) (s : EngineState) → IsValid s → HasOnlyUsers s → SearchesTo guided ordered f budget s }
{}

/// Without guide and order there is no other one.
pub fn searches_without_guide_and_order_are_unique()
    ensures { (budget : ℕ) (s t u : EngineState) (turns others : List Turn) (end other : SearchEnd)
        → IsValid s → HasOnlyUsers s → Searches false false budget s turns end t → Searches false false budget s others other u
        → IsSameSearch turns end t others other u }
{}
