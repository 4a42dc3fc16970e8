//! Laws on repairs. In each of them all active negations are justified, each by a listed nogood (`IsRepairing`).
ghost use Rattle.std.specs.Prelude.{◌≡◌, ℕ, ℤ, ◌<◌, ◌≤◌, Bool, false, List, length, Contains};
ghost use Rattle.palm_base.specs.declared.terms.Pair.{Pair};
ghost use Rattle.palm_base.specs.declared.terms.Cid.{Cid};
ghost use Rattle.palm_base.specs.declared.terms.Cid.TheVariants.{Not};
ghost use Rattle.palm_model.specs.Domains.{Assignment};
ghost use Rattle.palm_model.specs.Closure.{IsSolution};
ghost use Rattle.palm_model.specs.Trial.{listed};
ghost use Rattle.palm_model.specs.Log.{Active, IsActive, Named, cons_of};
ghost use Rattle.palm_model.specs.State.{EngineState, IsValid};
ghost use Rattle.palm_model.specs.Conflict.{IsJustified};
ghost use Rattle.palm_events.specs.Along.{IsStill};
ghost use Rattle.palm_search.specs.declared.turn.Pick.{Pick};
ghost use Rattle.palm_search.specs.declared.turn.Turn.{Turn};
ghost use Rattle.palm_search.specs.Turns.{FitsGuide};
ghost use Rattle.palm_search.specs.declared.ending.SearchEnd.{SearchEnd};
ghost use Rattle.palm_search.specs.declared.ending.SearchEnd.TheVariants.{Found, NoSolution};
ghost use Rattle.palm_search.specs.Kept.{HasOnlyUsers, Rests};
ghost use Rattle.palm_repair.specs.Posting.{RepairState, PostsAll};
ghost use Rattle.palm_repair.specs.Repair.{MakesRoom, RepairTakes, RepairSettles, RepairTurns};
ghost use Rattle.palm_repair.specs.Repair.{Repairs, RepairsTo, IsSameRepair, repair_begun};
ghost use Rattle.palm_repair.specs.Kept.{ComesFrom, IsRepairing, HasNoneWhole, IsPosted, IsAtTurn};

pub mod bound;

/// A valid state in which no decision and no negation is active begins a repair.
pub fn repairs_begin()
    ensures { (s : EngineState) → IsValid s → HasOnlyUsers s → IsRepairing (repair_begun s) }
{}

/// Posting for the listed nogoods keeps all negations justified: each new one is justified by its nogood.
pub fn posting_keeps_repairing()
    ensures { (s t : RepairState) → PostsAll s t → IsRepairing s → IsRepairing t }
{}

/// So does making room for a nogood: the negations of the dropped one go with it.
pub fn making_room_keeps_repairing()
    ensures { (tabu : ℕ) (s t : RepairState) → MakesRoom tabu s t → IsRepairing s → IsRepairing t }
{}

/// And so does a whole turn, a decision or an undoing.
pub fn turns_keep_repairing()
    ensures { (guided : Bool) (tabu : ℕ) (s t : RepairState) (turn : Turn)
        → RepairTakes guided tabu s turn t → IsRepairing s → IsRepairing t }
{}

/// And a settling.
pub fn settlings_keep_repairing()
    ensures { (ordered : Bool) (s t : RepairState) → RepairSettles ordered s t → IsRepairing s → IsRepairing t }
{}

/// So all active negations are justified after any turns.
pub fn turns_with_settlings_keep_repairing()
    ensures { (guided ordered : Bool) (tabu : ℕ) (s t : RepairState) (turns : List Turn)
        → RepairTurns guided ordered tabu s turns t → IsRepairing s → IsRepairing t }
{}

/// Each active negation came from a listed nogood that holds its pair, and its justification is that of this nogood:
/// the decisions of the other pairs and the users. Whatever satisfies these satisfies the negation.
pub fn posted_negations_are_justified()
    ensures by_nogood { (s : RepairState) (a : Active) (p : Pair)
        → IsRepairing s → Contains s.search.engine.active a → a.cid ≡ Not p → ComesFrom s p a.justification }
    ensures justified { (s : RepairState) (a : Active) (p : Pair)
        → IsRepairing s → Contains s.search.engine.active a → a.cid ≡ Not p
        → IsJustified s.search.engine.initial s.search.engine.active a }
{}

/// After posting no listed nogood has all its pairs decided, and where one pair alone is left, its negation is active:
/// so it is after each turn, and after the settling that follows it.
pub fn no_nogood_is_whole()
    ensures posting { (s t : RepairState) → PostsAll s t → HasNoneWhole s → IsPosted t }
    ensures turns { (guided : Bool) (tabu : ℕ) (s t : RepairState) (turn : Turn)
        → RepairTakes guided tabu s turn t → IsAtTurn s → IsPosted t }
    ensures begins { (ordered : Bool) (s : EngineState) (t : RepairState)
        → IsValid s → HasOnlyUsers s → RepairSettles ordered (repair_begun s) t → IsAtTurn t }
    ensures settled { (guided ordered : Bool) (tabu : ℕ) (s t : RepairState) (turns : List Turn)
        → RepairTurns guided ordered tabu s turns t → IsAtTurn s → IsAtTurn t }
{}

/// Where a repair has found values, they satisfy all constraints that were active before it.
pub fn found_values_are_a_solution()
    ensures { (guided ordered : Bool) (tabu budget dropped : ℕ) (s t : EngineState) (turns : List Turn)
        (values : List ℤ)
        → HasOnlyUsers s → IsValid s → Repairs guided ordered tabu budget s turns (Found values) dropped t
        → IsSolution s.initial (Contains (cons_of s.active)) (listed values) }
{}

/// Where a repair ends without a solution, the users that it tells were active before it, and have none in common.
pub fn users_of_no_solution_have_none()
    ensures unsolved { (guided ordered : Bool) (tabu budget dropped : ℕ) (s t : EngineState) (turns : List Turn)
        (users : List Cid)
        → HasOnlyUsers s → IsValid s → Repairs guided ordered tabu budget s turns (NoSolution users) dropped t
        → (a : Assignment) → IsSolution s.initial (Named s.active (Contains users)) a → ⊥ }
    ensures active { (guided ordered : Bool) (tabu budget dropped : ℕ) (s t : EngineState) (turns : List Turn)
        (users : List Cid)
        → HasOnlyUsers s → IsValid s → Repairs guided ordered tabu budget s turns (NoSolution users) dropped t
        → (c : Cid) → Contains users c → IsActive s.active c }
{}

/// After a repair no decision and no negation is active: the constraints are those from before, and they are at rest.
pub fn repairs_leave_the_constraints()
    ensures { (guided ordered : Bool) (tabu budget dropped : ℕ) (s t : EngineState) (turns : List Turn)
        (end : SearchEnd)
        → HasOnlyUsers s → IsValid s → Repairs guided ordered tabu budget s turns end dropped t → Rests s t }
{}

/// After a repair from a settled state or a contradiction the log is the log from before, whatever its end.
pub fn repairs_leave_the_log()
    ensures { (guided ordered : Bool) (tabu budget dropped : ℕ) (s t : EngineState) (turns : List Turn)
        (end : SearchEnd)
        → HasOnlyUsers s → IsValid s → IsStill s → Repairs guided ordered tabu budget s turns end dropped t
        → t.log ≡ s.log }
{}

/// No more nogoods are listed than the tabu length says.
pub fn listed_nogoods_are_few()
    ensures { (guided : Bool) (tabu : ℕ) (s t : RepairState) (turn : Turn)
        → RepairTakes guided tabu s turn t → length s.nogoods ≤ tabu → length t.nogoods ≤ tabu }
{}

/// Whatever a guide picks, there is a repair with these picks for every budget and every tabu length above 0.
pub fn repairs_exist()
    ensures { (guided ordered : Bool) (tabu : ℕ) (f : ℕ → Pick) → ((k : ℕ) → FitsGuide guided (f k))
        → (budget : ℕ) (s : EngineState) → 0 < tabu → IsValid s → HasOnlyUsers s
        → RepairsTo guided ordered tabu f budget s }
{}

/// Without guide and order there is no other one.
pub fn repairs_without_guide_and_order_are_unique()
    ensures { (tabu budget : ℕ) (s t u : EngineState) (turns others : List Turn) (end other : SearchEnd)
        (dropped lost : ℕ)
        → IsValid s → HasOnlyUsers s → Repairs false false tabu budget s turns end dropped t
        → Repairs false false tabu budget s others other lost u → IsSameRepair turns end dropped t others other lost u }
{}
