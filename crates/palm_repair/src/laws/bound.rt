//! Laws on how many turns a repair may have while no nogood is dropped.
ghost use Rattle.std.specs.Prelude.{◌≡◌, ℕ, ◌<◌, ◌⊎◌, Bool, List, ◌∷◌, length, Contains};
ghost use Rattle.palm_base.specs.declared.terms.Cid.{Cid};
ghost use Rattle.palm_base.specs.declared.terms.Pair.{Pair};
ghost use Rattle.palm_model.specs.State.{EngineState, IsValid};
ghost use Rattle.palm_search.specs.declared.turn.Turn.{Turn};
ghost use Rattle.palm_search.specs.declared.turn.Turn.TheVariants.{Undo};
ghost use Rattle.palm_search.specs.declared.ending.SearchEnd.{SearchEnd};
ghost use Rattle.palm_search.specs.declared.ending.SearchEnd.TheVariants.{Spent};
ghost use Rattle.palm_search.specs.Kept.{HasOnlyUsers};
ghost use Rattle.palm_repair.specs.Posting.{RepairState};
ghost use Rattle.palm_repair.specs.Repair.{RepairTurns, Repairs};
ghost use Rattle.palm_repair.specs.Kept.{IsAtTurn};
ghost use Rattle.palm_repair.specs.Sets.{most_repair_turns};

/// While nothing is dropped, no later turn begins with all the decisions that stood at an undoing: some pair of them is
/// decided no more. So no two undoings happen at the same set of decisions.
pub fn undos_differ()
    ensures { (guided ordered : Bool) (tabu : ℕ) (s t : RepairState) (gone : Pair) (conflict : List Cid)
        (turns : List Turn)
        → IsAtTurn s → RepairTurns guided ordered tabu s (Undo gone conflict ∷ turns) t → t.dropped ≡ s.dropped
        → (p : Pair) × Contains s.search.decisions p × (Contains t.search.decisions p → ⊥) }
{}

/// So a repair in which nothing was dropped has fewer turns than this, whatever the guide and the order.
pub fn repairs_are_bounded()
    ensures { (guided ordered : Bool) (tabu budget dropped : ℕ) (s t : EngineState) (turns : List Turn)
        (end : SearchEnd)
        → HasOnlyUsers s → IsValid s → Repairs guided ordered tabu budget s turns end dropped t → dropped ≡ 0
        → length turns < most_repair_turns s.initial }
{}

/// And it spends its budget only where something was dropped or the budget is below that.
pub fn spent_budgets_are_small()
    ensures { (guided ordered : Bool) (tabu budget spent dropped : ℕ) (s t : EngineState) (turns : List Turn)
        → HasOnlyUsers s → IsValid s → Repairs guided ordered tabu budget s turns (Spent spent) dropped t
        → (spent ≡ budget) × ((0 < dropped) ⊎ (spent < most_repair_turns s.initial)) }
{}
