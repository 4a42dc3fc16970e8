//! Laws on conflicts: the kept one, the one without negations, and what justifies negations.
ghost use Rattle.std.specs.Prelude.{ℕ, List};
ghost use Rattle.palm_base.specs.declared.terms.Cid.{Cid};
ghost use Rattle.palm_model.specs.Domains.{Assignment};
ghost use Rattle.palm_model.specs.Closure.{IsConflict, IsSolution};
ghost use Rattle.palm_model.specs.Log.{IsActive, Named};
ghost use Rattle.palm_model.specs.State.{EngineState, IsValid, IsEmptyAt, IsJustifier, present};
ghost use Rattle.palm_model.specs.Event.{Step, StepLeads};
ghost use Rattle.palm_model.specs.Conflict.{InConflict, InFlatConflict, IsKeptConflict, IsFlatConflict, AreJustified};
ghost use Rattle.palm_events.specs.Along.{IsJustifiedPosting};

/// The kept conflict of an empty variable is a conflict.
pub fn kept_conflicts_are_conflicts()
    ensures { (s : EngineState) (x : ℕ) → IsValid s → IsEmptyAt (present s) x
        → IsConflict s.initial (Named s.active (InConflict s x)) }
{}

/// It names active constraints alone.
pub fn conflicts_name_active_constraints()
    ensures { (s : EngineState) (x : ℕ) (cid : Cid)
        → IsValid s → InConflict s x cid → IsActive s.active cid }
{}

/// The flat conflict holds active decisions and active constraints of users alone.
pub fn flat_conflicts_hold_active_justifiers()
    ensures { (s : EngineState) (x : ℕ) (cid : Cid)
        → IsValid s → InFlatConflict s x cid → IsJustifier cid × IsActive s.active cid }
{}

/// Where all active negations are justified, the flat conflict has no solution.
pub fn flat_conflicts_have_no_solution()
    ensures { (s : EngineState) (x : ℕ) (a : Assignment) → IsValid s → AreJustified s → IsEmptyAt (present s) x
        → IsSolution s.initial (Named s.active (InFlatConflict s x)) a → ⊥ }
{}

/// All active negations stay justified in every step that posts no other negation than a justified one.
pub fn steps_keep_negations_justified()
    ensures { (s t : EngineState) (step : Step)
        → StepLeads s step t → IsValid s → IsJustifiedPosting s step → AreJustified s → AreJustified t }
{}

/// The kept and the flat conflict are lists of ids.
pub fn conflicts_are_lists()
    ensures kept { (s : EngineState) (x : ℕ) → IsValid s → (list : List Cid) × IsKeptConflict s x list }
    ensures flat { (s : EngineState) (x : ℕ) → IsValid s → (list : List Cid) × IsFlatConflict s x list }
{}
