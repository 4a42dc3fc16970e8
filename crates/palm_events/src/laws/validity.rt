//! Laws on valid states: every step keeps them so, in any order, and keeps each reason in the scope of its constraint.
ghost use Rattle.std.specs.Prelude.{◌↔◌, ◌⊎◌, List, Contains};
ghost use Rattle.palm_base.specs.declared.terms.Cid.{Cid};
ghost use Rattle.palm_base.specs.declared.terms.Pair.{Pair};
ghost use Rattle.palm_model.specs.Constraint.{scope};
ghost use Rattle.palm_model.specs.Log.{Active};
ghost use Rattle.palm_model.specs.Domains.{Domains, AllAscend};
ghost use Rattle.palm_model.specs.State.{EngineState, IsValid, blank};
ghost use Rattle.palm_model.specs.Event.{Step, StepLeads, Runs, WithdrawsAll, lost_pairs};
ghost use Rattle.palm_events.specs.Along.{KeepsJustifiers};
ghost use Rattle.palm_events.specs.Scoped.{HasScopedReasons};

/// The state without constraints is valid.
pub fn states_without_constraints_are_valid()
    ensures { (initial : Domains) → AllAscend initial → IsValid (blank initial) }
{}

/// Postings, withdrawals and removals keep a state valid, and so do the silent steps between them.
pub fn steps_keep_validity()
    ensures { (s t : EngineState) (step : Step) → StepLeads s step t → IsValid s → IsValid t }
{}

/// Several constraints may go at once, where they are no justifiers of negations that stay.
pub fn withdrawals_keep_validity()
    ensures { (s t : EngineState) (gone : List Cid)
        → KeepsJustifiers s.active gone → WithdrawsAll s gone t → IsValid s → IsValid t }
{}

/// Every run from the state without constraints leads to a valid state.
pub fn runs_are_valid()
    ensures { (initial : Domains) (steps : List Step) (t : EngineState)
        → AllAscend initial → Runs (blank initial) steps t → IsValid t }
{}

/// Without constraints there is no reason outside a scope. From a valid state on every step and every run leaves the reasons
/// in the scopes of the constraints that took the values out, and of other variables.
pub fn reasons_stay_in_scopes()
    ensures begins { (initial : Domains) → HasScopedReasons (blank initial) }
    ensures step { (s t : EngineState) (step : Step) → StepLeads s step t → IsValid s → HasScopedReasons s → HasScopedReasons t }
    ensures run { (s t : EngineState) (steps : List Step) → Runs s steps t → IsValid s → HasScopedReasons s → HasScopedReasons t }
{}

/// After a withdrawal exactly those constraints are pending that are still active and were pending before, or are over a
/// restored variable.
pub fn withdrawals_wake()
    ensures { (s t : EngineState) (gone : List Cid) (withdraws : WithdrawsAll s gone t) (a : Active)
        → IsValid s → KeepsJustifiers s.active gone → Contains t.active a
        → (Contains t.pending a.cid ↔ (Contains s.pending a.cid
        ⊎ ((p : Pair) × Contains (lost_pairs s.log withdraws.left) p × Contains (scope a.con) p.var))) }
{}
