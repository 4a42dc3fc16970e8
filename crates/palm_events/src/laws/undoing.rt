//! Laws on what is left when all later constraints are gone.
ghost use Rattle.std.specs.Prelude.{◌≡◌, List, All, Contains};
ghost use Rattle.palm_model.specs.Log.{Active, IsActive};
ghost use Rattle.palm_model.specs.State.{EngineState, IsValid};
ghost use Rattle.palm_model.specs.Event.{Step, Runs, Posts, Withdraws};
ghost use Rattle.palm_events.specs.Along.{IsStill, KeepsAll, IsFiltering};

/// A run from a settled state or from a contradiction that withdraws none of its constraints, and that ends with them
/// alone, gives back the log, each removal with the same reasons.
pub fn runs_give_back_the_log()
    ensures { (s t : EngineState) (steps : List Step)
        → IsValid s → IsStill s → Runs s steps t → KeepsAll s steps
        → ((a : Active) → Contains t.active a → IsActive s.active a.cid) → t.log ≡ s.log }
{}

/// Posting a constraint, any filtering, and withdrawing that constraint give back the log and the active constraints.
pub fn posting_and_withdrawing_gives_back_the_log()
    ensures log { (s m n t : EngineState) (a : Active) (steps : List Step)
        → IsValid s → IsStill s → Posts s a m → Runs m steps n → All IsFiltering steps
        → Withdraws n a.cid t → t.log ≡ s.log }
    ensures active { (s m n t : EngineState) (a : Active) (steps : List Step)
        → IsValid s → IsStill s → Posts s a m → Runs m steps n → All IsFiltering steps
        → Withdraws n a.cid t → t.active ≡ s.active }
{}
