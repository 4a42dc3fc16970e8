//! Laws on the present domains of valid states.
ghost use Rattle.std.specs.Prelude.{◌≡◌, List, [], Contains};
ghost use Rattle.palm_model.specs.Domains.{Domains, AllAscend, IsInside};
ghost use Rattle.palm_model.specs.Closure.{IsClosed, IsGreatest};
ghost use Rattle.palm_model.specs.Log.{cons_of};
ghost use Rattle.palm_model.specs.State.{EngineState, IsValid, present, blank};
ghost use Rattle.palm_model.specs.Event.{Step, Runs};

/// The present domains of a valid state include all that are closed for the active constraints.
pub fn present_domains_include_closed_ones()
    ensures { (s : EngineState) (d : Domains) → IsValid s
        → IsInside d s.initial → IsClosed (Contains (cons_of s.active)) d → IsInside d (present s) }
{}

/// Where nothing is pending, the present domains of a valid state are the greatest closed ones.
pub fn quiet_states_have_the_greatest_domains()
    ensures { (s : EngineState) → IsValid s → s.pending ≡ []
        → IsGreatest s.initial (Contains (cons_of s.active)) (present s) }
{}

/// Every run from the state without constraints leads to domains that include the greatest closed ones of the
/// constraints that are active then, and that are exactly these where nothing is pending.
pub fn runs_reach_the_greatest_domains()
    ensures included { (initial : Domains) (steps : List Step) (t : EngineState) (d : Domains)
        → AllAscend initial → Runs (blank initial) steps t
        → IsGreatest t.initial (Contains (cons_of t.active)) d → IsInside d (present t) }
    ensures equal { (initial : Domains) (steps : List Step) (t : EngineState) (d : Domains)
        → AllAscend initial → Runs (blank initial) steps t
        → IsGreatest t.initial (Contains (cons_of t.active)) d → t.pending ≡ [] → present t ≡ d }
{}
