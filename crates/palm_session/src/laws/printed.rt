//! Laws of what a session prints: its engine's domains are the greatest closed ones, its explanations explain, its
//! conflicts have no solution, and its certificates are accepted.
ghost use Rattle.std.specs.Prelude.{◌≡◌, ◌↔◌, ◌≤◌, ℕ, ℤ, false, List};
ghost use Rattle.palm_events.specs.Scoped.{HasScopedReasons};
ghost use Rattle.palm_model.specs.Domains.{Domains};
ghost use Rattle.palm_model.specs.State.{HasEmpty, IsEmptyAt, present};
ghost use Rattle.palm_read.specs.declared.line.Line.TheVariants.{Add, Retract, Why, Minimal, Cert};
ghost use Rattle.palm_read.specs.declared.line.Shape.{Shape};
ghost use Rattle.palm_session.specs.State.{SessionState, IsState, fresh, AreDomains, IsContradiction};
ghost use Rattle.palm_session.specs.Requests.{IsAdmitted, Requests};
ghost use Rattle.palm_session.specs.declared.request.Procedure.{Procedure};
ghost use Rattle.palm_session.specs.declared.request.Procedure.TheVariants.{Proof};
ghost use Rattle.palm_session.specs.declared.request.Question.TheVariants.{Domains as DomainsAsked, Conflict, MinimalConflict, CertConflict, Preferred};
ghost use Rattle.palm_session.specs.declared.request.Request.{Request};
ghost use Rattle.palm_session.specs.declared.request.Request.TheVariants.{Ask, Solve};
ghost use Rattle.palm_session.specs.Answers.{Accepts};
ghost use Rattle.palm_session.specs.Replies.{Run};
ghost use Rattle.palm_session.specs.Told.{KeepsAllButJournal, ToldCert, ToldCertConflict, ToldWhy, ToldConflict, ToldMinimal, ToldMinimalConflict, ToldPreferred, ToldAccepted, ToldBy};

/// While filtering does not wait and nothing contradicts, the engine's present domains are the greatest closed domains of
/// the active constraints.
pub fn printed_domains_are_the_engines()
    ensures { (s : SessionState) → IsState s → s.paused ≡ false → (IsContradiction s → ⊥) → AreDomains s (present s.engine) }
{}

/// While filtering does not wait, there is a contradiction exactly where the engine has an empty domain.
pub fn contradictions_are_empty_domains()
    ensures { (s : SessionState) → IsState s → s.paused ≡ false → (IsContradiction s ↔ HasEmpty (present s.engine)) }
{}

/// The constraints that `why` names are active, and explain that the value is absent.
pub fn kept_explanations_explain()
    ensures { (s t : SessionState) (name reply : List ℕ) (value : ℤ) (request : Request)
        → IsState s → IsAdmitted s (Why name value) request → Accepts s request reply t → ToldWhy s name value reply }
{}

/// The constraints that `conflict` names are active, and are a conflict.
pub fn kept_conflicts_conflict()
    ensures { (s t : SessionState) (reply : List ℕ)
        → IsState s → Accepts s (Ask Conflict) reply t → ToldConflict s reply }
{}

/// What `minimal NAME VALUE` names are active constraints that explain the value's absence, and they are the minimal
/// explanation.
pub fn minimal_explanations_explain()
    ensures { (s t : SessionState) (name reply : List ℕ) (value : ℤ) (request : Request)
        → Requests s (Minimal name value) request → Accepts s request reply t → ToldMinimal s name value reply }
{}

/// What `minimal conflict` names are active constraints that are a conflict, and they are the minimal conflict.
pub fn minimal_conflicts_conflict()
    ensures { (s t : SessionState) (reply : List ℕ)
        → Accepts s (Ask MinimalConflict) reply t → ToldMinimalConflict s reply }
{}

/// The certificate that `cert NAME VALUE` prints is accepted by the checker's definition, with the claim that the value is
/// gone, of the constraints that the kept log needs for it.
pub fn printed_certificates_are_accepted()
    ensures value { (s t : SessionState) (name reply : List ℕ) (value : ℤ) (request : Request)
        → IsState s → HasScopedReasons s.engine → IsAdmitted s (Cert name value) request → Accepts s request reply t
        → ToldCert s name value reply }
    ensures conflict { (s t : SessionState) (reply : List ℕ)
        → IsState s → HasScopedReasons s.engine → Accepts s (Ask CertConflict) reply t → ToldCertConflict s reply }
{}

/// The values that `solve`, `prove` and `minimize` tell satisfy all active constraints, and the constraints that they name are
/// active and have no common solution. A budget that they tell as spent is below the bound of the search, or nogoods were
/// dropped, and it is told how many. Where `minimize` tells the best values, the constraints behind `proved by` are active, and
/// no assignment inside the initial domains that satisfies them gives the variable a lesser value.
pub fn searches_tell_the_truth()
    ensures { (s t : SessionState) (by : Procedure) (reply : List ℕ)
        → IsState s → Accepts s (Solve by) reply t → ToldBy s by reply }
{}

/// A proof that `prove` tells is accepted by the checker's definition where its last line names constraints without a
/// solution, and what is accepted is that just these have none.
pub fn printed_proofs_are_accepted()
    ensures { (s t : SessionState) (budget : ℕ) (reply : List ℕ)
        → IsState s → HasScopedReasons s.engine → budget ≤ 18446744073709551615 → Accepts s (Solve (Proof budget)) reply t → ToldAccepted s reply }
{}

/// After `solve`, `prove` and `minimize` the book, the constraints of the engine and its log are those from before.
pub fn searches_leave_all_but_the_journal()
    ensures { (s t : SessionState) (by : Procedure) (reply : List ℕ)
        → IsState s → Accepts s (Solve by) reply t → KeepsAllButJournal s t }
{}

/// What `preferred` tells to be kept are active constraints that are no conflict. Each constraint that it leaves out is told
/// with a conflict that holds it. Such a conflict, and one of constraints without a weight, is of active constraints, cannot
/// lose a member and has no common solution.
pub fn preferences_are_told_truly()
    ensures { (s t : SessionState) (reply : List ℕ)
        → IsState s → Accepts s (Ask Preferred) reply t → ToldPreferred s reply }
{}

/// From a fresh session on at most one variable has no value, so `conflict` names the constraints of the one conflict that
/// there is.
pub fn one_domain_is_empty_at_most()
    ensures { (guides orders : List ℕ) (lines : List (List ℕ)) (replies : List ℕ) (t : SessionState) (x y : ℕ)
        → Run (fresh guides orders) lines replies t
        → IsEmptyAt (present t.engine) x → IsEmptyAt (present t.engine) y → x ≡ y }
{}

/// Adding a constraint and then retracting it leaves the greatest closed domains as they were, and `domains` prints what it
/// would have printed before.
pub fn adding_and_retracting_gives_back_the_domains()
    ensures domains { (s m t : SessionState) (name a b : List ℕ) (shape : Shape) (add retract : Request) (d : Domains)
        → IsAdmitted s (Add name shape) add → Accepts s add a m → Requests m (Retract name) retract → Accepts m retract b t
        → (AreDomains s d ↔ AreDomains t d) }
    ensures printed { (s m t u : SessionState) (name a b reply : List ℕ) (shape : Shape) (add retract : Request)
        → IsAdmitted s (Add name shape) add → Accepts s add a m → Requests m (Retract name) retract → Accepts m retract b t
        → Accepts s (Ask DomainsAsked) reply u → Accepts t (Ask DomainsAsked) reply t }
{}
