//! The law of what a retraction asks.
ghost use Rattle.std.specs.Prelude.{◌≡◌, ◌⊎◌, ℕ, List, []};
ghost use Rattle.palm_read.specs.Reading.{IsRead};
ghost use Rattle.palm_read.specs.declared.line.Line.TheVariants.{Relax, Retract};
ghost use Rattle.palm_session.specs.Asking.{Asks, AsksBack};
ghost use Rattle.palm_session.specs.State.{SessionState, IsState};

/// Where nothing is pending, a line that retracts or relaxes a constraint asks for support no more often than the active
/// constraints over each variable of which values came back have pairs, each variable taken once, and, for each pair that is
/// taken out afterwards, those over the pair's variable; or it asks for none.
pub fn retractions_ask_no_more()
    ensures retract { (s t : SessionState) (bytes name : List ℕ) (count : ℕ)
        → IsState s → s.engine.pending ≡ [] → IsRead s.mode bytes (Retract name) → Asks s bytes t count → (count ≡ 0) ⊎ AsksBack s name t count }
    ensures relax { (s t : SessionState) (bytes name : List ℕ) (count : ℕ)
        → IsState s → s.engine.pending ≡ [] → IsRead s.mode bytes (Relax name) → Asks s bytes t count → (count ≡ 0) ⊎ AsksBack s name t count }
{}
