//! Laws of certificates: what the claim needs, and that the steps say it.
ghost use Rattle.std.specs.Prelude.{◌≡◌, ◌↔◌, ◌≤◌, ◌++◌, ◌∷◌, ℕ, ℤ, List, length, All, Contains, true};
ghost use Rattle.palm_base.specs.declared.terms.Pair.{Pair};
ghost use Rattle.palm_base.specs.declared.terms.Cid.TheVariants.{User};
ghost use Rattle.palm_book.specs.declared.book.BookCon.{BookCon as BookConTerm};
ghost use Rattle.palm_book.specs.Book.{Contents, IsBook, active_of, initial_of, user_name};
ghost use Rattle.palm_cert.specs.Certificate.{certificate_text, claimed, is_cited, numbers_of, steps_of};
ghost use Rattle.palm_claim.specs.Step.{IsReached, IsRight};
ghost use Rattle.palm_cert.specs.Accepted.{IsAccepted};
ghost use Rattle.palm_claim.specs.declared.verdict.Claim.{Claim};
ghost use Rattle.palm_cert.specs.Needs.{CanClaim};
ghost use Rattle.palm_explain.specs.Explanations.{IsLinked, NamesOfSome};
ghost use Rattle.palm_explain.specs.Needed.{IsNeeded, pairs_with};
ghost use Rattle.palm_cert.specs.Moved.{moved};
ghost use Rattle.palm_cert.specs.Readable.{AreReadable};
ghost use Rattle.palm_events.specs.Scoped.{HasScopedReasons};
ghost use Rattle.palm_model.specs.Constraint.{scope};
ghost use Rattle.palm_model.specs.Domains.{Domains, Has};
ghost use Rattle.palm_model.specs.Support.{LacksSupport};
ghost use Rattle.palm_model.specs.declared.constraint.Con.{Con};
ghost use Rattle.palm_model.specs.Log.{Active, IsWellFounded, Removal, log_pairs};
ghost use Rattle.palm_model.specs.State.{EngineState, IsValid};

/// The steps of a certificate are exactly the removals that the claim needs.
pub fn steps_are_what_the_claim_needs()
    ensures { (log : List Removal) (pairs : List Pair) (r : Removal) → IsLinked log
        → Contains (steps_of log pairs) r ↔ (Contains log r × IsNeeded log pairs r.pair) }
{}

/// The steps are a log of their own: each reason is the pair of an earlier step, no pair is proved twice, and each step's
/// pair lacks support in its constraint as soon as its reasons are gone.
pub fn steps_are_right_by_themselves()
    ensures { (initial : Domains) (active : List Active) (log : List Removal) (pairs : List Pair)
        → IsWellFounded initial active log → IsWellFounded initial active (steps_of log pairs) }
{}

/// The constraints of a certificate are exactly those of the kept explanation of what is claimed to be gone.
pub fn constraints_are_those_of_the_explanation()
    ensures { (log : List Removal) (x : ℕ) (values : List ℤ) (c : BookConTerm) → IsLinked log
        → (is_cited (steps_of log (pairs_with x values)) c ≡ true) ↔ NamesOfSome log x values (User c.number) }
{}

/// Read in the book of the session, each step is right behind those before it: its constraint has the name that stands
/// behind `by`, the numbers behind `from` are those of earlier steps, and within the declared domains without the pairs
/// that these proved its pair lacks support in the constraint.
pub fn steps_are_right_behind_earlier_ones()
    ensures right { (s : EngineState) (book : Contents) (pairs : List Pair) (earlier later : List Removal) (r : Removal)
        → IsBook book → IsValid s → s.initial ≡ initial_of book → s.active ≡ active_of book → steps_of s.log pairs ≡ earlier ++ r ∷ later
        → IsRight book (log_pairs earlier) r.pair (user_name book.constraints r.by) (numbers_of (earlier ++ r ∷ later) r.reasons) }
    ensures earlier { (s : EngineState) (book : Contents) (pairs : List Pair) (earlier later : List Removal) (r : Removal)
        → IsBook book → IsValid s → s.initial ≡ initial_of book → s.active ≡ active_of book → steps_of s.log pairs ≡ earlier ++ r ∷ later
        → All (λ k. (1 ≤ k) × (k ≤ length earlier)) (numbers_of (earlier ++ r ∷ later) r.reasons) }
{}

/// Read in the book of the session, the claim is reached behind the steps.
pub fn claims_are_reached()
    ensures { (s : EngineState) (book : Contents) (claim : Claim) → IsValid s → s.initial ≡ initial_of book → CanClaim s claim
        → IsReached book (log_pairs (steps_of s.log (claimed book claim))) claim }
{}

/// Each line of the certificate of a claim says, by the words of palm_claim, what was written, and stays within the limits.
pub fn lines_say_what_was_written()
    ensures { (s : EngineState) (book : Contents) (claim : Claim) → IsBook book → IsValid s → s.initial ≡ initial_of book → s.active ≡ active_of book
        → CanClaim s claim → HasScopedReasons s → AreReadable book (steps_of s.log (claimed book claim)) claim }
{}

/// What lacks support in a constraint lacks it under other numbers of the variables, within domains that have no more of
/// the values of its scope.
pub fn numbers_of_variables_do_not_matter()
    ensures { (other : ℕ → ℕ) (d e : Domains) (c : Con) (x : ℕ) (v : ℤ) → ((y : ℕ) (w : ℤ) → Contains (scope c) y → Has e (other y) w → Has d y w)
        → LacksSupport d c x v → LacksSupport e (moved other c) (other x) v }
{}

/// A certificate is accepted by the checker's definition, and what is accepted is the claim that was to be made, of the
/// constraints that the claim needs. `write_cert` ensures it of every engine.
pub fn certificates_are_accepted()
    ensures { (s : EngineState) (book : Contents) (claim : Claim) → IsBook book → IsValid s → s.initial ≡ initial_of book → s.active ≡ active_of book
        → CanClaim s claim → HasScopedReasons s → IsAccepted book s.log claim (certificate_text book s.log claim) }
{}
