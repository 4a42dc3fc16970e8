//! The laws of verdicts: a text has one and no other, and what is accepted is true of the listed constraints.
ghost use Rattle.std.specs.Prelude.{◌≡◌, ℕ, List, Contains};
ghost use Rattle.palm_book.specs.Book.{initial_of};
ghost use Rattle.palm_model.specs.Closure.{IsConflict, IsGreatest};
ghost use Rattle.palm_model.specs.Domains.{Domains};
ghost use Rattle.palm_claim.specs.Claim.{HoldsIn, IsExplained, constraints_of};
ghost use Rattle.palm_claim.specs.Verdict.{IsVerdict};
ghost use Rattle.palm_claim.specs.declared.verdict.Claim.TheVariants.{Conflict};
ghost use Rattle.palm_claim.specs.declared.verdict.Proved.{Proved};
ghost use Rattle.palm_claim.specs.declared.verdict.Verdict.{Verdict};
ghost use Rattle.palm_claim.specs.declared.verdict.Verdict.TheVariants.{Accepted};

/// The constraints that an accepted certificate lists explain its claim: that a value is gone, or each value of a
/// variable; then they are a conflict.
pub fn accepted_claims_are_explained()
    ensures explained { (bytes : List ℕ) (proved : Proved) → IsVerdict bytes (Accepted proved) → IsExplained proved.book proved.claim }
    ensures conflict { (bytes : List ℕ) (proved : Proved) (x : ℕ) → IsVerdict bytes (Accepted proved) → proved.claim ≡ Conflict x
        → IsConflict (initial_of proved.book) (Contains (constraints_of proved.book)) }
{}

/// The greatest closed domains of the constraints that an accepted certificate lists do not have the value that is
/// claimed to be gone, and have no value of the variable that is claimed to have none.
pub fn accepted_claims_hold_of_the_greatest_domains()
    ensures { (bytes : List ℕ) (proved : Proved) (d : Domains) → IsVerdict bytes (Accepted proved)
        → IsGreatest (initial_of proved.book) (Contains (constraints_of proved.book)) d → HoldsIn d proved.claim }
{}

/// Every text has a verdict.
pub fn each_text_has_a_verdict()
    ensures { (bytes : List ℕ) → (verdict : Verdict) × IsVerdict bytes verdict }
{}

/// No text has two verdicts.
pub fn no_text_has_two_verdicts()
    ensures { (bytes : List ℕ) (a b : Verdict) → IsVerdict bytes a → IsVerdict bytes b → a ≡ b }
{}
