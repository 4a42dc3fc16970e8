//! The laws of steps and verdicts: what a right step gives, that a text has one verdict and no other, and that what is
//! accepted has no solution.
ghost use Rattle.std.specs.Prelude.{◌≡◌, ℕ, List, Contains};
ghost use Rattle.palm_base.specs.declared.terms.Cid.{Cid};
ghost use Rattle.palm_base.specs.declared.terms.Pair.{Pair};
ghost use Rattle.palm_book.specs.Book.{Contents, initial_of};
ghost use Rattle.palm_claim.specs.Step.{Given, IsRightBy};
ghost use Rattle.palm_claim.specs.declared.ground.Ground.{Ground};
ghost use Rattle.palm_model.specs.Closure.{IsClosed, IsSolution};
ghost use Rattle.palm_model.specs.Domains.{Assignment, Domains, Has, IsInside};
ghost use Rattle.palm_model.specs.declared.constraint.Con.{Con};
ghost use Rattle.proof_text.specs.Sound.{Fits, IsBacked, LacksEach};
ghost use Rattle.proof_text.specs.Users.{IsAmong};
ghost use Rattle.proof_text.specs.Verdict.{IsVerdict};
ghost use Rattle.proof_text.specs.declared.verdict.ProofVerdict.{ProofVerdict};
ghost use Rattle.proof_text.specs.declared.verdict.ProofVerdict.TheVariants.{Accepted};

/// The constraints that an accepted proof names have no solution: no assignment inside the declared domains satisfies
/// them all.
pub fn accepted_users_have_no_solution()
    ensures { (bytes : List ℕ) (book : Contents) (users : List Cid) (b : Assignment)
        → IsVerdict bytes (Accepted book users) → IsSolution (initial_of book) (IsAmong book users) b → ⊥ }
{}

/// Where a right step is backed, closed domains that fit the assumed pairs and lack the pairs of the steps before it lack its
/// pair.
pub fn right_steps_hold()
    ensures { (book : Contents) (given : Given) (cs : List Con) (proved : List Pair) (pair : Pair) (by : Ground) (d : Domains)
        → IsInside d (initial_of book) → IsClosed (Contains cs) d → Fits given.pairs d → LacksEach d proved
        → IsBacked book given proved (Contains cs) d by → IsRightBy book given proved pair by
        → Has d pair.var pair.value → ⊥ }
{}

/// Every text has a verdict.
pub fn each_text_has_a_verdict()
    ensures { (bytes : List ℕ) → (verdict : ProofVerdict) × IsVerdict bytes verdict }
{}

/// No text has two verdicts.
pub fn no_text_has_two_verdicts()
    ensures { (bytes : List ℕ) (a b : ProofVerdict) → IsVerdict bytes a → IsVerdict bytes b → a ≡ b }
{}
