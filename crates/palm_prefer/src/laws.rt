//! Laws of what is preferred.
ghost use Rattle.std.specs.Prelude.{◌≡◌, List, All, Contains};
ghost use Rattle.palm_base.specs.declared.terms.Cid.{Cid};
ghost use Rattle.palm_base.specs.declared.terms.Cid.TheVariants.{User};
ghost use Rattle.palm_book.specs.Book.{Contents, IsBook, initial_of};
ghost use Rattle.palm_model.specs.Minimal.{AreConflict};
ghost use Rattle.palm_prefer.specs.Laws.{IsTight, conflicts_of};
ghost use Rattle.palm_prefer.specs.Preferred.{IsKept, IsPreferred};
ghost use Rattle.palm_prefer.specs.declared.answer.LeftOut.{LeftOut};
ghost use Rattle.palm_prefer.specs.declared.answer.Preferred.{Preferred};
ghost use Rattle.palm_prefer.specs.declared.weights.Weight.{Weight};

/// The constraints that are kept are no conflict.
pub fn kept_constraints_are_no_conflict()
    ensures { (book : Contents) (weights : List Weight) (keep : List Cid) (left : List LeftOut) (is : IsKept book weights keep left)
        → AreConflict (initial_of book) is.kept → ⊥ }
{}

/// The conflict for which a constraint is left out holds it.
pub fn conflicts_hold_the_one_left_out()
    ensures { (book : Contents) (weights : List Weight) (keep : List Cid) (left : List LeftOut)
        → IsKept book weights keep left → All (λ out. Contains out.conflict (User out.number)) left }
{}

/// Each conflict is of active constraints without a common solution, and cannot lose a member.
pub fn conflicts_are_tight()
    ensures { (book : Contents) (weights : List Weight) (preferred : Preferred) → IsBook book
        → IsPreferred book weights preferred → All (IsTight book) (conflicts_of preferred) }
{}

/// Of the same constraints and weights no two things are preferred.
pub fn one_answer_is_preferred()
    ensures { (book : Contents) (weights : List Weight) (preferred other : Preferred)
        → IsPreferred book weights preferred → IsPreferred book weights other → preferred ≡ other }
{}
