//! The law of the reasons of every kind of constraint.
ghost use Rattle.std.specs.Prelude.{ℕ, ℤ};
ghost use Rattle.palm_model.specs.Domains.{Domains};
ghost use Rattle.palm_model.specs.Reason.{IsReason, WantsReason, reason};
ghost use Rattle.palm_model.specs.declared.constraint.Con.{Con};

/// Where a reason is wanted, its pairs are removed ones of other variables of the scope, and the value has no support
/// within the declared values without them.
pub fn reasons_are_right()
    ensures { (initial present : Domains) (c : Con) (x : ℕ) (v : ℤ)
        → WantsReason initial present c x v
        → IsReason initial present c x v (reason initial present c x v) }
{}
