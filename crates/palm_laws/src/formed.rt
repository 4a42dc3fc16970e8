//! Laws on formed constraints.
ghost use Rattle.std.specs.Prelude.{◌<◌, ℕ, ℤ};
ghost use Rattle.palm_model.specs.Constraint.{IsFormed, IsWellFormed};
ghost use Rattle.palm_model.specs.declared.constraint.Con.{Con};
ghost use Rattle.palm_model.specs.declared.constraint.Con.TheVariants.{CompareConst};
ghost use Rattle.palm_model.specs.declared.constraint.Op.{Op};

/// Well formed constraints are formed.
pub fn well_formed_constraints_are_formed()
    ensures { (variables : ℕ) (c : Con) → IsWellFormed variables c → IsFormed variables c }
{}

/// A declared variable is compared with any value, also beyond the limits of the language, by a formed constraint.
pub fn comparisons_with_a_value_are_formed()
    ensures { (variables x : ℕ) (op : Op) (v : ℤ) → x < variables → IsFormed variables (CompareConst x op v) }
{}
