//! Laws on explanations and conflicts: what they say of the greatest closed domains, and of solutions.
ghost use Rattle.std.specs.Prelude.{◌≡◌, ◌≢◌, ◌↔◌, ◌<◌, ℕ, ℤ, List, [], length, All, Contains};
ghost use Rattle.palm_model.specs.Constraint.{IsWellFormed};
ghost use Rattle.palm_model.specs.Domains.{Domains, Assignment, Has, values_of};
ghost use Rattle.palm_model.specs.Closure.{Explains, IsConflict, IsGreatest, IsSolution};
ghost use Rattle.palm_model.specs.declared.constraint.Con.{Con};
ghost use Rattle.palm_laws.specs.Declared.{AreDeclared};

/// The parts of well formed constraints are over declared variables.
pub fn well_formed_constraints_are_declared()
    ensures { (variables : ℕ) (cs : List Con)
        → All (IsWellFormed variables) cs → AreDeclared variables (Contains cs) }
{}

/// Constraints explain exactly the values that their greatest closed domains do not have.
pub fn explained_values_are_the_missing_ones()
    ensures { (initial : Domains) (cs : List Con) (d : Domains) (x : ℕ) (v : ℤ)
        → IsGreatest initial (Contains cs) d
        → (Explains initial (Contains cs) x v ↔ (¬ Has d x v)) }
{}

/// More constraints explain whatever fewer explain.
pub fn explanations_grow()
    ensures { (initial : Domains) (cs more : List Con) (x : ℕ) (v : ℤ)
        → ((c : Con) → Contains cs c → Contains more c)
        → Explains initial (Contains cs) x v → Explains initial (Contains more) x v }
{}

/// No solution gives a variable a value that is explained.
pub fn explained_value_is_in_no_solution()
    ensures { (initial : Domains) (cs : List Con) (x : ℕ) (v : ℤ) (a : Assignment)
        → AreDeclared (length initial) (Contains cs) → x < length initial
        → Explains initial (Contains cs) x v → IsSolution initial (Contains cs) a → a x ≢ v }
{}

/// Constraints are a conflict exactly where some variable has no value in their greatest closed domains.
pub fn conflicts_are_empty_domains()
    ensures { (initial : Domains) (cs : List Con) (d : Domains)
        → IsGreatest initial (Contains cs) d
        → (IsConflict initial (Contains cs) ↔ ((x : ℕ) × (x < length d) × (values_of d x ≡ []))) }
{}

/// A conflict has no solution.
pub fn conflict_has_no_solution()
    ensures { (initial : Domains) (cs : List Con) (a : Assignment)
        → AreDeclared (length initial) (Contains cs)
        → IsConflict initial (Contains cs) → (¬ IsSolution initial (Contains cs) a) }
{}
