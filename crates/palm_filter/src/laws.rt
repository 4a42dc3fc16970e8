//! A law on support, for every kind of constraint.
ghost use Rattle.std.specs.Prelude.{◌≡◌, ◌↔◌, ℕ, [], ◌∷◌, Contains};
ghost use Rattle.palm_model.specs.Constraint.{IsWellFormed, scope};
ghost use Rattle.palm_model.specs.Domains.{Assignment, Domains, values_of};
ghost use Rattle.palm_model.specs.Part.{Satisfies};
ghost use Rattle.palm_model.specs.Support.{IsSupported};
ghost use Rattle.palm_model.specs.declared.constraint.Con.{Con};

/// Where every variable of the scope has one value, all of these have support exactly where they satisfy the
/// constraint.
pub fn single_values_are_supported_where_they_satisfy()
    ensures { (variables : ℕ) (c : Con) (d : Domains) (a : Assignment)
        → IsWellFormed variables c
        → ((x : ℕ) → Contains (scope c) x → values_of d x ≡ a x ∷ [])
        → (((x : ℕ) → Contains (scope c) x → IsSupported d c x (a x)) ↔ Satisfies a c) }
{}
