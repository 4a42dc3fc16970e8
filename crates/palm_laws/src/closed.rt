//! Laws on closed domains.
ghost use Rattle.std.specs.Prelude.{◌↔◌, ℕ, ℤ, List, Contains};
ghost use Rattle.palm_model.specs.Closure.{IsClosed, IsClosedBy};
ghost use Rattle.palm_model.specs.Constraint.{scope};
ghost use Rattle.palm_model.specs.Domains.{Domains, Has};
ghost use Rattle.palm_model.specs.Support.{IsSupported};
ghost use Rattle.palm_model.specs.declared.constraint.Con.{Con};

/// Domains are closed for a set of constraints exactly where they are closed by each of them.
pub fn closed_domains_are_closed_by_each()
    ensures { (cs : List Con) (d : Domains)
        → (IsClosed (Contains cs) d ↔ ((c : Con) → Contains cs c → IsClosedBy c d)) }
{}

/// Domains are closed by a constraint exactly where it supports each present value of its variables.
pub fn closed_domains_are_supported()
    ensures { (c : Con) (d : Domains)
        → (IsClosedBy c d ↔ ((x : ℕ) (v : ℤ) → Contains (scope c) x → Has d x v → IsSupported d c x v)) }
{}
