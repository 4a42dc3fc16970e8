//! Laws on the greatest closed domains.
ghost use Rattle.std.specs.Prelude.{◌≡◌, List, Contains};
ghost use Rattle.palm_model.specs.Domains.{Domains, AllAscend, IsInside};
ghost use Rattle.palm_model.specs.Closure.{IsGreatest};
ghost use Rattle.palm_model.specs.declared.constraint.Con.{Con};

/// Every list of constraints has greatest closed domains inside ascending initial ones.
pub fn greatest_domains_exist()
    ensures { (initial : Domains) (cs : List Con)
        → AllAscend initial → (d : Domains) × IsGreatest initial (Contains cs) d }
{}

/// There are no two different ones of the same constraints.
pub fn greatest_domains_are_unique()
    ensures { (initial : Domains) (cs : List Con) (d e : Domains)
        → IsGreatest initial (Contains cs) d → IsGreatest initial (Contains cs) e → d ≡ e }
{}

/// More constraints give domains inside those of fewer.
pub fn greatest_domains_fall()
    ensures { (initial : Domains) (cs more : List Con) (d e : Domains)
        → ((c : Con) → Contains cs c → Contains more c)
        → IsGreatest initial (Contains cs) d → IsGreatest initial (Contains more) e → IsInside e d }
{}
