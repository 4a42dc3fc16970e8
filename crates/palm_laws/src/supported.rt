//! A law on support.
ghost use Rattle.std.specs.Prelude.{◌⊎◌, ℕ, ℤ};
ghost use Rattle.palm_model.specs.Domains.{Domains};
ghost use Rattle.palm_model.specs.Support.{HasSupport};
ghost use Rattle.palm_model.specs.declared.part.Part.{Part};

/// Whether a value has support in a part within given domains is never open: it has, or it has not.
pub fn support_is_known()
    ensures { (d : Domains) (p : Part) (x : ℕ) (v : ℤ)
        → HasSupport d p x v ⊎ (¬ HasSupport d p x v) }
{}
