//! A law of the limit on a domain.
ghost use Rattle.std.specs.Prelude.{◌≡◌};
ghost use Rattle.palm_domain.specs.declared.limits.TheConstants.{MOST_VALUES};

/// The number of the limit.
pub fn limits_are_these_numbers()
    ensures values { MOST_VALUES ≡ 256 }
{}
