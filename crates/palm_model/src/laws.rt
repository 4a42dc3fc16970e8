//! A law of the limits on a constraint.
ghost use Rattle.std.specs.Prelude.{◌≡◌};
ghost use Rattle.palm_model.specs.declared.limits.TheConstants.{GREATEST_BOUND, GREATEST_FACTOR, GREATEST_OFFSET, GREATEST_PRODUCT, GREATEST_VALUE, MOST_LISTED, MOST_ROWS, MOST_SCOPE};

/// The numbers of the limits.
pub fn limits_are_these_numbers()
    ensures scope { MOST_SCOPE ≡ 16 }
    ensures listed { MOST_LISTED ≡ 256 }
    ensures rows { MOST_ROWS ≡ 256 }
    ensures value { GREATEST_VALUE ≡ 1000000 }
    ensures offset { GREATEST_OFFSET ≡ 2000000 }
    ensures factor { GREATEST_FACTOR ≡ 100000 }
    ensures bound { GREATEST_BOUND ≡ 1000000000000 }
    ensures product { GREATEST_PRODUCT ≡ 214748364800000 }
{}
