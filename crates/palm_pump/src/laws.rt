//! The law of the limits.
ghost use Rattle.std.specs.Prelude.{◌≡◌};
ghost use Rattle.palm_pump.specs.declared.limits.TheConstants.{MOST_INPUT_BYTES, PIECE};

/// The numbers of the limits.
pub fn limits_are_these_numbers()
    ensures input { MOST_INPUT_BYTES ≡ 16777216 }
    ensures piece { PIECE ≡ 4096 }
{}
