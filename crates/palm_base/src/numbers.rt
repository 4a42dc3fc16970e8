//! Whole numbers and their decimal text.
ghost use Rattle.std.specs.Prelude.{◌≡◌, ℤ, ◌++◌, IfSome, IfNone, OnOk, OnErr, FitsSigned};
ghost use Rattle.std.specs.Fmt.{signed_decimal};
ghost use Rattle.std.specs.Int.{w128};
ghost use Rattle.palm_base.specs.Numbers.{IsIntText};

use crate::errors::NoMemory;
use itoa::Buffer;

/// The number where the bytes are an optional `-` and one or more digits, and the number fits 128 bits with a sign.
/// Leading zeros are allowed, and `-0` is 0.
pub fn read_int(bytes: &[u8]) -> Option<i128>
    ensures found { IfSome result (λ z. IsIntText bytes.now z × FitsSigned w128 z) }
    ensures none { IfNone result ((z : ℤ) → IsIntText bytes.now z → FitsSigned w128 z → ⊥) }
{
    if bytes.starts_with(b"+") {
        return None;
    }
    let Ok(text) = str::from_utf8(bytes) else {
        return None;
    };
    text.parse().ok()
}

/// Appends the decimal text of the number; without memory what was there is unchanged.
pub fn push_int(out: &mut Vec<u8>, number: i128) -> Result<(), NoMemory>
    ensures ok { OnOk result (out.new.items ≡ out.old.items ++ signed_decimal number) }
    ensures err { OnErr result (out.new.items ≡ out.old.items) }
{
    let mut buffer = Buffer::new();
    out.extend_from_slice(buffer.format(number).as_bytes())?;
    Ok(())
}
