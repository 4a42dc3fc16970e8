//! Names, numbers and fixed texts at the end of what was written. Where memory runs out, what was there is still the
//! front. Of these the writing of certificates uses four.
#![tactic(auto, using(crate::proofs::PrintLemmas::keeping))]

ghost use Rattle.std.specs.Prelude.{◌≡◌, codes, ◌++◌};
ghost use Rattle.std.specs.Fmt.{signed_decimal};
ghost use Rattle.palm_read.specs.Piece.{op_text};
ghost use Rattle.palm_lang.specs.Print.{Puts};

use palm_base::{NoMemory, Value, push_int};
use palm_model::Op;
use palm_read::Name;

/// A fixed text.
pub fn put_text(text: &str, out: &mut Vec<u8>) -> Result<(), NoMemory>
    ensures { Puts out.old.items out.new.items text.now result }
{
    out.extend_from_slice(text.as_bytes())?;
    Ok(())
}

/// A name.
pub(crate) fn put_name(name: &Name, out: &mut Vec<u8>) -> Result<(), NoMemory>
    ensures { Puts out.old.items out.new.items name.now result }
{
    out.extend_from_slice(name.as_slice())?;
    Ok(())
}

/// A space and a name.
pub fn put_spaced_name(name: &Name, out: &mut Vec<u8>) -> Result<(), NoMemory>
    ensures { Puts out.old.items out.new.items (codes " " ++ name.now) result }
{
    put_text(" ", out)?;
    put_name(name, out)
}

/// A whole number.
pub(crate) fn put_int(number: i128, out: &mut Vec<u8>) -> Result<(), NoMemory>
    ensures { Puts out.old.items out.new.items (signed_decimal number) result }
{
    push_int(out, number)
}

/// A value.
pub(crate) fn put_value(value: &Value, out: &mut Vec<u8>) -> Result<(), NoMemory>
    ensures { Puts out.old.items out.new.items (signed_decimal value.now) result }
{
    put_int(i128::from(value.0), out)
}

/// A space and a whole number.
pub fn put_spaced_int(number: i128, out: &mut Vec<u8>) -> Result<(), NoMemory>
    ensures { Puts out.old.items out.new.items (codes " " ++ signed_decimal number) result }
{
    put_text(" ", out)?;
    put_int(number, out)
}

/// A space and a value.
pub fn put_spaced_value(value: &Value, out: &mut Vec<u8>) -> Result<(), NoMemory>
    ensures { Puts out.old.items out.new.items (codes " " ++ signed_decimal value.now) result }
{
    put_text(" ", out)?;
    put_value(value, out)
}

/// A space and a relation.
pub(crate) fn put_spaced_op(op: Op, out: &mut Vec<u8>) -> Result<(), NoMemory>
    ensures { Puts out.old.items out.new.items (codes " " ++ op_text op) result }
{
    put_text(" ", out)?;
    put_text(sign_of(op), out)
}

/// The text of a relation.
fn sign_of(op: Op) -> &'static str
    ensures { result.now ≡ op_text op }
{
    match op {
        Op::Eq => "=",
        Op::Ne => "!=",
        Op::Lt => "<",
        Op::Le => "<=",
        Op::Gt => ">",
        Op::Ge => ">=",
    }
}
