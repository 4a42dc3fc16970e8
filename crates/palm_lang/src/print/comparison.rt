//! Comparisons at the end of what was written.
#![tactic(auto, using(crate::proofs::PrintLemmas::keeping))]

ghost use Rattle.std.specs.Prelude.{◌<◌, [], ◌∷◌};
ghost use Rattle.std.specs.Fmt.{signed_decimal};
ghost use Rattle.palm_read.specs.Piece.{op_text};
ghost use Rattle.palm_lang.specs.Print.{Puts};
ghost use Rattle.palm_read.specs.Comparison.{offset_words};
ghost use Rattle.palm_read.specs.Words.{spaced, after_spaces};

use crate::print::words::{
    put_int, put_name, put_spaced_name, put_spaced_op, put_spaced_value, put_text,
};
use palm_base::{NoMemory, Value};
use palm_model::Op;
use palm_read::Name;

/// What stands behind a comparison of two variables: ` + N`, ` - N` or nothing.
fn put_offset(offset: &i32, out: &mut Vec<u8>) -> Result<(), NoMemory>
    ensures { Puts out.old.items out.new.items (after_spaces (offset_words offset.now)) result }
{
    if *offset == 0 {
        return Ok(());
    }
    put_text(if *offset < 0 { " - " } else { " + " }, out)?;
    put_int(i128::from(offset.unsigned_abs()), out)
}

/// `x < y + 1`
pub(crate) fn put_compare_var(
    left: &Name,
    op: Op,
    right: &Name,
    offset: &i32,
    out: &mut Vec<u8>,
) -> Result<(), NoMemory>
    ensures { Puts out.old.items out.new.items (spaced (left.now ∷ op_text op ∷ right.now ∷ offset_words offset.now)) result }
{
    put_name(left, out)?;
    put_spaced_op(op, out)?;
    put_spaced_name(right, out)?;
    put_offset(offset, out)
}

/// `x < 3`
pub(crate) fn put_compare_const(
    left: &Name,
    op: Op,
    value: &Value,
    out: &mut Vec<u8>,
) -> Result<(), NoMemory>
    ensures { Puts out.old.items out.new.items (spaced (left.now ∷ op_text op ∷ signed_decimal value.now ∷ [])) result }
{
    put_name(left, out)?;
    put_spaced_op(op, out)?;
    put_spaced_value(value, out)
}
