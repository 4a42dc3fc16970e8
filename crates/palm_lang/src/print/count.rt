//! Counts at the end of what was written.
#![tactic(auto, using(crate::proofs::PrintLemmas::keeping))]

ghost use Rattle.std.specs.Prelude.{◌<◌, ◌++◌, ◌∷◌, codes, map, All, length};
ghost use Rattle.std.specs.Fmt.{signed_decimal};
ghost use Rattle.palm_read.specs.Piece.{op_text};
ghost use Rattle.palm_lang.specs.Print.{Puts};
ghost use Rattle.palm_read.specs.Count.{target_words};
ghost use Rattle.palm_read.specs.Words.{spaced, after_spaces};
ghost use Rattle.palm_book.specs.Book.{name_of};
ghost use Rattle.palm_book.specs.Named.{named_target};
ghost use Rattle.palm_model.specs.Count.{target_scope};

use crate::print::lists::{put_names, put_vars};
use crate::print::words::{put_spaced_name, put_spaced_op, put_spaced_value, put_text};
use palm_base::{NoMemory, Value, VarList};
use palm_book::Book;
use palm_model::{Op, Target};
use palm_read::{NameList, NameTarget};

/// What is compared with a count, behind a space.
fn put_target(target: &NameTarget, out: &mut Vec<u8>) -> Result<(), NoMemory>
    ensures { Puts out.old.items out.new.items (after_spaces (target_words target.now)) result }
{
    match target {
        NameTarget::Const(value) => put_spaced_value(value, out),
        NameTarget::Variable(name) => put_spaced_name(name, out),
    }
}

/// `count 1 a b = n`
pub(crate) fn put_count(
    value: &Value,
    vars: &NameList,
    op: Op,
    target: &NameTarget,
    out: &mut Vec<u8>,
) -> Result<(), NoMemory>
    ensures { Puts out.old.items out.new.items (spaced (codes "count" ∷ signed_decimal value.now ∷ vars.now ++ op_text op ∷ target_words target.now)) result }
{
    put_text("count", out)?;
    put_spaced_value(value, out)?;
    put_names(vars, out)?;
    put_spaced_op(op, out)?;
    put_target(target, out)
}

/// What is compared with a count, behind a space.
fn put_target_con(book: &Book, target: &Target, out: &mut Vec<u8>) -> Result<(), NoMemory>
    requires { All (λ x. x < length book.now.variables) (target_scope target.now) }
    ensures { Puts out.old.items out.new.items (after_spaces (target_words (named_target book.now.variables target.now))) result }
{
    match target {
        Target::Const(value) => put_spaced_value(value, out),
        Target::Variable(var) => put_spaced_name(book.variable_name(*var), out),
    }
}

/// `count 1 a b = n`
pub(crate) fn put_count_con(
    book: &Book,
    value: &Value,
    vars: &VarList,
    op: Op,
    target: &Target,
    out: &mut Vec<u8>,
) -> Result<(), NoMemory>
    requires { All (λ x. x < length book.now.variables) (vars.now ++ target_scope target.now) }
    ensures { Puts out.old.items out.new.items (spaced (codes "count" ∷ signed_decimal value.now ∷ map (name_of book.now.variables) vars.now ++ op_text op ∷ target_words (named_target book.now.variables target.now))) result }
{
    put_text("count", out)?;
    put_spaced_value(value, out)?;
    put_vars(book, vars, out)?;
    put_spaced_op(op, out)?;
    put_target_con(book, target, out)
}
