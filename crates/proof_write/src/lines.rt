//! Parts of a proof at the end of what was written. Want of memory may leave a part of one there.
ghost use Rattle.std.specs.Prelude.{◌≡◌, ◌<◌, ◌++◌, All, codes, length, map, OnOk};
ghost use Rattle.palm_read.specs.Words.{after_spaces};
ghost use Rattle.proof_run.specs.Lemma.{held_decisions, pair_word, wipe_line};
ghost use Rattle.proof_write.specs.Lines.{assumed_line, given_line};

use palm_base::{Cid, NoMemory, Pair, Var, push_int};
use palm_lang::{Book, put_spaced_int, put_spaced_name, put_spaced_value, put_text};
use palm_search::holds;

/// ` NAME=VALUE`
fn put_pair(book: &Book, pair: &Pair, out: &mut Vec<u8>) -> Result<(), NoMemory>
    requires { pair.now.var < length book.now.variables }
    ensures { OnOk result (out.new.items ≡ out.old.items ++ (codes " " ++ pair_word book.now.variables pair.now)) }
{
    put_spaced_name(book.variable_name(pair.var), out)?;
    put_text("=", out)?;
    push_int(out, i128::from(pair.value.0))
}

/// ` NAME=VALUE NAME=VALUE`, of the decisions that are held.
pub(crate) fn put_pairs(
    book: &Book,
    decisions: &[Pair],
    held: &[Cid],
    out: &mut Vec<u8>,
) -> Result<(), NoMemory>
    requires { All (λ p. p.var < length book.now.variables) decisions.now }
    ensures { OnOk result (out.new.items ≡ out.old.items ++ after_spaces (map (pair_word book.now.variables) (held_decisions decisions.now held.now))) }
{
    for pair in decisions {
        if holds(held, &pair.var) {
            put_pair(book, pair, out)?;
        }
    }
    Ok(())
}

/// `step NAME VALUE assume`
pub(crate) fn put_assumed(book: &Book, pair: &Pair, out: &mut Vec<u8>) -> Result<(), NoMemory>
    requires { pair.now.var < length book.now.variables }
    ensures { OnOk result (out.new.items ≡ out.old.items ++ assumed_line book.now.variables pair.now) }
{
    put_text("step", out)?;
    put_spaced_name(book.variable_name(pair.var), out)?;
    put_spaced_value(&pair.value, out)?;
    put_text(" assume\n", out)?;
    Ok(())
}

/// `step NAME VALUE lemma K`
pub(crate) fn put_given(
    book: &Book,
    pair: &Pair,
    number: u64,
    out: &mut Vec<u8>,
) -> Result<(), NoMemory>
    requires { pair.now.var < length book.now.variables }
    ensures { OnOk result (out.new.items ≡ out.old.items ++ given_line book.now.variables pair.now number) }
{
    put_text("step", out)?;
    put_spaced_name(book.variable_name(pair.var), out)?;
    put_spaced_value(&pair.value, out)?;
    put_text(" lemma", out)?;
    put_spaced_int(i128::from(number), out)?;
    put_text("\n", out)?;
    Ok(())
}

/// `wipe NAME`
pub(crate) fn put_wipe(book: &Book, var: Var, out: &mut Vec<u8>) -> Result<(), NoMemory>
    requires { var < length book.now.variables }
    ensures { OnOk result (out.new.items ≡ out.old.items ++ wipe_line book.now.variables var) }
{
    put_text("wipe", out)?;
    put_spaced_name(book.variable_name(var), out)?;
    put_text("\n", out)?;
    Ok(())
}
