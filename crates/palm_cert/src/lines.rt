//! The lines of a certificate at the end of what was written. Want of memory may leave a part of one there.
ghost use Rattle.std.specs.Prelude.{◌≡◌, ◌<◌, ◌++◌, All, decimal, length, map, OnOk};
ghost use Rattle.palm_book.specs.Book.{HasNumber, number_name};
ghost use Rattle.palm_cert.specs.Certificate.{added_line, claim_line, claim_var, from_words, step_words};
ghost use Rattle.palm_lang.specs.Reply.{ended};
ghost use Rattle.palm_model.specs.Constraint.{scope};
ghost use Rattle.palm_read.specs.Words.{after_spaces, spaced};

use palm_base::{NoMemory, Pair};
use palm_lang::{
    Book, BookCon, Claim, print_con, put_spaced_int, put_spaced_name, put_spaced_value, put_text,
};

/// `add NAME : CONSTRAINT`
pub fn put_added(book: &Book, entry: &BookCon, out: &mut Vec<u8>) -> Result<(), NoMemory>
    requires { All (λ x. x < length book.now.variables) (scope entry.now.con) }
    ensures { OnOk result (out.new.items ≡ out.old.items ++ added_line book.now.variables entry.now) }
{
    put_text("add", out)?;
    put_spaced_name(&entry.name, out)?;
    put_text(" : ", out)?;
    print_con(book, &entry.con, out)?;
    put_text("\n", out)
}

/// ` from K K`, where there is a number
fn put_from(numbers: &[usize], out: &mut Vec<u8>) -> Result<(), NoMemory>
    ensures { OnOk result (out.new.items ≡ out.old.items ++ after_spaces (from_words numbers.now)) }
{
    if numbers.is_empty() {
        return Ok(());
    }
    put_text(" from", out)?;
    put_numbers(numbers, out)
}

/// Numbers with a space before each.
fn put_numbers(numbers: &[usize], out: &mut Vec<u8>) -> Result<(), NoMemory>
    ensures { OnOk result (out.new.items ≡ out.old.items ++ after_spaces (map decimal numbers.now)) }
{
    for number in numbers {
        put_spaced_int(*number as i128, out)?;
    }
    Ok(())
}

/// `step NAME VALUE by NAME`, with the numbers of earlier steps where there are some
pub fn put_step(
    book: &Book,
    pair: &Pair,
    by: u32,
    numbers: &[usize],
    out: &mut Vec<u8>,
) -> Result<(), NoMemory>
    requires variable { pair.now.var < length book.now.variables }
    requires constraint { HasNumber book.now by }
    ensures { OnOk result (out.new.items ≡ out.old.items ++ ended (spaced (step_words book.now.variables pair.now (number_name book.now.constraints by) numbers.now))) }
{
    put_text("step", out)?;
    put_spaced_name(book.variable_name(pair.var), out)?;
    put_spaced_value(&pair.value, out)?;
    put_text(" by", out)?;
    put_spaced_name(book.constraint_name(by), out)?;
    put_from(numbers, out)?;
    put_text("\n", out)
}

/// `claim NAME VALUE` or `claim conflict NAME`
pub fn put_claim(book: &Book, claim: &Claim, out: &mut Vec<u8>) -> Result<(), NoMemory>
    requires { claim_var claim.now < length book.now.variables }
    ensures { OnOk result (out.new.items ≡ out.old.items ++ claim_line book.now.variables claim.now) }
{
    match claim {
        Claim::Gone(pair) => {
            put_text("claim", out)?;
            put_spaced_name(book.variable_name(pair.var), out)?;
            put_spaced_value(&pair.value, out)?;
            put_text("\n", out)?;
            Ok(())
        }
        Claim::Conflict(var) => {
            put_text("claim conflict", out)?;
            put_spaced_name(book.variable_name(*var), out)?;
            put_text("\n", out)?;
            Ok(())
        }
    }
}
