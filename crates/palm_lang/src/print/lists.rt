//! Lists of names, of values and of rows at the end of what was written.
#![tactic(auto, using(crate::proofs::PrintLemmas::keeping))]

ghost use Rattle.std.specs.Prelude.{◌<◌, ◌++◌, All, codes, flat_map, length, map};
ghost use Rattle.std.specs.Fmt.{signed_decimal};
ghost use Rattle.palm_book.specs.Book.{name_of};
ghost use Rattle.palm_lang.specs.Print.{Puts};
ghost use Rattle.palm_read.specs.Domain.{range_text, set_text};
ghost use Rattle.palm_read.specs.Words.{after_spaces, with_commas, row_text};

use crate::print::words::{put_spaced_name, put_text, put_value};
use palm_base::{NoMemory, Value, ValueList, VarList};
use palm_book::Book;
use palm_model::RowList;
use palm_read::NameList;

/// Names with a space before each.
pub(crate) fn put_names(names: &NameList, out: &mut Vec<u8>) -> Result<(), NoMemory>
    ensures { Puts out.old.items out.new.items (after_spaces names.now) result }
{
    for name in names.as_slice() {
        put_spaced_name(name, out)?;
    }
    Ok(())
}

/// The names of variables with a space before each.
pub(crate) fn put_vars(book: &Book, vars: &VarList, out: &mut Vec<u8>) -> Result<(), NoMemory>
    requires { All (λ x. x < length book.now.variables) vars.now }
    ensures { Puts out.old.items out.new.items (after_spaces (map (name_of book.now.variables) vars.now)) result }
{
    for var in vars.as_slice() {
        put_spaced_name(book.variable_name(*var), out)?;
    }
    Ok(())
}

/// A comma and a value.
fn put_further_value(value: &Value, out: &mut Vec<u8>) -> Result<(), NoMemory>
    ensures { Puts out.old.items out.new.items (codes "," ++ signed_decimal value.now) result }
{
    put_text(",", out)?;
    put_value(value, out)
}

/// Values with a comma before each.
fn put_further_values(values: &[Value], out: &mut Vec<u8>) -> Result<(), NoMemory>
    ensures { Puts out.old.items out.new.items (flat_map (λ v. codes "," ++ signed_decimal v) values.now) result }
{
    for value in values {
        put_further_value(value, out)?;
    }
    Ok(())
}

/// Values with a comma between two of them.
fn put_values(values: &[Value], out: &mut Vec<u8>) -> Result<(), NoMemory>
    ensures { Puts out.old.items out.new.items (with_commas values.now) result }
{
    match values {
        [] => Ok(()),
        [first, rest @ ..] => {
            put_value(first, out)?;
            put_further_values(rest, out)
        }
    }
}

/// `LO..HI`
pub(crate) fn put_range(low: &Value, high: &Value, out: &mut Vec<u8>) -> Result<(), NoMemory>
    ensures { Puts out.old.items out.new.items (range_text low.now high.now) result }
{
    put_value(low, out)?;
    put_text("..", out)?;
    put_value(high, out)
}

/// `{1,2}`
pub(crate) fn put_set(values: &[Value], out: &mut Vec<u8>) -> Result<(), NoMemory>
    ensures { Puts out.old.items out.new.items (set_text values.now) result }
{
    put_text("{", out)?;
    put_values(values, out)?;
    put_text("}", out)
}

/// `(1,2)`
pub(crate) fn put_row(values: &ValueList, out: &mut Vec<u8>) -> Result<(), NoMemory>
    ensures { Puts out.old.items out.new.items (row_text values.now) result }
{
    put_text("(", out)?;
    put_values(values.as_slice(), out)?;
    put_text(")", out)
}

/// A space and a row.
fn put_spaced_row(row: &ValueList, out: &mut Vec<u8>) -> Result<(), NoMemory>
    ensures { Puts out.old.items out.new.items (codes " " ++ row_text row.now) result }
{
    put_text(" ", out)?;
    put_row(row, out)
}

/// Rows with a space before each.
pub(crate) fn put_rows(rows: &RowList, out: &mut Vec<u8>) -> Result<(), NoMemory>
    ensures { Puts out.old.items out.new.items (after_spaces (map row_text rows.now)) result }
{
    for row in rows.as_slice() {
        put_spaced_row(row, out)?;
    }
    Ok(())
}
