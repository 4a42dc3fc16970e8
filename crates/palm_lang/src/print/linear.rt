//! Linear constraints at the end of what was written.
#![tactic(auto, using(crate::proofs::PrintLemmas::keeping))]

ghost use Rattle.std.specs.Prelude.{◌<◌, ◌++◌, [], ◌∷◌, codes, flat_map, map, All, length};
ghost use Rattle.std.specs.Fmt.{signed_decimal};
ghost use Rattle.palm_read.specs.Piece.{op_text};
ghost use Rattle.palm_lang.specs.Print.{Puts};
ghost use Rattle.palm_read.specs.Linear.{linear_product_text, linear_first_text, linear_later_words, linear_terms_words};
ghost use Rattle.palm_read.specs.Words.{spaced, after_spaces};
ghost use Rattle.palm_book.specs.Book.{name_of};
ghost use Rattle.palm_book.specs.Named.{named_term};

use crate::print::words::{put_int, put_name, put_spaced_int, put_spaced_op, put_text};
use palm_base::NoMemory;
use palm_book::Book;
use palm_model::{Op, Term, TermList};
use palm_read::{Name, NameTerm, NameTermList};

/// `3*x`, without a coefficient of 1
fn put_linear_product(factor: u32, name: &Name, out: &mut Vec<u8>) -> Result<(), NoMemory>
    ensures { Puts out.old.items out.new.items (linear_product_text factor name.now) result }
{
    if factor != 1 {
        put_int(i128::from(factor), out)?;
        put_text("*", out)?;
    }
    put_name(name, out)
}

/// The first term of a sum, behind a space.
fn put_linear_first_term(factor: &i32, name: &Name, out: &mut Vec<u8>) -> Result<(), NoMemory>
    ensures { Puts out.old.items out.new.items (codes " " ++ linear_first_text factor.now name.now) result }
{
    put_text(if *factor < 0 { " -" } else { " " }, out)?;
    put_linear_product(factor.unsigned_abs(), name, out)
}

/// A later term of a sum, behind its sign.
fn put_linear_later_term(factor: &i32, name: &Name, out: &mut Vec<u8>) -> Result<(), NoMemory>
    ensures { Puts out.old.items out.new.items (after_spaces (linear_later_words factor.now name.now)) result }
{
    put_text(if *factor < 0 { " - " } else { " + " }, out)?;
    put_linear_product(factor.unsigned_abs(), name, out)
}

/// The later terms of a sum by name.
fn put_linear_later_terms(terms: &[NameTerm], out: &mut Vec<u8>) -> Result<(), NoMemory>
    ensures { Puts out.old.items out.new.items (flat_map (λ t. after_spaces (linear_later_words t.factor t.name)) terms.now) result }
{
    for term in terms {
        put_linear_later_term(&term.factor, &term.name, out)?;
    }
    Ok(())
}

/// The terms of a sum by name, behind a space.
fn put_linear_terms(terms: &[NameTerm], out: &mut Vec<u8>) -> Result<(), NoMemory>
    ensures { Puts out.old.items out.new.items (after_spaces (linear_terms_words terms.now)) result }
{
    match terms {
        [] => Ok(()),
        [first, rest @ ..] => {
            put_linear_first_term(&first.factor, &first.name, out)?;
            put_linear_later_terms(rest, out)
        }
    }
}

/// What stands behind the terms of a sum.
fn put_linear_bound(op: Op, bound: &i64, out: &mut Vec<u8>) -> Result<(), NoMemory>
    ensures { Puts out.old.items out.new.items (after_spaces (op_text op ∷ signed_decimal bound.now ∷ [])) result }
{
    put_spaced_op(op, out)?;
    put_spaced_int(i128::from(*bound), out)
}

/// `sum -2*x + y <= 3`
pub(crate) fn put_linear(
    terms: &NameTermList,
    op: Op,
    bound: &i64,
    out: &mut Vec<u8>,
) -> Result<(), NoMemory>
    ensures { Puts out.old.items out.new.items (spaced (codes "sum" ∷ linear_terms_words terms.now ++ op_text op ∷ signed_decimal bound.now ∷ [])) result }
{
    put_text("sum", out)?;
    put_linear_terms(terms.as_slice(), out)?;
    put_linear_bound(op, bound, out)
}

/// The later terms of a sum.
fn put_linear_con_later_terms(
    book: &Book,
    terms: &[Term],
    out: &mut Vec<u8>,
) -> Result<(), NoMemory>
    requires { All (λ t. t.var < length book.now.variables) terms.now }
    ensures { Puts out.old.items out.new.items (flat_map (λ t. after_spaces (linear_later_words t.factor (name_of book.now.variables t.var))) terms.now) result }
{
    for term in terms {
        put_linear_later_term(&term.factor, book.variable_name(term.var), out)?;
    }
    Ok(())
}

/// The terms of a sum, behind a space.
fn put_linear_con_terms(book: &Book, terms: &[Term], out: &mut Vec<u8>) -> Result<(), NoMemory>
    requires { All (λ t. t.var < length book.now.variables) terms.now }
    ensures { Puts out.old.items out.new.items (after_spaces (linear_terms_words (map (named_term book.now.variables) terms.now))) result }
{
    match terms {
        [] => Ok(()),
        [first, rest @ ..] => {
            put_linear_first_term(&first.factor, book.variable_name(first.var), out)?;
            put_linear_con_later_terms(book, rest, out)
        }
    }
}

/// `sum -2*x + y <= 3`
pub(crate) fn put_linear_con(
    book: &Book,
    terms: &TermList,
    op: Op,
    bound: &i64,
    out: &mut Vec<u8>,
) -> Result<(), NoMemory>
    requires { All (λ t. t.var < length book.now.variables) terms.now }
    ensures { Puts out.old.items out.new.items (spaced (codes "sum" ∷ linear_terms_words (map (named_term book.now.variables) terms.now) ++ op_text op ∷ signed_decimal bound.now ∷ [])) result }
{
    put_text("sum", out)?;
    put_linear_con_terms(book, terms.as_slice(), out)?;
    put_linear_bound(op, bound, out)
}
