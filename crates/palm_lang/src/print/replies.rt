//! Reply lines at the end of what was written, each with its line feed.
#![tactic(auto, using(crate::proofs::PrintLemmas::keeping))]

ghost use Rattle.std.specs.Prelude.{◌≡◌, ◌<◌, ◌++◌, [], All, codes, flat_map, length, map, zip};
ghost use Rattle.std.specs.Fmt.{signed_decimal};
ghost use Rattle.palm_book.specs.Book.{number_name, user_name, HasNumber, IsUser};
ghost use Rattle.palm_lang.specs.Print.{Puts};
ghost use Rattle.palm_lang.specs.Reply.{ended, fixed_word, refusal_words, ran_text, domain_line, var_line, entry_line, pair_text, reasons_text, removal_line, lead_word, names_line, leave_line, assigned_text, assigned_line, spent_line, spent_best_line};
ghost use Rattle.palm_read.specs.Words.{after_spaces};
ghost use Rattle.palm_model.specs.Constraint.{scope};
ghost use Rattle.palm_model.specs.Domains.{Ascends};

use crate::print::cons::put_con;
use crate::print::domains::put_values;
use crate::print::words::{
    put_int, put_name, put_spaced_name, put_spaced_value, put_text, put_value,
};
use crate::reply::{Fixed, Lead, Refusal};
use palm_base::{Cid, CidList, NoMemory, Pair, Value, ValueList, Var};
use palm_book::{Book, BookCon};
use palm_read::Name;

/// A reply of one word, without its line feed.
pub(crate) fn fixed_word(word: Fixed) -> &'static str
    ensures { result.now ≡ fixed_word word }
{
    match word {
        Fixed::Done => "ok",
        Fixed::Contradiction => "contradiction",
        Fixed::Paused => "paused",
        Fixed::Present => "present",
        Fixed::Consistent => "consistent",
        Fixed::Bye => "bye",
        Fixed::End => "end",
    }
}

/// A refusal, without its line feed.
pub(crate) fn refusal_words(refusal: Refusal) -> &'static str
    ensures { result.now ≡ refusal_words refusal }
{
    match refusal {
        Refusal::E1 => "error E1 bytes or length",
        Refusal::E2 => "error E2 no such form",
        Refusal::E3 => "error E3 name taken",
        Refusal::E4 => "error E4 unknown variable",
        Refusal::E5 => "error E5 unknown constraint",
        Refusal::E6 => "error E6 number out of range",
        Refusal::E7 => "error E7 limit",
        Refusal::E8 => "error E8 repeated variable",
        Refusal::E9 => "error E9 empty or zero",
        Refusal::E10 => "error E10 wrong state",
        Refusal::E11 => "error E11 no such object",
        Refusal::E12 => "error E12 value never declared",
    }
}

/// What stands before a list of constraints.
fn lead_word(lead: Lead) -> &'static str
    ensures { result.now ≡ lead_word lead }
{
    match lead {
        Lead::Because => "because",
        Lead::Conflict => "conflict",
        Lead::NoSolution => "none",
        Lead::Proved => "proved by",
        Lead::HardConflict => "hard conflict",
        Lead::Keep => "keep",
    }
}

/// A fixed text and a line feed.
pub(crate) fn put_reply(text: &str, out: &mut Vec<u8>) -> Result<(), NoMemory>
    ensures { Puts out.old.items out.new.items (ended text.now) result }
{
    put_text(text, out)?;
    put_text("\n", out)
}

/// `ran K`
pub(crate) fn put_ran(revisions: u64, out: &mut Vec<u8>) -> Result<(), NoMemory>
    ensures { Puts out.old.items out.new.items (ran_text revisions) result }
{
    put_text("ran ", out)?;
    put_int(i128::from(revisions), out)?;
    put_text("\n", out)
}

/// `spent T` or `spent T dropped K`
pub(crate) fn put_spent(turns: u64, dropped: Option<u64>, out: &mut Vec<u8>) -> Result<(), NoMemory>
    ensures { Puts out.old.items out.new.items (spent_line turns dropped) result }
{
    put_text("spent ", out)?;
    put_int(i128::from(turns), out)?;
    if let Some(dropped) = dropped {
        put_text(" dropped ", out)?;
        put_int(i128::from(dropped), out)?;
    }
    put_text("\n", out)
}

/// Values with a space before each.
fn put_spaced_values(values: &[Value], out: &mut Vec<u8>) -> Result<(), NoMemory>
    ensures { Puts out.old.items out.new.items (flat_map (λ v. codes " " ++ signed_decimal v) values.now) result }
{
    for value in values {
        put_spaced_value(value, out)?;
    }
    Ok(())
}

/// `NAME: v v v`
pub(crate) fn put_domain(name: &Name, values: &[Value], out: &mut Vec<u8>) -> Result<(), NoMemory>
    ensures { Puts out.old.items out.new.items (domain_line name.now values.now) result }
{
    put_name(name, out)?;
    put_text(":", out)?;
    put_spaced_values(values, out)?;
    put_text("\n", out)
}

/// `var NAME DOMAIN`
pub(crate) fn put_var(name: &Name, values: &[Value], out: &mut Vec<u8>) -> Result<(), NoMemory>
    requires ascending { Ascends values.now }
    requires some { 0 < length values.now }
    ensures { Puts out.old.items out.new.items (var_line name.now values.now) result }
{
    put_text("var", out)?;
    put_spaced_name(name, out)?;
    put_text(" ", out)?;
    put_values(values, out)?;
    put_text("\n", out)
}

/// `NUMBER active NAME : CON` or `NUMBER relaxed NAME : CON`
pub(crate) fn put_entry(book: &Book, entry: &BookCon, out: &mut Vec<u8>) -> Result<(), NoMemory>
    requires { All (λ x. x < length book.now.variables) (scope entry.now.con) }
    ensures { Puts out.old.items out.new.items (entry_line book.now.variables entry.now) result }
{
    put_int(i128::from(entry.number), out)?;
    put_text(if entry.active { " active" } else { " relaxed" }, out)?;
    put_spaced_name(&entry.name, out)?;
    put_text(" : ", out)?;
    put_con(book, &entry.con, out)?;
    put_text("\n", out)
}

/// `NAME VALUE`
fn put_pair(book: &Book, pair: &Pair, out: &mut Vec<u8>) -> Result<(), NoMemory>
    requires { pair.now.var < length book.now.variables }
    ensures { Puts out.old.items out.new.items (pair_text book.now.variables pair.now) result }
{
    put_name(book.variable_name(pair.var), out)?;
    put_spaced_value(&pair.value, out)
}

/// A comma and a pair.
fn put_further_pair(book: &Book, pair: &Pair, out: &mut Vec<u8>) -> Result<(), NoMemory>
    requires { pair.now.var < length book.now.variables }
    ensures { Puts out.old.items out.new.items (codes ", " ++ pair_text book.now.variables pair.now) result }
{
    put_text(", ", out)?;
    put_pair(book, pair, out)
}

/// Pairs with a comma before each.
fn put_further_pairs(book: &Book, pairs: &[Pair], out: &mut Vec<u8>) -> Result<(), NoMemory>
    requires { All (λ p. p.var < length book.now.variables) pairs.now }
    ensures { Puts out.old.items out.new.items (flat_map (λ p. codes ", " ++ pair_text book.now.variables p) pairs.now) result }
{
    for pair in pairs {
        put_further_pair(book, pair, out)?;
    }
    Ok(())
}

/// The reasons of a removal, if it has any.
fn put_reasons(book: &Book, reasons: &[Pair], out: &mut Vec<u8>) -> Result<(), NoMemory>
    requires { All (λ p. p.var < length book.now.variables) reasons.now }
    ensures { Puts out.old.items out.new.items (reasons_text book.now.variables reasons.now) result }
{
    match reasons {
        [] => Ok(()),
        [first, rest @ ..] => {
            put_text(" from ", out)?;
            put_pair(book, first, out)?;
            put_further_pairs(book, rest, out)
        }
    }
}

/// `NAME VALUE by CONSTRAINT`, with the reasons where there are some
pub(crate) fn put_removal(
    book: &Book,
    pair: &Pair,
    by: u32,
    reasons: &[Pair],
    out: &mut Vec<u8>,
) -> Result<(), NoMemory>
    requires variable { pair.now.var < length book.now.variables }
    requires constraint { HasNumber book.now by }
    requires reasons { All (λ p. p.var < length book.now.variables) reasons.now }
    ensures { Puts out.old.items out.new.items (removal_line book.now.variables (number_name book.now.constraints by) pair.now reasons.now) result }
{
    put_pair(book, pair, out)?;
    put_text(" by ", out)?;
    put_name(book.constraint_name(by), out)?;
    put_reasons(book, reasons, out)?;
    put_text("\n", out)
}

/// A space and the name of a user's constraint.
fn put_user(book: &Book, user: &Cid, out: &mut Vec<u8>) -> Result<(), NoMemory>
    requires { IsUser book.now user.now }
    ensures { Puts out.old.items out.new.items (codes " " ++ user_name book.now.constraints user.now) result }
{
    match user {
        Cid::User(number) => put_spaced_name(book.constraint_name(*number), out),
        Cid::Decide(_) | Cid::Not(_) => unreachable!(),
    }
}

/// The names of users' constraints with a space before each.
fn put_users(book: &Book, users: &CidList, out: &mut Vec<u8>) -> Result<(), NoMemory>
    requires { All (IsUser book.now) users.now }
    ensures { Puts out.old.items out.new.items (after_spaces (map (user_name book.now.constraints) users.now)) result }
{
    for user in users.as_slice() {
        put_user(book, user, out)?;
    }
    Ok(())
}

/// What leads names of constraints, and these: `because NAME NAME`
pub(crate) fn put_names(
    book: &Book,
    lead: Lead,
    users: &CidList,
    out: &mut Vec<u8>,
) -> Result<(), NoMemory>
    requires { All (IsUser book.now) users.now }
    ensures { Puts out.old.items out.new.items (names_line lead (map (user_name book.now.constraints) users.now)) result }
{
    put_text(lead_word(lead), out)?;
    put_users(book, users, out)?;
    put_text("\n", out)
}

/// `leave NAME conflict NAME NAME`
pub(crate) fn put_leave(
    book: &Book,
    number: u32,
    users: &CidList,
    out: &mut Vec<u8>,
) -> Result<(), NoMemory>
    requires constraint { HasNumber book.now number }
    requires users { All (IsUser book.now) users.now }
    ensures { Puts out.old.items out.new.items (leave_line (number_name book.now.constraints number) (map (user_name book.now.constraints) users.now)) result }
{
    put_text("leave ", out)?;
    put_name(book.constraint_name(number), out)?;
    put_text(" conflict", out)?;
    put_users(book, users, out)?;
    put_text("\n", out)
}

/// A space and `NAME=VALUE`.
fn put_assigned(name: &Name, value: &Value, out: &mut Vec<u8>) -> Result<(), NoMemory>
    ensures { Puts out.old.items out.new.items (codes " " ++ (name.now ++ codes "=" ++ signed_decimal value.now)) result }
{
    put_spaced_name(name, out)?;
    put_text("=", out)?;
    put_value(value, out)
}

/// An assignment, with a space before each variable.
fn put_assignment(book: &Book, values: &ValueList, out: &mut Vec<u8>) -> Result<(), NoMemory>
    requires { length values.now ≡ length book.now.variables }
    ensures { Puts out.old.items out.new.items (after_spaces (map assigned_text (zip book.now.variables values.now))) result }
{
    let values = values.as_slice();
    for var in 0..book.variables() {
        put_assigned(book.variable_name(Var(var)), &values[var as usize], out)?;
    }
    Ok(())
}

/// `found NAME=VALUE NAME=VALUE` or `best NAME=VALUE NAME=VALUE`: a word and an assignment
pub(crate) fn put_assigned_line(
    book: &Book,
    word: &str,
    values: &ValueList,
    out: &mut Vec<u8>,
) -> Result<(), NoMemory>
    requires { length values.now ≡ length book.now.variables }
    ensures { Puts out.old.items out.new.items (assigned_line word.now book.now.variables values.now) result }
{
    put_text(word, out)?;
    put_assignment(book, values, out)?;
    put_text("\n", out)
}

/// `spent T best NAME=VALUE NAME=VALUE`
pub(crate) fn put_spent_best(
    book: &Book,
    turns: u64,
    values: &ValueList,
    out: &mut Vec<u8>,
) -> Result<(), NoMemory>
    requires { length values.now ≡ length book.now.variables }
    ensures { Puts out.old.items out.new.items (spent_best_line turns book.now.variables values.now) result }
{
    put_text("spent ", out)?;
    put_int(i128::from(turns), out)?;
    put_text(" ", out)?;
    put_assigned_line(book, "best", values, out)
}
