//! Printing lines, constraints and replies. Each printer appends its text, and without memory leaves what was there.
#![tactic(auto, using(crate::proofs::PrintLemmas::keeping))]

ghost use Rattle.std.specs.Prelude.{◌≡◌, ◌<◌, length, map, take, All, OnOk, OnErr};
ghost use Rattle.palm_read.specs.Text.{text_of};
ghost use Rattle.palm_book.specs.Book.{number_name, user_name, IsUser, HasNumber};
ghost use Rattle.palm_lang.specs.Reply.{con_text, fixed_text, refusal_text, ran_text, domain_line, var_line, entry_at, removal_line, names_line, leave_line, found_line, best_line, spent_line, spent_best_line};
ghost use Rattle.palm_lang.specs.Print.{Appends};
ghost use Rattle.palm_model.specs.Constraint.{scope};
ghost use Rattle.palm_model.specs.Domains.{Ascends};

mod comparison;
mod cons;
mod count;
mod differ;
mod domains;
mod element;
mod linear;
mod lines;
mod lists;
mod replies;
mod shapes;
mod table;
mod within;
mod words;

use crate::print::cons::put_con;
use crate::print::lines::put_line;
use crate::print::replies::{
    fixed_word, put_assigned_line, put_domain, put_entry, put_leave, put_names, put_ran,
    put_removal, put_reply, put_spent, put_spent_best, put_var, refusal_words,
};
pub use crate::print::words::{put_spaced_int, put_spaced_name, put_spaced_value, put_text};
use crate::reply::{Fixed, Lead, Refusal};
use palm_base::{CidList, NoMemory, Pair, Value, ValueList};
use palm_book::Book;
use palm_model::Con;
use palm_read::{Line, Name};

/// Takes back what was written past the first `length` bytes, unless the outcome is good.
fn settled(outcome: Result<(), NoMemory>, length: usize, out: &mut Vec<u8>) -> Result<(), NoMemory>
    ensures same { result ≡ outcome }
    ensures ok { OnOk outcome (out.new.items ≡ out.old.items) }
    ensures err { OnErr outcome (out.new.items ≡ take length out.old.items) }
{
    if outcome.is_err() {
        out.truncate(length);
    }
    outcome
}

/// Prints a line without a line feed; a comment has no text.
pub fn print_line(line: &Line, out: &mut Vec<u8>) -> Result<(), NoMemory>
    ensures { Appends out.old.items out.new.items (text_of line.now) result }
{
    let length = out.len();
    let outcome = put_line(line, out);
    settled(outcome, length, out)
}

/// Prints a constraint with the book's names, without a line feed.
pub fn print_con(book: &Book, con: &Con, out: &mut Vec<u8>) -> Result<(), NoMemory>
    requires { All (λ x. x < length book.now.variables) (scope con.now) }
    ensures { Appends out.old.items out.new.items (con_text book.now.variables con.now) result }
{
    let length = out.len();
    let outcome = put_con(book, con, out);
    settled(outcome, length, out)
}

/// Prints a reply of one word.
pub fn print_fixed(word: Fixed, out: &mut Vec<u8>) -> Result<(), NoMemory>
    ensures { Appends out.old.items out.new.items (fixed_text word) result }
{
    let length = out.len();
    let outcome = put_reply(fixed_word(word), out);
    settled(outcome, length, out)
}

/// Prints a refusal.
pub fn print_refusal(refusal: Refusal, out: &mut Vec<u8>) -> Result<(), NoMemory>
    ensures { Appends out.old.items out.new.items (refusal_text refusal) result }
{
    let length = out.len();
    let outcome = put_reply(refusal_words(refusal), out);
    settled(outcome, length, out)
}

/// Prints how many revisions ran.
pub fn print_ran(revisions: u64, out: &mut Vec<u8>) -> Result<(), NoMemory>
    ensures { Appends out.old.items out.new.items (ran_text revisions) result }
{
    let length = out.len();
    let outcome = put_ran(revisions, out);
    settled(outcome, length, out)
}

/// Prints a variable's values, as `NAME: v v v`.
pub fn print_domain(name: &Name, values: &[Value], out: &mut Vec<u8>) -> Result<(), NoMemory>
    ensures { Appends out.old.items out.new.items (domain_line name.now values.now) result }
{
    let length = out.len();
    let outcome = put_domain(name, values, out);
    settled(outcome, length, out)
}

/// Prints a variable as `list` shows it.
pub fn print_var(name: &Name, values: &[Value], out: &mut Vec<u8>) -> Result<(), NoMemory>
    requires ascending { Ascends values.now }
    requires some { 0 < length values.now }
    ensures { Appends out.old.items out.new.items (var_line name.now values.now) result }
{
    let length = out.len();
    let outcome = put_var(name, values, out);
    settled(outcome, length, out)
}

/// Prints the constraint at a place as `list` shows it.
pub fn print_entry(book: &Book, place: usize, out: &mut Vec<u8>) -> Result<(), NoMemory>
    requires { place < length book.now.constraints }
    ensures { Appends out.old.items out.new.items (entry_at book.now place) result }
{
    let length = out.len();
    let outcome = put_entry(book, book.constraint(place), out);
    settled(outcome, length, out)
}

/// Prints a removal as `log` shows it: the pair, the number of the constraint that removed it, and its reasons.
pub fn print_removal(
    book: &Book,
    pair: Pair,
    by: u32,
    reasons: &[Pair],
    out: &mut Vec<u8>,
) -> Result<(), NoMemory>
    requires variable { pair.var < length book.now.variables }
    requires constraint { HasNumber book.now by }
    requires reasons { All (λ p. p.var < length book.now.variables) reasons.now }
    ensures { Appends out.old.items out.new.items (removal_line book.now.variables (number_name book.now.constraints by) pair reasons.now) result }
{
    let length = out.len();
    let outcome = put_removal(book, &pair, by, reasons, out);
    settled(outcome, length, out)
}

/// Prints the names of users' constraints behind what leads them.
pub fn print_names(
    book: &Book,
    lead: Lead,
    users: &CidList,
    out: &mut Vec<u8>,
) -> Result<(), NoMemory>
    requires { All (IsUser book.now) users.now }
    ensures { Appends out.old.items out.new.items (names_line lead (map (user_name book.now.constraints) users.now)) result }
{
    let length = out.len();
    let outcome = put_names(book, lead, users, out);
    settled(outcome, length, out)
}

/// Prints that a constraint is left out, and the names of those with which it is a conflict.
pub fn print_leave(
    book: &Book,
    number: u32,
    users: &CidList,
    out: &mut Vec<u8>,
) -> Result<(), NoMemory>
    requires constraint { HasNumber book.now number }
    requires users { All (IsUser book.now) users.now }
    ensures { Appends out.old.items out.new.items (leave_line (number_name book.now.constraints number) (map (user_name book.now.constraints) users.now)) result }
{
    let length = out.len();
    let outcome = put_leave(book, number, users, out);
    settled(outcome, length, out)
}

/// Prints an assignment to all variables.
pub fn print_found(book: &Book, values: &ValueList, out: &mut Vec<u8>) -> Result<(), NoMemory>
    requires { length values.now ≡ length book.now.variables }
    ensures { Appends out.old.items out.new.items (found_line book.now.variables values.now) result }
{
    let length = out.len();
    let outcome = put_assigned_line(book, "found", values, out);
    settled(outcome, length, out)
}

/// Prints an assignment to all variables in which one of them is least.
pub fn print_best(book: &Book, values: &ValueList, out: &mut Vec<u8>) -> Result<(), NoMemory>
    requires { length values.now ≡ length book.now.variables }
    ensures { Appends out.old.items out.new.items (best_line book.now.variables values.now) result }
{
    let length = out.len();
    let outcome = put_assigned_line(book, "best", values, out);
    settled(outcome, length, out)
}

/// Prints that a search was spent after so many turns, with what repair dropped.
pub fn print_spent(turns: u64, dropped: Option<u64>, out: &mut Vec<u8>) -> Result<(), NoMemory>
    ensures { Appends out.old.items out.new.items (spent_line turns dropped) result }
{
    let length = out.len();
    let outcome = put_spent(turns, dropped, out);
    settled(outcome, length, out)
}

/// Prints that a search for a least value was spent after so many turns, with the best assignment on the way.
pub fn print_spent_best(
    book: &Book,
    turns: u64,
    values: &ValueList,
    out: &mut Vec<u8>,
) -> Result<(), NoMemory>
    requires { length values.now ≡ length book.now.variables }
    ensures { Appends out.old.items out.new.items (spent_best_line turns book.now.variables values.now) result }
{
    let length = out.len();
    let outcome = put_spent_best(book, turns, values, out);
    settled(outcome, length, out)
}
