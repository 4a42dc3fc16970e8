//! Writing lines to a sink, one at a time in the same memory, so that no whole text is held.
ghost use Rattle.std.specs.Prelude.{◌≡◌, ◌<◌, All, flat_map, length, map};
ghost use Rattle.palm_book.specs.Book.{HasNumber, IsUser, name_of, number_name, user_name, values_at};
ghost use Rattle.palm_lang.specs.Reply.{best_line, domain_line, entry_at, fixed_text, found_line, leave_line, names_line, ran_text, refusal_text, removal_line, spent_best_line, spent_line, var_line};
ghost use Rattle.palm_lang.specs.Writer.{Wrote};
ghost use Rattle.palm_lang.specs.Writing.{Writes};

use crate::print::{
    print_best, print_domain, print_entry, print_fixed, print_found, print_leave, print_names,
    print_ran, print_refusal, print_removal, print_spent, print_spent_best, print_var,
};
use crate::reply::{Fixed, Lead, Refusal};
use crate::stop::WriteStop;
use palm_base::{CidList, Failed, Pair, Sink, Value, ValueList, Var, write_all};
use palm_book::Book;

/// Writes a text that was made.
pub fn write_text<K: Sink>(out: &mut K, text: &[u8]) -> Result<(), WriteStop>
    ensures { Writes (K.state out.old) (K.state out.new) text.now result }
{
    match write_all(out, text) {
        Ok(()) => Ok(()),
        Err(Failed) => Err(WriteStop::WriteFault),
    }
}

/// Writes a line: empties the writer's buffer, prints the line into it, and writes what was printed. The printer takes the
/// buffer behind its other arguments.
#[macro_export]
macro_rules! write_line {
    ($writer:expr, $print:ident($($part:expr),*)) => {{
        $writer.buffer.clear();
        $print($($part,)* $writer.buffer)?;
        $writer.line()
    }};
}

/// A sink, and the memory for one line after another. Each method writes its text, or a front of it until a stop.
#[derive(Drop)]
pub struct Writer<'a, K: Sink> {
    /// The sink.
    pub out: &'a mut K,
    /// The line that is printed.
    pub buffer: &'a mut Vec<u8>,
}

impl<'a, K: Sink> Writer<'a, K> {
    /// A writer to this sink.
    pub fn new(out: &'a mut K, buffer: &'a mut Vec<u8>) -> Writer<'a, K>
        ensures same { result.out.ghost_name ≡ out.entry.ghost_name }
        ensures sink { result.out.now ≡ out.old }
    {
        Writer { out, buffer }
    }

    /// Writes a text that was made, such as a header.
    pub fn text(&mut self, text: &[u8]) -> Result<(), WriteStop>
        ensures { Wrote K.state self.old self.new text.now result }
    {
        write_text(self.out, text)
    }

    /// Writes the line that was printed.
    pub fn line(&mut self) -> Result<(), WriteStop>
        ensures { Wrote K.state self.old self.new self.old.buffer.now.items result }
    {
        write_text(self.out, self.buffer)
    }

    /// Writes a reply of one word, such as `end`.
    pub fn word(&mut self, word: Fixed) -> Result<(), WriteStop>
        ensures { Wrote K.state self.old self.new (fixed_text word) result }
    {
        write_line!(self, print_fixed(word))
    }

    /// Writes a refusal.
    pub fn refusal(&mut self, refusal: Refusal) -> Result<(), WriteStop>
        ensures { Wrote K.state self.old self.new (refusal_text refusal) result }
    {
        write_line!(self, print_refusal(refusal))
    }

    /// Writes how many revisions ran.
    pub fn ran(&mut self, revisions: u64) -> Result<(), WriteStop>
        ensures { Wrote K.state self.old self.new (ran_text revisions) result }
    {
        write_line!(self, print_ran(revisions))
    }

    /// Writes a variable of the book as `list` shows it.
    pub fn variable(&mut self, book: &Book, var: Var) -> Result<(), WriteStop>
        requires declared { var < length book.now.variables }
        ensures { Wrote K.state self.old self.new (var_line (name_of book.now.variables var) (values_at book.now.variables var)) result }
    {
        // What holds of every book is known once its variables are counted.
        let _ = book.variables();
        let name = book.variable_name(var);
        let values = book.initial(var).as_slice();
        write_line!(self, print_var(name, values))
    }

    /// Writes the variables of the book as `list` shows them.
    pub fn variables(&mut self, book: &Book) -> Result<(), WriteStop>
        ensures { Wrote K.state self.old self.new (flat_map (λ e. var_line e.name e.values) book.now.variables) result }
    {
        for index in 0..book.variables() {
            self.variable(book, Var(index))?;
        }
        Ok(())
    }

    /// Writes the constraint at a place as `list` shows it.
    pub fn entry(&mut self, book: &Book, place: usize) -> Result<(), WriteStop>
        requires { place < length book.now.constraints }
        ensures { Wrote K.state self.old self.new (entry_at book.now place) result }
    {
        write_line!(self, print_entry(book, place))
    }

    /// Writes a variable's values.
    pub fn domain(&mut self, book: &Book, var: Var, values: &[Value]) -> Result<(), WriteStop>
        requires { var < length book.now.variables }
        ensures { Wrote K.state self.old self.new (domain_line (name_of book.now.variables var) values.now) result }
    {
        write_line!(self, print_domain(book.variable_name(var), values))
    }

    /// Writes a removal by the constraint with a number, and its reasons.
    pub fn removal(
        &mut self,
        book: &Book,
        pair: Pair,
        by: u32,
        reasons: &[Pair],
    ) -> Result<(), WriteStop>
        requires variable { pair.var < length book.now.variables }
        requires constraint { HasNumber book.now by }
        requires reasons { All (λ p. p.var < length book.now.variables) reasons.now }
        ensures { Wrote K.state self.old self.new (removal_line book.now.variables (number_name book.now.constraints by) pair reasons.now) result }
    {
        write_line!(self, print_removal(book, pair, by, reasons))
    }

    /// Writes the names of users' constraints behind what leads them.
    pub fn names(&mut self, book: &Book, lead: Lead, users: &CidList) -> Result<(), WriteStop>
        requires { All (IsUser book.now) users.now }
        ensures { Wrote K.state self.old self.new (names_line lead (map (user_name book.now.constraints) users.now)) result }
    {
        write_line!(self, print_names(book, lead, users))
    }

    /// Writes that a constraint is left out, and the names of those with which it is a conflict.
    pub fn leave(&mut self, book: &Book, number: u32, users: &CidList) -> Result<(), WriteStop>
        requires constraint { HasNumber book.now number }
        requires users { All (IsUser book.now) users.now }
        ensures { Wrote K.state self.old self.new (leave_line (number_name book.now.constraints number) (map (user_name book.now.constraints) users.now)) result }
    {
        write_line!(self, print_leave(book, number, users))
    }

    /// Writes a value for each variable.
    pub fn found(&mut self, book: &Book, values: &ValueList) -> Result<(), WriteStop>
        requires { length values.now ≡ length book.now.variables }
        ensures { Wrote K.state self.old self.new (found_line book.now.variables values.now) result }
    {
        write_line!(self, print_found(book, values))
    }

    /// Writes a value for each variable, which is the best.
    pub fn best(&mut self, book: &Book, values: &ValueList) -> Result<(), WriteStop>
        requires { length values.now ≡ length book.now.variables }
        ensures { Wrote K.state self.old self.new (best_line book.now.variables values.now) result }
    {
        write_line!(self, print_best(book, values))
    }

    /// Writes how many turns were taken, and how many nogoods dropped, where that is told.
    pub fn spent(&mut self, turns: u64, dropped: Option<u64>) -> Result<(), WriteStop>
        ensures { Wrote K.state self.old self.new (spent_line turns dropped) result }
    {
        write_line!(self, print_spent(turns, dropped))
    }

    /// Writes how many turns were taken, and the best values so far.
    pub fn spent_best(
        &mut self,
        book: &Book,
        turns: u64,
        values: &ValueList,
    ) -> Result<(), WriteStop>
        requires { length values.now ≡ length book.now.variables }
        ensures { Wrote K.state self.old self.new (spent_best_line turns book.now.variables values.now) result }
    {
        write_line!(self, print_spent_best(book, turns, values))
    }
}
