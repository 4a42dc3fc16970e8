//! A small book, for tests. The functions that fill it borrow it: `ask` alone owns a book, since each place that gives one
//! up costs its proof.
ghost use Rattle.std.specs.Prelude.{◌≡◌, ◌∷◌, [], codes, length, pos, IfOk, OnOk};
ghost use Rattle.palm_book.specs.Book.{HasNumber};
ghost use Rattle.palm_model.specs.Constraint.{IsWellFormed};

use palm_base::{NoMemory, Value, ValueList, Var};
use palm_lang::{Book, BookCon, Name};
use palm_model::{Con, Op, Term, TermList};
use std::alloc::Global;

pub(crate) fn name(alloc: Global, text: &str) -> Result<Name, NoMemory>
    ensures { IfOk result (λ n. n ≡ text.now) }
{
    Name::from_slice(alloc, text.as_bytes())
}

/// Declares x and y with the values 1 and 2 in a fresh book.
pub(crate) fn declare_two(alloc: Global, book: &mut Book) -> Result<(), NoMemory>
    requires { book.old ≡ record { variables = []; constraints = [] } }
    ensures variables { OnOk result (book.new.variables ≡ record { name = codes "x"; values = pos 1 ∷ pos 2 ∷ [] } ∷ record { name = codes "y"; values = pos 1 ∷ pos 2 ∷ [] } ∷ []) }
    ensures constraints { OnOk result (book.new.constraints ≡ []) }
{
    let x = name(alloc, "x")?;
    let values = ValueList::from_slice(alloc, &[Value(1), Value(2)])?;
    book.add_variable(x, values)?;
    let y = name(alloc, "y")?;
    let values = ValueList::from_slice(alloc, &[Value(1), Value(2)])?;
    book.add_variable(y, values)?;
    Ok(())
}

/// `s : sum -2*x + y <= 3`
fn linear(alloc: Global) -> Result<BookCon, NoMemory>
    ensures number { IfOk result (λ c. c.number ≡ 1) }
    ensures name { IfOk result (λ c. c.name ≡ codes "s") }
    ensures formed { IfOk result (λ c. IsWellFormed 2 c.con) }
{
    let first = Term {
        factor: -2,
        var: Var(0),
    };
    let second = Term {
        factor: 1,
        var: Var(1),
    };
    let name = name(alloc, "s")?;
    let terms = TermList::from_slice(alloc, &[first, second])?;
    Ok(BookCon {
        number: 1,
        name,
        active: true,
        con: Con::Linear {
            terms,
            op: Op::Le,
            bound: 3,
        },
    })
}

/// `m : x < y`, relaxed
fn compared(alloc: Global) -> Result<BookCon, NoMemory>
    ensures number { IfOk result (λ c. c.number ≡ 2) }
    ensures name { IfOk result (λ c. c.name ≡ codes "m") }
    ensures formed { IfOk result (λ c. IsWellFormed 2 c.con) }
{
    let name = name(alloc, "m")?;
    Ok(BookCon {
        number: 2,
        name,
        active: false,
        con: Con::CompareVar {
            left: Var(0),
            op: Op::Lt,
            right: Var(1),
            offset: 0,
        },
    })
}

/// Declares the two variables in a fresh book, and adds the two constraints over them.
pub(crate) fn add_two(alloc: Global, book: &mut Book) -> Result<(), NoMemory>
    requires { book.old ≡ record { variables = []; constraints = [] } }
    ensures variables { OnOk result (length book.new.variables ≡ 2) }
    ensures constraints { OnOk result (length book.new.constraints ≡ 2) }
    ensures first { OnOk result (HasNumber book.new 1) }
    ensures second { OnOk result (HasNumber book.new 2) }
{
    declare_two(alloc, book)?;
    book.add_constraint(linear(alloc)?)?;
    book.add_constraint(compared(alloc)?)?;
    Ok(())
}

/// What a test asks of a book that has nothing yet.
pub(crate) trait Question {
    /// What the test compares.
    type Answer;

    /// Fills the book, and gives what is to be compared.
    fn answer(&self, alloc: Global, book: &mut Book) -> Result<Self::Answer, NoMemory>
        requires { book.old ≡ record { variables = []; constraints = [] } };
}

/// The answer of a fresh book.
pub(crate) fn ask<Q: Question>(alloc: Global, question: &Q) -> Result<Q::Answer, NoMemory> {
    let mut book = Book::new(alloc);
    question.answer(alloc, &mut book)
}
