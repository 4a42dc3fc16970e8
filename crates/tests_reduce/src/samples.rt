//! A book with x and y from 1 to 2 and four constraints, for tests. The functions that fill it borrow it: `assert_answers` alone owns a
//! book, since each place that gives one up costs its proof.
ghost use Rattle.std.specs.Prelude.{◌≡◌, ◌≢◌, ◌<◌, ◌++◌, ◌∷◌, [], All, codes, length, map, IfOk, OnOk};
ghost use Rattle.palm_model.specs.Constraint.{IsWellFormed};
ghost use Rattle.palm_read.specs.Name.{IsNameText};

use palm_base::{Cid, CidList, NoMemory, Value, ValueList, Var};
use palm_book::{Book, BookCon};
use palm_model::{Con, Op};
use palm_read::Name;
use std::alloc::Global;
use std::process::Abort;

/// The variables by their places.
pub(crate) const X: u32 = 0;

pub(crate) const Y: u32 = 1;

fn name(alloc: Global, text: &str) -> Result<Name, NoMemory>
    ensures { IfOk result (λ n. n ≡ text.now) }
{
    Name::from_slice(alloc, text.as_bytes())
}

/// What a test asks of a book that has nothing yet.
pub(crate) trait Question {
    /// Fills the book, and asserts that it answers as it should.
    fn assert_answer(&self, rt: &impl Abort, alloc: Global, book: &mut Book) -> Result<(), NoMemory>
        requires { book.old ≡ record { variables = []; constraints = [] } };
}

/// Asserts that a fresh book answers the question as it should.
pub(crate) fn assert_answers<Q: Question>(
    rt: &impl Abort,
    alloc: Global,
    question: &Q,
) -> Result<(), NoMemory> {
    let mut book = Book::new(alloc);
    question.assert_answer(rt, alloc, &mut book)
}

/// The ids of the users' constraints with these numbers.
pub(crate) fn users_of(alloc: Global, numbers: &[u32]) -> Result<CidList, NoMemory> {
    let mut users = CidList::new(alloc);
    for number in numbers {
        users.push(Cid::User(*number))?;
    }
    Ok(users)
}

/// Declares x and y in a fresh book.
fn declare_two(alloc: Global, book: &mut Book) -> Result<(), NoMemory>
    requires { book.old ≡ record { variables = []; constraints = [] } }
    ensures variables { OnOk result (length book.new.variables ≡ 2) }
    ensures constraints { OnOk result (book.new.constraints ≡ []) }
{
    let x = name(alloc, "x")?;
    let values = ValueList::from_slice(alloc, &[Value(1), Value(2)])?;
    book.add_variable(x, values)?;
    let y = name(alloc, "y")?;
    let values = ValueList::from_slice(alloc, &[Value(1), Value(2)])?;
    book.add_variable(y, values)?;
    Ok(())
}

/// The constraint, active under the number and the name.
fn entry(alloc: Global, number: u32, text: &str, con: Con) -> Result<BookCon, NoMemory>
    requires { IsWellFormed 2 con }
    ensures number { IfOk result (λ c. c.number ≡ number) }
    ensures name { IfOk result (λ c. c.name ≡ text.now) }
    ensures formed { IfOk result (λ c. IsWellFormed 2 c.con) }
{
    let name = name(alloc, text)?;
    Ok(BookCon {
        number,
        name,
        active: true,
        con,
    })
}

/// Adds a constraint behind the others.
fn add(book: &mut Book, entry: BookCon) -> Result<(), NoMemory>
    requires text { IsNameText entry.name }
    requires fresh { All (λ name. name ≢ entry.name) (map (λ c. c.name) book.old.constraints) }
    requires rising { All (λ number. number < entry.number) (map (λ c. c.number) book.old.constraints) }
    requires formed { IsWellFormed (length book.old.variables) entry.con }
    requires room { length (map (λ c. c.number) book.old.constraints) < 4 }
    ensures variables { OnOk result (length book.new.variables ≡ length book.old.variables) }
    ensures names { OnOk result (map (λ c. c.name) book.new.constraints ≡ map (λ c. c.name) book.old.constraints ++ entry.name ∷ []) }
    ensures numbers { OnOk result (map (λ c. c.number) book.new.constraints ≡ map (λ c. c.number) book.old.constraints ++ entry.number ∷ []) }
{
    book.add_constraint(entry)?;
    Ok(())
}

/// Declares the variables in a fresh book, and adds the constraint `c : y != 1` with the number 1.
fn add_one(alloc: Global, book: &mut Book) -> Result<(), NoMemory>
    requires { book.old ≡ record { variables = []; constraints = [] } }
    ensures variables { OnOk result (length book.new.variables ≡ 2) }
    ensures names { OnOk result (map (λ c. c.name) book.new.constraints ≡ codes "c" ∷ []) }
    ensures numbers { OnOk result (map (λ c. c.number) book.new.constraints ≡ 1 ∷ []) }
{
    declare_two(alloc, book)?;
    let con = Con::CompareConst {
        left: Var(1),
        op: Op::Ne,
        value: Value(1),
    };
    add(book, entry(alloc, 1, "c", con)?)
}

/// And `a : x != 1` with the number 2.
fn add_two(alloc: Global, book: &mut Book) -> Result<(), NoMemory>
    requires { book.old ≡ record { variables = []; constraints = [] } }
    ensures variables { OnOk result (length book.new.variables ≡ 2) }
    ensures names { OnOk result (map (λ c. c.name) book.new.constraints ≡ codes "c" ∷ codes "a" ∷ []) }
    ensures numbers { OnOk result (map (λ c. c.number) book.new.constraints ≡ 1 ∷ 2 ∷ []) }
{
    add_one(alloc, book)?;
    let con = Con::CompareConst {
        left: Var(0),
        op: Op::Ne,
        value: Value(1),
    };
    add(book, entry(alloc, 2, "a", con)?)
}

/// And `b : x = y` with the number 3.
pub(crate) fn add_three(alloc: Global, book: &mut Book) -> Result<(), NoMemory>
    requires { book.old ≡ record { variables = []; constraints = [] } }
    ensures variables { OnOk result (length book.new.variables ≡ 2) }
    ensures names { OnOk result (map (λ c. c.name) book.new.constraints ≡ codes "c" ∷ codes "a" ∷ codes "b" ∷ []) }
    ensures numbers { OnOk result (map (λ c. c.number) book.new.constraints ≡ 1 ∷ 2 ∷ 3 ∷ []) }
    ensures constraints { OnOk result (0 < length book.new.constraints) }
{
    add_two(alloc, book)?;
    let con = Con::CompareVar {
        left: Var(0),
        op: Op::Eq,
        right: Var(1),
        offset: 0,
    };
    add(book, entry(alloc, 3, "b", con)?)
}

/// And `e : y != 2` with the number 4.
pub(crate) fn add_four(alloc: Global, book: &mut Book) -> Result<(), NoMemory>
    requires { book.old ≡ record { variables = []; constraints = [] } }
{
    add_three(alloc, book)?;
    let con = Con::CompareConst {
        left: Var(1),
        op: Op::Ne,
        value: Value(2),
    };
    add(book, entry(alloc, 4, "e", con)?)
}

/// Declares the variables in a fresh book, and adds `a : x != 1` with the number 1.
fn add_first(alloc: Global, book: &mut Book) -> Result<(), NoMemory>
    requires { book.old ≡ record { variables = []; constraints = [] } }
    ensures variables { OnOk result (length book.new.variables ≡ 2) }
    ensures names { OnOk result (map (λ c. c.name) book.new.constraints ≡ codes "a" ∷ []) }
    ensures numbers { OnOk result (map (λ c. c.number) book.new.constraints ≡ 1 ∷ []) }
{
    declare_two(alloc, book)?;
    let con = Con::CompareConst {
        left: Var(0),
        op: Op::Ne,
        value: Value(1),
    };
    add(book, entry(alloc, 1, "a", con)?)
}

/// And `b : x = y` with the number 2.
fn add_second(alloc: Global, book: &mut Book) -> Result<(), NoMemory>
    requires { book.old ≡ record { variables = []; constraints = [] } }
    ensures variables { OnOk result (length book.new.variables ≡ 2) }
    ensures names { OnOk result (map (λ c. c.name) book.new.constraints ≡ codes "a" ∷ codes "b" ∷ []) }
    ensures numbers { OnOk result (map (λ c. c.number) book.new.constraints ≡ 1 ∷ 2 ∷ []) }
{
    add_first(alloc, book)?;
    let con = Con::CompareVar {
        left: Var(0),
        op: Op::Eq,
        right: Var(1),
        offset: 0,
    };
    add(book, entry(alloc, 2, "b", con)?)
}

/// And `e : y != 2` with the number 3.
pub(crate) fn add_conflict(alloc: Global, book: &mut Book) -> Result<(), NoMemory>
    requires { book.old ≡ record { variables = []; constraints = [] } }
    ensures { OnOk result (2 < length book.new.constraints) }
{
    add_second(alloc, book)?;
    let con = Con::CompareConst {
        left: Var(1),
        op: Op::Ne,
        value: Value(2),
    };
    add(book, entry(alloc, 3, "e", con)?)
}
