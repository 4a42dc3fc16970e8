//! Worked rows of minimal sets.
ghost use Rattle.std.specs.Prelude.{◌≡◌, true};
ghost use Rattle.palm_book.specs.Book.{initial_of};
ghost use Rattle.palm_model.specs.Domains.{Has};

use crate::lender::lender_of;
use crate::samples::{Question, X, Y, add_four, add_three, assert_answers, users_of};
use palm_base::{CidList, NoMemory, Pair, Value, Var};
use palm_book::Book;
use palm_reduce::{minimal_conflict, minimal_why};
use std::alloc::Global;
use std::process::Abort;
use std::test::Fail;

/// Whether the value is one that the variable was declared with.
fn is_declared(book: &Book, pair: &Pair) -> bool
    ensures { result ≡ true → Has (initial_of book.now) pair.now.var pair.now.value }
{
    let Pair { var, value } = *pair;
    if var.0 >= book.variables() {
        return false;
    }
    book.initial(var).as_slice().contains(&value)
}

/// The minimal explanation of a declared pair where there is no conflict, and none elsewhere.
fn why(alloc: Global, book: &Book, var: u32, value: i32) -> Result<Option<CidList>, NoMemory> {
    let pair = Pair {
        var: Var(var),
        value: Value(value),
    };
    if !is_declared(book, &pair) {
        return Ok(None);
    }
    let lender = lender_of(alloc, book)?;
    match minimal_conflict(alloc, book, &lender)? {
        Some(_) => Ok(None),
        None => minimal_why(
            alloc,
            book,
            Pair {
                var: Var(var),
                value: Value(value),
            },
            &lender,
        ),
    }
}

/// The ids of the users' constraints with these numbers, where there are some.
fn some_users(alloc: Global, numbers: Option<&[u32]>) -> Result<Option<CidList>, NoMemory> {
    Ok(match numbers {
        Some(numbers) => Some(users_of(alloc, numbers)?),
        None => None,
    })
}

/// Asserts that the minimal explanation of the pair is of these users' constraints.
fn assert_why(
    rt: &impl Abort,
    alloc: Global,
    book: &Book,
    (var, value): (u32, i32),
    numbers: Option<&[u32]>,
) -> Result<(), NoMemory> {
    let got = why(alloc, book, var, value)?;
    assert_eq!(rt;
        got,
        some_users(alloc, numbers)?,
        "variable {var}, value {value}"
    );
    Ok(())
}

/// Asserts that the minimal conflict is of these users' constraints.
fn assert_conflict(
    rt: &impl Abort,
    alloc: Global,
    book: &Book,
    numbers: Option<&[u32]>,
) -> Result<(), NoMemory> {
    let lender = lender_of(alloc, book)?;
    let got = minimal_conflict(alloc, book, &lender)?;
    assert_eq!(rt; got, some_users(alloc, numbers)?, "the minimal conflict");
    Ok(())
}

/// Of three constraints, which are no conflict, the first alone takes a value of y out.
struct Lowest;

impl Question for Lowest {
    fn assert_answer(
        &self,
        rt: &impl Abort,
        alloc: Global,
        book: &mut Book,
    ) -> Result<(), NoMemory> {
        add_three(alloc, book)?;
        assert_conflict(rt, alloc, book, None)?;
        assert_why(rt, alloc, book, (Y, 1), Some(&[1]))?;
        assert_why(rt, alloc, book, (Y, 2), None)
    }
}

#[test]
fn the_lowest_constraint_explains_alone(rt: HostRuntime) -> Result<(), Fail> {
    assert_answers(&rt, rt.alloc(), &Lowest)?;
    Ok(())
}

/// Where the first is relaxed, the second and the third do.
struct Relaxed;

impl Question for Relaxed {
    fn assert_answer(
        &self,
        rt: &impl Abort,
        alloc: Global,
        book: &mut Book,
    ) -> Result<(), NoMemory> {
        add_three(alloc, book)?;
        book.set_active(0, false);
        assert_why(rt, alloc, book, (Y, 1), Some(&[2, 3]))?;
        assert_why(rt, alloc, book, (X, 1), Some(&[2]))
    }
}

#[test]
fn a_relaxed_constraint_explains_nothing(rt: HostRuntime) -> Result<(), Fail> {
    assert_answers(&rt, rt.alloc(), &Relaxed)?;
    Ok(())
}

/// Of four constraints, the first and the fourth are the minimal conflict.
struct Highest;

impl Question for Highest {
    fn assert_answer(
        &self,
        rt: &impl Abort,
        alloc: Global,
        book: &mut Book,
    ) -> Result<(), NoMemory> {
        add_four(alloc, book)?;
        assert_conflict(rt, alloc, book, Some(&[1, 4]))
    }
}

#[test]
fn the_walk_is_from_the_highest_number_down(rt: HostRuntime) -> Result<(), Fail> {
    assert_answers(&rt, rt.alloc(), &Highest)?;
    Ok(())
}
