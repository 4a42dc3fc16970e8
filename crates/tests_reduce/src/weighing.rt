//! Worked rows of what is preferred.
ghost use Rattle.std.specs.Prelude.{◌≡◌, ◌≢◌, ◌∷◌, [], true, All, AllPairs, IfOk};
ghost use Rattle.palm_book.specs.Book.{HasNumber};

use crate::lender::lender_of;
use crate::samples::{Question, add_conflict, assert_answers, users_of};
use palm_base::NoMemory;
use palm_book::Book;
use palm_prefer::{LeftList, Preferred, Weight, WeightList, preferred};
use std::alloc::Global;
use std::process::Abort;
use std::test::Fail;

/// Asserts that the constraint with this number is left out for this conflict, or none is.
fn assert_out(
    rt: &impl Abort,
    alloc: Global,
    left: &LeftList,
    out: Option<(u32, &[u32])>,
) -> Result<(), NoMemory> {
    let Some((number, conflict)) = out else {
        assert_eq!(rt; left.len(), 0, "how many are left out, {left:?}");
        return Ok(());
    };
    assert_eq!(rt; left.len(), 1, "how many are left out, {left:?}");
    let first = &left.as_slice()[0];
    assert_eq!(rt; first.number, number, "which is left out");
    assert_eq!(rt;
        first.conflict,
        users_of(alloc, conflict)?,
        "the conflict of {number}"
    );
    Ok(())
}

/// The weights of the constraints with the numbers 1, 2 and 3.
fn three(alloc: Global, a: u32, b: u32, e: u32) -> Result<WeightList, NoMemory>
    ensures { IfOk result (λ weights. AllPairs (λ v w. v.number ≢ w.number) weights) }
{
    WeightList::from_slice(
        alloc,
        &[
            Weight {
                number: 1,
                weight: a,
            },
            Weight {
                number: 2,
                weight: b,
            },
            Weight {
                number: 3,
                weight: e,
            },
        ],
    )
}

/// The weight of the constraint with the number.
fn one(alloc: Global, number: u32, weight: u32) -> Result<WeightList, NoMemory>
    ensures { IfOk result (λ weights. AllPairs (λ v w. v.number ≢ w.number) weights) }
{
    WeightList::from_slice(alloc, &[Weight { number, weight }])
}

/// Whether a constraint of the book has the number.
fn has_number(book: &Book, number: u32) -> bool
    ensures { result ≡ true → HasNumber book.now number }
{
    book.place_of(number).is_some()
}

/// Whether the weights are of constraints of the book.
fn are_present(book: &Book, weights: &WeightList) -> bool
    ensures { result ≡ true → All (λ w. HasNumber book.now w.number) weights.now }
{
    for rank in 0..weights.len() {
        if !has_number(book, weights.as_slice()[rank].number) {
            return false;
        }
    }
    true
}

/// Asserts that these are kept, and all others with a weight are left out for this conflict, where there is one.
fn assert_kept(
    rt: &impl Abort,
    alloc: Global,
    book: &Book,
    weights: &WeightList,
    keep: &[u32],
    out: Option<(u32, &[u32])>,
) -> Result<(), NoMemory>
    requires { AllPairs (λ v w. v.number ≢ w.number) weights.now }
{
    assert!(rt;
        are_present(book, weights),
        "one of {weights:?} is of no constraint"
    );
    let lender = lender_of(alloc, book)?;
    match preferred(alloc, book, weights, &lender)? {
        Preferred::Hard(conflict) => panic!(rt; "with {weights:?}, {conflict:?} is a conflict"),
        Preferred::Kept { keep: kept, left } => {
            assert_eq!(rt;
                kept,
                users_of(alloc, keep)?,
                "what is kept with {weights:?}"
            );
            assert_out(rt, alloc, &left, out)
        }
    }
}

/// Asserts that the constraints without a weight are a conflict, and this is their minimal one.
fn assert_hard(
    rt: &impl Abort,
    alloc: Global,
    book: &Book,
    weights: &WeightList,
    conflict: &[u32],
) -> Result<(), NoMemory>
    requires { AllPairs (λ v w. v.number ≢ w.number) weights.now }
{
    assert!(rt;
        are_present(book, weights),
        "one of {weights:?} is of no constraint"
    );
    let lender = lender_of(alloc, book)?;
    match preferred(alloc, book, weights, &lender)? {
        Preferred::Hard(got) => {
            assert_eq!(rt;
                got,
                users_of(alloc, conflict)?,
                "the conflict with {weights:?}"
            );
            Ok(())
        }
        Preferred::Kept { keep, .. } => panic!(rt; "with {weights:?}, {keep:?} are kept"),
    }
}

/// The lightest of three is left out.
struct Lightest;

impl Question for Lightest {
    fn assert_answer(
        &self,
        rt: &impl Abort,
        alloc: Global,
        book: &mut Book,
    ) -> Result<(), NoMemory> {
        add_conflict(alloc, book)?;
        let weights = three(alloc, 5, 3, 4)?;
        assert_kept(rt, alloc, book, &weights, &[1, 3], Some((2, &[1, 2, 3])))
    }
}

#[test]
fn the_lightest_is_left_out(rt: HostRuntime) -> Result<(), Fail> {
    assert_answers(&rt, rt.alloc(), &Lightest)?;
    Ok(())
}

/// Where weights are equal, the highest number is left out.
struct Tied;

impl Question for Tied {
    fn assert_answer(
        &self,
        rt: &impl Abort,
        alloc: Global,
        book: &mut Book,
    ) -> Result<(), NoMemory> {
        add_conflict(alloc, book)?;
        let weights = three(alloc, 4, 4, 4)?;
        assert_kept(rt, alloc, book, &weights, &[1, 2], Some((3, &[1, 2, 3])))
    }
}

#[test]
fn equal_weights_go_by_number(rt: HostRuntime) -> Result<(), Fail> {
    assert_answers(&rt, rt.alloc(), &Tied)?;
    Ok(())
}

/// Without weights the conflict is told, and one weight leaves the others no conflict.
struct Hard;

impl Question for Hard {
    fn assert_answer(
        &self,
        rt: &impl Abort,
        alloc: Global,
        book: &mut Book,
    ) -> Result<(), NoMemory> {
        add_conflict(alloc, book)?;
        let none = WeightList::new(alloc);
        let single = one(alloc, 1, 7)?;
        assert_hard(rt, alloc, book, &none, &[1, 2, 3])?;
        assert_kept(rt, alloc, book, &single, &[2, 3], Some((1, &[1, 2, 3])))
    }
}

#[test]
fn hard_constraints_are_in_conflict(rt: HostRuntime) -> Result<(), Fail> {
    assert_answers(&rt, rt.alloc(), &Hard)?;
    Ok(())
}

/// A relaxed constraint is not walked, and the others are all kept.
struct Relaxed;

impl Question for Relaxed {
    fn assert_answer(
        &self,
        rt: &impl Abort,
        alloc: Global,
        book: &mut Book,
    ) -> Result<(), NoMemory> {
        add_conflict(alloc, book)?;
        book.set_active(2, false);
        let weights = three(alloc, 5, 3, 4)?;
        assert_kept(rt, alloc, book, &weights, &[1, 2], None)
    }
}

#[test]
fn relaxed_constraints_are_not_walked(rt: HostRuntime) -> Result<(), Fail> {
    assert_answers(&rt, rt.alloc(), &Relaxed)?;
    Ok(())
}
