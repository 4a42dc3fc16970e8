//! Objects that choose what is revised next: the domains do not depend on them, and the log does.
use crate::calls::{Span, pair};
use crate::cases::{Step, run_case};
use crate::choice::Choice;
use crate::removals::{Because, Removal, removed};
use crate::samples::Sample;
use palm_base::{Cid, NoMemory};
use std::alloc::Global;
use std::process::Abort;
use std::test::Fail;

/// The variables by their places.
const X: u32 = 0;

const Y: u32 = 1;

const Z: u32 = 2;

/// Asserts that `x < y` and `y < z` leave one value each, and without the first of them y and z have two.
fn assert_settled(rt: &impl Abort, alloc: Global, choice: &Choice) -> Result<(), NoMemory> {
    let steps = [
        Step::Declare(3, Span::OneToThree),
        Step::Post(1, Sample::Less(X, Y)),
        Step::Post(2, Sample::Less(Y, Z)),
        Step::Settle,
        Step::Values(X, 1, 1),
        Step::Values(Y, 2, 2),
        Step::Values(Z, 3, 3),
        Step::Withdraw(Cid::User(1)),
        Step::Settle,
        Step::Values(X, 1, 3),
        Step::Values(Y, 1, 2),
        Step::Values(Z, 2, 3),
    ];
    run_case(rt, alloc, choice, &steps)
}

#[test]
fn domains_do_not_depend_on_the_order(rt: HostRuntime) -> Result<(), Fail> {
    assert_settled(&rt, rt.alloc(), &Choice::Least)?;
    assert_settled(&rt, rt.alloc(), &Choice::Last)?;
    assert_settled(&rt, rt.alloc(), &Choice::Rotate)?;
    Ok(())
}

/// Asserts that `x != 2`, `x = y` and `y != 2`, posted together, are settled by so many revisions and leave this log.
fn assert_logged(
    rt: &impl Abort,
    alloc: Global,
    choice: &Choice,
    revisions: u64,
    log: &[Removal],
) -> Result<(), NoMemory> {
    let steps = [
        Step::Declare(2, Span::OneToThree),
        Step::Post(1, Sample::Other(X, 2)),
        Step::Post(2, Sample::Same(X, Y)),
        Step::Post(3, Sample::Other(Y, 2)),
        Step::Settle,
        Step::Revisions(revisions),
        Step::Log(log),
    ];
    run_case(rt, alloc, choice, &steps)
}

// Without an order the least name is revised until it rests: 1 takes x 2 out, 1, 2 takes y 2 out, 2, 3.
// With the last first: 3 takes y 2 out, 3, 2 takes x 2 out, 2, 1.
#[test]
fn the_log_depends_on_the_order(rt: HostRuntime) -> Result<(), Fail> {
    let from_x = [
        removed(pair(X, 2), 1, Because::Nothing),
        removed(pair(Y, 2), 2, Because::One(pair(X, 2))),
    ];
    assert_logged(&rt, rt.alloc(), &Choice::Least, 5, &from_x)?;
    let from_y = [
        removed(pair(Y, 2), 3, Because::Nothing),
        removed(pair(X, 2), 2, Because::One(pair(Y, 2))),
    ];
    assert_logged(&rt, rt.alloc(), &Choice::Last, 5, &from_y)?;
    Ok(())
}

// Worked out by hand from the definitions of revisions and settlings: of 1, 2, 3 the answer 1 chooses 2, which takes
// nothing out and rests; from then on the least is chosen: 1 takes x 2 out and wakes 2, 1 rests, 2 takes y 2 out for
// x 2, 2 rests, 3 rests.
#[test]
fn an_order_is_told_of_each_revision(rt: HostRuntime) -> Result<(), Fail> {
    let log = [
        removed(pair(X, 2), 1, Because::Nothing),
        removed(pair(Y, 2), 2, Because::One(pair(X, 2))),
    ];
    assert_logged(&rt, rt.alloc(), &Choice::SecondOnce, 6, &log)?;
    Ok(())
}

// Worked out by hand from the definitions of revisions and settlings: 1 takes x 1 and x 3 out, so that the answer 2 chooses 3,
// which takes one value out; the answer 1 then chooses 2, which takes one value out and rests, and the others rest.
#[test]
fn an_order_is_told_how_many_values_went(rt: HostRuntime) -> Result<(), Fail> {
    let log = [
        removed(pair(X, 1), 1, Because::Nothing),
        removed(pair(X, 3), 1, Because::Nothing),
        removed(pair(Z, 1), 3, Because::Nothing),
        removed(pair(Y, 1), 2, Because::Nothing),
    ];
    let steps = [
        Step::Declare(3, Span::OneToThree),
        Step::Post(1, Sample::Only(X, 2)),
        Step::Post(2, Sample::Other(Y, 1)),
        Step::Post(3, Sample::Other(Z, 1)),
        Step::Settle,
        Step::Revisions(6),
        Step::Log(&log),
    ];
    run_case(&rt, rt.alloc(), &Choice::LastNumber, &steps)?;
    Ok(())
}

// Worked out by hand: turn by turn 1, 2, 3, 5, 1, 5, 2, 4 and 2 run, and then nothing is taken out any more. An order that is
// told each revision twice takes y 2 out by 3.
#[test]
fn an_order_is_told_of_each_revision_once(rt: HostRuntime) -> Result<(), Fail> {
    let log = [
        removed(pair(X, 2), 1, Because::Nothing),
        removed(pair(Y, 2), 2, Because::One(pair(X, 2))),
        removed(pair(Z, 1), 5, Because::Nothing),
        removed(pair(Z, 2), 4, Because::One(pair(Y, 2))),
        removed(pair(Y, 1), 4, Because::One(pair(Z, 1))),
        removed(pair(X, 1), 2, Because::One(pair(Y, 1))),
    ];
    let steps = [
        Step::Declare(3, Span::OneToThree),
        Step::Post(1, Sample::Other(X, 2)),
        Step::Post(2, Sample::Same(X, Y)),
        Step::Post(3, Sample::Other(Y, 2)),
        Step::Post(4, Sample::Same(Z, Y)),
        Step::Post(5, Sample::Other(Z, 1)),
        Step::Settle,
        Step::Log(&log),
    ];
    run_case(&rt, rt.alloc(), &Choice::Rotate, &steps)?;
    Ok(())
}
