//! Constraints of every kind: what they take out and why, and the greatest closed domains as the slow way finds them.
ghost use Rattle.std.specs.Prelude.{◌≤◌, length};

use crate::calls::{Span, pair};
use crate::cases::{Step, Users, run_case};
use crate::choice::Choice;
use crate::removals::{Because, removed};
use crate::samples::Sample;
use palm_base::{Cid, NoMemory};
use std::alloc::Global;
use std::process::Abort;
use std::test::Fail;

/// The variables by their places.
const X: u32 = 0;

const Y: u32 = 1;

const Z: u32 = 2;

const N: u32 = 3;

/// That x lost 2 and z lost 1.
fn x_and_z() -> Because {
    Because::Two(pair(X, 2), pair(Z, 1))
}

// With x, y and z from 1 to 2 and n from 0 to 3.
#[test]
fn counts_tell_why(rt: HostRuntime) -> Result<(), Fail> {
    let log = [
        removed(pair(X, 2), 1, Because::Nothing),
        removed(pair(Z, 1), 2, Because::Nothing),
        removed(pair(N, 0), 3, x_and_z()),
        removed(pair(N, 3), 3, x_and_z()),
        removed(pair(N, 1), 4, Because::Nothing),
        removed(
            pair(Y, 2),
            3,
            Because::Three(pair(X, 2), pair(Z, 1), pair(N, 1)),
        ),
    ];
    let steps = [
        Step::Declare(3, Span::OneToTwo),
        Step::Declare(1, Span::ZeroToThree),
        Step::Post(1, Sample::Only(X, 1)),
        Step::Settle,
        Step::Post(2, Sample::Other(Z, 1)),
        Step::Settle,
        Step::Post(3, Sample::Count),
        Step::Settle,
        Step::Post(4, Sample::Only(N, 2)),
        Step::Settle,
        Step::Log(&log),
    ];
    run_case(&rt, rt.alloc(), &Choice::Least, &steps)?;
    Ok(())
}

#[test]
fn tables_tell_why(rt: HostRuntime) -> Result<(), Fail> {
    let log = [
        removed(pair(X, 3), 1, Because::Nothing),
        removed(pair(Y, 1), 1, Because::Nothing),
        removed(pair(X, 1), 2, Because::Nothing),
        removed(pair(Y, 2), 1, Because::One(pair(X, 1))),
    ];
    let steps = [
        Step::Declare(2, Span::OneToThree),
        Step::Post(1, Sample::Table),
        Step::Settle,
        Step::Post(2, Sample::Other(X, 1)),
        Step::Settle,
        Step::Log(&log),
    ];
    run_case(&rt, rt.alloc(), &Choice::Least, &steps)?;
    Ok(())
}

// `y != 1` comes and goes, and comes again after `x != 1` and `x = y`, when it takes nothing out.
#[test]
fn a_conflict_names_what_was_there_first(rt: HostRuntime) -> Result<(), Fail> {
    let steps = [
        Step::Declare(2, Span::OneToTwo),
        Step::Post(1, Sample::Other(Y, 1)),
        Step::Settle,
        Step::Withdraw(Cid::User(1)),
        Step::Settle,
        Step::Post(2, Sample::Other(X, 1)),
        Step::Settle,
        Step::Post(3, Sample::Same(X, Y)),
        Step::Settle,
        Step::Post(1, Sample::Other(Y, 1)),
        Step::Settle,
        Step::Explained(pair(Y, 1), Users::Two(2, 3)),
        Step::Post(4, Sample::Other(Y, 2)),
        Step::Empty(Y),
        Step::Conflict(Users::Three(2, 3, 4)),
    ];
    run_case(&rt, rt.alloc(), &Choice::Least, &steps)?;
    Ok(())
}

/// Asserts that the engine settles the constraints to the domains of the slow way, and so it does without the first.
fn assert_agrees(
    rt: &impl Abort,
    alloc: Global,
    samples: &[Sample],
    choice: &Choice,
) -> Result<(), NoMemory>
    requires { 1 ≤ length samples.now }
{
    let others = &samples[1..];
    let steps = [
        Step::Declare(4, Span::OneToThree),
        Step::PostAll(samples),
        Step::Settle,
        Step::Slow(samples),
        Step::Withdraw(Cid::User(1)),
        Step::Settle,
        Step::Slow(others),
    ];
    run_case(rt, alloc, choice, &steps)
}

/// The same, without an order and with each.
fn assert_agrees_in_every_order(
    rt: &impl Abort,
    alloc: Global,
    samples: &[Sample],
) -> Result<(), NoMemory>
    requires { 1 ≤ length samples.now }
{
    assert_agrees(rt, alloc, samples, &Choice::Least)?;
    assert_agrees(rt, alloc, samples, &Choice::Last)?;
    assert_agrees(rt, alloc, samples, &Choice::Rotate)
}

#[test]
fn the_engine_and_the_slow_way_agree(rt: HostRuntime) -> Result<(), Fail> {
    let alloc = rt.alloc();
    let first = [Sample::Less(X, Y), Sample::Sum, Sample::Count];
    assert_agrees_in_every_order(&rt, alloc, &first)?;
    let second = [Sample::Other(X, 1), Sample::Table, Sample::Element];
    assert_agrees_in_every_order(&rt, alloc, &second)?;
    let third = [
        Sample::Only(X, 2),
        Sample::Differ,
        Sample::Sum,
        Sample::Count,
    ];
    assert_agrees_in_every_order(&rt, alloc, &third)?;
    let fourth = [
        Sample::Same(Z, N),
        Sample::Less(X, Z),
        Sample::Element,
        Sample::Differ,
    ];
    assert_agrees_in_every_order(&rt, alloc, &fourth)?;
    let fifth = [Sample::Within, Sample::Table, Sample::Less(Z, Y)];
    assert_agrees_in_every_order(&rt, alloc, &fifth)?;
    Ok(())
}
