//! What a withdrawal gives back, and what is explained otherwise after it.
use crate::calls::{Span, pair};
use crate::cases::{Step, Users, run_case};
use crate::choice::Choice;
use crate::removals::{Because, removed};
use crate::samples::Sample;
use palm_base::Cid;
use std::test::Fail;

/// The variables by their places.
const X: u32 = 0;

const Y: u32 = 1;

const Z: u32 = 2;

// `x < y`, and then `y < x` too, leave y no value, for the two of them. While nothing is filtered, `z != 1` comes and goes.
#[test]
fn a_conflict_is_left_by_a_withdrawal(rt: HostRuntime) -> Result<(), Fail> {
    let left = [
        removed(pair(Y, 3), 2, Because::Nothing),
        removed(pair(X, 1), 2, Because::Nothing),
        removed(pair(Z, 2), 5, Because::Nothing),
    ];
    let steps = [
        Step::Declare(2, Span::OneToThree),
        Step::Declare(1, Span::OneToTwo),
        Step::Post(1, Sample::Less(X, Y)),
        Step::Settle,
        Step::Post(2, Sample::Less(Y, X)),
        Step::Empty(Y),
        Step::Conflict(Users::Two(1, 2)),
        Step::Post(3, Sample::Other(Z, 1)),
        Step::Withdraw(Cid::User(3)),
        Step::Post(5, Sample::Other(Z, 2)),
        Step::Withdraw(Cid::User(1)),
        Step::Settle,
        Step::Log(&left),
    ];
    run_case(&rt, rt.alloc(), &Choice::Least, &steps)?;
    Ok(())
}

// x loses 2 by `x != 2`, and y by `x = y` for that.
#[test]
fn a_removal_is_explained(rt: HostRuntime) -> Result<(), Fail> {
    let log = [
        removed(pair(X, 2), 1, Because::Nothing),
        removed(pair(Y, 2), 2, Because::One(pair(X, 2))),
    ];
    let steps = [
        Step::Declare(2, Span::OneToThree),
        Step::Post(1, Sample::Other(X, 2)),
        Step::Post(2, Sample::Same(X, Y)),
        Step::Settle,
        Step::Log(&log),
        Step::Explained(pair(X, 2), Users::One(1)),
    ];
    run_case(&rt, rt.alloc(), &Choice::Least, &steps)?;
    Ok(())
}

// `y != 2` changes no explanation. Without `x != 2` y lost 2 by the third, and x by `x = y` for that.
#[test]
fn a_removal_is_explained_anew(rt: HostRuntime) -> Result<(), Fail> {
    let log = [
        removed(pair(Y, 2), 3, Because::Nothing),
        removed(pair(X, 2), 2, Because::One(pair(Y, 2))),
    ];
    let steps = [
        Step::Declare(2, Span::OneToThree),
        Step::Post(1, Sample::Other(X, 2)),
        Step::Post(2, Sample::Same(X, Y)),
        Step::Settle,
        Step::Post(3, Sample::Other(Y, 2)),
        Step::Settle,
        Step::Explained(pair(X, 2), Users::One(1)),
        Step::Withdraw(Cid::User(1)),
        Step::Settle,
        Step::Log(&log),
        Step::Explained(pair(X, 2), Users::Two(2, 3)),
    ];
    run_case(&rt, rt.alloc(), &Choice::Least, &steps)?;
    Ok(())
}

// Of `x != 2` and `x = y` the third revision takes y 2 out.
#[test]
fn a_settling_that_stopped_goes_on(rt: HostRuntime) -> Result<(), Fail> {
    let steps = [
        Step::Declare(2, Span::OneToThree),
        Step::Post(1, Sample::Other(X, 2)),
        Step::Post(2, Sample::Same(X, Y)),
        Step::Stop(3),
        Step::Revisions(3),
        Step::Removals(2),
        Step::Withdraw(Cid::User(1)),
        Step::Settle,
        Step::Log(&[]),
    ];
    run_case(&rt, rt.alloc(), &Choice::Least, &steps)?;
    Ok(())
}
