//! Decisions, and negations that rest on them.
use crate::calls::{Span, pair};
use crate::cases::{Step, run_case};
use crate::choice::Choice;
use crate::removals::{Because, removed};
use crate::samples::Sample;
use palm_base::{Cid, Pair, Var};
use std::test::Fail;

/// The variables by their places.
const X: u32 = 0;

const Y: u32 = 1;

/// The decision on x.
fn decision() -> Cid {
    Cid::Decide(Var(X))
}

/// The pair that is forbidden for it.
fn forbidden() -> Pair {
    pair(Y, 2)
}

/// The negation of the pair.
fn negation() -> Cid {
    Cid::Not(forbidden())
}

// `x < y`, x = 1, and then y 2 is forbidden for the decision: the negation stands for it, is the least one, and goes with
// it.
#[test]
fn a_negation_goes_with_its_decision(rt: HostRuntime) -> Result<(), Fail> {
    let left = [removed(pair(Y, 1), 1, Because::Nothing)];
    let steps = [
        Step::Declare(2, Span::OneToThree),
        Step::Post(1, Sample::Less(X, Y)),
        Step::Assume(pair(X, 1)),
        Step::Settle,
        Step::Forbid(forbidden(), decision()),
        Step::Settle,
        Step::Flat([negation(), Cid::User(1)], [decision(), Cid::User(1)]),
        Step::Negation(Some(forbidden())),
        Step::Active(decision(), true),
        Step::Active(negation(), true),
        Step::Withdraw(decision()),
        Step::Active(decision(), false),
        Step::Active(negation(), false),
        Step::Negation(None),
        Step::Log(&left),
    ];
    run_case(&rt, rt.alloc(), &Choice::Least, &steps)?;
    Ok(())
}
