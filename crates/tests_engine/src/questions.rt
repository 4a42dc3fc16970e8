//! What a settling asks of the filters: nothing after a withdrawal that leaves no constraint over a restored value.
ghost use Rattle.palm_model.specs.Constraint.{IsWellFormed};

use crate::calls::{Span, declare, pair, post, withdraw};
use crate::cases::{Step, run_case};
use crate::choice::{Choice, run_settling};
use crate::counted::Counted;
use crate::removals::{Because, Removal, removals_of, removed};
use crate::samples::{Sample, con_of};
use palm_base::{Cid, NoMemory};
use palm_engine::{Engine, Settle};
use palm_kind::Kind;
use palm_model::Con;
use std::alloc::Global;
use std::cell::Cell;
use std::process::Abort;
use std::test::Fail;

/// The variables by their places.
const X: u32 = 0;

const Y: u32 = 1;

const U: u32 = 2;

const V: u32 = 3;

/// What `u < v` takes out, as the second constraint.
fn removals_of_second() -> [Removal; 2] {
    [
        removed(pair(U, 3), 2, Because::Nothing),
        removed(pair(V, 1), 2, Because::Nothing),
    ]
}

/// Posts the constraint by a filter that counts, unless a constraint has the number.
fn post_counted_con<'a>(
    alloc: Global,
    engine: &mut Engine<Counted<'a>>,
    number: u32,
    con: &Con,
    asked: &'a Cell<u64>,
) -> Result<bool, NoMemory>
    requires { IsWellFormed 4 con.now }
{
    let kind = Kind::from_con(alloc, con)?;
    post(engine, number, Counted { kind, asked })
}

/// Posts the constraint of the sample by a filter that counts, unless a constraint has the number.
fn post_counted<'a>(
    alloc: Global,
    engine: &mut Engine<Counted<'a>>,
    number: u32,
    sample: &Sample,
    asked: &'a Cell<u64>,
) -> Result<bool, NoMemory> {
    match con_of(alloc, sample)? {
        Some(con) => post_counted_con(alloc, engine, number, &con, asked),
        None => Ok(false),
    }
}

// The two constraints share no variable.
#[test]
fn a_settling_after_a_withdrawal_asks_nothing(rt: HostRuntime) -> Result<(), Fail> {
    let left = removals_of_second();
    let steps = [
        Step::Declare(4, Span::OneToThree),
        Step::Post(1, Sample::Less(X, Y)),
        Step::Post(2, Sample::Less(U, V)),
        Step::Settle,
        Step::Withdraw(Cid::User(1)),
        Step::Rest,
        Step::Log(&left),
    ];
    run_case(&rt, rt.alloc(), &Choice::Least, &steps)?;
    Ok(())
}

/// How often `x < y` and `u < v` ask together. The first revision of `x < y` asks for 1 of x, which has support, and from above
/// for 3, which lacks it, and 2; then for 1 of y, which lacks it, 2, and from above for 3. The second one asks for nothing: x lost
/// its greatest value and y its least one, and neither hurts the other variable. That is six times, and as often for `u < v`.
const ASKED: u64 = 12;

/// Settles, and asserts that nothing is pending then, and that the filters have been asked as often as is said above, which the
/// engine counts too.
fn settle_counted(
    rt: &impl Abort,
    alloc: Global,
    engine: &mut Engine<Counted<'_>>,
    asked: &Cell<u64>,
) -> Result<(), NoMemory> {
    assert_eq!(rt;
        run_settling(alloc, engine, &Choice::Least, None)?,
        Settle::Settled
    );
    assert_eq!(rt; asked.get(), ASKED, "questions that the filters count");
    assert_eq!(rt; engine.checks(), ASKED, "questions that the engine counts");
    Ok(())
}

/// Asserts that the two constraints are posted with filters that count.
fn post_two<'a>(
    rt: &impl Abort,
    alloc: Global,
    engine: &mut Engine<Counted<'a>>,
    asked: &'a Cell<u64>,
) -> Result<(), NoMemory> {
    declare(engine, 4, &Span::OneToThree)?;
    let first = post_counted(alloc, engine, 1, &Sample::Less(X, Y), asked)?;
    let second = post_counted(alloc, engine, 2, &Sample::Less(U, V), asked)?;
    assert_eq!(rt;
        (first, second),
        (true, true),
        "which of the constraints are posted"
    );
    Ok(())
}

/// Asserts that the filters are asked so often, and not once more where the first constraint is withdrawn, after which no
/// revision runs.
fn assert_asked<'a>(
    rt: &impl Abort,
    alloc: Global,
    engine: &mut Engine<Counted<'a>>,
    asked: &'a Cell<u64>,
) -> Result<(), NoMemory> {
    post_two(rt, alloc, engine, asked)?;
    settle_counted(rt, alloc, engine, asked)?;
    assert!(rt; withdraw(engine, &Cid::User(1)), "1 is not active");
    settle_counted(rt, alloc, engine, asked)?;
    assert_eq!(rt; engine.revisions(), 0, "revisions after the withdrawal");
    let left = removals_of(alloc, engine.log())?;
    assert_eq!(rt; left.as_slice(), removals_of_second().as_slice());
    Ok(())
}

/// The same of a new engine.
fn assert_asked_anew(rt: &impl Abort, alloc: Global) -> Result<(), NoMemory> {
    let asked = Cell::new(0);
    let mut engine = Engine::new(alloc);
    assert_asked(rt, alloc, &mut engine, &asked)
}

#[test]
fn a_filter_is_asked_as_often_as_is_counted(rt: HostRuntime) -> Result<(), Fail> {
    assert_asked_anew(&rt, rt.alloc())?;
    Ok(())
}
