//! Cases: steps with a new engine, each a call or a look, and how it is to come out.
use crate::calls::{
    Span, assume, conflict_of, declare, flat_of, forbid, post_all, post_sample, range_of,
    values_of, withdraw,
};
use crate::choice::{Choice, run_settling};
use crate::removals::{Removal, explanation_of, removals_of};
use crate::samples::Sample;
use crate::slow::assert_slow_domains;
use palm_base::{Cid, CidList, NoMemory, Pair, Var};
use palm_engine::{Engine, Settle};
use palm_kind::Kind;
use std::alloc::Global;
use std::fmt::Debug;
use std::process::Abort;

/// Constraints of users, by their numbers.
#[derive(Clone, Copy, Debug)]
pub enum Users {
    One(u32),
    Two(u32, u32),
    Three(u32, u32, u32),
}

/// A call with what it is to answer, or what is to be seen.
#[derive(Clone, Copy, Debug)]
pub enum Step<'a> {
    /// Appends so many variables with these values.
    Declare(u32, Span),
    /// Posts the constraint under the number.
    Post(u32, Sample),
    /// Posts the constraints under the numbers from 1 on.
    PostAll(&'a [Sample]),
    /// Assumes the pair.
    Assume(Pair),
    /// Forbids the pair for the justifier.
    Forbid(Pair, Cid),
    /// Withdraws the constraint.
    Withdraw(Cid),
    /// A settling that ends with nothing pending.
    Settle,
    /// A settling that ends with nothing pending, by no revision and with no question to a filter.
    Rest,
    /// A settling that ends with no value left for the variable.
    Empty(u32),
    /// A settling that ends after as many revisions.
    Stop(u64),
    /// Exactly the values from the first to the second are present of the variable.
    Values(u32, i32, i32),
    /// The log has these removals, in this order.
    Log(&'a [Removal]),
    /// So many pairs are removed.
    Removals(usize),
    /// The last settling took so many revisions.
    Revisions(u64),
    /// The pair is removed, and these are the constraints that explain it.
    Explained(Pair, Users),
    /// A variable has no value left, and these are the constraints of the conflict.
    Conflict(Users),
    /// The first names, with each negation replaced by its justification, are the second.
    Flat([Cid; 2], [Cid; 2]),
    /// The least pair that is forbidden.
    Negation(Option<Pair>),
    /// Whether the constraint is active.
    Active(Cid, bool),
    /// The domains are those that the slow way leaves of four times the values 1 to 3.
    Slow(&'a [Sample]),
}

/// A step of a case, the how many-th it is, and what chooses in the case: what a failed assertion names.
#[derive(Clone, Copy, Debug)]
pub struct At<'a> {
    number: usize,
    step: &'a Step<'a>,
    choice: &'a Choice,
}

/// The ids of the constraints.
fn cids_of(alloc: Global, users: &Users) -> Result<CidList, NoMemory> {
    Ok(match users {
        Users::One(a) => CidList::from_slice(alloc, &[Cid::User(*a)])?,
        Users::Two(a, b) => CidList::from_slice(alloc, &[Cid::User(*a), Cid::User(*b)])?,
        Users::Three(a, b, c) => {
            CidList::from_slice(alloc, &[Cid::User(*a), Cid::User(*b), Cid::User(*c)])?
        }
    })
}

/// Asserts that the step gives what is expected.
pub fn assert_at<T: PartialEq + Debug>(rt: &impl Abort, at: &At<'_>, got: &T, expected: &T) {
    assert_eq!(rt; *got, *expected, "{at:?}");
}

/// Makes the call where it is allowed, and tells whether it is.
fn is_made(alloc: Global, engine: &mut Engine<Kind>, step: &Step<'_>) -> Result<bool, NoMemory> {
    match step {
        Step::Declare(count, span) => {
            declare(engine, *count, span)?;
            Ok(true)
        }
        Step::Post(number, sample) => post_sample(alloc, engine, *number, sample),
        Step::PostAll(samples) => post_all(alloc, engine, samples),
        Step::Assume(pair) => assume(engine, pair),
        Step::Forbid(pair, justifier) => forbid(engine, pair, justifier),
        Step::Withdraw(cid) => Ok(withdraw(engine, cid)),
        _ => Ok(false),
    }
}

/// Asserts that this is seen, or makes the call and asserts that it is allowed.
fn see_or_call(
    rt: &impl Abort,
    alloc: Global,
    engine: &mut Engine<Kind>,
    at: &At<'_>,
) -> Result<(), NoMemory> {
    match at.step {
        Step::Values(var, least, most) => {
            let got = values_of(alloc, engine.store(), *var)?;
            assert_at(rt, at, &got, &Some(range_of(alloc, *least, *most)?));
        }
        Step::Log(log) => {
            let got = removals_of(alloc, engine.log())?;
            assert_at(rt, at, &got.as_slice(), log);
        }
        Step::Removals(count) => assert_at(rt, at, &engine.log().removals(), count),
        Step::Revisions(count) => assert_at(rt, at, &engine.revisions(), count),
        Step::Explained(pair, users) => {
            let got = explanation_of(alloc, engine.log(), pair)?;
            assert_at(rt, at, &got, &Some(cids_of(alloc, users)?));
        }
        Step::Conflict(users) => {
            let got = conflict_of(alloc, engine)?;
            assert_at(rt, at, &got, &Some(cids_of(alloc, users)?));
        }
        Step::Flat(names, flat) => {
            let got = flat_of(alloc, engine, names.as_slice())?;
            let expected = CidList::from_slice(alloc, flat.as_slice())?;
            assert_at(rt, at, &got, &Some(expected));
        }
        Step::Negation(pair) => assert_at(rt, at, &engine.first_negation(), pair),
        Step::Active(cid, active) => assert_at(rt, at, &engine.is_active(*cid), active),
        Step::Slow(samples) => assert_slow_domains(rt, alloc, engine.store(), samples, at)?,
        call => {
            let made = is_made(alloc, engine, call)?;
            assert!(rt; made, "this is not allowed: {at:?}");
        }
    }
    Ok(())
}

/// Settles, and asserts that it ends so.
fn settle(
    rt: &impl Abort,
    alloc: Global,
    engine: &mut Engine<Kind>,
    at: &At<'_>,
    limit: Option<u64>,
    end: Settle,
) -> Result<(), NoMemory> {
    let got = run_settling(alloc, engine, at.choice, limit)?;
    assert_at(rt, at, &got, &end);
    Ok(())
}

/// Settles, and asserts that nothing is pending then, by no revision and with no question to a filter.
fn rest(
    rt: &impl Abort,
    alloc: Global,
    engine: &mut Engine<Kind>,
    at: &At<'_>,
) -> Result<(), NoMemory> {
    let checks = engine.checks();
    settle(rt, alloc, engine, at, None, Settle::Settled)?;
    assert_at(rt, at, &engine.revisions(), &0);
    assert_at(rt, at, &engine.checks(), &checks);
    Ok(())
}

/// Takes the step: a settling that is to end so, another call, or a look.
fn take_step(
    rt: &impl Abort,
    alloc: Global,
    engine: &mut Engine<Kind>,
    at: &At<'_>,
) -> Result<(), NoMemory> {
    match at.step {
        Step::Settle => settle(rt, alloc, engine, at, None, Settle::Settled),
        Step::Rest => rest(rt, alloc, engine, at),
        Step::Empty(var) => settle(rt, alloc, engine, at, None, Settle::Empty(Var(*var))),
        Step::Stop(limit) => settle(rt, alloc, engine, at, Some(*limit), Settle::Stopped),
        _ => see_or_call(rt, alloc, engine, at),
    }
}

/// Takes the steps one after another.
fn take_steps(
    rt: &impl Abort,
    alloc: Global,
    engine: &mut Engine<Kind>,
    choice: &Choice,
    steps: &[Step<'_>],
) -> Result<(), NoMemory> {
    for index in 0..steps.len() {
        let at = At {
            number: index + 1,
            step: &steps[index],
            choice,
        };
        take_step(rt, alloc, engine, &at)?;
    }
    Ok(())
}

/// Takes the steps with a new engine, and asserts that each comes out. All cases give their engine up here, since each place
/// costs its proof.
pub fn run_case(
    rt: &impl Abort,
    alloc: Global,
    choice: &Choice,
    steps: &[Step<'_>],
) -> Result<(), NoMemory> {
    let mut engine = Engine::new(alloc);
    take_steps(rt, alloc, &mut engine, choice, steps)
}
