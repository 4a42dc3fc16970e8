//! A log that is handed spans: each removal has the reasons that they stand for, whether the values were declared or not.
ghost use Rattle.std.specs.Prelude.{Contains};
ghost use Rattle.palm_base.specs.Tells.{Tells};
ghost use Rattle.palm_model.specs.Log.{log_pairs};

use crate::calls::pair;
use crate::removals::{Because, removals_of, removed};
use palm_base::{Cid, NoMemory, Pair, Value, Var};
use palm_explain::{End, ExplainStore, MovingSpan};
use std::alloc::Global;
use std::array;
use std::process::Abort;
use std::test::Fail;

/// Whether the pair is removed.
fn has(log: &ExplainStore, pair: Pair) -> bool
    ensures { Tells result (Contains (log_pairs log.now.log) pair) }
{
    match log.place_of(pair) {
        Some(_) => true,
        None => false,
    }
}

/// Enters the pair by the user's constraint of this number, where it is not removed. Its reasons are the removed ones of the
/// variable's values from `low` to `high`.
pub fn remove_for(
    log: &mut ExplainStore,
    gone: &Pair,
    by: u32,
    var: u32,
    low: i32,
    high: i32,
) -> Result<(), NoMemory> {
    let Pair { var: own, value } = *gone;
    if has(log, Pair { var: own, value }) {
        return Ok(());
    }
    let span = MovingSpan {
        var: Var(var),
        low: End::At(Value(low)),
        high: End::At(Value(high)),
    };
    log.enter_run(own, array::from_ref(&value), Cid::User(by), &[span])
}

/// Enters 8 and 9 of y by the user's seventh constraint, where neither is removed. The reasons of each are the removed ones of x from 1
/// to what is six less.
fn remove_two(log: &mut ExplainStore) -> Result<(), NoMemory> {
    if has(log, pair(1, 8)) || has(log, pair(1, 9)) {
        return Ok(());
    }
    let span = MovingSpan {
        var: Var(0),
        low: End::At(Value(1)),
        high: End::Shifted(-6),
    };
    log.enter_run(Var(1), &[Value(8), Value(9)], Cid::User(7), &[span])
}

/// Tells the values of x, which leave out 4, and takes values of x and of y out, the last two at once.
fn remove_eight(log: &mut ExplainStore) -> Result<(), NoMemory> {
    log.declare(Var(0), &[Value(1), Value(2), Value(3), Value(5)])?;
    remove_for(log, &pair(0, 2), 1, 1, 0, 254)?;
    remove_for(log, &pair(0, 5), 2, 0, 1, 3)?;
    remove_for(log, &pair(0, 1), 3, 0, 1, 9)?;
    remove_for(log, &pair(1, 7), 4, 0, 0, 3)?;
    log.declare(Var(1), &[Value(6), Value(7)])?;
    remove_for(log, &pair(0, 3), 5, 1, 7, 7)?;
    remove_for(log, &pair(1, 6), 6, 0, 2, 5)?;
    remove_two(log)
}

/// Asserts that a new log has the eight removals, each at its place.
fn assert_spans_entered(rt: &impl Abort, alloc: Global) -> Result<(), NoMemory> {
    let mut log = ExplainStore::new(alloc);
    remove_eight(&mut log)?;
    let expected = [
        removed(pair(0, 2), 1, Because::Nothing),
        removed(pair(0, 5), 2, Because::One(pair(0, 2))),
        removed(pair(0, 1), 3, Because::Two(pair(0, 2), pair(0, 5))),
        removed(pair(1, 7), 4, Because::Two(pair(0, 1), pair(0, 2))),
        removed(pair(0, 3), 5, Because::One(pair(1, 7))),
        removed(
            pair(1, 6),
            6,
            Because::Three(pair(0, 2), pair(0, 3), pair(0, 5)),
        ),
        removed(pair(1, 8), 7, Because::Two(pair(0, 1), pair(0, 2))),
        removed(
            pair(1, 9),
            7,
            Because::Three(pair(0, 1), pair(0, 2), pair(0, 3)),
        ),
    ];
    assert_eq!(rt; removals_of(alloc, &log)?.as_slice(), expected.as_slice());
    for (place, removal) in expected.iter().enumerate() {
        assert_eq!(rt; log.place_of(removal.pair), Some(place));
    }
    assert_eq!(rt; log.place_of(pair(0, 4)), None);
    assert_last_reasons(rt, alloc, &log)
}

/// Asserts that the reasons of the last removal are told at once, in place of what was in the list.
fn assert_last_reasons(rt: &impl Abort, alloc: Global, log: &ExplainStore) -> Result<(), NoMemory> {
    let mut reasons = Vec::from_slice(alloc, &[pair(1, 1)])?;
    if let Some(last) = log.removals().checked_sub(1) {
        log.reasons(last, &mut reasons)?;
    }
    let expected = [pair(0, 1), pair(0, 2), pair(0, 3)];
    assert_eq!(rt; reasons.as_slice(), expected.as_slice());
    Ok(())
}

#[test]
fn a_log_has_the_reasons_of_its_spans(rt: HostRuntime) -> Result<(), Fail> {
    assert_spans_entered(&rt, rt.alloc())?;
    Ok(())
}
