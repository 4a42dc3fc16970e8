//! The log by itself: x lost 2 by the first constraint, y lost 2 by the second for that, and z lost 2 by the third.
ghost use Rattle.std.specs.Prelude.{◌≡◌, [], true, All, Contains, OnOk};
ghost use Rattle.palm_explain.specs.Explanations.{LacksExactly};
ghost use Rattle.palm_model.specs.Log.{log_pairs};

use crate::calls::{pair, range_of, values_of};
use crate::removals::{Because, explanation_of, is_removed, removals_of, removed};
use palm_base::{Cid, CidList, NoMemory, Pair, Value, Var};
use palm_domain::DomainStore;
use palm_explain::{ExplainStore, full_stores_lack_nothing, stores_lack_what_is_taken_out};
use std::alloc::Global;
use std::process::Abort;
use std::test::Fail;

/// Appends three variables with the values 1 and 2.
fn add_three(store: &mut DomainStore) -> Result<(), NoMemory>
    requires { store.old ≡ [] }
    ensures { OnOk result (LacksExactly store.new []) }
{
    store.add_variable(&[Value(1), Value(2)])?;
    store.add_variable(&[Value(1), Value(2)])?;
    store.add_variable(&[Value(1), Value(2)])?;
    full_stores_lack_nothing();
    Ok(())
}

/// Whether all of the pairs are removed.
fn are_removed(log: &ExplainStore, pairs: &[Pair]) -> bool
    ensures { result ≡ true → All (Contains (log_pairs log.now.log)) pairs.now }
{
    for pair in pairs {
        if !is_removed(log, pair) {
            return false;
        }
    }
    true
}

/// Takes the pair out by the user's constraint of this number and enters it, where it is present and the reasons are removed.
fn remove(
    store: &mut DomainStore,
    log: &mut ExplainStore,
    pair: &Pair,
    by: u32,
    reasons: &[Pair],
) -> Result<(), NoMemory>
    requires { LacksExactly store.old (log_pairs log.old.log) }
    ensures { LacksExactly store.new (log_pairs log.new.log) }
{
    let Pair { var, value } = *pair;
    if var.0 >= store.variables()
        || !store.contains(Pair { var, value })
        || log.place_of(Pair { var, value }).is_some()
        || !are_removed(log, reasons)
    {
        return Ok(());
    }
    log.enter(Pair { var, value }, Cid::User(by), reasons)?;
    store.take_out(Pair { var, value });
    stores_lack_what_is_taken_out();
    Ok(())
}

/// Whether the pair is removed, and its explanation holds the constraint.
fn is_named(log: &mut ExplainStore, pair: &Pair, cid: &Cid) -> bool
    ensures { log.new ≡ log.old }
{
    is_removed(log, pair) && log.names(*pair, *cid)
}

/// Takes 2 out of x by the first constraint, out of y by the second for that, and out of z by the third.
fn remove_three(store: &mut DomainStore, log: &mut ExplainStore) -> Result<(), NoMemory>
    requires { LacksExactly store.old (log_pairs log.old.log) }
    ensures { LacksExactly store.new (log_pairs log.new.log) }
{
    remove(store, log, &pair(0, 2), 1, &[])?;
    remove(store, log, &pair(1, 2), 2, &[pair(0, 2)])?;
    remove(store, log, &pair(2, 2), 3, &[])
}

/// Asserts that the log explains the three removals.
fn assert_three_explained(
    rt: &impl Abort,
    alloc: Global,
    log: &mut ExplainStore,
) -> Result<(), NoMemory>
    ensures { log.new ≡ log.old }
{
    let (x, y) = (pair(0, 2), pair(1, 2));
    assert_eq!(rt; log.removals(), 3);
    assert!(rt;
        is_named(log, &y, &Cid::User(1)),
        "the removal of y does not rest on 1"
    );
    assert!(rt;
        !is_named(log, &x, &Cid::User(2)),
        "the removal of x rests on 2"
    );
    let both = CidList::from_slice(alloc, &[Cid::User(1), Cid::User(2)])?;
    assert_eq!(rt; explanation_of(alloc, log, &y)?, Some(both));
    Ok(())
}

/// Asserts that the log has the removal of z alone, and put values of x and y back.
fn assert_last(rt: &impl Abort, alloc: Global, log: &ExplainStore) -> Result<(), NoMemory> {
    let last = [removed(pair(2, 2), 3, Because::Nothing)];
    assert_eq!(rt; removals_of(alloc, log)?.as_slice(), last.as_slice());
    let restored = log.restored();
    assert_eq!(rt; restored.len(), 2);
    for var in [Var(0), Var(1)] {
        let has = restored.iter().any(|entry| entry.var == var);
        assert!(rt; has, "no {var:?} in {restored:?}");
    }
    Ok(())
}

/// Asserts that the variable has the values from 1 to the last one.
fn assert_values(
    rt: &impl Abort,
    alloc: Global,
    store: &DomainStore,
    var: u32,
    last: i32,
) -> Result<(), NoMemory> {
    let expected = Some(range_of(alloc, 1, last)?);
    assert_eq!(rt; values_of(alloc, store, var)?, expected, "variable {var}");
    Ok(())
}

/// Asserts that the log explains the three removals, and after a withdrawal of the first constraint has what does not rest on
/// it: x and y have both values again, and z has the first.
fn assert_kept(
    rt: &impl Abort,
    alloc: Global,
    store: &mut DomainStore,
    log: &mut ExplainStore,
) -> Result<(), NoMemory>
    requires store { store.old ≡ [] }
    requires log { log.old.log ≡ [] }
{
    add_three(store)?;
    remove_three(store, log)?;
    assert_three_explained(rt, alloc, log)?;
    log.withdraw(Cid::User(1), store);
    assert_last(rt, alloc, log)?;
    assert_values(rt, alloc, store, 0, 2)?;
    assert_values(rt, alloc, store, 1, 2)?;
    assert_values(rt, alloc, store, 2, 1)
}

/// The same of a new store and a new log.
fn assert_kept_anew(rt: &impl Abort, alloc: Global) -> Result<(), NoMemory> {
    let mut store = DomainStore::new(alloc);
    let mut log = ExplainStore::new(alloc);
    assert_kept(rt, alloc, &mut store, &mut log)
}

#[test]
fn a_withdrawal_takes_what_rests_on_the_constraint(rt: HostRuntime) -> Result<(), Fail> {
    assert_kept_anew(&rt, rt.alloc())?;
    Ok(())
}

/// Takes 2 out of x, 1 out of z, 2 out of y for the first, 2 out of z, and 1 out of y for the 2 of y and of z.
fn remove_five(store: &mut DomainStore, log: &mut ExplainStore) -> Result<(), NoMemory>
    requires { LacksExactly store.old (log_pairs log.old.log) }
    ensures { LacksExactly store.new (log_pairs log.new.log) }
{
    remove(store, log, &pair(0, 2), 1, &[])?;
    remove(store, log, &pair(2, 1), 2, &[])?;
    remove(store, log, &pair(1, 2), 3, &[pair(0, 2)])?;
    remove(store, log, &pair(2, 2), 4, &[])?;
    remove(store, log, &pair(1, 1), 5, &[pair(1, 2), pair(2, 2)])
}

/// Asserts at which places those removals stand on which the removals of these values of the variable rest.
fn assert_needed(
    rt: &impl Abort,
    alloc: Global,
    log: &ExplainStore,
    var: u32,
    values: &[Value],
    expected: &[usize],
) -> Result<(), NoMemory> {
    let mut places = vec![in alloc; 7]?;
    log.needed(Var(var), values, &mut places)?;
    assert_eq!(rt;
        places.as_slice(),
        expected,
        "values {values:?} of variable {var}"
    );
    Ok(())
}

/// Asserts what each of the five removals needs, and values together, and a value that is there.
fn assert_each_needed(rt: &impl Abort, alloc: Global, log: &ExplainStore) -> Result<(), NoMemory> {
    assert_needed(rt, alloc, log, 0, &[Value(2)], &[0])?;
    assert_needed(rt, alloc, log, 1, &[Value(2)], &[0, 2])?;
    assert_needed(rt, alloc, log, 1, &[Value(1)], &[0, 2, 3, 4])?;
    assert_needed(rt, alloc, log, 2, &[Value(1), Value(2)], &[1, 3])?;
    assert_needed(rt, alloc, log, 0, &[Value(1)], &[])
}

/// The same of a log that is filled.
fn assert_needed_of_five(
    rt: &impl Abort,
    alloc: Global,
    store: &mut DomainStore,
    log: &mut ExplainStore,
) -> Result<(), NoMemory>
    requires store { store.old ≡ [] }
    requires log { log.old.log ≡ [] }
{
    add_three(store)?;
    assert_needed(rt, alloc, log, 0, &[Value(1), Value(2)], &[])?;
    remove_five(store, log)?;
    assert_eq!(rt; log.removals(), 5);
    assert_each_needed(rt, alloc, log)
}

/// The same of a new store and a new log.
fn assert_needed_anew(rt: &impl Abort, alloc: Global) -> Result<(), NoMemory> {
    let mut store = DomainStore::new(alloc);
    let mut log = ExplainStore::new(alloc);
    assert_needed_of_five(rt, alloc, &mut store, &mut log)
}

#[test]
fn a_removal_needs_its_reasons_and_what_they_need(rt: HostRuntime) -> Result<(), Fail> {
    assert_needed_anew(&rt, rt.alloc())?;
    Ok(())
}
