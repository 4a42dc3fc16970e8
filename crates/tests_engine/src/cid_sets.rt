//! Sets of ids: ids that come in any order stand by rising id in the list, each once.
ghost use Rattle.std.specs.Prelude.{◌≡◌};

use crate::calls::pair;
use crate::spans::remove_for;
use palm_base::{Cid, NoMemory, Value, Var};
use palm_explain::{CidSet, ExplainStore};
use std::alloc::Global;
use std::process::Abort;
use std::test::Fail;

/// Decisions and users whose numbers stand in one word and in several, and negations, by rising id.
fn six() -> [Cid; 6] {
    [
        Cid::Decide(Var(0)),
        Cid::Decide(Var(64)),
        Cid::Not(pair(0, 9)),
        Cid::Not(pair(1, 3)),
        Cid::User(1),
        Cid::User(65535),
    ]
}

/// Asserts that these are the ids of the set.
fn assert_ids(
    rt: &impl Abort,
    alloc: Global,
    ids: &CidSet,
    expected: &[Cid],
) -> Result<(), NoMemory> {
    assert_eq!(rt; ids.list(alloc)?.as_slice(), expected);
    Ok(())
}

/// Asserts what a set has to which the six were added, one of them twice.
fn assert_added(rt: &impl Abort, alloc: Global) -> Result<(), NoMemory> {
    let mut ids = CidSet::new(alloc);
    assert_ids(rt, alloc, &ids, &[])?;
    let [first, second, third, fourth, fifth, sixth] = six();
    for cid in [&sixth, &fourth, &second, &fifth, &third, &first, &second] {
        ids.add(cid)?;
    }
    assert_ids(rt, alloc, &ids, &six())?;
    assert!(rt; ids.has(&Cid::User(1)), "no user 1");
    assert!(rt; !ids.has(&Cid::User(2)), "a user 2");
    assert!(rt; !ids.has(&Cid::Decide(Var(1))), "a decision on variable 1");
    assert!(rt; !ids.has(&Cid::Not(pair(0, 3))), "a negation of 3");
    Ok(())
}

#[test]
fn ids_are_added(rt: HostRuntime) -> Result<(), Fail> {
    assert_added(&rt, rt.alloc())?;
    Ok(())
}

/// Asserts what a set has to which lists were added, and another set.
fn assert_all_added(rt: &impl Abort, alloc: Global) -> Result<(), NoMemory> {
    let mut ids = CidSet::new(alloc);
    ids.add_each(&[Cid::User(1), Cid::Not(pair(0, 9)), Cid::User(1)])?;
    assert_ids(rt, alloc, &ids, &[Cid::Not(pair(0, 9)), Cid::User(1)])?;
    let mut others = CidSet::new(alloc);
    others.add_each(&[
        Cid::User(65535),
        Cid::Not(pair(1, 3)),
        Cid::Decide(Var(64)),
        Cid::Decide(Var(0)),
        Cid::User(1),
    ])?;
    ids.add_all(&others)?;
    assert_ids(rt, alloc, &ids, &six())
}

#[test]
fn ids_of_lists_and_of_sets_are_added(rt: HostRuntime) -> Result<(), Fail> {
    assert_all_added(&rt, rt.alloc())?;
    Ok(())
}

/// Asserts what a set of one user has when the explanations of y are added: y lost 2 for the loss of x, z lost 2, and y has 1.
fn assert_explained(rt: &impl Abort, alloc: Global) -> Result<(), NoMemory> {
    let mut log = ExplainStore::new(alloc);
    remove_for(&mut log, &pair(0, 2), 1, 3, 0, 9)?;
    remove_for(&mut log, &pair(1, 2), 64, 0, 1, 9)?;
    remove_for(&mut log, &pair(2, 2), 3, 3, 0, 9)?;
    assert_eq!(rt; log.removals(), 3);
    let mut ids = CidSet::new(alloc);
    ids.add(&Cid::User(9))?;
    log.add_explanations(Var(1), &[Value(1), Value(2)], &mut ids)?;
    let expected = [Cid::User(1), Cid::User(9), Cid::User(64)];
    assert_ids(rt, alloc, &ids, &expected)
}

#[test]
fn explanations_are_added(rt: HostRuntime) -> Result<(), Fail> {
    assert_explained(&rt, rt.alloc())?;
    Ok(())
}
