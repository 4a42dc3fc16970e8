//! The removed pairs of a variable, the places of a value, and the relations of numbers.
use crate::testing::{Question, assert_answers, pair, take_out_all};
use palm_base::{NoMemory, Value, Var};
use palm_domain::DomainStore;
use palm_filter::{Reasons, ValueIndex, push_removed};
use palm_model::{Op, number_of, stands};
use std::alloc::Global;
use std::process::Abort;
use std::test::Fail;

/// Which pair is listed when one of three values is gone.
struct Removed;

impl Question for Removed {
    fn assert_answer(
        &self,
        rt: &impl Abort,
        alloc: Global,
        store: &mut DomainStore,
    ) -> Result<(), NoMemory> {
        store.add_variable(&[Value(1), Value(2), Value(3)])?;
        take_out_all(store, &[pair(0, 2)]);
        let mut out = Reasons::new(alloc);
        push_removed(store, Var(0), &mut out)?;
        assert_eq!(rt; out.as_slice(), [pair(0, 2)].as_slice());
        Ok(())
    }
}

#[test]
fn removed_pairs_are_listed(rt: HostRuntime) -> Result<(), Fail> {
    assert_answers(&rt, rt.alloc(), &Removed)?;
    Ok(())
}

#[test]
fn numbers_stand_in_relations(rt: HostRuntime) -> Result<(), Fail> {
    assert!(rt; stands(Op::Le, number_of(&Value(-2)), -2), "-2 <= -2");
    assert!(rt; !stands(Op::Lt, number_of(&Value(-2)), -2), "-2 < -2");
    Ok(())
}

/// Asserts that the value stands at this place alone.
fn assert_at(rt: &impl Abort, index: &ValueIndex, value: i32, place: usize) {
    assert_eq!(rt;
        index.places(&Value(value)),
        [place].as_slice(),
        "places of {value}"
    );
}

/// Asserts at how many places the value stands.
fn assert_times(rt: &impl Abort, index: &ValueIndex, value: i32, times: usize) {
    assert_eq!(rt;
        index.places(&Value(value)).len(),
        times,
        "how many places {value} has"
    );
}

// Of 3, -1, 3, 7, and of a value between, below and above these.
#[test]
fn places_of_a_value_are_found(rt: HostRuntime) -> Result<(), Fail> {
    let values = [Value(3), Value(-1), Value(3), Value(7)];
    let index = ValueIndex::new(rt.alloc(), &values)?;
    assert_at(&rt, &index, -1, 1);
    assert_at(&rt, &index, 7, 3);
    assert_times(&rt, &index, 3, 2);
    assert_times(&rt, &index, 4, 0);
    assert_times(&rt, &index, -2, 0);
    assert_times(&rt, &index, 8, 0);
    assert_eq!(rt; index.values(), values.as_slice());
    Ok(())
}

// Of the greatest, the least and the greatest value.
#[test]
fn places_of_the_outermost_values_are_found(rt: HostRuntime) -> Result<(), Fail> {
    let values = [Value(i32::MAX), Value(i32::MIN), Value(i32::MAX)];
    let index = ValueIndex::new(rt.alloc(), &values)?;
    assert_at(&rt, &index, i32::MIN, 1);
    assert_times(&rt, &index, i32::MAX, 2);
    assert_times(&rt, &index, 0, 0);
    Ok(())
}

// Of the greatest value beside a value close to it.
#[test]
fn a_place_of_the_greatest_value_is_found(rt: HostRuntime) -> Result<(), Fail> {
    let values = [Value(i32::MAX), Value(i32::MAX - 2)];
    let index = ValueIndex::new(rt.alloc(), &values)?;
    assert_at(&rt, &index, i32::MAX, 0);
    assert_times(&rt, &index, i32::MIN, 0);
    Ok(())
}
