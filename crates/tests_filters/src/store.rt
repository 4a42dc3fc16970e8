//! A variable of three values: what is answered of it, and how one of them goes and comes back.
use crate::testing::{Question, assert_answers, pair};
use palm_base::{NoMemory, Value, Var};
use palm_domain::DomainStore;
use std::alloc::Global;
use std::process::Abort;
use std::test::Fail;

/// What is told of the variable.
struct Declared;

impl Question for Declared {
    fn assert_answer(
        &self,
        rt: &impl Abort,
        _alloc: Global,
        store: &mut DomainStore,
    ) -> Result<(), NoMemory> {
        let values = [Value(-2), Value(0), Value(5)];
        let var = store.add_variable(&values)?;
        assert_eq!(rt; var, Var(0));
        assert_eq!(rt; store.variables(), 1);
        assert_eq!(rt; store.initial_values(Var(0)), values.as_slice());
        assert_eq!(rt; store.initial_count(Var(0)), 3);
        assert_eq!(rt; store.declared_below(Var(0), -2), 0, "below -2");
        assert_eq!(rt; store.declared_below(Var(0), 5), 2, "below 5");
        assert_eq!(rt; store.declared_below(Var(0), 6), 3, "below 6");
        assert!(rt; store.declared(pair(0, 5)), "5 is not declared");
        assert!(rt; !store.declared(pair(0, 1)), "1 is declared");
        Ok(())
    }
}

#[test]
fn what_was_declared(rt: HostRuntime) -> Result<(), Fail> {
    assert_answers(&rt, rt.alloc(), &Declared)?;
    Ok(())
}

/// What is next, present and removed, when the least value is gone.
struct Gone;

impl Question for Gone {
    fn assert_answer(
        &self,
        rt: &impl Abort,
        _alloc: Global,
        store: &mut DomainStore,
    ) -> Result<(), NoMemory> {
        store.add_variable(&[Value(-2), Value(0), Value(5)])?;
        assert!(rt; store.contains(pair(0, -2)), "-2 is not present");
        store.take_out(pair(0, -2));
        assert!(rt; !store.contains(pair(0, -2)), "-2 is present");
        assert_eq!(rt; store.next_removed_from(Var(0), Value(-9)), Some(Value(-2)));
        assert_eq!(rt; store.next_removed_after(Var(0), Value(-2)), None);
        assert_eq!(rt; store.next_from(Var(0), Value(-2)), Some(Value(0)));
        assert_eq!(rt; store.next_after(Var(0), Value(0)), Some(Value(5)));
        Ok(())
    }
}

#[test]
fn a_pair_goes(rt: HostRuntime) -> Result<(), Fail> {
    assert_answers(&rt, rt.alloc(), &Gone)?;
    Ok(())
}

/// The ends of the domain while the least value is gone, and when it is back.
struct Back;

impl Question for Back {
    fn assert_answer(
        &self,
        rt: &impl Abort,
        _alloc: Global,
        store: &mut DomainStore,
    ) -> Result<(), NoMemory> {
        store.add_variable(&[Value(-2), Value(0), Value(5)])?;
        assert!(rt; store.contains(pair(0, -2)), "-2 is not present");
        store.take_out(pair(0, -2));
        assert_eq!(rt; store.least(Var(0)), Value(0), "while -2 is gone");
        store.put_back(pair(0, -2));
        assert_eq!(rt; store.count(Var(0)), 3);
        assert_eq!(rt; store.least(Var(0)), Value(-2));
        assert_eq!(rt; store.greatest(Var(0)), Value(5));
        Ok(())
    }
}

#[test]
fn a_pair_comes_back(rt: HostRuntime) -> Result<(), Fail> {
    assert_answers(&rt, rt.alloc(), &Back)?;
    Ok(())
}

/// The presence of numbers as bits: of a variable whose values leave none out, from a value on, and of one with gaps.
struct Shown;

impl Question for Shown {
    fn assert_answer(
        &self,
        rt: &impl Abort,
        _alloc: Global,
        store: &mut DomainStore,
    ) -> Result<(), NoMemory> {
        store.add_variable(&[Value(3), Value(4), Value(5), Value(6)])?;
        store.add_variable(&[Value(-2), Value(0), Value(5)])?;
        assert!(rt; store.contains(pair(0, 4)), "4 is not present");
        store.take_out(pair(0, 4));
        assert_eq!(rt; store.window(Var(0), Value(3)), Some(0b1101), "from 3");
        assert_eq!(rt; store.window(Var(0), Value(5)), Some(0b11), "from 5");
        assert_eq!(rt; store.window(Var(0), Value(2)), None, "from 2");
        assert_eq!(rt; store.window(Var(0), Value(7)), None, "from 7");
        assert_eq!(rt; store.window(Var(1), Value(0)), None, "with gaps");
        Ok(())
    }
}

#[test]
fn numbers_are_shown_as_bits(rt: HostRuntime) -> Result<(), Fail> {
    assert_answers(&rt, rt.alloc(), &Shown)?;
    Ok(())
}
