//! Support and reasons of comparisons over small domains.
ghost use Rattle.std.specs.Prelude.{◌≡◌, ◌<◌, length, Contains, IfOk};
ghost use Rattle.palm_domain.specs.Rows.{present_of};
ghost use Rattle.palm_model.specs.Comparison.{IsComparison};
ghost use Rattle.palm_model.specs.Constraint.{IsWellFormed, scope};
ghost use Rattle.palm_model.specs.Domains.{Has};

use crate::testing::{
    Question, assert_answers, assert_reason, declare_two, is_supported, pair, take_out_all,
};
use filter_compare::CompareFilter;
use palm_base::{NoMemory, Pair, Steps, Value, Var};
use palm_domain::DomainStore;
use palm_filter::{Filter, ask};
use palm_model::{Con, Op};
use std::alloc::Global;
use std::marker::Brand;
use std::process::Abort;
use std::sync::ledger::{Blank, Ledger};
use std::test::Fail;

/// The answer of a question that is counted from nothing.
fn answer<F: Filter, L: Ledger>(
    filter: &F,
    store: &DomainStore,
    var: Var,
    value: Value,
    blank: Blank,
) -> bool
    requires formed { IsWellFormed (length store.now) (F.meaning filter.now) }
    requires over { Contains (scope (F.meaning filter.now)) var }
    requires present { Has (present_of store.now) var value }
    requires named { blank.name ≡ L.name }
    requires parts { blank.parts ≡ L.parts }
    requires shared { 0 < L.parts }
{
    let mut steps = Steps::<L>::start(blank);
    ask(filter, store, Pair { var, value }, &mut steps)
}

/// The filter of a comparison. It alone owns a constraint, since each place that gives one up costs its proof.
fn filter_of(alloc: Global, con: Con) -> Result<CompareFilter, NoMemory>
    requires formed { IsWellFormed 2 con }
    requires kind { IsComparison con }
    ensures { IfOk result (λ filter. filter ≡ con) }
{
    CompareFilter::new(alloc, &con)
}

/// What `x < y` takes out where y is not 3, and for which reason.
struct Fitting;

impl Question for Fitting {
    fn assert_answer(
        &self,
        rt: &impl Abort,
        alloc: Global,
        store: &mut DomainStore,
    ) -> Result<(), NoMemory> {
        declare_two(store)?;
        take_out_all(store, &[pair(1, 3)]);
        let con = Con::CompareVar {
            left: Var(0),
            op: Op::Lt,
            right: Var(1),
            offset: 0,
        };
        let filter = filter_of(alloc, con)?;
        assert_reason(
            rt,
            alloc,
            &filter,
            store,
            &pair(0, 2),
            &[pair(1, 3)],
            &"x < y",
        )
    }
}

#[test]
fn a_reason_is_what_would_fit(rt: HostRuntime) -> Result<(), Fail> {
    assert_answers(&rt, rt.alloc(), &Fitting)?;
    Ok(())
}

/// What `x = 2` is over, and the reason for which it takes 1 out.
struct Constant;

impl Question for Constant {
    fn assert_answer(
        &self,
        rt: &impl Abort,
        alloc: Global,
        store: &mut DomainStore,
    ) -> Result<(), NoMemory> {
        declare_two(store)?;
        let con = Con::CompareConst {
            left: Var(0),
            op: Op::Eq,
            value: Value(2),
        };
        let filter = filter_of(alloc, con)?;
        assert_eq!(rt; filter.scope().as_slice(), [Var(0)].as_slice());
        assert_reason(rt, alloc, &filter, store, &pair(0, 1), &[], &"x = 2")
    }
}

#[test]
fn a_comparison_with_a_value_has_no_pairs_as_reason(rt: HostRuntime) -> Result<(), Fail> {
    assert_answers(&rt, rt.alloc(), &Constant)?;
    Ok(())
}

/// Asserts that `x = y - 2` supports 1, where that question is counted, and does not support 2.
fn assert_counted(rt: &impl Abort, alloc: Global, store: &DomainStore) -> Result<(), NoMemory>
    requires { length store.now ≡ 2 }
{
    let con = Con::CompareVar {
        left: Var(0),
        op: Op::Eq,
        right: Var(1),
        offset: -2,
    };
    let filter = filter_of(alloc, con)?;
    assert!(rt; store.contains(pair(0, 1)), "x has no 1");
    let one = answer::<CompareFilter, Brand>(&filter, store, Var(0), Value(1), Blank::new(1));
    assert!(rt; one, "1 has no support");
    assert!(rt; !is_supported(&filter, store, &pair(0, 2)), "2 has support");
    Ok(())
}

/// What a counted question is answered.
struct Counted;

impl Question for Counted {
    fn assert_answer(
        &self,
        rt: &impl Abort,
        alloc: Global,
        store: &mut DomainStore,
    ) -> Result<(), NoMemory> {
        declare_two(store)?;
        assert_counted(rt, alloc, store)
    }
}

#[test]
fn a_question_is_counted_and_answered(rt: HostRuntime) -> Result<(), Fail> {
    assert_answers(&rt, rt.alloc(), &Counted)?;
    Ok(())
}
