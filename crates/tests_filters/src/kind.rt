//! Filters made from constraints: asked for support, and for reasons.
ghost use Rattle.std.specs.Prelude.{◌≡◌, ◌∷◌, [], length, negsuc, pos, IfOk};
ghost use Rattle.palm_model.specs.Constraint.{IsWellFormed};
ghost use Rattle.palm_model.specs.declared.constraint.Con.TheVariants.{Differ, Within};

use crate::testing::{
    Question, assert_answers, assert_reason, declare_two, is_supported, pair, take_out_all,
};
use palm_base::{NoMemory, Pair, Value, ValueList, Var, VarList};
use palm_domain::DomainStore;
use palm_filter::Filter;
use palm_kind::Kind;
use palm_model::{Con, Op};
use std::alloc::Global;
use std::process::Abort;
use std::test::Fail;

fn x(value: i32) -> Pair {
    pair(0, value)
}

fn y(value: i32) -> Pair {
    pair(1, value)
}

/// Asserts that the filter of the constraint takes the pair out for these reasons; without reasons, that it is over two
/// variables and supports the pair.
fn assert_decides(
    rt: &impl Abort,
    alloc: Global,
    store: &DomainStore,
    con: &Con,
    asked: &Pair,
    reasons: Option<&[Pair]>,
) -> Result<(), NoMemory>
    requires formed { IsWellFormed 2 con.now }
    requires variables { length store.now ≡ 2 }
{
    let kind = Kind::from_con(alloc, con)?;
    match reasons {
        Some(reasons) => assert_reason(rt, alloc, &kind, store, asked, reasons, con)?,
        None => {
            assert_eq!(rt; kind.scope().len(), 2, "variables of {con:?}");
            assert!(rt;
                is_supported(&kind, store, asked),
                "no support of {asked:?} in {con:?}"
            );
        }
    }
    Ok(())
}

/// `differ x y`
fn differ(alloc: Global) -> Result<Con, NoMemory>
    ensures { IfOk result (λ con. con ≡ Differ (0 ∷ 1 ∷ [])) }
{
    Ok(Con::Differ {
        vars: VarList::from_slice(alloc, &[Var(0), Var(1)])?,
    })
}

/// Asserts that the constraint decides each of the pairs so.
fn assert_each(
    rt: &impl Abort,
    alloc: Global,
    store: &DomainStore,
    con: &Con,
    cases: &[(Pair, Option<&[Pair]>)],
) -> Result<(), NoMemory>
    requires formed { IsWellFormed 2 con.now }
    requires variables { length store.now ≡ 2 }
{
    for (asked, reasons) in cases {
        assert_decides(rt, alloc, store, con, asked, *reasons)?;
    }
    Ok(())
}

/// What `x < y` decides where y is 1.
fn assert_less(rt: &impl Abort, alloc: Global, store: &DomainStore) -> Result<(), NoMemory>
    requires { length store.now ≡ 2 }
{
    let less = Con::CompareVar {
        left: Var(0),
        op: Op::Lt,
        right: Var(1),
        offset: 0,
    };
    let cases: [(Pair, Option<&[Pair]>); 2] = [(x(1), Some(&[y(2), y(3)])), (x(2), Some(&[y(3)]))];
    assert_each(rt, alloc, store, &less, &cases)
}

/// What `differ x y` decides where y is 1.
fn assert_differ(rt: &impl Abort, alloc: Global, store: &DomainStore) -> Result<(), NoMemory>
    requires { length store.now ≡ 2 }
{
    let differ = differ(alloc)?;
    let cases: [(Pair, Option<&[Pair]>); 2] = [(x(1), Some(&[y(2), y(3)])), (x(2), None)];
    assert_each(rt, alloc, store, &differ, &cases)
}

/// `x in {-4,2,9}`
fn within(alloc: Global) -> Result<Con, NoMemory>
    ensures { IfOk result (λ con. con ≡ Within 0 (negsuc 3 ∷ pos 2 ∷ pos 9 ∷ [])) }
{
    Ok(Con::Within {
        var: Var(0),
        values: ValueList::from_slice(alloc, &[Value(-4), Value(2), Value(9)])?,
    })
}

/// Asserts that `x in {-4,2,9}` supports 2, and takes 1 and 3 out without reasons.
fn assert_within(rt: &impl Abort, alloc: Global, store: &DomainStore) -> Result<(), NoMemory>
    requires { length store.now ≡ 2 }
{
    let within = within(alloc)?;
    let kind = Kind::from_con(alloc, &within)?;
    assert!(rt;
        is_supported(&kind, store, &x(2)),
        "no support of 2 in {within:?}"
    );
    let cases: [(Pair, Option<&[Pair]>); 2] = [(x(1), Some(&[])), (x(3), Some(&[]))];
    assert_each(rt, alloc, store, &within, &cases)
}

/// What three constraints decide over x of 1 to 3 and y with the value 1 of 1 to 3.
struct Decided;

impl Question for Decided {
    fn assert_answer(
        &self,
        rt: &impl Abort,
        alloc: Global,
        store: &mut DomainStore,
    ) -> Result<(), NoMemory> {
        declare_two(store)?;
        take_out_all(store, &[y(2), y(3)]);
        assert_less(rt, alloc, store)?;
        assert_differ(rt, alloc, store)?;
        assert_within(rt, alloc, store)
    }
}

#[test]
fn a_kind_is_the_filter_of_its_constraint(rt: HostRuntime) -> Result<(), Fail> {
    assert_answers(&rt, rt.alloc(), &Decided)?;
    Ok(())
}
