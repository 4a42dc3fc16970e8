//! `scratch` at two small cases; tests_sessions sets it beside the filters for every kind.
ghost use Rattle.std.specs.Prelude.{◌≡◌, [], ◌∷◌, ◌++◌, length, IfOk, OnOk};
ghost use Rattle.palm_model.specs.Constraint.{IsWellFormed};
ghost use Rattle.palm_model.specs.Domains.{AllAscend};
ghost use Rattle.palm_model.specs.declared.constraint.Con.TheVariants.{Differ};

use palm_base::{NoMemory, Value, ValueList, Var, VarList};
use palm_model::{Con, ConList, DomainList, Op, parts_of, scratch};
use std::alloc::Global;
use std::process::Abort;
use std::test::Fail;

/// Appends a domain.
fn push_domain(alloc: Global, list: &mut DomainList, values: &[Value]) -> Result<(), NoMemory>
    ensures { OnOk result (list.new ≡ list.old ++ values.now ∷ []) }
{
    list.push(ValueList::from_slice(alloc, values)?)
}

/// The greatest closed domains of one constraint.
fn closed_by(alloc: Global, initial: &DomainList, con: Con) -> Result<DomainList, NoMemory>
    requires ascend { AllAscend initial.now }
    requires formed { IsWellFormed (length initial.now) con }
{
    let mut constraints = ConList::new(alloc);
    constraints.push(con)?;
    scratch(alloc, initial, &constraints)
}

/// Asserts that the domains are these. A failed assertion names the constraint.
fn assert_domains(rt: &impl Abort, con: &str, domains: &DomainList, expected: &[&[Value]]) {
    assert_eq!(rt; domains.len(), expected.len(), "domains of {con}");
    for (got, wanted) in domains.as_slice().iter().zip(expected) {
        assert_eq!(rt; got.as_slice(), *wanted, "a domain of {con}");
    }
}

/// Asserts what `x < y` and `x != 2` leave of two domains from 1 to 3.
fn assert_comparisons(
    rt: &impl Abort,
    alloc: Global,
    initial: &mut DomainList,
) -> Result<(), NoMemory>
    requires { initial.old ≡ [] }
{
    push_domain(alloc, initial, &[Value(1), Value(2), Value(3)])?;
    push_domain(alloc, initial, &[Value(1), Value(2), Value(3)])?;
    let less = Con::CompareVar {
        left: Var(0),
        op: Op::Lt,
        right: Var(1),
        offset: 0,
    };
    let left: [&[Value]; 2] = [&[Value(1), Value(2)], &[Value(2), Value(3)]];
    assert_domains(rt, "x < y", &closed_by(alloc, initial, less)?, &left);
    let other = Con::CompareConst {
        left: Var(0),
        op: Op::Ne,
        value: Value(2),
    };
    let left: [&[Value]; 2] = [&[Value(1), Value(3)], &[Value(1), Value(2), Value(3)]];
    assert_domains(rt, "x != 2", &closed_by(alloc, initial, other)?, &left);
    Ok(())
}

#[test]
fn comparisons(rt: HostRuntime) -> Result<(), Fail> {
    let mut initial = DomainList::new(rt.alloc());
    assert_comparisons(&rt, rt.alloc(), &mut initial)?;
    Ok(())
}

/// `differ x y z`
fn differ(alloc: Global) -> Result<Con, NoMemory>
    ensures { IfOk result (λ con. con ≡ Differ (0 ∷ 1 ∷ 2 ∷ [])) }
{
    Ok(Con::Differ {
        vars: VarList::from_slice(alloc, &[Var(0), Var(1), Var(2)])?,
    })
}

/// How many parts it has.
fn parts_of_differ(alloc: Global) -> Result<usize, NoMemory> {
    let differ = differ(alloc)?;
    Ok(parts_of(alloc, &differ)?.len())
}

/// Asserts that `differ x y z` leaves three domains from 1 to 2.
fn assert_differ(rt: &impl Abort, alloc: Global, initial: &mut DomainList) -> Result<(), NoMemory>
    requires { initial.old ≡ [] }
{
    let both = [Value(1), Value(2)];
    push_domain(alloc, initial, &both)?;
    push_domain(alloc, initial, &both)?;
    push_domain(alloc, initial, &both)?;
    let left = [both.as_slice(), both.as_slice(), both.as_slice()];
    assert_domains(
        rt,
        "differ x y z",
        &closed_by(alloc, initial, differ(alloc)?)?,
        &left,
    );
    Ok(())
}

#[test]
fn pairwise_different(rt: HostRuntime) -> Result<(), Fail> {
    assert_eq!(rt; parts_of_differ(rt.alloc())?, 3);
    let mut initial = DomainList::new(rt.alloc());
    assert_differ(&rt, rt.alloc(), &mut initial)?;
    Ok(())
}
