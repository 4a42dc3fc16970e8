//! The rules by which each kind tells its reasons: which they are, up to which value they are known, and that they are the
//! reasons once they are written out.
ghost use Rattle.std.specs.Prelude.{◌≡◌, ◌<◌, [], length, OnOk};
ghost use Rattle.palm_kind.specs.Kind.{con_of};
ghost use Rattle.palm_model.specs.Constraint.{IsWellFormed};

use crate::samples::{Sample, con_of};
use crate::testing::{Question, assert_answers, assert_reason, pair, rule_of, take_out_all};
use palm_base::{NoMemory, Pair, Value, Var};
use palm_domain::DomainStore;
use palm_filter::{Filter, Interval, Intervals, Known, Reasons, Rule, Shift, write_out};
use palm_kind::Kind;
use palm_model::{Con, Op};
use std::alloc::Global;
use std::process::Abort;
use std::test::Fail;

/// A rule, as a table of constants has it: with the number of a variable in place of the variable, and of a list with how many
/// intervals it has.
#[derive(Clone, Copy, Debug)]
enum Wanted {
    Empty,
    Above(u32, i32),
    Below(u32, i32),
    At(u32, i32),
    Other(u32, i32),
    Listed(usize),
}

fn shift(var: u32, by: i32) -> Shift {
    Shift { var: Var(var), by }
}

/// The rule that is wanted.
fn wanted_rule(wanted: &Wanted) -> Rule {
    match *wanted {
        Wanted::Empty => Rule::Empty,
        Wanted::Above(var, by) => Rule::Above(shift(var, by)),
        Wanted::Below(var, by) => Rule::Below(shift(var, by)),
        Wanted::At(var, by) => Rule::At(shift(var, by)),
        Wanted::Other(var, by) => Rule::Other(shift(var, by)),
        Wanted::Listed(_) => Rule::Listed,
    }
}

/// How many intervals the list is to have.
fn wanted_intervals(wanted: &Wanted) -> usize {
    match *wanted {
        Wanted::Listed(count) => count,
        _ => 0,
    }
}

/// Appends the declared values of the interval, with their variable.
fn push_interval(
    store: &DomainStore,
    interval: &Interval,
    out: &mut Reasons,
) -> Result<(), NoMemory> {
    let var = interval.var;
    if var.0 >= store.variables() {
        return Ok(());
    }
    let values = store.initial_values(var);
    for place in interval.first..interval.end.min(values.len()) {
        out.push(Pair {
            var,
            value: values[place],
        })?;
    }
    Ok(())
}

/// The reasons of the value by the rule, as it is written out.
fn written(
    alloc: Global,
    store: &DomainStore,
    known: &Known,
    value: &Value,
    list: &mut Intervals,
) -> Result<Reasons, NoMemory> {
    write_out(store, &known.rule, value, list)?;
    let mut out = Reasons::new(alloc);
    for interval in list.as_slice() {
        push_interval(store, interval, &mut out)?;
    }
    Ok(out)
}

/// A rule that is to be told, and the last value that it is known of.
type Told = (Wanted, i32);

/// What a sample's constraint is asked: a variable and its value, the rule where one is told, and the reasons.
type Case<'a> = (Sample, (u32, i32), Option<Told>, &'a [(u32, i32)]);

/// The pairs of variables and values by their numbers.
fn pairs_of(alloc: Global, numbers: &[(u32, i32)]) -> Result<Reasons, NoMemory> {
    let mut pairs = Reasons::new(alloc);
    for (var, value) in numbers {
        pairs.push(pair(*var, *value))?;
    }
    Ok(pairs)
}

/// Asserts that the rule is the one that is wanted, and the reasons are these where it is written out.
fn assert_known(
    rt: &impl Abort,
    alloc: Global,
    store: &DomainStore,
    known: &Known,
    list: &mut Intervals,
    told: &Told,
    case: &Case,
) -> Result<(), NoMemory> {
    let (_, (_, value), _, reasons) = case;
    let (wanted, last) = told;
    assert_eq!(rt; known.rule, wanted_rule(wanted), "{case:?}");
    assert_eq!(rt; known.last.0, *last, "the last value, {case:?}");
    assert_eq!(rt; list.len(), wanted_intervals(wanted), "intervals, {case:?}");
    let out = written(alloc, store, known, &Value(*value), list)?;
    let reasons = pairs_of(alloc, reasons)?;
    assert_eq!(rt; out.as_slice(), reasons.as_slice(), "written out, {case:?}");
    Ok(())
}

/// Asserts that the filter tells the reasons by the rule that is wanted, or tells none.
fn assert_rule(
    rt: &impl Abort,
    alloc: Global,
    kind: &Kind,
    store: &DomainStore,
    case: &Case,
) -> Result<(), NoMemory>
    requires { IsWellFormed (length store.now) (con_of kind.now) }
{
    let (_, (var, value), wanted, _) = case;
    let asked = pair(*var, *value);
    let over = kind.scope().as_slice().contains(&asked.var);
    assert!(rt; over, "no variable of the constraint, {case:?}");
    match (rule_of(alloc, kind, store, &asked)?, wanted) {
        (Some((known, mut list)), Some(told)) => {
            assert_known(rt, alloc, store, &known, &mut list, told, case)
        }
        (None, None) => Ok(()),
        (Some(_), None) => panic!(rt; "a rule, {case:?}"),
        (None, Some(_)) => panic!(rt; "no rule, {case:?}"),
    }
}

/// The same of a constraint, beside the reason that its filter writes.
fn assert_told(
    rt: &impl Abort,
    alloc: Global,
    store: &DomainStore,
    con: &Con,
    case: &Case,
) -> Result<(), NoMemory>
    requires formed { IsWellFormed 3 con.now }
    requires variables { length store.now ≡ 3 }
{
    let (_, (var, value), _, reasons) = case;
    let reasons = pairs_of(alloc, reasons)?;
    let kind = Kind::from_con(alloc, con)?;
    assert_reason(
        rt,
        alloc,
        &kind,
        store,
        &pair(*var, *value),
        reasons.as_slice(),
        case,
    )?;
    assert_rule(rt, alloc, &kind, store, case)
}

/// Asserts that the sample's constraint tells what the case has.
fn assert_case(
    rt: &impl Abort,
    alloc: Global,
    store: &DomainStore,
    case: &Case,
) -> Result<(), NoMemory>
    requires { length store.now ≡ 3 }
{
    match con_of(alloc, &case.0)? {
        Some(con) => assert_told(rt, alloc, store, &con, case),
        None => panic!(rt; "no constraint, {case:?}"),
    }
}

/// Declares x, y and z with the values 1, 2, 3 and 7 in a fresh store.
fn declare_three(store: &mut DomainStore) -> Result<(), NoMemory>
    requires { store.old ≡ [] }
    ensures { OnOk result (length store.new ≡ 3) }
{
    store.add_variable(&[Value(1), Value(2), Value(3), Value(7)])?;
    store.add_variable(&[Value(1), Value(2), Value(3), Value(7)])?;
    store.add_variable(&[Value(1), Value(2), Value(3), Value(7)])?;
    Ok(())
}

/// What the kinds tell where x has the values 1, 2 and 7, y has 2, and z has 1 and 2, of 1, 2, 3 and 7 each.
const CASES: &[Case] = &[
    (
        Sample::Variables(Op::Lt, 0),
        (0, 2),
        Some((Wanted::Above(1, 1), i32::MAX)),
        &[(1, 3), (1, 7)],
    ),
    (
        Sample::Variables(Op::Le, -1),
        (0, 2),
        Some((Wanted::Above(1, 1), i32::MAX)),
        &[(1, 3), (1, 7)],
    ),
    (
        Sample::Variables(Op::Gt, 0),
        (0, 2),
        Some((Wanted::Below(1, -1), i32::MAX)),
        &[(1, 1)],
    ),
    (
        Sample::Variables(Op::Ge, 1),
        (0, 2),
        Some((Wanted::Below(1, -1), i32::MAX)),
        &[(1, 1)],
    ),
    (
        Sample::Variables(Op::Eq, 1),
        (0, 2),
        Some((Wanted::At(1, -1), i32::MAX)),
        &[(1, 1)],
    ),
    (
        Sample::Variables(Op::Eq, 1),
        (1, 2),
        Some((Wanted::At(0, 1), i32::MAX)),
        &[(0, 3)],
    ),
    (
        Sample::Variables(Op::Ne, 5),
        (0, 7),
        Some((Wanted::Other(1, -5), i32::MAX)),
        &[(1, 1), (1, 3), (1, 7)],
    ),
    (
        Sample::Constant(Op::Lt, 5),
        (0, 7),
        Some((Wanted::Empty, i32::MAX)),
        &[],
    ),
    (Sample::Within, (0, 1), Some((Wanted::Empty, i32::MAX)), &[]),
    (
        Sample::Differ,
        (0, 2),
        Some((Wanted::Other(1, 0), 2)),
        &[(1, 1), (1, 3), (1, 7)],
    ),
    (
        Sample::Total(Op::Le, 3),
        (0, 2),
        Some((Wanted::Listed(1), i32::MAX)),
        &[(1, 1)],
    ),
    (
        Sample::Sum(Op::Ge),
        (0, 1),
        Some((Wanted::Listed(1), i32::MAX)),
        &[(1, 1)],
    ),
    (
        Sample::Total(Op::Eq, 5),
        (0, 1),
        Some((Wanted::Listed(1), 1)),
        &[(1, 3), (1, 7)],
    ),
    (
        Sample::Total(Op::Eq, 5),
        (0, 7),
        Some((Wanted::Listed(1), 7)),
        &[(1, 1)],
    ),
    (
        Sample::Total(Op::Ne, 4),
        (0, 2),
        None,
        &[(1, 1), (1, 3), (1, 7)],
    ),
    (Sample::Count(Op::Ge), (0, 1), None, &[(1, 7)]),
    (Sample::CountVariable(Op::Eq), (2, 2), None, &[(1, 7)]),
    (Sample::Count(Op::Lt), (0, 7), None, &[]),
    (
        Sample::Table,
        (0, 7),
        Some((Wanted::Listed(2), 7)),
        &[(1, 1), (1, 3)],
    ),
    (Sample::WideTable, (0, 7), None, &[(2, 3)]),
    (Sample::Element, (2, 2), None, &[(0, 3)]),
    (Sample::Element, (0, 1), None, &[(2, 3)]),
];

/// What each kind tells, which the cases have.
struct Rules;

impl Question for Rules {
    fn assert_answer(
        &self,
        rt: &impl Abort,
        alloc: Global,
        store: &mut DomainStore,
    ) -> Result<(), NoMemory> {
        declare_three(store)?;
        let removed = [
            pair(0, 3),
            pair(1, 1),
            pair(1, 3),
            pair(1, 7),
            pair(2, 3),
            pair(2, 7),
        ];
        take_out_all(store, &removed);
        for case in CASES {
            assert_case(rt, alloc, store, case)?;
        }
        Ok(())
    }
}

#[test]
fn reasons_are_told_by_these_rules(rt: HostRuntime) -> Result<(), Fail> {
    assert_answers(&rt, rt.alloc(), &Rules)?;
    Ok(())
}
