//! The calls of an engine, each made only where it is allowed.
ghost use Rattle.std.specs.Prelude.{◌≡◌, ◌<◌, ◌≤◌, length, true, All};
ghost use Rattle.palm_domain.specs.Rows.{Ascends};
ghost use Rattle.palm_domain.specs.declared.limits.TheConstants.{MOST_VALUES};
ghost use Rattle.palm_model.specs.Constraint.{IsWellFormed};
ghost use Rattle.palm_model.specs.Domains.{Has};
ghost use Rattle.palm_model.specs.Log.{IsActive};
ghost use Rattle.palm_model.specs.State.{IsJustifier, present};

use crate::samples::{Sample, con_of};
use palm_base::{Cid, CidList, NoMemory, Pair, Value, ValueList, Var};
use palm_domain::DomainStore;
use palm_engine::Engine;
use palm_filter::Filter;
use palm_kind::Kind;
use palm_model::Con;
use std::alloc::Global;

/// The values of a variable.
#[derive(Clone, Copy, Debug)]
pub enum Span {
    /// 1 and 2.
    OneToTwo,
    /// 1 to 3.
    OneToThree,
    /// 0 to 3.
    ZeroToThree,
}

/// The pair of a variable and a value.
pub fn pair(var: u32, value: i32) -> Pair
    ensures { result ≡ record { var = var; value = value } }
{
    Pair {
        var: Var(var),
        value: Value(value),
    }
}

/// Whether the variable is declared.
fn is_variable<F: Filter>(engine: &Engine<F>, var: &Var) -> bool
    ensures { result ≡ true → var.now < length engine.now.state.initial }
{
    var.0 < engine.store().variables()
}

/// Whether all of the variables are declared.
fn are_variables<F: Filter>(engine: &Engine<F>, vars: &[Var]) -> bool
    ensures { result ≡ true → All (λ x. x < length engine.now.state.initial) vars.now }
{
    for var in vars {
        if !is_variable(engine, var) {
            return false;
        }
    }
    true
}

/// Whether the pair is declared.
fn is_declared<F: Filter>(engine: &Engine<F>, pair: &Pair) -> bool
    ensures { result ≡ true → Has engine.now.state.initial pair.now.var pair.now.value }
{
    let Pair { var, value } = *pair;
    let store = engine.store();
    var.0 < store.variables() && store.declared(Pair { var, value })
}

/// Whether the pair is present.
fn is_present<F: Filter>(engine: &Engine<F>, pair: &Pair) -> bool
    ensures { result ≡ true → Has (present engine.now.state) pair.now.var pair.now.value }
{
    let Pair { var, value } = *pair;
    let store = engine.store();
    var.0 < store.variables() && store.contains(Pair { var, value })
}

/// Whether the name is that of an active constraint, and no negation.
fn is_justifier<F: Filter>(engine: &Engine<F>, cid: &Cid) -> bool
    ensures justifier { result ≡ true → IsJustifier cid.now }
    ensures active { result ≡ true → IsActive engine.now.state.active cid.now }
{
    match cid {
        Cid::Decide(var) => engine.is_active(Cid::Decide(*var)),
        Cid::Not(_) => false,
        Cid::User(number) => engine.is_active(Cid::User(*number)),
    }
}

/// Whether all of the names are of active constraints.
fn are_active<F: Filter>(engine: &Engine<F>, names: &[Cid]) -> bool
    ensures { result ≡ true → All (IsActive engine.now.state.active) names.now }
{
    for cid in names {
        if !engine.is_active(*cid) {
            return false;
        }
    }
    true
}

/// Appends a variable with these values, where there is room for one.
pub fn add_variable<F: Filter>(engine: &mut Engine<F>, values: &[Value]) -> Result<(), NoMemory>
    requires ascend { Ascends values.now }
    requires filled { 0 < length values.now }
    requires small { length values.now ≤ MOST_VALUES }
{
    if engine.store().variables() < u32::MAX {
        engine.add_variable(values)?;
    }
    Ok(())
}

/// Appends so many variables with these values, while there is room.
fn add_variables<F: Filter>(
    engine: &mut Engine<F>,
    count: u32,
    values: &[Value],
) -> Result<(), NoMemory>
    requires ascend { Ascends values.now }
    requires filled { 0 < length values.now }
    requires small { length values.now ≤ MOST_VALUES }
{
    for _ in 0..count {
        add_variable(engine, values)?;
    }
    Ok(())
}

/// Appends so many variables with the values of the span, while there is room.
pub fn declare<F: Filter>(engine: &mut Engine<F>, count: u32, span: &Span) -> Result<(), NoMemory> {
    match span {
        Span::OneToTwo => add_variables(engine, count, &[Value(1), Value(2)]),
        Span::OneToThree => add_variables(engine, count, &[Value(1), Value(2), Value(3)]),
        Span::ZeroToThree => {
            add_variables(engine, count, &[Value(0), Value(1), Value(2), Value(3)])
        }
    }
}

/// Posts the constraint of the filter under the number, unless one has it.
pub fn post<F: Filter>(engine: &mut Engine<F>, number: u32, filter: F) -> Result<bool, NoMemory> {
    if engine.is_active(Cid::User(number)) || !are_variables(engine, filter.scope().as_slice()) {
        return Ok(false);
    }
    engine.post(number, filter)?;
    Ok(true)
}

/// Posts the constraint under the number, unless one has it.
fn post_con(
    alloc: Global,
    engine: &mut Engine<Kind>,
    number: u32,
    con: &Con,
) -> Result<bool, NoMemory>
    requires { IsWellFormed 4 con.now }
{
    post(engine, number, Kind::from_con(alloc, con)?)
}

/// Posts the constraint of the sample under the number, unless one has it.
pub fn post_sample(
    alloc: Global,
    engine: &mut Engine<Kind>,
    number: u32,
    sample: &Sample,
) -> Result<bool, NoMemory> {
    match con_of(alloc, sample)? {
        Some(con) => post_con(alloc, engine, number, &con),
        None => Ok(false),
    }
}

/// Posts the constraints under the numbers from 1 on, unless a constraint has one of them.
pub fn post_all(
    alloc: Global,
    engine: &mut Engine<Kind>,
    samples: &[Sample],
) -> Result<bool, NoMemory> {
    let mut number = 0_u32;
    for sample in samples {
        number = number.saturating_add(1);
        if !post_sample(alloc, engine, number, sample)? {
            return Ok(false);
        }
    }
    Ok(true)
}

/// Assumes the pair, where it is present and its variable has no decision.
pub fn assume<F: Filter>(engine: &mut Engine<F>, pair: &Pair) -> Result<bool, NoMemory> {
    let Pair { var, value } = *pair;
    if engine.is_active(Cid::Decide(var)) || !is_present(engine, pair) {
        return Ok(false);
    }
    engine.assume(Pair { var, value })?;
    Ok(true)
}

/// Forbids the pair for the justifier, where it is declared and not forbidden.
pub fn forbid<F: Filter>(
    engine: &mut Engine<F>,
    pair: &Pair,
    justifier: &Cid,
) -> Result<bool, NoMemory> {
    let Pair { var, value } = *pair;
    if engine.is_active(Cid::Not(Pair { var, value }))
        || !is_declared(engine, pair)
        || !is_justifier(engine, justifier)
    {
        return Ok(false);
    }
    engine.forbid(Pair { var, value }, &[*justifier])?;
    Ok(true)
}

/// Withdraws the constraint, where it is active.
pub fn withdraw<F: Filter>(engine: &mut Engine<F>, cid: &Cid) -> bool {
    if !engine.is_active(*cid) {
        return false;
    }
    engine.withdraw(*cid);
    true
}

/// The present values of the variable, where it is declared.
pub fn values_of(
    alloc: Global,
    store: &DomainStore,
    var: u32,
) -> Result<Option<ValueList>, NoMemory> {
    if var >= store.variables() {
        return Ok(None);
    }
    let mut present = ValueList::new(alloc);
    for value in store.initial_values(Var(var)) {
        if store.contains(pair(var, value.0)) {
            present.push(*value)?;
        }
    }
    Ok(Some(present))
}

/// The values from the first to the second.
pub fn range_of(alloc: Global, least: i32, most: i32) -> Result<ValueList, NoMemory> {
    let mut values = ValueList::new(alloc);
    for value in least..most.saturating_add(1) {
        values.push(Value(value))?;
    }
    Ok(values)
}

/// The names, with each negation replaced by its justification, which are written to `out`.
fn write_flat<F: Filter>(
    engine: &Engine<F>,
    names: &CidList,
    out: &mut CidList,
) -> Result<(), NoMemory>
    requires { All (IsActive engine.now.state.active) names.now }
{
    engine.flat(names, out)
}

/// The names, with each negation replaced by its justification, where they are of active constraints.
pub fn flat_of<F: Filter>(
    alloc: Global,
    engine: &Engine<F>,
    names: &[Cid],
) -> Result<Option<CidList>, NoMemory> {
    if !are_active(engine, names) {
        return Ok(None);
    }
    let list = CidList::from_slice(alloc, names)?;
    let mut out = CidList::new(alloc);
    write_flat(engine, &list, &mut out)?;
    Ok(Some(out))
}

/// The constraints of the conflict, where a variable has no value left.
pub fn conflict_of<F: Filter>(
    alloc: Global,
    engine: &Engine<F>,
) -> Result<Option<CidList>, NoMemory> {
    match engine.empty_variable() {
        Some(_) => {
            let mut out = CidList::new(alloc);
            engine.conflict(&mut out)?;
            Ok(Some(out))
        }
        None => Ok(None),
    }
}
