//! Copies of constraints.
ghost use Rattle.std.specs.Prelude.{◌≡◌, IfOk};

use crate::constraint::{Con, Op, RowList, Target, TermList};
use crate::parts::{copy_lists, same_target};
use palm_base::{NoMemory, Value, ValueList, Var, VarList};
use std::alloc::Global;

/// A copy of the constraint.
pub fn copy_of(alloc: Global, con: &Con) -> Result<Con, NoMemory>
    ensures { IfOk result (λ copy. copy ≡ con.now) }
{
    match con {
        Con::CompareVar {
            left,
            op,
            right,
            offset,
        } => Ok(Con::CompareVar {
            left: *left,
            op: *op,
            right: *right,
            offset: *offset,
        }),
        Con::CompareConst { left, op, value } => Ok(Con::CompareConst {
            left: *left,
            op: *op,
            value: *value,
        }),
        Con::Linear { terms, op, bound } => copy_linear(alloc, terms, op, *bound),
        Con::Table { vars, rows } => copy_table(alloc, vars, rows),
        Con::Element {
            outcome,
            index,
            entries,
        } => copy_element(alloc, outcome, index, entries),
        Con::Count {
            value,
            vars,
            op,
            target,
        } => copy_count(alloc, value, vars, op, target),
        Con::Differ { vars } => copy_differ(alloc, vars),
        Con::Within { var, values } => copy_within(alloc, var, values),
    }
}

fn copy_linear(alloc: Global, terms: &TermList, op: &Op, bound: i64) -> Result<Con, NoMemory>
    ensures { IfOk result (λ copy. copy ≡ Con.Linear terms.now op.now bound) }
{
    Ok(Con::Linear {
        terms: TermList::from_slice(alloc, terms.as_slice())?,
        op: *op,
        bound,
    })
}

fn copy_table(alloc: Global, vars: &VarList, rows: &RowList) -> Result<Con, NoMemory>
    ensures { IfOk result (λ copy. copy ≡ Con.Table vars.now rows.now) }
{
    Ok(Con::Table {
        vars: VarList::from_slice(alloc, vars.as_slice())?,
        rows: RowList::from_vec(copy_lists(alloc, rows.as_slice())?),
    })
}

fn copy_element(
    alloc: Global,
    outcome: &Var,
    index: &Var,
    entries: &ValueList,
) -> Result<Con, NoMemory>
    ensures { IfOk result (λ copy. copy ≡ Con.Element outcome.now index.now entries.now) }
{
    Ok(Con::Element {
        outcome: *outcome,
        index: *index,
        entries: ValueList::from_slice(alloc, entries.as_slice())?,
    })
}

fn copy_count(
    alloc: Global,
    value: &Value,
    vars: &VarList,
    op: &Op,
    target: &Target,
) -> Result<Con, NoMemory>
    ensures { IfOk result (λ copy. copy ≡ Con.Count value.now vars.now op.now target.now) }
{
    Ok(Con::Count {
        value: *value,
        vars: VarList::from_slice(alloc, vars.as_slice())?,
        op: *op,
        target: same_target(target),
    })
}

fn copy_differ(alloc: Global, vars: &VarList) -> Result<Con, NoMemory>
    ensures { IfOk result (λ copy. copy ≡ Con.Differ vars.now) }
{
    Ok(Con::Differ {
        vars: VarList::from_slice(alloc, vars.as_slice())?,
    })
}

fn copy_within(alloc: Global, var: &Var, values: &ValueList) -> Result<Con, NoMemory>
    ensures { IfOk result (λ copy. copy ≡ Con.Within var.now values.now) }
{
    Ok(Con::Within {
        var: *var,
        values: ValueList::from_slice(alloc, values.as_slice())?,
    })
}
