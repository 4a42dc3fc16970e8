//! The parts of constraints, and the variables of a part, as lists of their own.
ghost use Rattle.std.specs.Prelude.{◌≡◌, [], ◌∷◌, ◌++◌, map, OnOk, IfOk};
ghost use Rattle.std.specs.List.{flat_map};
ghost use Rattle.palm_model.specs.Count.{target_scope};
ghost use Rattle.palm_model.specs.Part.{parts, scope_of};
ghost use Rattle.palm_model.specs.Linear.{linear_parts};
ghost use Rattle.palm_model.specs.Differ.{differ_parts};

use crate::constraint::{Con, ConList, Op, RowList, Target, TermList};
use crate::part::{Part, PartList};
use palm_base::{NoMemory, Value, ValueList, Var, VarList};
use std::alloc::Global;

/// The parts of a constraint, in the order of its variables; of a sum with `=` first 'at most', then 'at least'.
pub fn parts_of(alloc: Global, con: &Con) -> Result<PartList, NoMemory>
    ensures { IfOk result (λ list. list ≡ parts con.now) }
{
    let mut list = PartList::new(alloc);
    push_parts(alloc, &mut list, con)?;
    Ok(list)
}

/// The parts of each constraint, one after another.
pub(crate) fn all_parts(alloc: Global, constraints: &ConList) -> Result<PartList, NoMemory>
    ensures { IfOk result (λ list. list ≡ flat_map parts constraints.now) }
{
    let mut list = PartList::new(alloc);
    for con in constraints.as_slice() {
        push_parts(alloc, &mut list, con)?;
    }
    Ok(list)
}

/// Lists with the same members.
pub(crate) fn copy_lists(alloc: Global, lists: &[ValueList]) -> Result<Vec<ValueList>, NoMemory>
    ensures { IfOk result (λ copy. copy.items ≡ lists.now) }
{
    let mut copy = Vec::new(alloc);
    for list in lists {
        copy.push(ValueList::from_slice(alloc, list.as_slice())?)?;
    }
    Ok(copy)
}

fn push_parts(alloc: Global, list: &mut PartList, con: &Con) -> Result<(), NoMemory>
    ensures { OnOk result (list.new ≡ list.old ++ parts con.now) }
{
    match con {
        Con::CompareVar {
            left,
            op,
            right,
            offset,
        } => push_compare_var(list, left, *op, right, *offset),
        Con::CompareConst { left, op, value } => push_compare_const(list, left, *op, value),
        Con::Linear { terms, op, bound } => push_linear(alloc, list, terms, op, *bound),
        Con::Table { vars, rows } => push_table(alloc, list, vars, rows),
        Con::Element {
            outcome,
            index,
            entries,
        } => push_element(alloc, list, outcome, index, entries),
        Con::Count {
            value,
            vars,
            op,
            target,
        } => push_count(alloc, list, value, vars, op, target),
        Con::Differ { vars } => push_differ(list, vars.as_slice()),
        Con::Within { var, values } => push_within(alloc, list, var, values),
    }
}

fn push_compare_var(
    list: &mut PartList,
    left: &Var,
    op: Op,
    right: &Var,
    offset: i32,
) -> Result<(), NoMemory>
    ensures { let part = Part.CompareVar left.now op right.now offset in
        OnOk result (list.new ≡ list.old ++ part ∷ []) }
{
    list.push(Part::CompareVar {
        left: *left,
        op,
        right: *right,
        offset,
    })
}

fn push_compare_const(list: &mut PartList, var: &Var, op: Op, value: &Value) -> Result<(), NoMemory>
    ensures { OnOk result (list.new ≡ list.old ++ Part.CompareConst var.now op value.now ∷ []) }
{
    list.push(Part::CompareConst {
        var: *var,
        op,
        value: *value,
    })
}

fn push_linear(
    alloc: Global,
    list: &mut PartList,
    terms: &TermList,
    op: &Op,
    bound: i64,
) -> Result<(), NoMemory>
    ensures { OnOk result (list.new ≡ list.old ++ linear_parts terms.now op.now bound) }
{
    match op {
        Op::Eq => {
            push_linear_part(alloc, list, terms, Op::Le, bound)?;
            push_linear_part(alloc, list, terms, Op::Ge, bound)
        }
        _ => push_linear_part(alloc, list, terms, *op, bound),
    }
}

fn push_linear_part(
    alloc: Global,
    list: &mut PartList,
    terms: &TermList,
    op: Op,
    bound: i64,
) -> Result<(), NoMemory>
    ensures { OnOk result (list.new ≡ list.old ++ Part.Linear terms.now op bound ∷ []) }
{
    list.push(Part::Linear {
        terms: TermList::from_slice(alloc, terms.as_slice())?,
        op,
        bound,
    })
}

fn push_table(
    alloc: Global,
    list: &mut PartList,
    vars: &VarList,
    rows: &RowList,
) -> Result<(), NoMemory>
    ensures { OnOk result (list.new ≡ list.old ++ Part.Table vars.now rows.now ∷ []) }
{
    list.push(Part::Table {
        vars: VarList::from_slice(alloc, vars.as_slice())?,
        rows: RowList::from_vec(copy_lists(alloc, rows.as_slice())?),
    })
}

fn push_element(
    alloc: Global,
    list: &mut PartList,
    outcome: &Var,
    index: &Var,
    entries: &ValueList,
) -> Result<(), NoMemory>
    ensures { let part = Part.Element outcome.now index.now entries.now in
        OnOk result (list.new ≡ list.old ++ part ∷ []) }
{
    list.push(Part::Element {
        outcome: *outcome,
        index: *index,
        entries: ValueList::from_slice(alloc, entries.as_slice())?,
    })
}

fn push_count(
    alloc: Global,
    list: &mut PartList,
    value: &Value,
    vars: &VarList,
    op: &Op,
    target: &Target,
) -> Result<(), NoMemory>
    ensures { let part = Part.Count value.now vars.now op.now target.now in
        OnOk result (list.new ≡ list.old ++ part ∷ []) }
{
    list.push(Part::Count {
        value: *value,
        vars: VarList::from_slice(alloc, vars.as_slice())?,
        op: *op,
        target: same_target(target),
    })
}

/// A copy of the target.
pub(crate) fn same_target(target: &Target) -> Target
    ensures { result ≡ target.now }
{
    match target {
        Target::Const(value) => Target::Const(*value),
        Target::Variable(var) => Target::Variable(*var),
    }
}

fn push_differ(list: &mut PartList, vars: &[Var]) -> Result<(), NoMemory>
    ensures { OnOk result (list.new ≡ list.old ++ differ_parts vars.now) }
{
    let mut rest = vars;
    while let [first, others @ ..] = rest {
        push_differ_with(list, first, others)?;
        rest = others;
    }
    Ok(())
}

fn push_differ_with(list: &mut PartList, first: &Var, others: &[Var]) -> Result<(), NoMemory>
    ensures { OnOk result (list.new ≡ list.old ++ map (Part.Differ first.now) others.now) }
{
    for other in others {
        push_differ_part(list, first, other)?;
    }
    Ok(())
}

fn push_differ_part(list: &mut PartList, first: &Var, second: &Var) -> Result<(), NoMemory>
    ensures { OnOk result (list.new ≡ list.old ++ Part.Differ first.now second.now ∷ []) }
{
    list.push(Part::Differ {
        first: *first,
        second: *second,
    })
}

fn push_within(
    alloc: Global,
    list: &mut PartList,
    var: &Var,
    values: &ValueList,
) -> Result<(), NoMemory>
    ensures { OnOk result (list.new ≡ list.old ++ Part.Within var.now values.now ∷ []) }
{
    list.push(Part::Within {
        var: *var,
        values: ValueList::from_slice(alloc, values.as_slice())?,
    })
}

/// The variables of a part, in the order of its constraint's text.
pub(crate) fn variables_of(alloc: Global, part: &Part) -> Result<VarList, NoMemory>
    ensures { IfOk result (λ list. list ≡ scope_of part.now) }
{
    match part {
        Part::CompareVar { left, right, .. } => two_variables(alloc, left, right),
        Part::CompareConst { var, .. } => one_variable(alloc, var),
        Part::Linear { terms, .. } => term_variables(alloc, terms),
        Part::Table { vars, .. } => Ok(VarList::from_slice(alloc, vars.as_slice())?),
        Part::Element { outcome, index, .. } => two_variables(alloc, outcome, index),
        Part::Count { vars, target, .. } => counted_variables(alloc, vars, target),
        Part::Differ { first, second } => two_variables(alloc, first, second),
        Part::Within { var, .. } => one_variable(alloc, var),
    }
}

fn one_variable(alloc: Global, var: &Var) -> Result<VarList, NoMemory>
    ensures { IfOk result (λ list. list ≡ var.now ∷ []) }
{
    let mut list = VarList::new(alloc);
    list.push(*var)?;
    Ok(list)
}

fn two_variables(alloc: Global, first: &Var, second: &Var) -> Result<VarList, NoMemory>
    ensures { IfOk result (λ list. list ≡ first.now ∷ second.now ∷ []) }
{
    let mut list = VarList::new(alloc);
    list.push(*first)?;
    list.push(*second)?;
    Ok(list)
}

fn term_variables(alloc: Global, terms: &TermList) -> Result<VarList, NoMemory>
    ensures { IfOk result (λ list. list ≡ map (λ t. t.var) terms.now) }
{
    let mut list = VarList::new(alloc);
    for term in terms.as_slice() {
        list.push(term.var)?;
    }
    Ok(list)
}

fn counted_variables(alloc: Global, vars: &VarList, target: &Target) -> Result<VarList, NoMemory>
    ensures { IfOk result (λ list. list ≡ vars.now ++ target_scope target.now) }
{
    let mut list = VarList::from_slice(alloc, vars.as_slice())?;
    if let Target::Variable(var) = target {
        list.push(*var)?;
    }
    Ok(list)
}
