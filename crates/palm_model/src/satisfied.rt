//! Whether an assignment satisfies a part. An assignment is a list with a value for each variable.
ghost use Rattle.std.specs.Prelude.{◌≡◌, ◌≢◌, ◌<◌, ◌≤◌, ◌^◌, ◌*ℤ◌, FitsSigned, true, false, length, map, All};
ghost use Rattle.std.specs.Int.{w32};
ghost use Rattle.palm_base.specs.Tells.{Tells};
ghost use Rattle.palm_model.specs.Relation.{Stands, is_standing};
ghost use Rattle.palm_model.specs.Limits.{IsUpTo};
ghost use Rattle.palm_model.specs.Linear.{IsFactor, term_vars, total};
ghost use Rattle.palm_model.specs.Count.{target_scope, count_among};
ghost use Rattle.palm_model.specs.Part.{Holds};
ghost use Rattle.palm_model.specs.Trial.{listed, IsTriable};

use crate::constraint::{Op, RowList, Target, Term, TermList};
use crate::limits::{GREATEST_PRODUCT, MOST_SCOPE};
use crate::part::Part;
use palm_base::{Value, ValueList, Var, VarList};

/// Whether the assignment satisfies the part.
pub(crate) fn is_satisfied(part: &Part, values: &[Value]) -> bool
    requires { IsTriable (length values.now) part.now }
    ensures { Tells result (Holds part.now (listed values.now)) }
{
    match part {
        Part::CompareVar {
            left,
            op,
            right,
            offset,
        } => meets_comparison(values, left, *op, right, *offset),
        Part::CompareConst { var, op, value } => {
            stands(*op, number_at(values, var), number_of(value))
        }
        Part::Linear { terms, op, bound } => stands(*op, total_of(values, terms), *bound),
        Part::Table { vars, rows } => is_table_row(values, vars, rows),
        Part::Element {
            outcome,
            index,
            entries,
        } => is_entry(values, outcome, index, entries),
        Part::Count {
            value,
            vars,
            op,
            target,
        } => meets_count(values, value, vars, *op, target),
        Part::Differ { first, second } => number_at(values, first) != number_at(values, second),
        Part::Within {
            var,
            values: members,
        } => is_one_of(values, var, members),
    }
}

/// The number of a value.
pub fn number_of(value: &Value) -> i64
    ensures same { result ≡ value.now }
    ensures fits { FitsSigned w32 value.now }
{
    i64::from(value.0)
}

/// The number that the assignment gives the variable.
fn number_at(values: &[Value], var: &Var) -> i64
    requires { var.now < length values.now }
    ensures same { result ≡ listed values.now var.now }
    ensures fits { FitsSigned w32 (listed values.now var.now) }
{
    number_of(&values[var.0 as usize])
}

/// Whether the first number stands in the relation to the second.
pub fn stands(op: Op, left: i64, right: i64) -> bool
    ensures test { result ≡ is_standing op left right }
    ensures stands { Tells result (Stands op left right) }
{
    match op {
        Op::Eq => left == right,
        Op::Ne => left != right,
        Op::Lt => left < right,
        Op::Le => left <= right,
        Op::Gt => left > right,
        Op::Ge => left >= right,
    }
}

/// Whether one variable stands in the relation to another with an offset.
fn meets_comparison(values: &[Value], left: &Var, op: Op, right: &Var, offset: i32) -> bool
    requires left { left.now < length values.now }
    requires right { right.now < length values.now }
    ensures { Tells result (Holds (Part.CompareVar left.now op right.now offset) (listed values.now)) }
{
    stands(
        op,
        number_at(values, left),
        number_at(values, right) + i64::from(offset),
    )
}

/// The sum of the terms.
fn total_of(values: &[Value], terms: &TermList) -> i64
    requires factors { All IsFactor terms.now }
    requires few { length terms.now ≤ MOST_SCOPE }
    requires declared { All (λ x. x < length values.now) (term_vars terms.now) }
    ensures { result ≡ total (listed values.now) terms.now }
{
    let mut sum = 0i64;
    for term in terms.as_slice() {
        sum += term_value(values, term);
    }
    sum
}

/// The coefficient times the value of its variable.
fn term_value(values: &[Value], term: &Term) -> i64
    requires factor { IsFactor term.now }
    requires declared { term.now.var < length values.now }
    ensures product { result ≡ term.now.factor *ℤ listed values.now term.now.var }
    ensures small { IsUpTo GREATEST_PRODUCT result }
{
    i64::from(term.factor) * number_at(values, &term.var)
}

/// Whether the values of the variables are one of the rows.
fn is_table_row(values: &[Value], vars: &VarList, rows: &RowList) -> bool
    requires { All (λ x. x < length values.now) vars.now }
    ensures { Tells result (Holds (Part.Table vars.now rows.now) (listed values.now)) }
{
    for row in rows.as_slice() {
        if is_row(values, vars.as_slice(), row.as_slice()) {
            return true;
        }
    }
    false
}

/// Whether the row has the values of the variables.
fn is_row(values: &[Value], vars: &[Var], row: &[Value]) -> bool
    requires { All (λ x. x < length values.now) vars.now }
    ensures { Tells result (row.now ≡ map (listed values.now) vars.now) }
{
    if row.len() != vars.len() {
        return false;
    }
    for (place, var) in vars.iter().enumerate() {
        if number_of(&row[place]) != number_at(values, var) {
            return false;
        }
    }
    true
}

/// Whether the outcome is the entry at the index, counted from 1.
fn is_entry(values: &[Value], outcome: &Var, index: &Var, entries: &ValueList) -> bool
    requires outcome { outcome.now < length values.now }
    requires index { index.now < length values.now }
    ensures { Tells result (Holds (Part.Element outcome.now index.now entries.now) (listed values.now)) }
{
    let place = number_at(values, index);
    if place < 1 {
        return false;
    }
    match entries.as_slice().get((place - 1) as usize) {
        Some(entry) => number_of(entry) == number_at(values, outcome),
        None => false,
    }
}

/// Whether the number of variables that have the value stands in the relation to the target.
fn meets_count(values: &[Value], value: &Value, vars: &VarList, op: Op, target: &Target) -> bool
    requires vars { All (λ x. x < length values.now) vars.now }
    requires target { All (λ x. x < length values.now) (target_scope target.now) }
    ensures { Tells result (Holds (Part.Count value.now vars.now op target.now) (listed values.now)) }
{
    let bound = match target {
        Target::Const(number) => number_of(number),
        Target::Variable(var) => number_at(values, var),
    };
    stands(
        op,
        count_among(values, value, vars.as_slice()) as i64,
        bound,
    )
}

/// How many of the variables have the value.
fn count_among(values: &[Value], value: &Value, vars: &[Var]) -> usize
    requires { All (λ x. x < length values.now) vars.now }
    ensures count { result ≡ count_among (listed values.now) value.now vars.now }
    ensures small { result < 2 ^ 63 }
{
    let mut count = 0;
    for var in vars {
        if number_at(values, var) == number_of(value) {
            count += 1;
        }
    }
    count
}

/// Whether the value of the variable is one of the members.
fn is_one_of(values: &[Value], var: &Var, members: &ValueList) -> bool
    requires { var.now < length values.now }
    ensures { Tells result (Holds (Part.Within var.now members.now) (listed values.now)) }
{
    members.as_slice().contains(&values[var.0 as usize])
}
