//! Constraints of each kind over x, y and z.
ghost use Rattle.std.specs.Prelude.{◌≡◌, pos, [], ◌∷◌, true, IfOk, IfSome, OnOk};
ghost use Rattle.palm_model.specs.Constraint.{IsWellFormed};
ghost use Rattle.palm_model.specs.Linear.{IsLinearOp};

use palm_base::{NoMemory, Value, ValueList, Var, VarList};
use palm_model::{Con, Op, RowList, Target, Term, TermList};
use std::alloc::Global;

/// The variables by their places.
const X: Var = Var(0);

const Y: Var = Var(1);

const Z: Var = Var(2);

/// A constraint over x, y and z.
#[derive(Clone, Copy, Debug)]
pub enum Sample {
    /// `x op y + offset`
    Variables(Op, i8),
    /// `x op value`
    Constant(Op, i8),
    /// `sum x - 2*y op 5`, where a sum may stand in the relation.
    Sum(Op),
    /// `sum x + y op bound`, where a sum may stand in the relation.
    Total(Op, i8),
    /// `sum 2*x op 5`, where a sum may stand in the relation.
    OneTerm(Op),
    /// `count 7 x y op 1`
    Count(Op),
    /// `count 7 x y op z`
    CountVariable(Op),
    /// `table x y : (1,2) (7,1) (7,3)`
    Table,
    /// `table x y z : (7,2,3)`
    WideTable,
    /// `element z x (3,1,2)`
    Element,
    /// `differ x y z`
    Differ,
    /// `x in {-4,2}`
    Within,
}

/// `x op y + offset`
fn variables(op: Op, offset: i8) -> Con
    ensures { IsWellFormed 3 result }
{
    Con::CompareVar {
        left: X,
        op,
        right: Y,
        offset: i32::from(offset),
    }
}

/// `x op value`
fn constant(op: Op, value: i8) -> Con
    ensures { IsWellFormed 3 result }
{
    Con::CompareConst {
        left: X,
        op,
        value: Value(i32::from(value)),
    }
}

/// Whether a sum may stand in the relation.
fn is_of_sums(op: Op) -> bool
    ensures { result ≡ true → IsLinearOp op }
{
    match op {
        Op::Eq | Op::Ne | Op::Le | Op::Ge => true,
        Op::Lt | Op::Gt => false,
    }
}

/// `sum x - 2*y op 5`
fn two_terms(alloc: Global, op: Op) -> Result<Con, NoMemory>
    requires { IsLinearOp op }
    ensures { IfOk result (IsWellFormed 3) }
{
    let first = Term { factor: 1, var: X };
    let second = Term { factor: -2, var: Y };
    Ok(Con::Linear {
        terms: TermList::from_slice(alloc, &[first, second])?,
        op,
        bound: 5,
    })
}

/// `sum x + y op bound`
fn total(alloc: Global, op: Op, bound: i8) -> Result<Con, NoMemory>
    requires { IsLinearOp op }
    ensures { IfOk result (IsWellFormed 3) }
{
    let first = Term { factor: 1, var: X };
    let second = Term { factor: 1, var: Y };
    Ok(Con::Linear {
        terms: TermList::from_slice(alloc, &[first, second])?,
        op,
        bound: i64::from(bound),
    })
}

/// `sum 2*x op 5`
fn one_term(alloc: Global, op: Op) -> Result<Con, NoMemory>
    requires { IsLinearOp op }
    ensures { IfOk result (IsWellFormed 3) }
{
    let term = Term { factor: 2, var: X };
    Ok(Con::Linear {
        terms: TermList::from_slice(alloc, &[term])?,
        op,
        bound: 5,
    })
}

/// `count 7 x y op 1`
fn count(alloc: Global, op: Op) -> Result<Con, NoMemory>
    ensures { IfOk result (IsWellFormed 3) }
{
    Ok(Con::Count {
        value: Value(7),
        vars: VarList::from_slice(alloc, &[X, Y])?,
        op,
        target: Target::Const(Value(1)),
    })
}

/// `count 7 x y op z`
fn count_variable(alloc: Global, op: Op) -> Result<Con, NoMemory>
    ensures { IfOk result (IsWellFormed 3) }
{
    Ok(Con::Count {
        value: Value(7),
        vars: VarList::from_slice(alloc, &[X, Y])?,
        op,
        target: Target::Variable(Z),
    })
}

/// Appends the rows (1,2), (7,1) and (7,3).
fn push_rows(alloc: Global, rows: &mut RowList) -> Result<(), NoMemory>
    requires { rows.old ≡ [] }
    ensures { OnOk result (rows.new ≡ (pos 1 ∷ pos 2 ∷ []) ∷ (pos 7 ∷ pos 1 ∷ []) ∷ (pos 7 ∷ pos 3 ∷ []) ∷ []) }
{
    rows.push(ValueList::from_slice(alloc, &[Value(1), Value(2)])?)?;
    rows.push(ValueList::from_slice(alloc, &[Value(7), Value(1)])?)?;
    rows.push(ValueList::from_slice(alloc, &[Value(7), Value(3)])?)
}

/// `table x y : (1,2) (7,1) (7,3)`
fn table(alloc: Global) -> Result<Con, NoMemory>
    ensures { IfOk result (IsWellFormed 3) }
{
    let vars = VarList::from_slice(alloc, &[X, Y])?;
    let mut rows = RowList::new(alloc);
    push_rows(alloc, &mut rows)?;
    Ok(Con::Table { vars, rows })
}

/// Appends the row (7,2,3).
fn push_wide_row(alloc: Global, rows: &mut RowList) -> Result<(), NoMemory>
    requires { rows.old ≡ [] }
    ensures { OnOk result (rows.new ≡ (pos 7 ∷ pos 2 ∷ pos 3 ∷ []) ∷ []) }
{
    rows.push(ValueList::from_slice(alloc, &[Value(7), Value(2), Value(3)])?)
}

/// `table x y z : (7,2,3)`
fn wide_table(alloc: Global) -> Result<Con, NoMemory>
    ensures { IfOk result (IsWellFormed 3) }
{
    let vars = VarList::from_slice(alloc, &[X, Y, Z])?;
    let mut rows = RowList::new(alloc);
    push_wide_row(alloc, &mut rows)?;
    Ok(Con::Table { vars, rows })
}

/// `element z x (3,1,2)`
fn element(alloc: Global) -> Result<Con, NoMemory>
    ensures { IfOk result (IsWellFormed 3) }
{
    Ok(Con::Element {
        outcome: Z,
        index: X,
        entries: ValueList::from_slice(alloc, &[Value(3), Value(1), Value(2)])?,
    })
}

/// `differ x y z`
fn differ(alloc: Global) -> Result<Con, NoMemory>
    ensures { IfOk result (IsWellFormed 3) }
{
    Ok(Con::Differ {
        vars: VarList::from_slice(alloc, &[X, Y, Z])?,
    })
}

/// `x in {-4,2}`
fn within(alloc: Global) -> Result<Con, NoMemory>
    ensures { IfOk result (IsWellFormed 3) }
{
    Ok(Con::Within {
        var: X,
        values: ValueList::from_slice(alloc, &[Value(-4), Value(2)])?,
    })
}

/// The constraint that the sample means, where it is one.
pub fn con_of(alloc: Global, sample: &Sample) -> Result<Option<Con>, NoMemory>
    ensures { IfOk result (λ found. IfSome found (IsWellFormed 3)) }
{
    Ok(match *sample {
        Sample::Variables(op, offset) => Some(variables(op, offset)),
        Sample::Constant(op, value) => Some(constant(op, value)),
        Sample::Sum(op) if is_of_sums(op) => Some(two_terms(alloc, op)?),
        Sample::Total(op, bound) if is_of_sums(op) => Some(total(alloc, op, bound)?),
        Sample::OneTerm(op) if is_of_sums(op) => Some(one_term(alloc, op)?),
        Sample::Sum(_) | Sample::Total(_, _) | Sample::OneTerm(_) => None,
        Sample::Count(op) => Some(count(alloc, op)?),
        Sample::CountVariable(op) => Some(count_variable(alloc, op)?),
        Sample::Table => Some(table(alloc)?),
        Sample::WideTable => Some(wide_table(alloc)?),
        Sample::Element => Some(element(alloc)?),
        Sample::Differ => Some(differ(alloc)?),
        Sample::Within => Some(within(alloc)?),
    })
}
