//! Constraints of every kind over the first four variables, as the tests name them.
ghost use Rattle.std.specs.Prelude.{◌≡◌, pos, [], ◌∷◌, All, IfOk, IfSome, OnOk};
ghost use Rattle.palm_model.specs.Constraint.{IsWellFormed};

use palm_base::{NoMemory, Value, ValueList, Var, VarList};
use palm_model::{Con, ConList, Op, RowList, Target, Term, TermList};
use std::alloc::Global;

/// How many variables the constraints may be over.
const VARIABLES: u32 = 4;

/// A constraint over the first four variables.
#[derive(Clone, Copy, Debug)]
pub enum Sample {
    /// The first variable is less than the second.
    Less(u32, u32),
    /// The variables have one value.
    Same(u32, u32),
    /// The variable has the value.
    Only(u32, u8),
    /// The variable does not have the value.
    Other(u32, u8),
    /// The first two variables are at most 4 together.
    Sum,
    /// The first two variables are 1 and 2, 2 and 3, or 3 and 9.
    Table,
    /// The third variable is 3, 1 or 2, as the first is 1, 2 or 3.
    Element,
    /// As many of the first three variables are 1 as the fourth says.
    Count,
    /// The first three variables differ.
    Differ,
    /// The second variable is -4, 2, 3 or 9.
    Within,
}

/// `left op right`, where these are two of the variables.
fn compared(left: u32, op: Op, right: u32) -> Option<Con>
    ensures { IfSome result (IsWellFormed 4) }
{
    if left == right || left >= VARIABLES || right >= VARIABLES {
        return None;
    }
    Some(Con::CompareVar {
        left: Var(left),
        op,
        right: Var(right),
        offset: 0,
    })
}

/// `var op value`, where it is one of the variables.
fn valued(var: u32, op: Op, value: u8) -> Option<Con>
    ensures { IfSome result (IsWellFormed 4) }
{
    if var >= VARIABLES {
        return None;
    }
    Some(Con::CompareConst {
        left: Var(var),
        op,
        value: Value(i32::from(value)),
    })
}

/// `sum 1*x + 1*y <= 4`
fn sum(alloc: Global) -> Result<Con, NoMemory>
    ensures { IfOk result (IsWellFormed 4) }
{
    let first = Term {
        factor: 1,
        var: Var(0),
    };
    let second = Term {
        factor: 1,
        var: Var(1),
    };
    Ok(Con::Linear {
        terms: TermList::from_slice(alloc, &[first, second])?,
        op: Op::Le,
        bound: 4,
    })
}

/// Appends the rows (1,2), (2,3) and (3,9).
fn push_rows(alloc: Global, rows: &mut RowList) -> Result<(), NoMemory>
    requires { rows.old ≡ [] }
    ensures { OnOk result (rows.new ≡ (pos 1 ∷ pos 2 ∷ []) ∷ (pos 2 ∷ pos 3 ∷ []) ∷ (pos 3 ∷ pos 9 ∷ []) ∷ []) }
{
    rows.push(ValueList::from_slice(alloc, &[Value(1), Value(2)])?)?;
    rows.push(ValueList::from_slice(alloc, &[Value(2), Value(3)])?)?;
    rows.push(ValueList::from_slice(alloc, &[Value(3), Value(9)])?)
}

/// `table x y : (1,2) (2,3) (3,9)`
fn table(alloc: Global) -> Result<Con, NoMemory>
    ensures { IfOk result (IsWellFormed 4) }
{
    let vars = VarList::from_slice(alloc, &[Var(0), Var(1)])?;
    let mut rows = RowList::new(alloc);
    push_rows(alloc, &mut rows)?;
    Ok(Con::Table { vars, rows })
}

/// `element z x (3,1,2)`
fn element(alloc: Global) -> Result<Con, NoMemory>
    ensures { IfOk result (IsWellFormed 4) }
{
    Ok(Con::Element {
        outcome: Var(2),
        index: Var(0),
        entries: ValueList::from_slice(alloc, &[Value(3), Value(1), Value(2)])?,
    })
}

/// `count 1 x y z = n`
fn count(alloc: Global) -> Result<Con, NoMemory>
    ensures { IfOk result (IsWellFormed 4) }
{
    Ok(Con::Count {
        value: Value(1),
        vars: VarList::from_slice(alloc, &[Var(0), Var(1), Var(2)])?,
        op: Op::Eq,
        target: Target::Variable(Var(3)),
    })
}

/// `differ x y z`
fn differ(alloc: Global) -> Result<Con, NoMemory>
    ensures { IfOk result (IsWellFormed 4) }
{
    Ok(Con::Differ {
        vars: VarList::from_slice(alloc, &[Var(0), Var(1), Var(2)])?,
    })
}

/// `y in {-4,2,3,9}`
fn within(alloc: Global) -> Result<Con, NoMemory>
    ensures { IfOk result (IsWellFormed 4) }
{
    Ok(Con::Within {
        var: Var(1),
        values: ValueList::from_slice(alloc, &[Value(-4), Value(2), Value(3), Value(9)])?,
    })
}

/// The constraint that the sample means, where it is one.
pub fn con_of(alloc: Global, sample: &Sample) -> Result<Option<Con>, NoMemory>
    ensures { IfOk result (λ found. IfSome found (IsWellFormed 4)) }
{
    Ok(match *sample {
        Sample::Less(left, right) => compared(left, Op::Lt, right),
        Sample::Same(left, right) => compared(left, Op::Eq, right),
        Sample::Only(var, value) => valued(var, Op::Eq, value),
        Sample::Other(var, value) => valued(var, Op::Ne, value),
        Sample::Sum => Some(sum(alloc)?),
        Sample::Table => Some(table(alloc)?),
        Sample::Element => Some(element(alloc)?),
        Sample::Count => Some(count(alloc)?),
        Sample::Differ => Some(differ(alloc)?),
        Sample::Within => Some(within(alloc)?),
    })
}

/// Appends the constraint of the sample, where it is one.
fn push_con(alloc: Global, list: &mut ConList, sample: &Sample) -> Result<(), NoMemory>
    requires { All (IsWellFormed 4) list.old }
    ensures { OnOk result (All (IsWellFormed 4) list.new) }
{
    match con_of(alloc, sample)? {
        Some(con) => list.push(con),
        None => Ok(()),
    }
}

/// Appends the constraints of the samples.
pub fn push_cons(alloc: Global, list: &mut ConList, samples: &[Sample]) -> Result<(), NoMemory>
    requires { All (IsWellFormed 4) list.old }
    ensures { OnOk result (All (IsWellFormed 4) list.new) }
{
    for sample in samples {
        push_con(alloc, list, sample)?;
    }
    Ok(())
}
