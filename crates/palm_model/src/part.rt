//! The parts that a constraint is the conjunction of. Support is asked part by part.
use crate::constraint::{Op, RowList, Target, TermList};
use palm_base::{Sequence, Value, ValueList, Var, VarList};

/// One relation on the values of a few variables.
#[derive(Debug, Drop)]
pub enum Part {
    /// `left op right + offset`
    CompareVar {
        left: Var,
        op: Op,
        right: Var,
        offset: i32,
    },
    /// `var op value`
    CompareConst {
        var: Var,
        op: Op,
        value: Value,
    },
    /// The sum of the terms stands in relation `op` to the bound.
    Linear {
        terms: TermList,
        op: Op,
        bound: i64,
    },
    /// The values of the variables are one of the rows.
    Table {
        vars: VarList,
        rows: RowList,
    },
    /// `outcome` is the entry at `index`, counted from 1.
    Element {
        outcome: Var,
        index: Var,
        entries: ValueList,
    },
    /// The number of variables that have the value stands in relation `op` to the target.
    Count {
        value: Value,
        vars: VarList,
        op: Op,
        target: Target,
    },
    /// The two variables have different values.
    Differ {
        first: Var,
        second: Var,
    },
    /// The value of the variable is one of the values.
    Within {
        var: Var,
        values: ValueList,
    },
}

/// The parts of a constraint.
pub type PartList = Sequence<Part>;
