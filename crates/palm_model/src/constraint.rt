//! Constraints as plain data.
use palm_base::{Sequence, Value, ValueList, Var, VarList};

/// A comparison of two numbers.
#[derive(Clone, Copy, Debug, PartialEq, Eq, PartialOrd, Ord, Hash)]
pub enum Op {
    /// `=`
    Eq,
    /// `!=`
    Ne,
    /// `<`
    Lt,
    /// `<=`
    Le,
    /// `>`
    Gt,
    /// `>=`
    Ge,
}

/// A variable with its coefficient in a sum.
#[derive(Clone, Copy, Debug, PartialEq, Eq, Hash)]
pub struct Term {
    pub factor: i32,
    pub var: Var,
}

/// What a count is compared with.
#[derive(Clone, Copy, Debug, PartialEq, Eq, Hash)]
pub enum Target {
    Const(Value),
    Variable(Var),
}

/// The terms of a sum.
pub type TermList = Sequence<Term>;

/// The rows of a table.
pub type RowList = Sequence<ValueList>;

/// A list of values for each variable, in the order of the variables.
pub type DomainList = Sequence<ValueList>;

/// Constraints.
pub type ConList = Sequence<Con>;

/// A constraint on variables.
#[derive(Debug, Drop)]
pub enum Con {
    /// `left op right + offset`
    CompareVar {
        left: Var,
        op: Op,
        right: Var,
        offset: i32,
    },
    /// `left op value`
    CompareConst {
        left: Var,
        op: Op,
        value: Value,
    },
    /// The sum of the terms stands in relation `op` to the bound.
    Linear {
        terms: TermList,
        op: Op,
        bound: i64,
    },
    /// The values of the variables are one of the rows.
    Table {
        vars: VarList,
        rows: RowList,
    },
    /// `outcome` is the entry at `index`, counted from 1.
    Element {
        outcome: Var,
        index: Var,
        entries: ValueList,
    },
    /// The number of variables that have the value stands in relation `op` to the target.
    Count {
        value: Value,
        vars: VarList,
        op: Op,
        target: Target,
    },
    /// No two of the variables have one value.
    Differ {
        vars: VarList,
    },
    /// The value of the variable is one of the values.
    Within {
        var: Var,
        values: ValueList,
    },
}
