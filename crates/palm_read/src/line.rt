//! What a line of a session says.
use palm_base::{ByteList, Sequence, Value, ValueList};
use palm_model::{Op, RowList};

/// A name: its bytes.
pub type Name = ByteList;

/// Names.
pub type NameList = Sequence<Name>;

/// The terms of a sum, by name.
pub type NameTermList = Sequence<NameTerm>;

/// A variable's name with its coefficient in a sum.
#[derive(Debug, Drop)]
pub struct NameTerm {
    pub factor: i32,
    pub name: Name,
}

/// What a count is compared with, by name.
#[derive(Debug, Drop)]
pub enum NameTarget {
    Const(Value),
    Variable(Name),
}

/// A domain as a line writes it.
#[derive(Debug, Drop)]
pub enum DomainText {
    /// All whole numbers from `low` to `high`.
    Range { low: Value, high: Value },
    /// These values, ascending and without repeats.
    Set(ValueList),
}

/// A constraint with names in place of variables.
#[derive(Debug, Drop)]
pub enum Shape {
    /// `left op right + offset`
    CompareVar {
        left: Name,
        op: Op,
        right: Name,
        offset: i32,
    },
    /// `left op value`
    CompareConst {
        left: Name,
        op: Op,
        value: Value,
    },
    /// The sum of the terms stands in relation `op` to the bound.
    Linear {
        terms: NameTermList,
        op: Op,
        bound: i64,
    },
    /// The values of the variables are one of the rows.
    Table {
        vars: NameList,
        rows: RowList,
    },
    /// `outcome` is the entry at `index`, counted from 1.
    Element {
        outcome: Name,
        index: Name,
        entries: ValueList,
    },
    /// The number of variables that have the value stands in relation `op` to the target.
    Count {
        value: Value,
        vars: NameList,
        op: Op,
        target: NameTarget,
    },
    /// No two of the variables have one value.
    Differ {
        vars: NameList,
    },
    /// The value of the variable is one of the domain.
    Within {
        var: Name,
        domain: DomainText,
    },
}

/// A line that was read.
#[derive(Debug, Drop)]
pub enum Line {
    /// A blank line, or one whose first byte that is no blank is `#`.
    Comment,
    /// The header `palm 2`
    Header,
    /// `var NAME DOMAIN`
    Var {
        name: Name,
        domain: DomainText,
    },
    /// `var NAME DOMAIN in DOMAIN`: the universe, and the domain that the variable keeps to
    VarIn {
        name: Name,
        universe: DomainText,
        domain: DomainText,
    },
    /// `add NAME : CONSTRAINT`
    Add {
        name: Name,
        shape: Shape,
    },
    /// `relax NAME`
    Relax(Name),
    /// `enforce NAME`
    Enforce(Name),
    /// `retract NAME`
    Retract(Name),
    /// `domains`
    Domains,
    /// `domain NAME`
    Domain(Name),
    /// `list`
    List,
    /// `log`
    Log,
    /// `why NAME VALUE`
    Why {
        name: Name,
        value: Value,
    },
    /// `conflict`
    Conflict,
    /// `minimal conflict`
    MinimalConflict,
    /// `minimal NAME VALUE`
    Minimal {
        name: Name,
        value: Value,
    },
    /// `pause`
    Pause,
    /// `resume`
    Resume,
    /// `step N`
    Step(u64),
    /// `solve dbt`, with `budget N` or without a limit
    SolveDbt {
        budget: u64,
    },
    /// `solve repair tabu N budget N`
    SolveRepair {
        tabu: u32,
        budget: u64,
    },
    /// `prove budget N`: a search as of `solve dbt`, whose reply is a proof
    Prove {
        budget: u64,
    },
    /// `minimize NAME budget N`: a search for an assignment in which the variable is least
    Minimize {
        target: Name,
        budget: u64,
    },
    /// `prefer NAME N`: the constraint has this weight
    Prefer {
        name: Name,
        weight: u32,
    },
    /// `prefer NAME none`: the constraint has no weight
    PreferNone(Name),
    /// `preferred`
    Preferred,
    /// `cert NAME VALUE`
    Cert {
        name: Name,
        value: Value,
    },
    /// `cert conflict`
    CertConflict,
    /// `guide N`
    Guide(u32),
    /// `guide none`
    GuideNone,
    /// `order N`
    Order(u32),
    /// `order none`
    OrderNone,
    /// `drop guide N`
    DropGuide(u32),
    /// `drop order N`
    DropOrder(u32),
    /// `quit`
    Quit,
}
