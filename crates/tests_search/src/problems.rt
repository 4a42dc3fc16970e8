//! The problems that are searched, as engines with the constraints of users alone.
ghost use Rattle.std.specs.Prelude.{◌≡◌, ◌<◌, ◌≤◌, length, true, All, IfOk};
ghost use Rattle.palm_domain.specs.Rows.{Ascends};
ghost use Rattle.palm_domain.specs.declared.limits.TheConstants.{MOST_VALUES};
ghost use Rattle.palm_model.specs.Constraint.{IsWellFormed};
ghost use Rattle.palm_search.specs.Kept.{HasOnlyUsers};

use palm_base::{Cid, NoMemory, Value, Var, VarList};
use palm_engine::Engine;
use palm_filter::Filter;
use palm_kind::Kind;
use palm_model::{Con, Op, Term, TermList};
use std::alloc::Global;

/// A problem.
#[derive(Clone, Copy, Debug)]
pub enum Problem {
    /// `x < y` over 1 to 3.
    Less,
    /// `x < y` and `y < x` over 1 to 3.
    Circle,
    /// `differ x y z` over 1 and 2.
    Three,
    /// `differ x y z w` over 1 to 3, with p over 1 and 2 behind x.
    Four,
    /// The same without p.
    FourAlone,
    /// SEND + MORE = MONEY.
    Money,
}

/// A constraint.
#[derive(Clone, Copy)]
enum Rule {
    /// The first variable is less than the second.
    Less(u32, u32),
    /// The first three variables differ.
    Three,
    /// The first variable and the last three of five differ.
    Four,
    /// The first four variables differ.
    FourAlone,
    /// The sum of the letters' columns.
    Money,
    /// The eight letters differ.
    Letters,
}

/// `left < right`, where these are two of eight variables.
fn less(left: u32, right: u32) -> Con
    requires apart { left ≡ right → ⊥ }
    requires left { left < 8 }
    requires right { right < 8 }
    ensures { IsWellFormed 8 result }
{
    Con::CompareVar {
        left: Var(left),
        op: Op::Lt,
        right: Var(right),
        offset: 0,
    }
}

/// The variables differ.
fn three(alloc: Global) -> Result<Con, NoMemory>
    ensures { IfOk result (IsWellFormed 8) }
{
    Ok(Con::Differ {
        vars: VarList::from_slice(alloc, &[Var(0), Var(1), Var(2)])?,
    })
}

/// The variables differ.
fn four(alloc: Global) -> Result<Con, NoMemory>
    ensures { IfOk result (IsWellFormed 8) }
{
    Ok(Con::Differ {
        vars: VarList::from_slice(alloc, &[Var(0), Var(2), Var(3), Var(4)])?,
    })
}

/// The variables differ.
fn four_alone(alloc: Global) -> Result<Con, NoMemory>
    ensures { IfOk result (IsWellFormed 8) }
{
    Ok(Con::Differ {
        vars: VarList::from_slice(alloc, &[Var(0), Var(1), Var(2), Var(3)])?,
    })
}

/// The variables differ.
fn letters(alloc: Global) -> Result<Con, NoMemory>
    ensures { IfOk result (IsWellFormed 8) }
{
    let vars = [
        Var(0),
        Var(1),
        Var(2),
        Var(3),
        Var(4),
        Var(5),
        Var(6),
        Var(7),
    ];
    Ok(Con::Differ {
        vars: VarList::from_slice(alloc, &vars)?,
    })
}

/// The variable, so many times.
fn term(factor: i32, var: u32) -> Term
    ensures { result ≡ record { factor = factor; var = var } }
{
    Term {
        factor,
        var: Var(var),
    }
}

/// `1000 S + 91 E - 90 N + D - 9000 M - 900 O + 10 R - Y = 0`
fn money(alloc: Global) -> Result<Con, NoMemory>
    ensures { IfOk result (IsWellFormed 8) }
{
    let terms = [
        term(1000, 0),
        term(91, 1),
        term(-90, 2),
        term(1, 3),
        term(-9000, 4),
        term(-900, 5),
        term(10, 6),
        term(-1, 7),
    ];
    Ok(Con::Linear {
        terms: TermList::from_slice(alloc, &terms)?,
        op: Op::Eq,
        bound: 0,
    })
}

/// The constraint of the rule, where its variables are two.
fn con_of(alloc: Global, rule: &Rule) -> Result<Con, NoMemory>
    ensures { IfOk result (IsWellFormed 8) }
{
    match *rule {
        Rule::Less(left, right) if left != right && left < 8 && right < 8 => Ok(less(left, right)),
        Rule::Less(_, _) | Rule::Three => three(alloc),
        Rule::Four => four(alloc),
        Rule::FourAlone => four_alone(alloc),
        Rule::Money => money(alloc),
        Rule::Letters => letters(alloc),
    }
}

/// Whether the variable is declared.
fn is_variable<F: Filter>(engine: &Engine<F>, var: &Var) -> bool
    ensures { result ≡ true → var.now < length engine.now.state.initial }
{
    var.0 < engine.store().variables()
}

/// Whether all of the variables are declared.
fn are_variables<F: Filter>(engine: &Engine<F>, vars: &[Var]) -> bool
    ensures { result ≡ true → All (λ x. x < length engine.now.state.initial) vars.now }
{
    for var in vars {
        if !is_variable(engine, var) {
            return false;
        }
    }
    true
}

/// Posts the filter under the number, where its variables are declared and no other has the number.
fn post_filter(engine: &mut Engine<Kind>, number: u32, filter: Kind) -> Result<(), NoMemory>
    requires { HasOnlyUsers engine.old.state }
    ensures { HasOnlyUsers engine.new.state }
{
    if engine.is_active(Cid::User(number)) || !are_variables(engine, filter.scope().as_slice()) {
        return Ok(());
    }
    engine.post(number, filter)
}

/// Posts the constraint of the rule under the number, where its variables are declared and no other has the number.
fn post(alloc: Global, engine: &mut Engine<Kind>, number: u32, rule: &Rule) -> Result<(), NoMemory>
    requires { HasOnlyUsers engine.old.state }
    ensures { HasOnlyUsers engine.new.state }
{
    let con = con_of(alloc, rule)?;
    match Kind::from_con(alloc, &con) {
        Ok(filter) => post_filter(engine, number, filter),
        Err(NoMemory) => Err(NoMemory),
    }
}

/// Appends so many variables with these values.
fn add(engine: &mut Engine<Kind>, count: u32, values: &[Value]) -> Result<(), NoMemory>
    requires ascend { Ascends values.now }
    requires filled { 0 < length values.now }
    requires small { length values.now ≤ MOST_VALUES }
    requires users { HasOnlyUsers engine.old.state }
    ensures { HasOnlyUsers engine.new.state }
{
    for _ in 0..count {
        if engine.store().variables() < u32::MAX {
            engine.add_variable(values)?;
        }
    }
    Ok(())
}

/// Appends so many variables over 1 to 2 or 1 to 3.
fn add_few(engine: &mut Engine<Kind>, count: u32, most: u32) -> Result<(), NoMemory>
    requires { HasOnlyUsers engine.old.state }
    ensures { HasOnlyUsers engine.new.state }
{
    match most {
        2 => add(engine, count, &[Value(1), Value(2)]),
        _ => add(engine, count, &[Value(1), Value(2), Value(3)]),
    }
}

/// Appends so many variables over the digits.
fn add_digits(engine: &mut Engine<Kind>, count: u32) -> Result<(), NoMemory>
    requires { HasOnlyUsers engine.old.state }
    ensures { HasOnlyUsers engine.new.state }
{
    let digits = [
        Value(0),
        Value(1),
        Value(2),
        Value(3),
        Value(4),
        Value(5),
        Value(6),
        Value(7),
        Value(8),
        Value(9),
    ];
    add(engine, count, &digits)
}

/// Appends a variable over the digits from 1 on.
fn add_first_digit(engine: &mut Engine<Kind>) -> Result<(), NoMemory>
    requires { HasOnlyUsers engine.old.state }
    ensures { HasOnlyUsers engine.new.state }
{
    let digits = [
        Value(1),
        Value(2),
        Value(3),
        Value(4),
        Value(5),
        Value(6),
        Value(7),
        Value(8),
        Value(9),
    ];
    add(engine, 1, &digits)
}

/// Declares the variables of the problem.
fn declare(engine: &mut Engine<Kind>, problem: &Problem) -> Result<(), NoMemory>
    requires { HasOnlyUsers engine.old.state }
    ensures { HasOnlyUsers engine.new.state }
{
    match problem {
        Problem::Less | Problem::Circle => add_few(engine, 2, 3),
        Problem::Three => add_few(engine, 3, 2),
        Problem::FourAlone => add_few(engine, 4, 3),
        Problem::Four => {
            add_few(engine, 1, 3)?;
            add_few(engine, 1, 2)?;
            add_few(engine, 3, 3)
        }
        Problem::Money => {
            add_first_digit(engine)?;
            add_digits(engine, 3)?;
            add_first_digit(engine)?;
            add_digits(engine, 3)
        }
    }
}

/// Posts the constraints of the problem, the first under number 1.
fn constrain(alloc: Global, engine: &mut Engine<Kind>, problem: &Problem) -> Result<(), NoMemory>
    requires { HasOnlyUsers engine.old.state }
    ensures { HasOnlyUsers engine.new.state }
{
    match problem {
        Problem::Less => post(alloc, engine, 1, &Rule::Less(0, 1)),
        Problem::Circle => {
            post(alloc, engine, 1, &Rule::Less(0, 1))?;
            post(alloc, engine, 2, &Rule::Less(1, 0))
        }
        Problem::Three => post(alloc, engine, 1, &Rule::Three),
        Problem::Four => post(alloc, engine, 1, &Rule::Four),
        Problem::FourAlone => post(alloc, engine, 1, &Rule::FourAlone),
        Problem::Money => {
            post(alloc, engine, 1, &Rule::Money)?;
            post(alloc, engine, 2, &Rule::Letters)
        }
    }
}

/// Gives a new engine the variables and constraints of the problem.
pub fn pose(alloc: Global, engine: &mut Engine<Kind>, problem: &Problem) -> Result<(), NoMemory>
    requires { HasOnlyUsers engine.old.state }
    ensures { HasOnlyUsers engine.new.state }
{
    declare(engine, problem)?;
    constrain(alloc, engine, problem)
}
