//! Whether a mode allows a line, whether its numbers are within their ranges, and whether nothing is missing in it.
ghost use Rattle.std.specs.Prelude.{All};
ghost use Rattle.palm_base.specs.Tells.{Tells};
ghost use Rattle.palm_read.specs.Bounds.{IsFromOneTo};
ghost use Rattle.palm_read.specs.Count.{IsSoundTarget};
ghost use Rattle.palm_read.specs.Limits.{HasNoValue, HasNothing, IsDomainInRange, IsInRange, IsShapeInRange};
ghost use Rattle.palm_read.specs.Modes.{Allows};
ghost use Rattle.palm_model.specs.Limits.{IsUpTo, IsValue};

use crate::limits::{GREATEST_NUMBER, GREATEST_TABU, GREATEST_WEIGHT, NO_BUDGET};
use crate::line::{DomainText, Line, NameTarget, NameTerm, Shape};
use crate::mode::Mode;
use palm_base::Value;
use palm_model::{GREATEST_BOUND, GREATEST_FACTOR, GREATEST_OFFSET, GREATEST_VALUE};

/// Whether the mode allows the line.
pub fn is_allowed(line: &Line, mode: Mode) -> bool
    ensures { Tells result (Allows mode line.now) }
{
    match line {
        Line::Header => matches!(mode, Mode::First),
        Line::VarIn { .. } => matches!(mode, Mode::Two),
        Line::Prove { .. }
        | Line::Minimize { .. }
        | Line::Prefer { .. }
        | Line::PreferNone(_)
        | Line::Preferred => matches!(mode, Mode::Two),
        Line::Add { shape, .. } => !matches!(shape, Shape::Within { .. })
            || matches!(mode, Mode::Two),
        _ => true,
    }
}

/// Whether each number of the line is within its range.
pub fn is_in_range(line: &Line) -> bool
    ensures { Tells result (IsInRange line.now) }
{
    match line {
        Line::Var { domain, .. } => is_domain_in_range(domain),
        Line::VarIn {
            universe,
            domain,
            ..
        } => is_domain_in_range(universe) && is_domain_in_range(domain),
        Line::Add { shape, .. } => is_shape_in_range(shape),
        Line::Why { value, .. } | Line::Minimal { value, .. } | Line::Cert { value, .. } =>
            is_value(value),
        Line::Step(number) => is_from_one_to(GREATEST_NUMBER, *number),
        Line::SolveDbt { budget } | Line::Prove { budget } | Line::Minimize { budget, .. } =>
            is_from_one_to(NO_BUDGET, *budget),
        Line::SolveRepair { tabu, budget } => is_from_one_to(GREATEST_TABU, u64::from(*tabu))
            && is_from_one_to(NO_BUDGET, *budget),
        Line::Prefer { weight, .. } => is_from_one_to(GREATEST_WEIGHT, u64::from(*weight)),
        Line::Guide(number)
        | Line::Order(number)
        | Line::DropGuide(number)
        | Line::DropOrder(number) => is_from_one_to(GREATEST_NUMBER, u64::from(*number)),
        _ => true,
    }
}

fn is_domain_in_range(domain: &DomainText) -> bool
    ensures { Tells result (IsDomainInRange domain.now) }
{
    match domain {
        DomainText::Range { low, high } => is_value(low) && is_value(high),
        DomainText::Set(values) => are_values(values.as_slice()),
    }
}

fn is_shape_in_range(shape: &Shape) -> bool
    ensures { Tells result (IsShapeInRange shape.now) }
{
    match shape {
        Shape::CompareVar { offset, .. } => is_up_to(
            u64::from(GREATEST_OFFSET),
            i64::from(*offset),
        ),
        Shape::CompareConst { value, .. } => is_value(value),
        Shape::Linear { terms, bound, .. } => are_factors(terms.as_slice())
            && is_up_to(GREATEST_BOUND, *bound),
        Shape::Table { rows, .. } => rows.as_slice().iter().all(|row| are_values(row.as_slice())),
        Shape::Element { entries, .. } => are_values(entries.as_slice()),
        Shape::Count { value, target, .. } => is_value(value) && is_target_in_range(target),
        Shape::Differ { .. } => true,
        Shape::Within { domain, .. } => is_domain_in_range(domain),
    }
}

fn is_target_in_range(target: &NameTarget) -> bool
    ensures { Tells result (IsSoundTarget target.now) }
{
    match target {
        NameTarget::Const(value) => is_value(value),
        NameTarget::Variable(_) => true,
    }
}

fn are_values(values: &[Value]) -> bool
    ensures { Tells result (All IsValue values.now) }
{
    values.iter().all(is_value)
}

fn are_factors(terms: &[NameTerm]) -> bool
    ensures { Tells result (All (λ t. IsUpTo GREATEST_FACTOR t.factor) terms.now) }
{
    terms.iter().all(|t| is_up_to(u64::from(GREATEST_FACTOR), i64::from(t.factor)))
}

fn is_value(value: &Value) -> bool
    ensures { Tells result (IsValue value.now) }
{
    is_up_to(u64::from(GREATEST_VALUE), i64::from(value.0))
}

/// Whether a number is at most so far from 0.
fn is_up_to(most: u64, number: i64) -> bool
    ensures { Tells result (IsUpTo most number) }
{
    number.unsigned_abs() <= most
}

/// Whether a number is counted from 1 and at most so great.
fn is_from_one_to(most: u64, number: u64) -> bool
    ensures { Tells result (IsFromOneTo most number) }
{
    0 < number && number <= most
}

/// Whether no value is in the domain.
fn has_no_value(domain: &DomainText) -> bool
    ensures { Tells result (HasNoValue domain.now) }
{
    match domain {
        DomainText::Range { low, high } => high.0 < low.0,
        DomainText::Set(values) => values.len() == 0,
    }
}

/// Whether nothing stands where something has to, or a coefficient is 0.
pub fn lacks_something(line: &Line) -> bool
    ensures { Tells result (HasNothing line.now) }
{
    match line {
        Line::Var { domain, .. } => has_no_value(domain),
        Line::VarIn {
            universe,
            domain,
            ..
        } => has_no_value(universe) || has_no_value(domain),
        Line::Add { shape, .. } => match shape {
            Shape::Linear { terms, .. } => terms.as_slice().iter().any(|t| t.factor == 0),
            Shape::Table { rows, .. } => rows.len() == 0,
            Shape::Element { entries, .. } => entries.len() == 0,
            Shape::Within { domain, .. } => has_no_value(domain),
            _ => false,
        },
        _ => false,
    }
}
