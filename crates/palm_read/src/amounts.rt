//! How many values, variables, rows and entries a line has.
ghost use Rattle.std.specs.Prelude.{◌<◌, length};
ghost use Rattle.palm_base.specs.Tells.{Tells};
ghost use Rattle.palm_read.specs.Domain.{IsLarge};
ghost use Rattle.palm_read.specs.Limits.{IsBeyond, HasManyRows, names_of};

use crate::limits::MOST_VALUES;
use crate::line::{DomainText, Line, NameTarget, Shape};
use palm_model::{MOST_ROWS, MOST_SCOPE};

/// Whether the line breaks a limit on how many values, variables, rows or entries there may be.
pub fn beyond(line: &Line) -> bool
    ensures { Tells result (IsBeyond line.now) }
{
    match line {
        Line::Var { domain, .. } => is_large(domain),
        Line::VarIn {
            universe,
            domain,
            ..
        } => is_large(universe) || is_large(domain),
        Line::Add { shape, .. } => has_many_variables(shape) || has_many_rows(shape),
        _ => false,
    }
}

/// Whether a domain has more values than a variable may have.
pub fn is_large(domain: &DomainText) -> bool
    ensures { Tells result (IsLarge domain.now) }
{
    match domain {
        DomainText::Range { low, high } => i64::from(high.0) - i64::from(low.0)
            >= MOST_VALUES as i64,
        DomainText::Set(values) => values.len() > MOST_VALUES,
    }
}

/// Whether a constraint has more variables than it may have.
fn has_many_variables(shape: &Shape) -> bool
    ensures { Tells result (MOST_SCOPE < length (names_of shape.now)) }
{
    match shape {
        Shape::CompareVar { .. }
        | Shape::CompareConst { .. }
        | Shape::Element { .. }
        | Shape::Within { .. } => false,
        Shape::Linear { terms, .. } => terms.len() > MOST_SCOPE,
        Shape::Table { vars, .. } | Shape::Differ { vars } => vars.len() > MOST_SCOPE,
        Shape::Count { vars, target, .. } => match target {
            NameTarget::Const(_) => vars.len() > MOST_SCOPE,
            NameTarget::Variable(_) => vars.len() >= MOST_SCOPE,
        },
    }
}

/// Whether a table has more rows, a list more entries, or a domain more values than it may have.
fn has_many_rows(shape: &Shape) -> bool
    ensures { Tells result (HasManyRows shape.now) }
{
    match shape {
        Shape::Table { rows, .. } => rows.len() > MOST_ROWS,
        Shape::Element { entries, .. } => entries.len() > MOST_ROWS,
        Shape::Within { domain, .. } => is_large(domain),
        _ => false,
    }
}
