//! Whether a variable stands twice in a constraint.
ghost use Rattle.std.specs.Prelude.{◌≡◌, ◌<◌, IfOk, map};
ghost use Rattle.palm_base.specs.Tells.{Tells};
ghost use Rattle.palm_read.specs.Limits.{HasRepeat, Repeats, names_of};

use crate::line::{Line, Name, NameTarget, NameTerm, Shape};
use palm_base::NoMemory;
use palm_model::MOST_SCOPE;
use smallvec::SmallVec;
use std::alloc::Global;

/// The names of one line. Up to the limit of a constraint's variables they take no memory.
type Texts<'a> = SmallVec<&'a [u8], MOST_SCOPE>;

/// Whether a variable stands twice in the constraint.
pub fn repeats_name(alloc: Global, line: &Line) -> Result<bool, NoMemory>
    ensures { IfOk result (λ found. Tells found (HasRepeat line.now)) }
{
    match line {
        Line::Add { shape, .. } => repeats_variable(alloc, shape),
        _ => Ok(false),
    }
}

fn repeats_variable(alloc: Global, shape: &Shape) -> Result<bool, NoMemory>
    ensures { IfOk result (λ found. Tells found (Repeats (names_of shape.now))) }
{
    match shape {
        Shape::CompareConst { .. } | Shape::Within { .. } => Ok(false),
        Shape::CompareVar { left, right, .. } => Ok(left.as_slice() == right.as_slice()),
        Shape::Element { outcome, index, .. } => Ok(outcome.as_slice() == index.as_slice()),
        Shape::Linear { terms, .. } => Ok(has_twice(term_names(alloc, terms.as_slice())?)),
        Shape::Table { vars, .. } | Shape::Differ { vars } => Ok(has_twice(name_texts(
            alloc,
            vars.as_slice(),
        )?)),
        Shape::Count { vars, target, .. } => {
            let mut names = name_texts(alloc, vars.as_slice())?;
            if let NameTarget::Variable(name) = target {
                names.push(name.as_slice())?;
            }
            Ok(has_twice(names))
        }
    }
}

fn name_texts(alloc: Global, names: &[Name]) -> Result<Texts<'_>, NoMemory>
    ensures { IfOk result (λ texts. map (λ t. t.now) texts.items ≡ names.now) }
{
    let mut texts = Texts::new(alloc);
    for name in names {
        texts.push(name.as_slice())?;
    }
    Ok(texts)
}

fn term_names(alloc: Global, terms: &[NameTerm]) -> Result<Texts<'_>, NoMemory>
    ensures { IfOk result (λ texts. map (λ t. t.now) texts.items ≡ map (λ t. t.name) terms.now) }
{
    let mut texts = Texts::new(alloc);
    for term in terms {
        texts.push(term.name.as_slice())?;
    }
    Ok(texts)
}

/// Whether a text stands twice in the list.
fn has_twice(mut texts: Texts<'_>) -> bool
    ensures { Tells result (Repeats (map (λ t. t.now) texts.entry.items)) }
{
    let count = texts.len();
    texts.sort_unstable();
    texts.dedup();
    texts.len() < count
}
