//! The constraints with a weight, in the order in which they are walked.
ghost use Rattle.std.specs.Prelude.{◌≡◌, Contains, true, IfSome, IfNone, IfOk};
ghost use Rattle.palm_book.specs.Book.{IsBook};
ghost use Rattle.palm_book.specs.declared.book.BookCon.{BookCon as BookConTerm};
ghost use Rattle.palm_prefer.specs.Preferred.{AreWeights};
ghost use Rattle.palm_prefer.specs.Softs.{AreOrdered, AreSofts, IsSoftFor};

use crate::weights::{Weight, WeightList};
use palm_base::NoMemory;
use palm_book::Book;
use std::alloc::Global;
use std::cmp::Reverse;

/// An active constraint with a weight.
#[derive(Clone, Copy, Debug)]
pub(crate) struct Soft {
    pub(crate) weight: u32,
    pub(crate) place: usize,
}

/// The active constraint of the book with this weight.
fn soft_at(book: &Book, weight: &Weight) -> Option<Soft>
    requires { IsBook book.now }
    ensures found { IfSome result (λ soft. IsSoftFor book.now.constraints weight.now soft) }
    ensures none { IfNone result ((c : BookConTerm) → Contains book.now.constraints c → c.number ≡ weight.now.number → c.active ≡ true → ⊥) }
{
    let place = book.place_of(weight.number)?;
    if !book.constraint(place).active {
        return None;
    }
    Some(Soft {
        weight: weight.weight,
        place,
    })
}

/// The active constraints with a weight.
fn softs_of(alloc: Global, book: &Book, weights: &WeightList) -> Result<Vec<Soft>, NoMemory>
    requires book { IsBook book.now }
    requires weights { AreWeights book.now weights.now }
    ensures { IfOk result (λ softs. AreSofts book.now.constraints weights.now softs.items) }
{
    let mut softs = Vec::new(alloc);
    for rank in 0..weights.len() {
        if let Some(soft) = soft_at(book, &weights.as_slice()[rank]) {
            softs.push(soft)?;
        }
    }
    Ok(softs)
}

/// The active constraints with a weight by falling weight, and where weights are equal by rising number.
pub(crate) fn ordered(
    alloc: Global,
    book: &Book,
    weights: &WeightList,
) -> Result<Vec<Soft>, NoMemory>
    requires book { IsBook book.now }
    requires weights { AreWeights book.now weights.now }
    ensures { IfOk result (λ softs. AreOrdered book.now.constraints weights.now softs.items) }
{
    let mut softs = softs_of(alloc, book, weights)?;
    softs.sort_unstable_by_key(|soft| (Reverse(soft.weight), soft.place));
    Ok(softs)
}
