//! Weights, and the constraints without one.
ghost use Rattle.std.specs.Prelude.{◌≡◌, map, IfOk};
ghost use Rattle.palm_book.specs.Book.{IsBook};
ghost use Rattle.palm_prefer.specs.Preferred.{is_hard};

use palm_base::{NoMemory, Sequence};
use palm_book::Book;
use palm_reduce::active_marks;
use std::alloc::Global;

/// How much a constraint weighs.
#[derive(Clone, Copy, Debug, PartialEq, Eq)]
pub struct Weight {
    /// The number of the constraint.
    pub number: u32,
    /// Its weight; the heavier one is walked first.
    pub weight: u32,
}

/// The weights of constraints, in any order.
pub type WeightList = Sequence<Weight>;

/// The marks of the active constraints without a weight. What it ensures besides holds of every book.
pub(crate) fn hard_marks(
    alloc: Global,
    book: &Book,
    weights: &WeightList,
) -> Result<Vec<bool>, NoMemory>
    ensures marks { IfOk result (λ marks. marks.items ≡ map (is_hard weights.now) book.now.constraints) }
    ensures valid { IsBook book.now }
{
    let mut marks = active_marks(alloc, book)?;
    for rank in 0..weights.len() {
        let weight = &weights.as_slice()[rank];
        if let Some(place) = book.place_of(weight.number) {
            marks[place] = false;
        }
    }
    Ok(marks)
}
