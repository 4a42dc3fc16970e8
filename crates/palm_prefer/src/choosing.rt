//! What is preferred of the active constraints of a book.
ghost use Rattle.std.specs.Prelude.{◌≡◌, ◌<◌, map, IfOk};
ghost use Rattle.palm_book.specs.Book.{IsBook, initial_of};
ghost use Rattle.palm_model.specs.Minimal.{AreConflict};
ghost use Rattle.palm_reduce.specs.Kept.{AreKept, CanLend};
ghost use Rattle.palm_reduce.specs.Walked.{HasMarked};
ghost use Rattle.palm_prefer.specs.Preferred.{AreWeights, IsPreferred, hard, is_hard};

use crate::answer::Preferred;
use crate::order::ordered;
use crate::walking::{marked_cids, walk_over};
use crate::weights::{WeightList, hard_marks};
use palm_base::{NoMemory, Steps};
use palm_book::Book;
use palm_engine::Engine;
use palm_kind::Kind;
use palm_reduce::{Kinds, Lent, active_marks, engine_of, minimal_conflict_in};
use std::alloc::Global;
use std::marker::Brand;
use std::sync::ledger::{Blank, Ledger};

/// What is kept from the marked constraints on, which an engine has.
fn keep_most<'a, L: Ledger>(
    alloc: Global,
    book: &Book,
    kinds: &Kinds<'a>,
    weights: &WeightList,
    engine: Engine<Lent<'a>>,
    marks: Vec<bool>,
    steps: &mut Steps<L>,
) -> Result<Preferred, NoMemory>
    requires book { IsBook book.now }
    requires weights { AreWeights book.now weights.now }
    requires kept { AreKept book.now (map (λ c. c.active) book.now.constraints) kinds.now }
    requires marks { marks.items ≡ map (is_hard weights.now) book.now.constraints }
    requires filled { HasMarked book.now marks.items engine.state }
    requires free { AreConflict (initial_of book.now) (hard book.now weights.now) → ⊥ }
    ensures { IfOk result (IsPreferred book.now weights.now) }
{
    let order = ordered(alloc, book, weights)?;
    let walk = walk_over(alloc, book, kinds, order.as_slice(), engine, marks, steps)?;
    let keep = marked_cids(alloc, book, walk.marks.as_slice())?;
    Ok(Preferred::Kept {
        keep,
        left: walk.left,
    })
}

/// What is preferred, by the filters of the active constraints, with an engine and a counter of its own.
fn choose<L: Ledger>(
    alloc: Global,
    book: &Book,
    kinds: &Kinds<'_>,
    weights: &WeightList,
    blank: Blank,
) -> Result<Preferred, NoMemory>
    requires named { blank.name ≡ L.name }
    requires parts { blank.parts ≡ L.parts }
    requires shared { 0 < L.parts }
    requires weights { AreWeights book.now weights.now }
    requires kept { AreKept book.now (map (λ c. c.active) book.now.constraints) kinds.now }
    ensures { IfOk result (IsPreferred book.now weights.now) }
{
    let mut steps = Steps::<L>::start(blank);
    let marks = hard_marks(alloc, book, weights)?;
    let mut engine = engine_of(alloc, book, kinds, marks.as_slice())?;
    match minimal_conflict_in(
        alloc,
        book,
        kinds,
        marks.as_slice(),
        &mut engine,
        &mut steps,
    )? {
        Some(conflict) => Ok(Preferred::Hard(conflict)),
        None => keep_most(alloc, book, kinds, weights, engine, marks, &mut steps),
    }
}

/// What is preferred of the active constraints of a book, by these weights, which are of different constraints of the
/// book; those of relaxed ones do not matter. Where the active constraints without a weight are a conflict, it is their
/// minimal conflict. Else those are kept, and the active constraints with a weight are walked by falling weight, and by
/// rising number where weights are equal: each is kept where it makes no conflict with those kept before it, and else left
/// out, with the minimal conflict of these and itself. It filters with one engine of its own and without an order, by the
/// filters of the lender, where the active constraints are active too. The one error is want of memory.
pub fn preferred(
    alloc: Global,
    book: &Book,
    weights: &WeightList,
    lender: &Engine<Kind>,
) -> Result<Preferred, NoMemory>
    requires weights { AreWeights book.now weights.now }
    requires lends { CanLend book.now lender.now.state }
    ensures { IfOk result (IsPreferred book.now weights.now) }
{
    let marks = active_marks(alloc, book)?;
    let kinds = Kinds::new(alloc, book, marks.as_slice(), lender)?;
    choose::<Brand>(alloc, book, &kinds, weights, Blank::new(1))
}
