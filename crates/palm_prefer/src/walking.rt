//! The walk over the constraints with a weight.
ghost use Rattle.std.specs.Prelude.{◌≡◌, ◌++◌, ◌<◌, ◌∷◌, ◌≢◌, [], ℕ, List, All, AllPairs, false, length, slice_index_or, slice_get, Some, IfOk, OnOk};
ghost use Rattle.palm_book.specs.Book.{IsBook, active_of, initial_of};
ghost use Rattle.palm_book.specs.declared.book.BookCon.{BookCon as BookConTerm};
ghost use Rattle.palm_model.specs.Log.{Active, cids_of};
ghost use Rattle.palm_model.specs.Minimal.{AreConflict};
ghost use Rattle.palm_reduce.specs.Kept.{AreKept, IsKeptAt};
ghost use Rattle.palm_reduce.specs.Marked.{marked};
ghost use Rattle.palm_reduce.specs.Walked.{HasMarked};
ghost use Rattle.palm_prefer.specs.Walked.{FitsBook, HasWalked, cons_at};

use crate::answer::{LeftList, LeftOut};
use crate::order::Soft;
use palm_base::{Cid, CidList, NoMemory, Steps};
use palm_book::Book;
use palm_engine::Engine;
use palm_reduce::{Kinds, Lent, minimal_conflict_in, post, post_others};
use std::alloc::Global;
use std::sync::ledger::Ledger;

/// How far a walk has come.
#[derive(Drop)]
pub(crate) struct Walk<'a> {
    /// The kept constraints.
    engine: Engine<Lent<'a>>,
    /// Their marks.
    pub(crate) marks: Vec<bool>,
    /// Those that are left out.
    pub(crate) left: LeftList,
}

/// Takes the walk past the constraint at a place: it is kept where it makes no conflict with those kept before it, and
/// left out elsewhere. The engine has only the minimal conflict then, and gets the other kept ones again.
fn pass<'a, L: Ledger>(
    alloc: Global,
    book: &Book,
    kinds: &Kinds<'a>,
    place: usize,
    walk: &mut Walk<'a>,
    steps: &mut Steps<L>,
) -> Result<(), NoMemory>
    requires book { IsBook book.now }
    requires within { place < length book.now.constraints }
    requires kept { IsKeptAt book.now place kinds.now }
    requires fits { FitsBook book.now kinds.now walk.old }
    requires unmarked { slice_index_or walk.old.marks.items place false ≡ false }
    ensures walked { OnOk result ((start : List Active) (walked : List BookConTerm) (c : BookConTerm) → slice_get book.now.constraints place ≡ Some c
        → HasWalked book.now start walked walk.old → HasWalked book.now start (walked ++ c ∷ []) walk.new) }
    ensures fits { OnOk result (FitsBook book.now kinds.now walk.new) }
    ensures others { OnOk result ((other : ℕ) → other ≢ place → slice_index_or walk.new.marks.items other false ≡ slice_index_or walk.old.marks.items other false) }
{
    post(&mut walk.engine, book, kinds, place)?;
    walk.marks[place] = true;
    match minimal_conflict_in(
        alloc,
        book,
        kinds,
        walk.marks.as_slice(),
        &mut walk.engine,
        steps,
    )? {
        Some(conflict) => {
            let number = book.constraint(place).number;
            walk.engine.withdraw(Cid::User(number));
            walk.marks[place] = false;
            post_others(
                &mut walk.engine,
                book,
                kinds,
                walk.marks.as_slice(),
                conflict.as_slice(),
            )?;
            walk.left.push(LeftOut { number, conflict })?;
            Ok(())
        }
        None => Ok(()),
    }
}

/// Walks over constraints of the book in this order, from the marked ones on, which an engine has.
pub(crate) fn walk_over<'a, L: Ledger>(
    alloc: Global,
    book: &Book,
    kinds: &Kinds<'a>,
    order: &[Soft],
    engine: Engine<Lent<'a>>,
    marks: Vec<bool>,
    steps: &mut Steps<L>,
) -> Result<Walk<'a>, NoMemory>
    requires book { IsBook book.now }
    requires whole { length marks.items ≡ length book.now.constraints }
    requires kept { AreKept book.now marks.items kinds.now }
    requires filled { HasMarked book.now marks.items engine.state }
    requires free { AreConflict (initial_of book.now) (active_of (marked book.now marks.items)) → ⊥ }
    requires within { All (λ soft. soft.place < length book.now.constraints) order.now }
    requires lent { All (λ soft. IsKeptAt book.now soft.place kinds.now) order.now }
    requires unmarked { All (λ soft. slice_index_or marks.items soft.place false ≡ false) order.now }
    requires different { AllPairs (λ soft other. soft.place ≢ other.place) order.now }
    ensures fits { IfOk result (λ walk. FitsBook book.now kinds.now walk) }
    ensures walked { IfOk result (λ walk. HasWalked book.now (active_of (marked book.now marks.items)) (cons_at book.now.constraints order.now) walk) }
{
    let mut walk = Walk {
        engine,
        marks,
        left: LeftList::new(alloc),
    };
    for rank in 0..order.len() {
        pass(alloc, book, kinds, order[rank].place, &mut walk, steps)?;
    }
    Ok(walk)
}

/// The ids of the marked constraints, by rising number.
pub(crate) fn marked_cids(alloc: Global, book: &Book, marks: &[bool]) -> Result<CidList, NoMemory>
    requires { length marks.now ≡ length book.now.constraints }
    ensures { IfOk result (λ cids. cids ≡ cids_of (active_of (marked book.now marks.now))) }
{
    let mut cids = CidList::new(alloc);
    for place in 0..book.constraints() {
        if marks[place] {
            cids.push(Cid::User(book.constraint(place).number))?;
        }
    }
    Ok(cids)
}
