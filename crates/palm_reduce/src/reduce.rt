//! The walk over the marked constraints of a book, from the highest number down.
ghost use Rattle.std.specs.Prelude.{◌≡◌, ◌+◌, ◌<◌, length, map, IfNone, IfSome, IfOk, OnOk};
ghost use Rattle.palm_book.specs.Book.{IsBook, active_of, initial_of};
ghost use Rattle.palm_model.specs.Domains.{Has};
ghost use Rattle.palm_model.specs.Minimal.{AreConflict, DoExplain, IsMinimal};
ghost use Rattle.palm_reduce.specs.Answers.{TellsMinimal};
ghost use Rattle.palm_reduce.specs.Kept.{AreKept, CanLend};
ghost use Rattle.palm_reduce.specs.Marked.{marked};
ghost use Rattle.palm_reduce.specs.Properties.{HasProperty, IsCore, MayBeAsked};
ghost use Rattle.palm_reduce.specs.Walked.{AreSame, HasMarked, HasOnly, HasWalked};

use crate::kinds::{Kinds, Lent};
use crate::posting::{engine_of, is_among, post};
use crate::property::{Property, has_property};
use palm_base::{Cid, CidList, NoMemory, Pair, Steps};
use palm_book::Book;
use palm_engine::Engine;
use palm_kind::Kind;
use std::alloc::Global;
use std::marker::Brand;
use std::sync::ledger::{Blank, Ledger};

/// What a walk has found.
#[derive(Debug, Drop)]
pub(crate) struct Found {
    /// The ids of those that stay, the highest first.
    cids: Vec<Cid>,
    /// The ids, by rising id, of some among all that are still there that have the property by themselves.
    core: CidList,
}

/// Takes the walk past the constraint at a place: it is left out where the rest has the property without it. Nothing is
/// filtered for a constraint without which the known core stands.
fn pass<'a, L: Ledger>(
    book: &Book,
    kinds: &Kinds<'a>,
    marks: &[bool],
    property: &Property,
    place: usize,
    engine: &mut Engine<Lent<'a>>,
    found: &mut Found,
    steps: &mut Steps<L>,
) -> Result<(), NoMemory>
    requires book { IsBook book.now }
    requires whole { length marks.now ≡ length book.now.constraints }
    requires kept { AreKept book.now marks.now kinds.now }
    requires within { place < length book.now.constraints }
    requires allowed { MayBeAsked property.now (initial_of book.now) (active_of (marked book.now marks.now)) }
    requires walked { HasWalked property.now (marked book.now marks.now) (place + 1) found.old engine.old.state }
    ensures { OnOk result (HasWalked property.now (marked book.now marks.now) place found.new engine.new.state) }
{
    let entry = book.constraint(place);
    if !marks[place] {
        return Ok(());
    }
    let cid = Cid::User(entry.number);
    engine.withdraw(Cid::User(entry.number));
    if !is_among(&cid, found.core.as_slice()) {
        return Ok(());
    }
    if has_property(property, engine, &mut found.core, steps)? {
        return Ok(());
    }
    post(engine, book, kinds, place)?;
    found.cids.push(cid)?;
    Ok(())
}

/// Walks over all of the marked constraints, some of which are known to have the property by themselves, and answers the ids
/// of those that stay, by rising id.
fn walk<'a, L: Ledger>(
    alloc: Global,
    book: &Book,
    kinds: &Kinds<'a>,
    marks: &[bool],
    property: &Property,
    engine: &mut Engine<Lent<'a>>,
    core: CidList,
    steps: &mut Steps<L>,
) -> Result<CidList, NoMemory>
    requires whole { length marks.now ≡ length book.now.constraints }
    requires kept { AreKept book.now marks.now kinds.now }
    requires allowed { MayBeAsked property.now (initial_of book.now) (active_of (marked book.now marks.now)) }
    requires initial { engine.old.state.initial ≡ initial_of book.now }
    requires active { AreSame engine.old.state.active (active_of (marked book.now marks.now)) }
    requires core { IsCore property.now (initial_of book.now) (active_of (marked book.now marks.now)) core }
    ensures minimal { IfOk result (λ cids. IsMinimal (HasProperty property.now (initial_of book.now)) (active_of (marked book.now marks.now)) cids) }
    ensures only { IfOk result (λ cids. HasOnly book.now marks.now cids engine.new.state) }
{
    let mut found = Found {
        cids: Vec::new(alloc),
        core,
    };
    let mut place = book.constraints();
    while place > 0 {
        place -= 1;
        pass(
            book, kinds, marks, property, place, engine, &mut found, steps,
        )?;
    }
    let Found { mut cids, .. } = found;
    cids.reverse();
    Ok(CidList::from_vec(cids))
}

/// The minimal set of the marked constraints for a property, which an engine has. Where they do not have it they stay in the
/// engine.
fn reduce_in<'a, L: Ledger>(
    alloc: Global,
    book: &Book,
    kinds: &Kinds<'a>,
    marks: &[bool],
    property: &Property,
    engine: &mut Engine<Lent<'a>>,
    steps: &mut Steps<L>,
) -> Result<Option<CidList>, NoMemory>
    requires whole { length marks.now ≡ length book.now.constraints }
    requires kept { AreKept book.now marks.now kinds.now }
    requires allowed { MayBeAsked property.now (initial_of book.now) (active_of (marked book.now marks.now)) }
    requires filled { HasMarked book.now marks.now engine.old.state }
    ensures answer { IfOk result (TellsMinimal (HasProperty property.now (initial_of book.now)) (active_of (marked book.now marks.now))) }
    ensures stay { IfOk result (λ answer. IfNone answer (HasMarked book.now marks.now engine.new.state)) }
    ensures only { IfOk result (λ answer. IfSome answer (λ cids. HasOnly book.now marks.now cids engine.new.state)) }
{
    let mut core = CidList::new(alloc);
    if !has_property(property, engine, &mut core, steps)? {
        return Ok(None);
    }
    let cids = walk(alloc, book, kinds, marks, property, engine, core, steps)?;
    Ok(Some(cids))
}

/// The minimal set of the marked constraints for a property, with an engine and a counter of its own, and the filters of the
/// lender.
fn reduce<L: Ledger>(
    alloc: Global,
    book: &Book,
    marks: &[bool],
    lender: &Engine<Kind>,
    property: &Property,
    blank: Blank,
) -> Result<Option<CidList>, NoMemory>
    requires named { blank.name ≡ L.name }
    requires parts { blank.parts ≡ L.parts }
    requires shared { 0 < L.parts }
    requires whole { length marks.now ≡ length book.now.constraints }
    requires lends { CanLend (marked book.now marks.now) lender.now.state }
    requires allowed { MayBeAsked property.now (initial_of book.now) (active_of (marked book.now marks.now)) }
    ensures { IfOk result (TellsMinimal (HasProperty property.now (initial_of book.now)) (active_of (marked book.now marks.now))) }
{
    let mut steps = Steps::<L>::start(blank);
    let kinds = Kinds::new(alloc, book, marks, lender)?;
    let mut engine = engine_of(alloc, book, &kinds, marks)?;
    reduce_in(
        alloc,
        book,
        &kinds,
        marks,
        property,
        &mut engine,
        &mut steps,
    )
}

/// The minimal conflict of the constraints at the marked places of a book, by rising id, which an engine has. There is none
/// exactly where they are no conflict, and then they stay in the engine.
pub fn minimal_conflict_in<'a, L: Ledger>(
    alloc: Global,
    book: &Book,
    kinds: &Kinds<'a>,
    marks: &[bool],
    engine: &mut Engine<Lent<'a>>,
    steps: &mut Steps<L>,
) -> Result<Option<CidList>, NoMemory>
    requires whole { length marks.now ≡ length book.now.constraints }
    requires kept { AreKept book.now marks.now kinds.now }
    requires filled { HasMarked book.now marks.now engine.old.state }
    ensures answer { IfOk result (TellsMinimal (AreConflict (initial_of book.now)) (active_of (marked book.now marks.now))) }
    ensures stay { IfOk result (λ answer. IfNone answer (HasMarked book.now marks.now engine.new.state)) }
    ensures only { IfOk result (λ answer. IfSome answer (λ cids. HasOnly book.now marks.now cids engine.new.state)) }
{
    reduce_in(
        alloc,
        book,
        kinds,
        marks,
        &Property::Conflict,
        engine,
        steps,
    )
}

/// The marks of the active constraints. What it ensures besides holds of every book.
pub fn active_marks(alloc: Global, book: &Book) -> Result<Vec<bool>, NoMemory>
    ensures marks { IfOk result (λ marks. marks.items ≡ map (λ c. c.active) book.now.constraints) }
    ensures valid { IsBook book.now }
{
    let mut marks = Vec::new(alloc);
    for place in 0..book.constraints() {
        marks.push(book.constraint(place).active)?;
    }
    Ok(marks)
}

/// The minimal conflict of the constraints at the marked places of a book, by rising id, whether they are active in the
/// book or relaxed: a walk from the highest number down leaves each of them out without which the rest is still a
/// conflict. There is none exactly where they are no conflict. It filters with an engine of its own and without an
/// order, by the filters of the lender, where they are all active.
pub fn minimal_conflict_among(
    alloc: Global,
    book: &Book,
    marks: &[bool],
    lender: &Engine<Kind>,
) -> Result<Option<CidList>, NoMemory>
    requires whole { length marks.now ≡ length book.now.constraints }
    requires lends { CanLend (marked book.now marks.now) lender.now.state }
    ensures { IfOk result (TellsMinimal (AreConflict (initial_of book.now)) (active_of (marked book.now marks.now))) }
{
    reduce::<Brand>(
        alloc,
        book,
        marks,
        lender,
        &Property::Conflict,
        Blank::new(1),
    )
}

/// The minimal conflict of the active constraints of a book, by rising id: a walk from the highest number down leaves
/// each constraint out without which the rest is still a conflict. There is none exactly where they are no conflict. It
/// filters with an engine of its own and without an order, by the filters of the lender, where they are all active.
pub fn minimal_conflict(
    alloc: Global,
    book: &Book,
    lender: &Engine<Kind>,
) -> Result<Option<CidList>, NoMemory>
    requires { CanLend book.now lender.now.state }
    ensures { IfOk result (TellsMinimal (AreConflict (initial_of book.now)) (active_of book.now)) }
{
    let marks = active_marks(alloc, book)?;
    minimal_conflict_among(alloc, book, marks.as_slice(), lender)
}

/// The minimal explanation of the absence of a pair by the active constraints of a book, by rising id: a walk from the
/// highest number down leaves each constraint out without which the rest still explains it. There is none exactly where
/// they do not explain it: the pair is in their greatest closed domains. It filters with an engine of its own and
/// without an order, by the filters of the lender, where they are all active.
pub fn minimal_why(
    alloc: Global,
    book: &Book,
    pair: Pair,
    lender: &Engine<Kind>,
) -> Result<Option<CidList>, NoMemory>
    requires declared { Has (initial_of book.now) pair.var pair.value }
    requires filled { AreConflict (initial_of book.now) (active_of book.now) → ⊥ }
    requires lends { CanLend book.now lender.now.state }
    ensures { IfOk result (TellsMinimal (DoExplain (initial_of book.now) pair) (active_of book.now)) }
{
    let marks = active_marks(alloc, book)?;
    reduce::<Brand>(
        alloc,
        book,
        marks.as_slice(),
        lender,
        &Property::Absence(pair),
        Blank::new(1),
    )
}
