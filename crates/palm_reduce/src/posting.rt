//! An engine over the variables and the marked constraints of a book.
ghost use Rattle.std.specs.Prelude.{◌≡◌, ◌<◌, [], Contains, length, slice_get, Some, IfOk, OnOk};
ghost use Rattle.palm_base.specs.Order.{Rises};
ghost use Rattle.palm_base.specs.Tells.{Tells};
ghost use Rattle.palm_book.specs.Book.{initial_of, user_at};
ghost use Rattle.palm_book.specs.declared.book.BookCon.{BookCon as BookConTerm};
ghost use Rattle.palm_model.specs.Event.{Posts};
ghost use Rattle.palm_model.specs.Log.{IsActive};
ghost use Rattle.palm_model.specs.State.{blank};
ghost use Rattle.palm_reduce.specs.Kept.{AreKept, IsKeptAt};
ghost use Rattle.palm_reduce.specs.Walked.{HasMarked, HasOnly};

use crate::kinds::{Kinds, Lent};
use palm_base::{Cid, NoMemory, Var, place_for};
use palm_book::{Book, BookCon};
use palm_engine::Engine;
use std::alloc::Global;

/// Declares the variables of a book.
fn declare_all(engine: &mut Engine<Lent<'_>>, book: &Book) -> Result<(), NoMemory>
    requires { engine.old.state ≡ blank [] }
    ensures { OnOk result (engine.new.state ≡ blank (initial_of book.now)) }
{
    for var in 0..book.variables() {
        engine.add_variable(book.initial(Var(var)).as_slice())?;
    }
    Ok(())
}

/// Makes the constraint at a place of the book active and pending.
pub fn post<'a>(
    engine: &mut Engine<Lent<'a>>,
    book: &Book,
    kinds: &Kinds<'a>,
    place: usize,
) -> Result<(), NoMemory>
    requires within { place < length book.now.constraints }
    requires kept { IsKeptAt book.now place kinds.now }
    requires initial { engine.old.state.initial ≡ initial_of book.now }
    requires inactive { (c : BookConTerm) → slice_get book.now.constraints place ≡ Some c → IsActive engine.old.state.active (user_at c).cid → ⊥ }
    ensures { OnOk result ((c : BookConTerm) → slice_get book.now.constraints place ≡ Some c → Posts engine.old.state (user_at c) engine.new.state) }
{
    let entry = book.constraint(place);
    engine.post(entry.number, kinds.lend(place))?;
    Ok(())
}

/// Whether the id is among the ids, which rise.
pub(crate) fn is_among(cid: &Cid, cids: &[Cid]) -> bool
    requires { Rises cids.now }
    ensures { Tells result (Contains cids.now cid.now) }
{
    place_for(cids, 0, cid).is_ok()
}

/// Makes the marked constraints active and pending whose ids are not among these, where an engine has only those of them
/// under these ids, which rise.
pub fn post_others<'a>(
    engine: &mut Engine<Lent<'a>>,
    book: &Book,
    kinds: &Kinds<'a>,
    marks: &[bool],
    cids: &[Cid],
) -> Result<(), NoMemory>
    requires whole { length marks.now ≡ length book.now.constraints }
    requires kept { AreKept book.now marks.now kinds.now }
    requires rising { Rises cids.now }
    requires only { HasOnly book.now marks.now cids.now engine.old.state }
    ensures { OnOk result (HasMarked book.now marks.now engine.new.state) }
{
    for place in 0..book.constraints() {
        if marks[place] && !is_among(&Cid::User(book.constraint(place).number), cids) {
            post(engine, book, kinds, place)?;
        }
    }
    Ok(())
}

/// An engine with the variables and the marked constraints of a book, all of them pending.
pub fn engine_of<'a>(
    alloc: Global,
    book: &Book,
    kinds: &Kinds<'a>,
    marks: &[bool],
) -> Result<Engine<Lent<'a>>, NoMemory>
    requires whole { length marks.now ≡ length book.now.constraints }
    requires kept { AreKept book.now marks.now kinds.now }
    ensures { IfOk result (λ engine. HasMarked book.now marks.now engine.state) }
{
    let mut engine = Engine::new(alloc);
    declare_all(&mut engine, book)?;
    post_others(&mut engine, book, kinds, marks, &[])?;
    Ok(engine)
}
