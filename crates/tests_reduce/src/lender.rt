//! An engine that has the constraints of a book, for calls that borrow its filters.
ghost use Rattle.std.specs.Prelude.{◌≡◌, [], length, IfOk, OnOk};
ghost use Rattle.palm_model.specs.State.{blank};
ghost use Rattle.palm_reduce.specs.Kept.{CanLend};

use palm_base::{NoMemory, Var};
use palm_book::Book;
use palm_engine::Engine;
use palm_kind::Kind;
use std::alloc::Global;

/// Declares the variables of a book.
fn declare_all(engine: &mut Engine<Kind>, book: &Book) -> Result<(), NoMemory>
    requires { engine.old.state ≡ blank [] }
    ensures variables { OnOk result (length engine.new.state.initial ≡ length book.now.variables) }
    ensures active { OnOk result (engine.new.state.active ≡ []) }
{
    for var in 0..book.variables() {
        engine.add_variable(book.initial(Var(var)).as_slice())?;
    }
    Ok(())
}

/// Makes the constraints of a book active, the relaxed ones too.
fn post_all(alloc: Global, engine: &mut Engine<Kind>, book: &Book) -> Result<(), NoMemory>
    requires variables { length engine.old.state.initial ≡ length book.now.variables }
    requires active { engine.old.state.active ≡ [] }
    ensures { OnOk result (CanLend book.now engine.new.state) }
{
    for place in 0..book.constraints() {
        let entry = book.constraint(place);
        engine.post(entry.number, Kind::from_con(alloc, &entry.con)?)?;
    }
    Ok(())
}

/// An engine with the variables and the constraints of a book, the relaxed ones too.
pub(crate) fn lender_of(alloc: Global, book: &Book) -> Result<Engine<Kind>, NoMemory>
    ensures { IfOk result (λ engine. CanLend book.now engine.state) }
{
    let mut engine = Engine::new(alloc);
    declare_all(&mut engine, book)?;
    post_all(alloc, &mut engine, book)?;
    Ok(engine)
}
