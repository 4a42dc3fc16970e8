//! Writing how a run ends.
ghost use Rattle.std.specs.Prelude.{ℕ, List, length};
ghost use Rattle.palm_base.specs.declared.terms.Pair.{Pair as PairTerm};
ghost use Rattle.palm_lang.specs.Writing.{Writes};
ghost use Rattle.palm_search.specs.Calls.{search_state};
ghost use Rattle.palm_search.specs.Search.{EndsWith};
ghost use Rattle.proof_run.specs.Text.{Concludes};
ghost use Rattle.proof_write.specs.Fitting.{FitsBook};
ghost use Rattle.proof_write.specs.Numbers.{AreNumbers};

use crate::lemma::write_text_of_lemma;
use crate::notes::Notes;
use palm_base::Sink;
use palm_engine::Engine;
use palm_filter::Filter;
use palm_lang::{Book, Fixed, Lead, WriteStop, Writer};
use palm_search::{Search, SearchEnd};

/// Writes how the run ends: the lemma of the last conflict and its users, the values that were found, or the turns that
/// were spent.
pub(crate) fn write_end<F: Filter, K: Sink>(
    engine: &Engine<F>,
    search: &Search,
    book: &Book,
    end: &SearchEnd,
    notes: &mut Notes,
    out: &mut K,
    buffer: &mut Vec<u8>,
) -> Result<(), WriteStop>
    requires fits { FitsBook book.now (search_state engine.now.state search.now) }
    requires ends { (budget : ℕ) × EndsWith budget (length search.now.journal) engine.now.state end.now }
    ensures { (undone : List PairTerm) → AreNumbers undone notes.old.numbers → (text : List ℕ)
        × Concludes book.now undone (search_state engine.now.state search.now) end.now text × Writes (K.state out.old) (K.state out.new) text result }
{
    // What holds of every engine is known once its store is read.
    let _ = engine.store();
    let mut writer = Writer::new(out, buffer);
    match end {
        SearchEnd::NoSolution(users) => {
            write_text_of_lemma(engine, search, book, &[], notes, &mut writer)?;
            writer.names(book, Lead::NoSolution, users)?;
            writer.word(Fixed::End)
        }
        SearchEnd::Found(values) => {
            writer.found(book, values)?;
            writer.word(Fixed::End)
        }
        SearchEnd::Spent(turns) => {
            writer.spent(*turns, None)?;
            writer.word(Fixed::End)
        }
    }
}
