//! Writing a lemma: the decisions that it rests on, the steps that the emptied variable needs, and that variable.
ghost use Rattle.std.specs.Prelude.{◌≡◌, ◌<◌, ℕ, List, [], ◌∷◌, All, length, flat_map};
ghost use Rattle.palm_base.specs.declared.terms.Pair.{Pair as PairTerm};
ghost use Rattle.palm_cert.specs.Needs.{AreSteps, IsOfBook, IsStepAt, removals_at};
ghost use Rattle.palm_lang.specs.Writer.{Wrote};
ghost use Rattle.palm_lang.specs.Writing.{Writes};
ghost use Rattle.palm_model.specs.State.{HasEmpty, IsEmptyAt, present};
ghost use Rattle.palm_search.specs.Calls.{search_state};
ghost use Rattle.proof_run.specs.Lemma.{held_decisions, lemma_line, step_line, text_of_lemma, wiped_by, wipe_line};
ghost use Rattle.proof_write.specs.Fitting.{FitsBook, IsNamed};
ghost use Rattle.proof_write.specs.Lines.{assumed_line, given_line};
ghost use Rattle.proof_write.specs.Numbers.{AreNumbers};

use crate::lines::{put_assumed, put_given, put_pairs, put_wipe};
use crate::notes::Notes;
use crate::numbers::LemmaNumbers;
use palm_base::{Cid, Pair, Sink, Var};
use palm_cert::{collect_numbers, write_removal};
use palm_engine::Engine;
use palm_explain::ExplainStore;
use palm_filter::Filter;
use palm_lang::{Book, WriteStop, Writer, put_text, write_line};
use palm_search::Search;

/// Writes the lemma of the emptied variable: of the decisions that are held, and of the removals that it needs. The numbers
/// of earlier lemmas stay as they are.
pub(crate) fn write_lemma<F: Filter, K: Sink>(
    engine: &Engine<F>,
    search: &Search,
    book: &Book,
    held: &[Cid],
    notes: &mut Notes,
    out: &mut K,
    buffer: &mut Vec<u8>,
) -> Result<(), WriteStop>
    requires fits { FitsBook book.now (search_state engine.now.state search.now) }
    requires empty { HasEmpty (present engine.now.state) }
    ensures lemma { (undone : List PairTerm) (x : ℕ) → AreNumbers undone notes.old.numbers → IsEmptyAt (present engine.now.state) x
        → Writes (K.state out.old) (K.state out.new) (text_of_lemma book.now undone (held_decisions search.now.decisions held.now) (wiped_by engine.now.state x) x) result }
    ensures numbers { notes.new.numbers ≡ notes.old.numbers }
{
    write_text_of_lemma(
        engine,
        search,
        book,
        held,
        notes,
        &mut Writer::new(out, buffer),
    )
}

/// Writes the lines of the lemma, by the numbers of earlier ones.
pub(crate) fn write_text_of_lemma<F: Filter, K: Sink>(
    engine: &Engine<F>,
    search: &Search,
    book: &Book,
    held: &[Cid],
    notes: &mut Notes,
    writer: &mut Writer<'_, K>,
) -> Result<(), WriteStop>
    requires fits { FitsBook book.now (search_state engine.now.state search.now) }
    requires empty { HasEmpty (present engine.now.state) }
    ensures lemma { (undone : List PairTerm) (x : ℕ) → AreNumbers undone notes.old.numbers → IsEmptyAt (present engine.now.state) x
        → Wrote K.state writer.old writer.new (text_of_lemma book.now undone (held_decisions search.now.decisions held.now) (wiped_by engine.now.state x) x) result }
    ensures numbers { notes.new.numbers ≡ notes.old.numbers }
{
    // What holds of every engine and of every log is known once they are read.
    let _ = engine.store();
    let log = engine.log();
    let _ = log.removals();
    let Some(var) = engine.empty_variable() else {
        unreachable!();
    };
    write_front(book, search.decisions(), held, writer)?;
    log.needed(var, book.initial(var).as_slice(), &mut notes.steps)?;
    write_steps(
        book,
        log,
        &notes.steps,
        &notes.numbers,
        &mut notes.reasons,
        writer,
    )?;
    write_wipe(book, var, writer)
}

/// Writes `lemma NAME=VALUE NAME=VALUE`, with the decisions that are held.
fn write_front<K: Sink>(
    book: &Book,
    decisions: &[Pair],
    held: &[Cid],
    writer: &mut Writer<'_, K>,
) -> Result<(), WriteStop>
    requires { All (λ p. p.var < length book.now.variables) decisions.now }
    ensures { Wrote K.state writer.old writer.new (lemma_line book.now.variables (held_decisions decisions.now held.now)) result }
{
    writer.buffer.clear();
    put_text("lemma", writer.buffer)?;
    put_pairs(book, decisions, held, writer.buffer)?;
    put_text("\n", writer.buffer)?;
    writer.line()
}

/// Writes the steps, in the order of the log, the reasons of one after another in the same memory.
fn write_steps<K: Sink>(
    book: &Book,
    log: &ExplainStore,
    steps: &[usize],
    lemmas: &LemmaNumbers,
    reasons: &mut Vec<usize>,
    writer: &mut Writer<'_, K>,
) -> Result<(), WriteStop>
    requires steps { AreSteps log.now.log steps.now }
    requires logged { All (IsOfBook book.now (IsNamed book.now)) log.now.log }
    ensures { (undone : List PairTerm) → AreNumbers undone lemmas.now → Wrote K.state writer.old writer.new
        (flat_map (step_line book.now undone (removals_at log.now.log steps.now)) (removals_at log.now.log steps.now)) result }
{
    for place in steps {
        write_step(book, log, steps, *place, lemmas, reasons, writer)?;
    }
    Ok(())
}

/// Writes the removal at a place as a step, and why it was made.
fn write_step<K: Sink>(
    book: &Book,
    log: &ExplainStore,
    steps: &[usize],
    place: usize,
    lemmas: &LemmaNumbers,
    reasons: &mut Vec<usize>,
    writer: &mut Writer<'_, K>,
) -> Result<(), WriteStop>
    requires { IsStepAt book.now (IsNamed book.now) log.now.log steps.now place }
    ensures { (undone : List PairTerm) → AreNumbers undone lemmas.now
        → Wrote K.state writer.old writer.new (flat_map (step_line book.now undone (removals_at log.now.log steps.now)) (removals_at log.now.log (place ∷ []))) result }
{
    let pair = log.pair_at(place);
    match log.by_at(place) {
        Cid::Decide(_) => write_assumed(book, &pair, writer),
        Cid::Not(negated) => write_given(book, &pair, lemmas.number_of(&negated), writer),
        Cid::User(by) => {
            collect_numbers(log, steps, place, reasons)?;
            write_removal(book, &pair, by, reasons, writer)
        }
    }
}

/// Writes a removal by a decision.
fn write_assumed<K: Sink>(
    book: &Book,
    pair: &Pair,
    writer: &mut Writer<'_, K>,
) -> Result<(), WriteStop>
    requires { pair.now.var < length book.now.variables }
    ensures { Wrote K.state writer.old writer.new (assumed_line book.now.variables pair.now) result }
{
    write_line!(writer, put_assumed(book, pair))
}

/// Writes a removal by the negation that a lemma gave.
fn write_given<K: Sink>(
    book: &Book,
    pair: &Pair,
    number: u64,
    writer: &mut Writer<'_, K>,
) -> Result<(), WriteStop>
    requires { pair.now.var < length book.now.variables }
    ensures { Wrote K.state writer.old writer.new (given_line book.now.variables pair.now number) result }
{
    write_line!(writer, put_given(book, pair, number))
}

/// Writes the last line of a lemma.
fn write_wipe<K: Sink>(book: &Book, var: Var, writer: &mut Writer<'_, K>) -> Result<(), WriteStop>
    requires { var < length book.now.variables }
    ensures { Wrote K.state writer.old writer.new (wipe_line book.now.variables var) result }
{
    write_line!(writer, put_wipe(book, var))
}
