//! Writing a certificate, a line at a time, so that no whole text is held.
ghost use Rattle.std.specs.Prelude.{◌≡◌, ◌<◌, List, [], ◌∷◌, length, flat_map, All, OnOk};
ghost use Rattle.palm_book.specs.Book.{HasNumber, IsUser, active_of, initial_of, number_name};
ghost use Rattle.palm_cert.specs.Accepted.{IsAccepted};
ghost use Rattle.palm_cert.specs.Certificate.{added_line, certificate_text, cited, claim_line, claim_var, declarations, declared_line, step_line, step_words, used};
ghost use Rattle.palm_cert.specs.Needs.{AreSteps, CanClaim, IsOfBook, IsStepAt, cites_of, removals_at};
ghost use Rattle.palm_lang.specs.Reply.{ended};
ghost use Rattle.palm_lang.specs.Writer.{Wrote};
ghost use Rattle.palm_lang.specs.Writing.{Writes};
ghost use Rattle.palm_model.specs.Constraint.{scope};
ghost use Rattle.palm_model.specs.Log.{Removal};
ghost use Rattle.palm_read.specs.Words.{spaced};

use crate::lines::{put_added, put_claim, put_step};
use crate::needs::{claimed_var, collect_numbers, needs_of, number_of};
use crate::usage::is_used;
use palm_base::{NoMemory, Pair, Sink, Var};
use palm_engine::Engine;
use palm_explain::ExplainStore;
use palm_filter::Filter;
use palm_lang::{Book, BookCon, Claim, Fixed, WriteStop as CertStop, Writer, write_line};
use std::alloc::Global;

/// Writes a certificate of the claim: the variables and constraints that it needs, the removals that it needs as steps
/// in the order of the log, and the claim. The book's variables and active constraints are the engine's, and the claim's
/// pair was removed or its variable has no value. The checker's definition accepts what is written, with this claim. At a
/// stop a front of the certificate was written.
pub fn write_cert<F: Filter, K: Sink>(
    alloc: Global,
    engine: &Engine<F>,
    book: &Book,
    claim: Claim,
    out: &mut K,
) -> Result<(), CertStop>
    requires initial { engine.now.state.initial ≡ initial_of book.now }
    requires active { engine.now.state.active ≡ active_of book.now }
    requires holds { CanClaim engine.now.state claim }
    ensures text { Writes (K.state out.old) (K.state out.new) (certificate_text book.now engine.now.state.log claim) result }
    ensures accepted { OnOk result (IsAccepted book.now engine.now.state.log claim (certificate_text book.now engine.now.state.log claim)) }
{
    let _ = engine.store();
    let _ = book.variables();
    let log = engine.log();
    let _ = log.removals();
    let needs = needs_of(alloc, book, log, &claim)?;
    let mut buffer = Vec::new(alloc);
    let mut writer = Writer::new(out, &mut buffer);
    write_declarations(book, &needs.cited, claimed_var(&claim), &mut writer)?;
    let mut numbers = Vec::new(alloc);
    write_steps(book, log, &needs.steps, &mut numbers, &mut writer)?;
    write_claim(book, &claim, &mut writer)?;
    writer.word(Fixed::End)
}

/// Writes the header, the variables and the constraints.
fn write_declarations<K: Sink>(
    book: &Book,
    marks: &[bool],
    claimed: Var,
    writer: &mut Writer<'_, K>,
) -> Result<(), CertStop>
    requires { length marks.now ≡ length book.now.constraints }
    ensures { (rs : List Removal) → marks.now ≡ cites_of book.now rs
        → Wrote K.state writer.old writer.new (declarations book.now (cited rs book.now) claimed) result }
{
    writer.text(b"palm-cert 1\n")?;
    write_variables(book, marks, claimed, writer)?;
    write_constraints(book, marks, writer)
}

/// Writes the variables that are used.
fn write_variables<K: Sink>(
    book: &Book,
    marks: &[bool],
    claimed: Var,
    writer: &mut Writer<'_, K>,
) -> Result<(), CertStop>
    requires { length marks.now ≡ length book.now.constraints }
    ensures { (rs : List Removal) → marks.now ≡ cites_of book.now rs
        → Wrote K.state writer.old writer.new (flat_map (declared_line book.now.variables) (used (cited rs book.now) claimed book.now)) result }
{
    for index in 0..book.variables() {
        if is_used(book, marks, claimed, Var(index)) {
            writer.variable(book, Var(index))?;
        }
    }
    Ok(())
}

/// Writes the constraints that are marked.
fn write_constraints<K: Sink>(
    book: &Book,
    marks: &[bool],
    writer: &mut Writer<'_, K>,
) -> Result<(), CertStop>
    requires { length marks.now ≡ length book.now.constraints }
    ensures { (rs : List Removal) → marks.now ≡ cites_of book.now rs
        → Wrote K.state writer.old writer.new (flat_map (added_line book.now.variables) (cited rs book.now)) result }
{
    for place in 0..book.constraints() {
        let entry = book.constraint(place);
        let is_cited = marks[place];
        if is_cited {
            write_added(book, entry, writer)?;
        }
    }
    Ok(())
}

/// Writes the `add` line of a constraint.
pub fn write_added<K: Sink>(
    book: &Book,
    entry: &BookCon,
    writer: &mut Writer<'_, K>,
) -> Result<(), CertStop>
    requires { All (λ x. x < length book.now.variables) (scope entry.now.con) }
    ensures { Wrote K.state writer.old writer.new (added_line book.now.variables entry.now) result }
{
    write_line!(writer, put_added(book, entry))
}

/// Writes the steps, the reasons of one after another in the same memory.
fn write_steps<K: Sink>(
    book: &Book,
    log: &ExplainStore,
    steps: &[usize],
    numbers: &mut Vec<usize>,
    writer: &mut Writer<'_, K>,
) -> Result<(), CertStop>
    requires steps { AreSteps log.now.log steps.now }
    requires logged { All (IsOfBook book.now (IsUser book.now)) log.now.log }
    ensures { Wrote K.state writer.old writer.new (flat_map (step_line book.now (removals_at log.now.log steps.now)) (removals_at log.now.log steps.now)) result }
{
    for place in steps {
        write_step(book, log, steps, *place, numbers, writer)?;
    }
    Ok(())
}

/// Writes the removal at a place as a step.
fn write_step<K: Sink>(
    book: &Book,
    log: &ExplainStore,
    steps: &[usize],
    place: usize,
    numbers: &mut Vec<usize>,
    writer: &mut Writer<'_, K>,
) -> Result<(), CertStop>
    requires { IsStepAt book.now (IsUser book.now) log.now.log steps.now place }
    ensures { Wrote K.state writer.old writer.new (flat_map (step_line book.now (removals_at log.now.log steps.now)) (removals_at log.now.log (place ∷ []))) result }
{
    collect_numbers(log, steps, place, numbers)?;
    let by = number_of(log.by_at(place));
    write_removal(book, &log.pair_at(place), by, numbers, writer)
}

/// Writes a removal as a step, by the numbers of the steps that proved its reasons.
pub fn write_removal<K: Sink>(
    book: &Book,
    pair: &Pair,
    by: u32,
    numbers: &[usize],
    writer: &mut Writer<'_, K>,
) -> Result<(), CertStop>
    requires variable { pair.now.var < length book.now.variables }
    requires constraint { HasNumber book.now by }
    ensures { Wrote K.state writer.old writer.new (ended (spaced (step_words book.now.variables pair.now (number_name book.now.constraints by) numbers.now))) result }
{
    write_line!(writer, put_step(book, pair, by, numbers))
}

/// Writes the claim and the end.
fn write_claim<K: Sink>(
    book: &Book,
    claim: &Claim,
    writer: &mut Writer<'_, K>,
) -> Result<(), CertStop>
    requires { claim_var claim.now < length book.now.variables }
    ensures { Wrote K.state writer.old writer.new (claim_line book.now.variables claim.now) result }
{
    write_line!(writer, put_claim(book, claim))
}
