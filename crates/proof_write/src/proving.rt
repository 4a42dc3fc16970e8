//! The whole search, and its proof.
ghost use Rattle.std.specs.Prelude.{◌≡◌, [], IfErr, IfOk, OnErr, is_some};
ghost use Rattle.palm_book.specs.Book.{active_of, initial_of};
ghost use Rattle.palm_dbt.specs.Answers.{IsTrueOf};
ghost use Rattle.palm_engine.specs.Following.{OrderAnswers, OrderFollows};
ghost use Rattle.palm_lang.specs.Writing.{IsCounted};
ghost use Rattle.palm_base.specs.Streams.{IsSameSink};
ghost use Rattle.palm_events.specs.Scoped.{HasScopedReasons};
ghost use Rattle.palm_search.specs.Breaking.{BreaksOff};
ghost use Rattle.palm_search.specs.Following.{GuideFollows};
ghost use Rattle.palm_search.specs.Leaves.{Counts, Leaves, Lent};
ghost use Rattle.palm_search.specs.Machine.{GivesBack, HasRunOn, state_of};
ghost use Rattle.palm_search.specs.Stopping.{BreaksOffBy, GuideStops, IsCutOffBy};
ghost use Rattle.proof_write.specs.Proving.{HasProved, HasRun, HasWrittenSoFar, IsListedInBook, Stops};

use crate::declarations::write_declarations;
use crate::ending::write_end;
use crate::lemma::write_lemma;
use crate::notes::Notes;
use palm_agenda::Order;
use palm_base::{Sink, Steps};
use palm_book::Book;
use palm_engine::Engine;
use palm_filter::Filter;
use palm_guide::Guide;
use palm_lang::WriteStop;
use palm_search::{Machine, Next, Search, SearchEnd};
use std::alloc::Global;
use std::sync::ledger::Ledger;

/// Searches as [`palm_dbt::solve`] does, and writes the proof of what it finds: the variables and active constraints, a lemma
/// before each undoing, and how the search ends. The book's variables with their initial values and its active constraints
/// are the engine's. Where the search finds that there is no solution, the checker's definition accepts what is written, with
/// just these constraints. At a stop a front of what was to be written is written, and the engine, the search, the guide and
/// the order are as they are after `solve` without memory.
pub fn prove<F: Filter, G: Guide, O: Order, K: Sink, L: Ledger>(
    alloc: Global,
    engine: &mut Engine<F>,
    search: &mut Search,
    book: &Book,
    guide: &mut Option<G>,
    order: &mut Option<O>,
    budget: u64,
    out: &mut K,
    steps: &mut Steps<L>,
) -> Result<SearchEnd, WriteStop>
    requires fresh { search.old ≡ record { decisions = []; journal = [] } }
    requires initial { engine.old.state.initial ≡ initial_of book.now }
    requires active { engine.old.state.active ≡ active_of book.now }
    ensures ok { IfOk result (λ end. HasProved (GuideFollows G.answers G.hears G.state) (OrderFollows O.answers O.hears O.state) guide.old guide.new order.old order.new
        budget book.now engine.old.state search.new.journal end engine.new.state (K.state out.old).written (K.state out.new).written) }
    ensures holds { IfOk result (IsTrueOf engine.old.state budget) }
    ensures err { OnErr result (BreaksOff (is_some guide.old) (is_some order.old) budget engine.old.state search.new.journal engine.new.state) }
    ensures stopped { OnErr result (BreaksOffBy (GuideFollows G.answers G.hears G.state) (GuideStops G.answers G.hears G.state) (OrderFollows O.answers O.hears O.state) (OrderAnswers O.answers O.state)
        guide.old guide.new order.old order.new budget engine.old.state search.new.journal engine.new.state) }
    ensures front { IfErr result (λ stop. HasWrittenSoFar stop book.now (is_some guide.old) (is_some order.old) budget engine.old.state search.new.journal (K.state out.old).written (K.state out.new).written) }
    ensures counted { IsCounted (K.state out.old).faults (K.state out.new).faults result }
    ensures sink { IsSameSink (K.state out.old) (K.state out.new) result }
    ensures leaves { Leaves engine.old.state engine.new.state search.new result }
    ensures counts { Counts engine.old engine.new steps.old steps.new }
    ensures lent { Lent guide.old guide.new order.old order.new }
{
    let mut machine = Machine {
        alloc,
        engine,
        search,
        guide,
        order,
        steps,
    };
    prove_by(&mut machine, book, budget, out)
}

/// Searches and writes as [`prove`] does, with what the machine was lent.
pub fn prove_by<F: Filter, G: Guide, O: Order, K: Sink, L: Ledger>(
    machine: &mut Machine<F, G, O, L>,
    book: &Book,
    budget: u64,
    out: &mut K,
) -> Result<SearchEnd, WriteStop>
    requires fresh { machine.old.search.now ≡ record { decisions = []; journal = [] } }
    requires listed { IsListedInBook book.now machine.old.engine.now.state }
    ensures ok { IfOk result (λ end. HasProved (GuideFollows G.answers G.hears G.state)
        (OrderFollows O.answers O.hears O.state)
        machine.old.guide.now machine.new.guide.now machine.old.order.now machine.new.order.now
        budget book.now machine.old.engine.now.state machine.new.search.now.journal end machine.new.engine.now.state
        (K.state out.old).written (K.state out.new).written) }
    ensures holds { IfOk result (IsTrueOf machine.old.engine.now.state budget) }
    ensures err { OnErr result (BreaksOff (is_some machine.old.guide.now) (is_some machine.old.order.now)
        budget machine.old.engine.now.state machine.new.search.now.journal machine.new.engine.now.state) }
    ensures stopped { OnErr result (BreaksOffBy (GuideFollows G.answers G.hears G.state)
        (GuideStops G.answers G.hears G.state)
        (OrderFollows O.answers O.hears O.state) (OrderAnswers O.answers O.state)
        machine.old.guide.now machine.new.guide.now machine.old.order.now machine.new.order.now
        budget machine.old.engine.now.state machine.new.search.now.journal machine.new.engine.now.state) }
    ensures front { IfErr result (λ stop. HasWrittenSoFar stop book.now
        (is_some machine.old.guide.now) (is_some machine.old.order.now)
        budget machine.old.engine.now.state machine.new.search.now.journal
        (K.state out.old).written (K.state out.new).written) }
    ensures counted { IsCounted (K.state out.old).faults (K.state out.new).faults result }
    ensures sink { IsSameSink (K.state out.old) (K.state out.new) result }
    ensures gives { GivesBack machine.old machine.new result }
{
    // What holds of every book is known once its variables are counted.
    let _ = book.variables();
    let end = run(machine, book, budget, out);
    machine.close();
    let end = end?;
    machine.settle()?;
    Ok(end)
}

/// Writes the declarations, settles, and takes turns until the run ends, each undoing behind its lemma; then how it ends.
fn run<F: Filter, G: Guide, O: Order, K: Sink, L: Ledger>(
    machine: &mut Machine<F, G, O, L>,
    book: &Book,
    budget: u64,
    out: &mut K,
) -> Result<SearchEnd, WriteStop>
    requires fresh { machine.old.search.now ≡ record { decisions = []; journal = [] } }
    requires listed { IsListedInBook book.now machine.old.engine.now.state }
    ensures ok { IfOk result (λ end. HasRun (GuideFollows G.answers G.hears G.state)
        (OrderFollows O.answers O.hears O.state)
        machine.old.guide.now machine.new.guide.now machine.old.order.now machine.new.order.now
        budget book.now machine.old.engine.now.state machine.new.search.now.journal end (state_of machine.new)
        (K.state out.old).written (K.state out.new).written) }
    ensures stopped { OnErr result (IsCutOffBy (GuideFollows G.answers G.hears G.state)
        (GuideStops G.answers G.hears G.state)
        (OrderFollows O.answers O.hears O.state) (OrderAnswers O.answers O.state)
        machine.old.guide.now machine.new.guide.now machine.old.order.now machine.new.order.now
        budget machine.old.engine.now.state machine.new.search.now.journal machine.new.engine.now.state) }
    ensures stops { Stops book.now (is_some machine.old.guide.now) (is_some machine.old.order.now)
        budget machine.old.engine.now.state machine.new.search.now.journal
        (K.state out.old) (K.state out.new) result }
    ensures ran { HasRunOn machine.old machine.new }
    ensures scoped { HasScopedReasons machine.old.engine.now.state }
{
    // What holds of every engine is known once its store is read, and that its count of questions fits once that is read.
    let _store = machine.engine.store();
    let _checks = machine.engine.checks();
    let mut printed = Vec::new(machine.alloc);
    let mut notes = Notes::new(machine.alloc);
    write_declarations(book, out, &mut printed)?;
    machine.settle()?;
    loop {
        match machine.next(budget)? {
            Next::Ended(end) => {
                write_end(
                    machine.engine,
                    machine.search,
                    book,
                    &end,
                    &mut notes,
                    out,
                    &mut printed,
                )?;
                return Ok(end);
            }
            Next::Decide => _ = machine.decide()?,
            Next::Undo(conflict) => {
                write_lemma(
                    machine.engine,
                    machine.search,
                    book,
                    conflict.as_slice(),
                    &mut notes,
                    out,
                    &mut printed,
                )?;
                machine.undo_latest(&conflict)?;
                notes.note_last(machine.search.journal())?;
            }
        }
        machine.settle()?;
    }
}
