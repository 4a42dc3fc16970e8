//! The command `gen`.
ghost use Rattle.std.specs.Prelude.{◌≡◌, ◌<◌, ◌≤◌, ℕ, List, [], false};
ghost use Rattle.palm_lang.specs.Reply.{ended};
ghost use Rattle.palm_session.specs.State.{IsState, fresh};
ghost use Rattle.palm_cli.specs.Commands.{WritesSummary, status_of};
ghost use Rattle.palm_cli.specs.Generator.{solve_line};
ghost use Rattle.palm_cli.specs.Solving.{IsTextOf, SolvesAfter};
ghost use Rattle.palm_cli.specs.declared.limits.TheConstants.{MOST_QUEENS};

use crate::limits::MOST_QUEENS;
use crate::queens::{easing_text, heading_text, posing_text, solve_text};
use crate::status::Status;
use palm_agenda::LastOrder;
use palm_base::{Failed, Sink, SteadySink, Steps, write_all};
use palm_guide::FirstGuide;
use palm_session::{Session, Stop};
use std::alloc::Global;
use std::marker::Brand;
use std::sync::ledger::{Blank, Ledger};

/// Makes the session of so many queens, runs it without guides and orders, and writes the summary.
pub fn generate<K: Sink>(alloc: Global, size: u8, sink: &mut K) -> Status
    requires some { 1 ≤ size }
    requires few { size ≤ MOST_QUEENS }
    ensures { WritesSummary size (K.state sink.old) (K.state sink.new) result }
{
    generate_counted::<K, Brand>(alloc, size, sink, Blank::new(1))
}

/// The same, with a counter of its own.
fn generate_counted<K: Sink, L: Ledger>(
    alloc: Global,
    size: u8,
    sink: &mut K,
    blank: Blank,
) -> Status
    requires some { 1 ≤ size }
    requires few { size ≤ MOST_QUEENS }
    requires named { blank.name ≡ L.name }
    requires parts { blank.parts ≡ L.parts }
    requires shared { 0 < L.parts }
    ensures { WritesSummary size (K.state sink.old) (K.state sink.new) result }
{
    let mut steps = Steps::<L>::start(blank);
    let Ok(mut session) = Session::<FirstGuide, LastOrder>::new(
        alloc,
        Vec::new(alloc),
        Vec::new(alloc),
    ) else {
        return Status::NoMemory;
    };
    status(summarize(alloc, size, &mut session, sink, &mut steps))
}

/// The status of a command that stopped, or did not.
fn status(end: Result<(), Stop>) -> Status
    ensures { result ≡ status_of end }
{
    match end {
        Ok(()) => Status::Done,
        Err(Stop::WriteFault) => Status::WriteFault,
        Err(Stop::NoMemory) => Status::NoMemory,
    }
}

/// Runs the generated session in a fresh one, and writes the heading, and the reply of each `solve` line as it comes.
fn summarize<K: Sink, L: Ledger>(
    alloc: Global,
    size: u8,
    session: &mut Session<FirstGuide, LastOrder>,
    sink: &mut K,
    steps: &mut Steps<L>,
) -> Result<(), Stop>
    requires some { 1 ≤ size }
    requires few { size ≤ MOST_QUEENS }
    requires fresh { session.old ≡ record { state = fresh [] []; checks = 0; objects = session.old.objects; unfinished = []; over = false } }
    ensures { WritesSummary size (K.state sink.old) (K.state sink.new) (status_of result) }
{
    let heading = heading_text(alloc, size)?;
    let posing = posing_text(alloc, size)?;
    let easing = easing_text(alloc, size)?;
    let solve = solve_text(alloc)?;
    match write_all(sink, heading.as_bytes()) {
        Ok(()) => {}
        Err(Failed) => return Err(Stop::WriteFault),
    }
    let first = posing.as_bytes();
    let second = easing.as_bytes();
    let solve = solve.as_bytes();
    solve_after(alloc, session, first, solve, sink, steps)?;
    solve_after(alloc, session, second, solve, sink, steps)
}

/// Answers lines whose replies are not kept, and then a `solve` line whose reply is written.
fn solve_after<K: Sink, L: Ledger>(
    alloc: Global,
    session: &mut Session<FirstGuide, LastOrder>,
    text: &[u8],
    solve: &[u8],
    sink: &mut K,
    steps: &mut Steps<L>,
) -> Result<(), Stop>
    requires going { session.old.over ≡ false }
    requires whole { session.old.unfinished ≡ [] }
    requires state { IsState session.old.state }
    requires text { (lines : List (List ℕ)) × IsTextOf lines text.now }
    requires solve { solve.now ≡ ended solve_line }
    ensures { (lines : List (List ℕ)) → IsTextOf lines text.now →
        SolvesAfter session.old lines (K.state sink.old) (K.state sink.new) session.new result }
{
    let mut unkept = SteadySink::new(alloc);
    session.feed(text, &mut unkept, steps)?;
    session.feed(solve, sink, steps)?;
    Ok(())
}
