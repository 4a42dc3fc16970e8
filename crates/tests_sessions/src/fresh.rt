//! A fresh session, for tests. One function owns it, since each place that gives one up costs its proof.
ghost use Rattle.std.specs.Prelude.{◌≡◌, ◌<◌, false};

use crate::guides::Scripted;
use palm_agenda::LastOrder;
use palm_base::{NoMemory, SteadySink, Steps};
use palm_session::{Session, Stop};
use std::alloc::Global;
use std::marker::Brand;
use std::sync::ledger::{Blank, Ledger};

/// How many bytes a sink may keep.
pub(crate) const ROOM: usize = 4_096;

/// What a test asks of a fresh session.
pub(crate) trait Question {
    /// What the test compares.
    type Answer;

    /// Feeds the session, and gives what is to be compared.
    fn answer<L: Ledger>(
        &self,
        alloc: Global,
        session: &mut Session<Scripted, LastOrder>,
        steps: &mut Steps<L>,
    ) -> Result<Self::Answer, Stop>
        requires { session.old.over ≡ false };
}

/// The answer of a fresh session with these guides.
fn ask_counted<L: Ledger, Q: Question>(
    alloc: Global,
    guides: Vec<Scripted>,
    question: &Q,
    blank: Blank,
) -> Result<Q::Answer, Stop>
    requires named { blank.name ≡ L.name }
    requires parts { blank.parts ≡ L.parts }
    requires shared { 0 < L.parts }
{
    let mut steps = Steps::<L>::start(blank);
    let mut session = Session::new(alloc, guides, Vec::<LastOrder>::new(alloc))?;
    question.answer(alloc, &mut session, &mut steps)
}

/// The same, with a counter of its own.
pub(crate) fn ask<Q: Question>(
    alloc: Global,
    guides: Vec<Scripted>,
    question: &Q,
) -> Result<Q::Answer, Stop> {
    ask_counted::<Brand, Q>(alloc, guides, question, Blank::new(1))
}

/// Feeds a text to the session, with room for its replies.
pub(crate) fn feed<L: Ledger>(
    session: &mut Session<Scripted, LastOrder>,
    text: &[u8],
    sink: &mut SteadySink,
    steps: &mut Steps<L>,
) -> Result<(), Stop>
    requires { session.old.over ≡ false }
{
    sink.reserve(ROOM)?;
    session.feed(text, sink, steps)?;
    Ok(())
}

/// What was written to the sink.
pub(crate) fn bytes_of(alloc: Global, sink: &SteadySink) -> Result<Vec<u8>, NoMemory> {
    Ok(Vec::from_slice(alloc, sink.bytes())?)
}
