//! The sessions of a hub.
ghost use Rattle.std.specs.Prelude.{◌≡◌, ◌↔◌, IsTrue, ℕ, false, List, OnOk, IfOk, IfErr, take};
ghost use Rattle.palm_base.specs.Streams.{Rose};
ghost use Rattle.palm_lang.specs.Writing.{IsCounted};
ghost use Rattle.palm_lang.specs.declared.stop.WriteStop.TheVariants as stops;
ghost use Rattle.palm_read.specs.Lines.{HasNoFeed};
ghost use Rattle.palm_session.specs.declared.limits.TheConstants.{MOST_KEPT_BYTES};
ghost use Rattle.palm_hub.specs.Hub.{prefix_of};
ghost use Rattle.palm_hub.specs.Standing.{AnswersIn, AnswersInUntil, KeepsPart};
ghost use Rattle.palm_hub.specs.Stepping.{IsAdmission, IsFound, IsFresh, IsQuiet};

use crate::limits::MOST_SESSIONS;
use crate::part::Part;
use crate::passing::{HubSession, end_line, pass_part};
use crate::refusal::Refusal;
use palm_base::{NoMemory, Sink, Steps};
use palm_session::{Session, Stop};
use std::alloc::Global;
use std::marker::Model;
use std::sync::ledger::Ledger;

/// A session that was opened, its name, and what stands before each line of its replies.
#[derive(Drop)]
pub(crate) struct Opened {
    name: Vec<u8>,
    prefix: Vec<u8>,
    session: HubSession,
}

impl Model for Opened {
    ghost use Rattle.std.specs.Prelude.{◌≡◌};
    ghost use Rattle.palm_agenda.specs.declared.order.LastOrder.{LastOrder};
    ghost use Rattle.palm_guide.specs.declared.stock.FirstGuide.{FirstGuide};
    ghost use Rattle.palm_hub.specs.Hub.{prefix_of};
    ghost use Rattle.palm_hub.specs.Standing.{Member, member};

    ghost Value = { Member FirstGuide LastOrder };

    ghost view = { λ o. member o.name.items o.session };

    ghost invariant = { λ o. o.prefix.items ≡ prefix_of o.name.items };
}

impl Opened {
    /// Opens a session of this name.
    fn new(alloc: Global, name: &[u8]) -> Result<Opened, NoMemory>
        ensures { IfOk result (λ opened. IsFresh opened name.now) }
    {
        let mut prefix = Vec::from_slice(alloc, name)?;
        prefix.extend_from_slice(b" : ")?;
        Ok(Opened {
            name: Vec::from_slice(alloc, name)?,
            prefix,
            session: Session::new(alloc, Vec::new(alloc), Vec::new(alloc))?,
        })
    }

    /// Whether this is the session's name.
    fn is_named(&self, name: &[u8]) -> bool
        ensures { IsTrue result ↔ self.now.name ≡ name.now }
    {
        self.name.as_slice() == name
    }

    /// Whether the session takes no more bytes.
    fn is_over(&self) -> bool
        ensures { result ≡ self.now.session.over }
    {
        self.session.is_over()
    }

    /// Passes bytes of a line to the session. Nothing is written.
    pub(crate) fn take_part<K: Sink, L: Ledger>(
        &mut self,
        piece: &[u8],
        sink: &mut K,
        steps: &mut Steps<L>,
    ) -> Result<(), Stop>
        requires going { self.old.session.over ≡ false }
        requires unbroken { HasNoFeed piece.now }
        ensures named { self.new.name ≡ self.old.name }
        ensures quiet { IsQuiet (K.state sink.old) (K.state sink.new) result }
        ensures kept { OnOk result (KeepsPart self.old.session piece.now self.new.session) }
    {
        pass_part(&mut self.session, &self.prefix, piece, sink, steps)
    }

    /// Ends the session's line, of which it keeps the first bytes, and writes each line of its reply behind its name.
    pub(crate) fn end_line<K: Sink, L: Ledger>(
        &mut self,
        sink: &mut K,
        steps: &mut Steps<L>,
    ) -> Result<(), Stop>
        requires going { self.old.session.over ≡ false }
        ensures named { self.new.name ≡ self.old.name }
        ensures counted { IsCounted (K.state sink.old).faults (K.state sink.new).faults result }
        ensures answers { OnOk result ((line : List ℕ) → HasNoFeed line → self.old.session.unfinished ≡ take MOST_KEPT_BYTES line
            → AnswersIn self.old.session line (prefix_of self.old.name) (K.state sink.old).written (K.state sink.new).written self.new.session) }
        ensures stopped { IfErr result (λ stop. (line : List ℕ) → HasNoFeed line → self.old.session.unfinished ≡ take MOST_KEPT_BYTES line
            → (stop ≡ stops.NoMemory → Rose (K.state sink.old).faults (K.state sink.new).faults → ⊥)
            → AnswersInUntil stop self.old.session.state line (prefix_of self.old.name) (K.state sink.old).written (K.state sink.new).written) }
    {
        end_line(&mut self.session, &self.prefix, sink, steps)
    }
}

/// The place of the session of a name.
fn place_of(sessions: &[Opened], name: &[u8]) -> Option<usize>
    ensures { IsFound sessions.now name.now result }
{
    sessions.iter().position(|opened| opened.is_named(name))
}

/// Where a line for the session of a name goes. A session is opened where none has the name.
pub(crate) fn admit(
    alloc: Global,
    sessions: &mut Vec<Opened>,
    name: &[u8],
) -> Result<Part, NoMemory>
    ensures { IfOk result (λ part. IsAdmission sessions.old.items name.now part sessions.new.items) }
{
    match place_of(sessions, name) {
        Some(place) if sessions[place].is_over() => Ok(Part::Skipped(Some(Refusal::Over))),
        Some(place) => Ok(Part::Session(place)),
        None if sessions.len() >= MOST_SESSIONS => Ok(Part::Skipped(Some(Refusal::TooMany))),
        None => {
            let place = sessions.len();
            sessions.push(Opened::new(alloc, name)?)?;
            Ok(Part::Session(place))
        }
    }
}
