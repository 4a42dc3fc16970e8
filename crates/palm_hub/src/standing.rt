//! The sessions of a hub, and where it stands in the line that is being read.
ghost use Rattle.std.specs.Prelude.{◌≡◌, ◌↔◌, ◌++◌, ℕ, [], List, OnErr, OnOk, IfErr, IsTrue};
ghost use Rattle.palm_base.specs.Streams.{Rose};
ghost use Rattle.palm_lang.specs.Writing.{IsCounted, Writes};
ghost use Rattle.palm_lang.specs.declared.stop.WriteStop.TheVariants as stops;
ghost use Rattle.palm_read.specs.Lines.{HasNoFeed, without_return};
ghost use Rattle.palm_hub.specs.Hub.{Opened as OpenedTerm, output_of};
ghost use Rattle.palm_hub.specs.Standing.{AnswersLast, AnswersLastUntil, AnswersLines, AnswersUntil, StandsBehind, skipped};
ghost use Rattle.palm_hub.specs.Stepping.{AnswersOne, AnswersOneUntil, IsAtStart, IsQuiet, IsRouted, StandsAtEnd, StandsIn, TakesIn};
ghost use Rattle.palm_hub.specs.declared.part.Part.TheVariants as parts;

use crate::limits::MOST_HEAD_BYTES;
use crate::part::Part;
use crate::refusal::Refusal;
use crate::routing::{behind_blanks, route};
use crate::sessions::Opened;
use palm_base::{NoMemory, Sink, Steps};
use palm_lang::write_text;
use palm_read::{next_feed, without_return};
use palm_session::Stop;
use std::alloc::Global;
use std::marker::Model;
use std::mem;
use std::sync::ledger::Ledger;

/// A hub: its sessions, and where it stands in the line that is being read.
#[derive(Drop)]
pub(crate) struct Hub {
    sessions: Vec<Opened>,
    head: Vec<u8>,
    part: Part,
    held: bool,
}

impl Model for Hub {
    ghost use Rattle.palm_agenda.specs.declared.order.LastOrder.{LastOrder};
    ghost use Rattle.palm_guide.specs.declared.stock.FirstGuide.{FirstGuide};
    ghost use Rattle.palm_hub.specs.Standing.{HubView, hub_view};
    ghost use Rattle.palm_hub.specs.Stepping.{IsHub};

    ghost Value = { HubView FirstGuide LastOrder };

    ghost view = { λ h. hub_view h.sessions.items h.head.items h.part h.held };

    ghost invariant = { λ h. IsHub (hub_view h.sessions.items h.head.items h.part h.held) };
}

impl Hub {
    /// A hub without sessions, at the beginning of a line.
    pub(crate) fn new(alloc: Global) -> Hub
        ensures { StandsBehind [] [] result }
    {
        Hub {
            sessions: Vec::new(alloc),
            head: Vec::new(alloc),
            part: Part::Head,
            held: false,
        }
    }

    /// Takes the next bytes, and answers each line that they complete.
    pub(crate) fn feed<K: Sink, L: Ledger>(
        &mut self,
        alloc: Global,
        piece: &[u8],
        sink: &mut K,
        steps: &mut Steps<L>,
    ) -> Result<(), Stop>
        ensures counted { IsCounted (K.state sink.old).faults (K.state sink.new).faults result }
        ensures answers { OnOk result ((sessions : List OpenedTerm) (seen : List ℕ) → HasNoFeed seen → StandsBehind sessions seen self.old
            → (rest : List ℕ) × (after : List OpenedTerm)
            × AnswersLines sessions (seen ++ piece.now) (K.state sink.old).written (K.state sink.new).written rest after
            × StandsBehind after rest self.new) }
        ensures stopped { IfErr result (λ stop. (sessions : List OpenedTerm) (seen : List ℕ) → HasNoFeed seen → StandsBehind sessions seen self.old
            → (stop ≡ stops.NoMemory → Rose (K.state sink.old).faults (K.state sink.new).faults → ⊥)
            → AnswersUntil stop sessions (seen ++ piece.now) (K.state sink.old).written (K.state sink.new).written) }
    {
        let mut start = 0;
        while let Some(end) = next_feed(piece, start) {
            self.take_part(alloc, &piece[start..end], sink, steps)?;
            self.end_line(alloc, sink, steps)?;
            start = end + 1;
        }
        self.take_part(alloc, &piece[start..], sink, steps)
    }

    /// Answers a last line without its line feed, if it has a byte.
    pub(crate) fn finish<K: Sink, L: Ledger>(
        &mut self,
        alloc: Global,
        sink: &mut K,
        steps: &mut Steps<L>,
    ) -> Result<(), Stop>
        ensures counted { IsCounted (K.state sink.old).faults (K.state sink.new).faults result }
        ensures answers { OnOk result ((sessions : List OpenedTerm) (seen : List ℕ) → HasNoFeed seen → StandsBehind sessions seen self.old
            → AnswersLast sessions seen (K.state sink.old).written (K.state sink.new).written) }
        ensures stopped { IfErr result (λ stop. (sessions : List OpenedTerm) (seen : List ℕ) → HasNoFeed seen → StandsBehind sessions seen self.old
            → (stop ≡ stops.NoMemory → Rose (K.state sink.old).faults (K.state sink.new).faults → ⊥)
            → AnswersLastUntil stop sessions seen (K.state sink.old).written (K.state sink.new).written) }
    {
        if self.is_at_start() {
            return Ok(());
        }
        self.end_line(alloc, sink, steps)
    }

    /// Whether no byte of a line was taken.
    fn is_at_start(&self) -> bool
        ensures { IsTrue result ↔ IsAtStart self.now }
    {
        matches!(self.part, Part::Head) && self.head.is_empty() && !self.held
    }

    /// Takes bytes of a line, without its line feed. A carriage return at their end waits, since it may belong to the line's
    /// end. Nothing is written.
    fn take_part<K: Sink, L: Ledger>(
        &mut self,
        alloc: Global,
        bytes: &[u8],
        sink: &mut K,
        steps: &mut Steps<L>,
    ) -> Result<(), Stop>
        requires unbroken { HasNoFeed bytes.now }
        ensures quiet { IsQuiet (K.state sink.old) (K.state sink.new) result }
        ensures stands { OnOk result ((sessions : List OpenedTerm) (seen : List ℕ) → StandsBehind sessions seen self.old
            → StandsBehind sessions (seen ++ bytes.now) self.new) }
    {
        if bytes.is_empty() {
            return Ok(());
        }
        self.take_held(alloc, sink, steps)?;
        let content = without_return(bytes);
        self.held = content.len() < bytes.len();
        self.take_content(alloc, content, sink, steps)
    }

    /// Takes the carriage return that waits, if one does, as a byte of the line. Nothing is written.
    fn take_held<K: Sink, L: Ledger>(
        &mut self,
        alloc: Global,
        sink: &mut K,
        steps: &mut Steps<L>,
    ) -> Result<(), Stop>
        ensures quiet { IsQuiet (K.state sink.old) (K.state sink.new) result }
        ensures stands { OnOk result ((sessions : List OpenedTerm) (seen : List ℕ) → StandsBehind sessions seen self.old
            → StandsIn sessions seen self.new) }
    {
        if self.held {
            self.take_content(alloc, b"\r", sink, steps)
        } else {
            Ok(())
        }
    }

    /// Takes bytes of a line, all of which belong to it. Nothing is written.
    fn take_content<K: Sink, L: Ledger>(
        &mut self,
        alloc: Global,
        bytes: &[u8],
        sink: &mut K,
        steps: &mut Steps<L>,
    ) -> Result<(), Stop>
        requires unbroken { HasNoFeed bytes.now }
        ensures quiet { IsQuiet (K.state sink.old) (K.state sink.new) result }
        ensures takes { OnOk result (TakesIn self.old bytes.now self.new) }
        ensures held { self.new.held ≡ self.old.held }
    {
        match self.part {
            Part::Head => self.take_head(alloc, bytes, sink, steps),
            _ => self.take_routed(bytes, sink, steps),
        }
    }

    /// Takes bytes of a line that is not routed yet, and keeps the first ones until it is. Nothing is
    /// written.
    fn take_head<K: Sink, L: Ledger>(
        &mut self,
        alloc: Global,
        bytes: &[u8],
        sink: &mut K,
        steps: &mut Steps<L>,
    ) -> Result<(), Stop>
        requires unbroken { HasNoFeed bytes.now }
        requires head { self.old.part ≡ parts.Head }
        ensures quiet { IsQuiet (K.state sink.old) (K.state sink.new) result }
        ensures takes { OnOk result (TakesIn self.old bytes.now self.new) }
        ensures held { self.new.held ≡ self.old.held }
    {
        let used = bytes.len().min(MOST_HEAD_BYTES - self.head.len());
        keep(&mut self.head, &bytes[..used])?;
        if self.head.len() < MOST_HEAD_BYTES {
            return Ok(());
        }
        self.part = route(alloc, &mut self.sessions, &self.head, sink, steps)?;
        self.take_routed(&bytes[used..], sink, steps)
    }

    /// Takes bytes of a line that is routed. Nothing is written.
    fn take_routed<K: Sink, L: Ledger>(
        &mut self,
        bytes: &[u8],
        sink: &mut K,
        steps: &mut Steps<L>,
    ) -> Result<(), Stop>
        requires unbroken { HasNoFeed bytes.now }
        requires routed { IsRouted self.old.part }
        ensures quiet { IsQuiet (K.state sink.old) (K.state sink.new) result }
        ensures takes { OnOk result (TakesIn self.old bytes.now self.new) }
        ensures held { self.new.held ≡ self.old.held }
    {
        match self.part {
            Part::Head | Part::Skipped(_) => {}
            Part::Blanks => self.part = behind_blanks(bytes),
            Part::Session(place) => {
                self.part = Part::Skipped(None);
                self.sessions[place].take_part(bytes, sink, steps)?;
                self.part = Part::Session(place);
            }
        }
        Ok(())
    }

    /// Ends a line, and answers it. A carriage return that waits belongs to the line's end.
    fn end_line<K: Sink, L: Ledger>(
        &mut self,
        alloc: Global,
        sink: &mut K,
        steps: &mut Steps<L>,
    ) -> Result<(), Stop>
        ensures counted { IsCounted (K.state sink.old).faults (K.state sink.new).faults result }
        ensures answers { OnOk result ((sessions : List OpenedTerm) (seen : List ℕ) → HasNoFeed seen → StandsBehind sessions seen self.old
            → (after : List OpenedTerm)
            × AnswersOne sessions (without_return seen) (K.state sink.old).written (K.state sink.new).written after
            × StandsBehind after [] self.new) }
        ensures stopped { IfErr result (λ stop. (sessions : List OpenedTerm) (seen : List ℕ) → HasNoFeed seen → StandsBehind sessions seen self.old
            → (stop ≡ stops.NoMemory → Rose (K.state sink.old).faults (K.state sink.new).faults → ⊥)
            → AnswersOneUntil stop sessions (without_return seen) (K.state sink.old).written (K.state sink.new).written) }
    {
        self.route_rest(alloc, sink, steps)?;
        self.answer(sink, steps)
    }

    /// Routes a line that ends behind its first bytes, if it is not routed yet. Nothing is written.
    fn route_rest<K: Sink, L: Ledger>(
        &mut self,
        alloc: Global,
        sink: &mut K,
        steps: &mut Steps<L>,
    ) -> Result<(), Stop>
        ensures quiet { IsQuiet (K.state sink.old) (K.state sink.new) result }
        ensures stands { OnOk result ((hub : List OpenedTerm) (content : List ℕ) → StandsIn hub content self.old
            → StandsAtEnd hub content self.new) }
        ensures routed { OnOk result (IsRouted self.new.part) }
    {
        if let Part::Head = self.part {
            self.part = route(alloc, &mut self.sessions, &self.head, sink, steps)?;
        }
        Ok(())
    }

    /// Answers a line that is routed, and begins the next one.
    fn answer<K: Sink, L: Ledger>(&mut self, sink: &mut K, steps: &mut Steps<L>) -> Result<(), Stop>
        requires routed { IsRouted self.old.part }
        ensures counted { IsCounted (K.state sink.old).faults (K.state sink.new).faults result }
        ensures answers { OnOk result ((hub : List OpenedTerm) (content : List ℕ) → HasNoFeed content
            → StandsAtEnd hub content self.old
            → (after : List OpenedTerm)
            × AnswersOne hub content (K.state sink.old).written (K.state sink.new).written after
            × StandsBehind after [] self.new) }
        ensures stopped { IfErr result (λ stop. (hub : List OpenedTerm) (content : List ℕ) → HasNoFeed content
            → StandsAtEnd hub content self.old
            → (stop ≡ stops.NoMemory → Rose (K.state sink.old).faults (K.state sink.new).faults → ⊥)
            → AnswersOneUntil stop hub content (K.state sink.old).written (K.state sink.new).written) }
    {
        let part = mem::replace(&mut self.part, Part::Head);
        self.head.clear();
        self.held = false;
        match part {
            Part::Head | Part::Blanks => Ok(()),
            Part::Skipped(refusal) => tell(refusal, sink),
            Part::Session(place) => self.sessions[place].end_line(sink, steps),
        }
    }
}

/// Keeps more of the first bytes of a line.
fn keep(head: &mut Vec<u8>, bytes: &[u8]) -> Result<(), NoMemory>
    ensures ok { OnOk result (head.new.items ≡ head.old.items ++ bytes.now) }
    ensures err { OnErr result (head.new.items ≡ head.old.items) }
{
    head.extend_from_slice(bytes)?;
    Ok(())
}

/// Writes the line that tells why a hub line is refused, if it is.
fn tell<K: Sink>(refusal: Option<Refusal>, sink: &mut K) -> Result<(), Stop>
    ensures { Writes (K.state sink.old) (K.state sink.new) (output_of (skipped refusal)) result }
{
    match refusal {
        Some(refusal) => write_text(sink, refusal.text()),
        None => Ok(()),
    }
}
