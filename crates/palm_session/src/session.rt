//! Sessions: bytes in, in any pieces; lines cut out of them; replies out.
ghost use Rattle.std.specs.Prelude.{◌≡◌, ◌-◌, ◌≤◌, ◌++◌, [], true, false, IfOk, OnOk, take};
ghost use Rattle.palm_base.specs.Streams.{IsSameSink};
ghost use Rattle.palm_engine.specs.Following.{OrderFollows};
ghost use Rattle.palm_lang.specs.Writing.{IsCounted};
ghost use Rattle.palm_search.specs.Following.{GuideFollows};
ghost use Rattle.palm_session.specs.Feeding.{AnswersLines, Feeds, FeedsText, Finishes, FinishesTo, IsSession, IsUnfinished, RaisesChecks};
ghost use Rattle.palm_session.specs.Led.{FeedsLead, LastLeads};
ghost use Rattle.palm_read.specs.Lines.{HasNoFeed};
ghost use Rattle.palm_session.specs.Serving.{Spends};
ghost use Rattle.palm_session.specs.State.{IsState};
ghost use Rattle.palm_model.specs.State.{IsValid};

use crate::desk::Desk;
use crate::going::Going;
use crate::limits::MOST_KEPT_BYTES;
use crate::stop::Stop;
use palm_agenda::Order;
use palm_base::{NoMemory, Sink, Steps};
use palm_engine::Engine;
use palm_guide::Guide;
use palm_kind::Kind;
use palm_lang::{Book, next_feed, without_return};
use palm_search::Turn;
use std::alloc::Global;
use std::marker::Model;
use std::sync::ledger::Ledger;

/// A session. It is over after a `quit` line, after its last line was answered, and after a stop.
#[derive(Drop)]
pub struct Session<G: Guide, O: Order> {
    desk: Desk<G, O>,
    unfinished: Vec<u8>,
    buffer: Vec<u8>,
    over: bool,
}

impl<G: Guide, O: Order> Model for Session<G, O> {
    ghost use Rattle.palm_session.specs.Feeding.{IsSession, View, view_of};

    ghost Value = { View G O };

    ghost view = { λ s. view_of s.desk s.unfinished.items s.over };

    ghost invariant = { λ s. IsSession (view_of s.desk s.unfinished.items s.over) };
}

impl<G: Guide, O: Order> Session<G, O> {
    ghost use Rattle.std.specs.Prelude.{[], vec_len};
    ghost use Rattle.palm_session.specs.Objects.{all_placed, numbered};
    ghost use Rattle.palm_session.specs.State.{fresh};

    /// A fresh session, with these guides and orders, each numbered from 1, of which none is chosen.
    pub fn new(alloc: Global, guides: Vec<G>, orders: Vec<O>) -> Result<Session<G, O>, NoMemory>
        ensures { IfOk result (λ s. s ≡ record {
          state = fresh (numbered (vec_len guides)) (numbered (vec_len orders));
          checks = 0;
          objects = record { guides = all_placed guides.items; orders = all_placed orders.items };
          unfinished = [];
          over = false;
        }) }
    {
        Ok(Session {
            desk: Desk::new(alloc, guides, orders)?,
            unfinished: Vec::new(alloc),
            buffer: Vec::new(alloc),
            over: false,
        })
    }

    /// Whether the session takes no more bytes.
    pub fn is_over(&self) -> bool
        ensures { result ≡ self.now.over }
    {
        self.over
    }

    /// The book.
    pub fn book(&self) -> &Book
        ensures { result.now ≡ self.now.state.book }
    {
        self.desk.book()
    }

    /// The turns of the last search, and none before one.
    pub fn journal(&self) -> &[Turn]
        ensures { result.now ≡ self.now.state.journal }
    {
        self.desk.journal()
    }

    /// The engine that filters the active constraints.
    pub fn engine(&self) -> &Engine<Kind>
        ensures state { result.now.state ≡ self.now.state.engine }
        ensures checks { result.now.checks ≡ self.now.checks }
        ensures valid { IsValid self.now.state.engine }
    {
        self.desk.engine()
    }

    /// Takes the next bytes, answers each line that they complete, and writes each reply before the next line is
    /// looked at. The bytes behind a `quit` line are not looked at. Of a line that is not complete yet the first
    /// [`MOST_KEPT_BYTES`] bytes are kept. What is `held` holds of every session.
    pub fn feed<K: Sink, L: Ledger>(
        &mut self,
        piece: &[u8],
        out: &mut K,
        steps: &mut Steps<L>,
    ) -> Result<Going, Stop>
        requires { self.old.over ≡ false }
        ensures counted { IsCounted (K.state out.old).faults (K.state out.new).faults result }
        ensures stands { IsSameSink (K.state out.old) (K.state out.new) result }
        ensures feeds { Feeds self.old piece.now (K.state out.old).written (K.state out.new).written self.new (steps.new - steps.old) result }
        ensures led { IfOk result (FeedsLead (GuideFollows G.answers G.hears G.state) (OrderFollows O.answers O.hears O.state) self.old.state (self.old.unfinished ++ piece.now) (K.state out.old).written (K.state out.new).written self.old.objects self.new.state self.new.objects) }
        ensures checks { OnOk result (RaisesChecks self.old self.new (steps.new - steps.old)) }
        ensures held { IsSession self.old }
        ensures later { steps.old ≤ steps.new }
    {
        self.over = true;
        let result = self.feed_lines(piece, out, steps);
        self.over = !matches!(result, Ok(Going::More));
        result
    }

    /// Answers a last line without its line feed, if it has a byte.
    pub fn finish<K: Sink, L: Ledger>(
        &mut self,
        out: &mut K,
        steps: &mut Steps<L>,
    ) -> Result<(), Stop>
        requires { self.old.over ≡ false }
        ensures counted { IsCounted (K.state out.old).faults (K.state out.new).faults result }
        ensures stands { IsSameSink (K.state out.old) (K.state out.new) result }
        ensures finishes { Finishes self.old (K.state out.old).written (K.state out.new).written self.new (steps.new - steps.old) result }
        ensures led { OnOk result (LastLeads (GuideFollows G.answers G.hears G.state) (OrderFollows O.answers O.hears O.state) self.old.state self.old.unfinished (K.state out.old).written (K.state out.new).written self.old.objects self.new.state self.new.objects) }
        ensures checks { OnOk result (RaisesChecks self.old self.new (steps.new - steps.old)) }
        ensures later { steps.old ≤ steps.new }
    {
        self.over = true;
        answer_last(
            &mut self.desk,
            &self.unfinished,
            out,
            &mut self.buffer,
            steps,
        )
    }

    /// Answers the lines that the piece completes, the first of them by the kept bytes and the piece's first part, and
    /// keeps the first bytes of the rest. The session counts as over until they are answered.
    fn feed_lines<K: Sink, L: Ledger>(
        &mut self,
        piece: &[u8],
        out: &mut K,
        steps: &mut Steps<L>,
    ) -> Result<Going, Stop>
        requires over { self.old.over ≡ true }
        requires state { IsState self.old.state }
        ensures counted { IsCounted (K.state out.old).faults (K.state out.new).faults result }
        ensures stands { IsSameSink (K.state out.old) (K.state out.new) result }
        ensures feeds { FeedsText self.old.state (self.old.unfinished ++ piece.now) (K.state out.old).written (K.state out.new).written self.new (steps.new - steps.old) result }
        ensures led { IfOk result (FeedsLead (GuideFollows G.answers G.hears G.state) (OrderFollows O.answers O.hears O.state) self.old.state (self.old.unfinished ++ piece.now) (K.state out.old).written (K.state out.new).written self.old.objects self.new.state self.new.objects) }
        ensures checks { RaisesChecks self.old self.new (steps.new - steps.old) }
        ensures later { steps.old ≤ steps.new }
        ensures state { OnOk result (IsState self.new.state) }
    {
        if self.unfinished.is_empty() {
            return self.feed_text(piece, out, steps);
        }
        let Some(end) = next_feed(piece, 0) else {
            keep(&mut self.unfinished, piece)?;
            return Ok(Going::More);
        };
        keep(&mut self.unfinished, &piece[..end])?;
        let line = without_return(&self.unfinished);
        match self.desk.answer(line, out, &mut self.buffer, steps) {
            Ok(Going::More) => {
                self.unfinished.clear();
                self.feed_text(&piece[end + 1..], out, steps)
            }
            Ok(Going::Quit) => Ok(Going::Quit),
            Err(stop) => Err(stop),
        }
    }

    /// Answers the lines of a text, and keeps the first bytes of the rest; nothing is kept before it.
    fn feed_text<K: Sink, L: Ledger>(
        &mut self,
        text: &[u8],
        out: &mut K,
        steps: &mut Steps<L>,
    ) -> Result<Going, Stop>
        requires none { self.old.unfinished ≡ [] }
        requires over { self.old.over ≡ true }
        requires state { IsState self.old.state }
        ensures counted { IsCounted (K.state out.old).faults (K.state out.new).faults result }
        ensures stands { IsSameSink (K.state out.old) (K.state out.new) result }
        ensures feeds { FeedsText self.old.state text.now (K.state out.old).written (K.state out.new).written self.new (steps.new - steps.old) result }
        ensures led { IfOk result (FeedsLead (GuideFollows G.answers G.hears G.state) (OrderFollows O.answers O.hears O.state) self.old.state text.now (K.state out.old).written (K.state out.new).written self.old.objects self.new.state self.new.objects) }
        ensures checks { RaisesChecks self.old self.new (steps.new - steps.old) }
        ensures later { steps.old ≤ steps.new }
        ensures state { OnOk result (IsState self.new.state) }
    {
        match answer_lines(&mut self.desk, text, out, &mut self.buffer, steps) {
            Ok((Going::More, used)) => {
                keep(&mut self.unfinished, &text[used..])?;
                Ok(Going::More)
            }
            Ok((Going::Quit, _)) => Ok(Going::Quit),
            Err(stop) => Err(stop),
        }
    }
}

/// Answers the lines of a text that have their line feeds, up to one that ends the session, and answers where the rest
/// begins.
fn answer_lines<G: Guide, O: Order, K: Sink, L: Ledger>(
    desk: &mut Desk<G, O>,
    text: &[u8],
    out: &mut K,
    buffer: &mut Vec<u8>,
    steps: &mut Steps<L>,
) -> Result<(Going, usize), Stop>
    requires { IsState desk.old.state }
    ensures counted { IsCounted (K.state out.old).faults (K.state out.new).faults result }
    ensures stands { IsSameSink (K.state out.old) (K.state out.new) result }
    ensures answers { AnswersLines desk.old.state text.now (K.state out.old).written (K.state out.new).written desk.new.state (steps.new - steps.old) result }
    ensures led { IfOk result (λ r. FeedsLead (GuideFollows G.answers G.hears G.state) (OrderFollows O.answers O.hears O.state) desk.old.state text.now (K.state out.old).written (K.state out.new).written desk.old.objects desk.new.state desk.new.objects r.0) }
    ensures spends { Spends desk.old desk.new steps.old steps.new }
    ensures state { OnOk result (IsState desk.new.state) }
{
    let mut start = 0;
    while let Some(end) = next_feed(text, start) {
        let line = without_return(&text[start..end]);
        start = end + 1;
        match desk.answer(line, out, buffer, steps) {
            Ok(Going::More) => {}
            Ok(Going::Quit) => return Ok((Going::Quit, start)),
            Err(stop) => return Err(stop),
        }
    }
    Ok((Going::More, start))
}

/// Keeps more bytes of an unfinished line, as many as there is room for.
fn keep(bytes: &mut Vec<u8>, more: &[u8]) -> Result<(), NoMemory>
    requires kept { IsUnfinished bytes.old.items }
    requires unbroken { HasNoFeed more.now }
    ensures ok { OnOk result (bytes.new.items ≡ take MOST_KEPT_BYTES (bytes.old.items ++ more.now)) }
    ensures kept { IsUnfinished bytes.new.items }
{
    let room = MOST_KEPT_BYTES - bytes.len();
    bytes.extend_from_slice(&more[..more.len().min(room)])?;
    Ok(())
}

/// Answers a last line without its line feed, if it has a byte.
fn answer_last<G: Guide, O: Order, K: Sink, L: Ledger>(
    desk: &mut Desk<G, O>,
    line: &[u8],
    out: &mut K,
    buffer: &mut Vec<u8>,
    steps: &mut Steps<L>,
) -> Result<(), Stop>
    requires { IsState desk.old.state }
    ensures counted { IsCounted (K.state out.old).faults (K.state out.new).faults result }
    ensures stands { IsSameSink (K.state out.old) (K.state out.new) result }
    ensures answers { FinishesTo desk.old.state line.now (K.state out.old).written (K.state out.new).written desk.new.state (steps.new - steps.old) result }
    ensures led { OnOk result (LastLeads (GuideFollows G.answers G.hears G.state) (OrderFollows O.answers O.hears O.state) desk.old.state line.now (K.state out.old).written (K.state out.new).written desk.old.objects desk.new.state desk.new.objects) }
    ensures spends { Spends desk.old desk.new steps.old steps.new }
{
    if line.is_empty() {
        return Ok(());
    }
    match desk.answer(without_return(line), out, buffer, steps) {
        Ok(_) => Ok(()),
        Err(stop) => Err(stop),
    }
}
