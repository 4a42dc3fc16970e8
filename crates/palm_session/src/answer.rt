//! Answering one line.
ghost use Rattle.std.specs.Prelude.{◌-◌, IfErr, IfOk, OnOk};
ghost use Rattle.palm_base.specs.Streams.{IsSameSink};
ghost use Rattle.palm_engine.specs.Following.{OrderFollows};
ghost use Rattle.palm_lang.specs.Writing.{IsCounted};
ghost use Rattle.palm_search.specs.Following.{GuideFollows};
ghost use Rattle.palm_session.specs.Feeding.{AnswersTo, LineBecomes, TakenAsks, TakenDecides, TakenFits};
ghost use Rattle.palm_session.specs.Led.{AnswersLead, LineBecomesLead};
ghost use Rattle.palm_session.specs.ReplyText.{IsRefusal};
ghost use Rattle.palm_session.specs.Serving.{Spends};
ghost use Rattle.palm_session.specs.State.{IsHeld, IsState};
ghost use Rattle.palm_session.specs.Requests.{CanSearch};
ghost use Rattle.palm_session.specs.Ways.{HasTold, HasToldFront};

use crate::admit::refusal_of;
use crate::deliver::deliver;
use crate::desk::Desk;
use crate::going::Going;
use crate::reply::Reply;
use crate::request::Procedure;
use crate::stop::Stop;
use crate::taken::Taken;
use palm_agenda::Order;
use palm_base::{NoMemory, Sink, Steps};
use palm_guide::Guide;
use palm_lang::{LineError, parse_line};
use std::sync::ledger::Ledger;

impl<G: Guide, O: Order> Desk<G, O> {
    /// Answers a line without its line end, and writes the reply.
    pub(crate) fn answer<K: Sink, L: Ledger>(
        &mut self,
        line: &[u8],
        out: &mut K,
        buffer: &mut Vec<u8>,
        steps: &mut Steps<L>,
    ) -> Result<Going, Stop>
        requires { IsState self.old.state }
        ensures counted { IsCounted (K.state out.old).faults (K.state out.new).faults result }
        ensures stands { IsSameSink (K.state out.old) (K.state out.new) result }
        ensures answers { AnswersTo self.old.state line.now (K.state out.old).written (K.state out.new).written self.new.state (steps.new - steps.old) result }
        ensures led { OnOk result (AnswersLead (GuideFollows G.answers G.hears G.state) (OrderFollows O.answers O.hears O.state) self.old.state line.now (K.state out.old).written (K.state out.new).written self.old.objects self.new.state self.new.objects) }
        ensures spends { Spends self.old self.new steps.old steps.new }
        ensures state { OnOk result (IsState self.new.state) }
    {
        match self.decide(line, steps) {
            Ok(Taken::Said(reply, going)) => match deliver(self, &reply, out, buffer) {
                Ok(()) => Ok(going),
                Err(stop) => Err(stop),
            },
            Ok(Taken::ToSearch(by)) => match self.tell(by, out, buffer, steps) {
                Ok(()) => Ok(Going::More),
                Err(stop) => Err(stop),
            },
            Err(NoMemory) => Err(Stop::NoMemory),
        }
    }

    /// Runs a search, and writes how it ended.
    fn tell<K: Sink, L: Ledger>(
        &mut self,
        by: Procedure,
        out: &mut K,
        buffer: &mut Vec<u8>,
        steps: &mut Steps<L>,
    ) -> Result<(), Stop>
        requires held { IsHeld self.old.state }
        requires can { CanSearch self.old.state by }
        ensures told { OnOk result (HasTold (GuideFollows G.answers G.hears G.state) (OrderFollows O.answers O.hears O.state) self.old.state by (K.state out.old).written (K.state out.new).written self.old.objects self.new.state self.new.objects) }
        ensures front { IfErr result (λ stop. HasToldFront stop self.old.state by (K.state out.old).written (K.state out.new).written) }
        ensures counted { IsCounted (K.state out.old).faults (K.state out.new).faults result }
        ensures stands { IsSameSink (K.state out.old) (K.state out.new) result }
        ensures spends { Spends self.old self.new steps.old steps.new }
    {
        match self.search(by, out, steps) {
            Ok(answer) => deliver(self, &answer.reply(), out, buffer),
            Err(stop) => Err(stop),
        }
    }

    /// Reads a line in its mode, sets the mode of the next ones, admits the line, and takes what it asks for; a search is left
    /// to be run.
    fn decide<L: Ledger>(&mut self, line: &[u8], steps: &mut Steps<L>) -> Result<Taken, NoMemory>
        requires { IsState self.old.state }
        ensures becomes { IfOk result (LineBecomes self.old.state line.now self.new.state) }
        ensures led { IfOk result (LineBecomesLead (GuideFollows G.answers G.hears G.state) (OrderFollows O.answers O.hears O.state) self.old.state line.now self.old.objects self.new.state self.new.objects) }
        ensures asks { IfOk result (TakenAsks self.old.state line.now self.new.state (steps.new - steps.old)) }
        ensures spends { Spends self.old self.new steps.old steps.new }
        ensures going { IfOk result (TakenDecides line.now) }
        ensures fits { IfOk result (TakenFits self.new.state) }
    {
        match parse_line(self.alloc(), line, self.mode()) {
            Ok(line) => {
                self.hear(&line);
                match self.admit(line)? {
                    Ok(request) => self.take(request, steps),
                    Err(refusal) => Ok(Taken::Said(Reply::Refused(refusal), Going::More)),
                }
            }
            Err(error) => {
                self.mishear();
                misread(error)
            }
        }
    }
}

/// The reply to a line that could not be read.
fn misread(error: LineError) -> Result<Taken, NoMemory>
    ensures { IfOk result (IsRefusal error) }
{
    match refusal_of(error) {
        Some(refusal) => Ok(Taken::Said(Reply::Refused(refusal), Going::More)),
        None => Err(NoMemory),
    }
}
