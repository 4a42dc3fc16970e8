//! Requests that were admitted, from the tables of what is withheld to their replies.
ghost use Rattle.std.specs.Prelude.{◌-◌, IfOk};
ghost use Rattle.palm_engine.specs.Following.{OrderFollows};
ghost use Rattle.palm_search.specs.Following.{GuideFollows};
ghost use Rattle.palm_session.specs.Answers.{WaitsFor};
ghost use Rattle.palm_session.specs.Led.{BecomesLead};
ghost use Rattle.palm_session.specs.Requests.{Admits};
ghost use Rattle.palm_session.specs.Serving.{Becomes, CanSay, IsSaid, Spends};
ghost use Rattle.palm_session.specs.State.{IsState};

use crate::desk::Desk;
use crate::going::Going;
use crate::remainder::Own;
use crate::reply::Reply;
use crate::request::Request;
use crate::taken::Taken;
use crate::withhold::is_contradictable;
use palm_agenda::Order;
use palm_base::{NoMemory, Steps};
use palm_guide::Guide;
use palm_lang::Fixed;
use std::sync::ledger::Ledger;

impl<G: Guide, O: Order> Desk<G, O> {
    /// Takes an admitted request: `paused` while it waits with filtering; else it is carried out.
    pub(crate) fn take<L: Ledger>(
        &mut self,
        request: Request,
        steps: &mut Steps<L>,
    ) -> Result<Taken, NoMemory>
        requires state { IsState self.old.state }
        requires admitted { Admits self.old.state request }
        ensures becomes { IfOk result (Becomes self.old.state request self.new.state (steps.new - steps.old)) }
        ensures led { IfOk result (BecomesLead (GuideFollows G.answers G.hears G.state) (OrderFollows O.answers O.hears O.state) self.old.state request self.old.objects self.new.state self.new.objects) }
        ensures spends { Spends self.old self.new steps.old steps.new }
    {
        if self.waits(&request) {
            return Ok(Taken::Said(Reply::Word(Fixed::Paused), Going::More));
        }
        self.carry_out(request, steps)
    }

    /// Carries out a request that does not wait: it is obeyed, and what is left of it done, and then `contradiction` is said,
    /// or its own reply. A search is left to be run.
    fn carry_out<L: Ledger>(
        &mut self,
        request: Request,
        steps: &mut Steps<L>,
    ) -> Result<Taken, NoMemory>
        requires state { IsState self.old.state }
        requires admitted { Admits self.old.state request }
        requires goes { WaitsFor self.old.state request → ⊥ }
        ensures becomes { IfOk result (Becomes self.old.state request self.new.state (steps.new - steps.old)) }
        ensures led { IfOk result (BecomesLead (GuideFollows G.answers G.hears G.state) (OrderFollows O.answers O.hears O.state) self.old.state request self.old.objects self.new.state self.new.objects) }
        ensures spends { Spends self.old self.new steps.old steps.new }
    {
        let is_told = is_contradictable(&request);
        let remainder = self.obey(request)?;
        let going = Going::after(&remainder);
        let own = self.follow(remainder, steps)?;
        if self.contradicts(is_told) {
            return Ok(Taken::Said(Reply::Word(Fixed::Contradiction), going));
        }
        self.say(own, going)
    }

    /// What stands for itself, the answer to the question, or the search that is to run.
    fn say(&self, own: Own, going: Going) -> Result<Taken, NoMemory>
        requires state { IsState self.now.state }
        requires can { CanSay self.now.state own }
        ensures { IfOk result (IsSaid self.now.state own going) }
    {
        match own {
            Own::Said(reply) => Ok(Taken::Said(reply, going)),
            Own::Answer(question) => Ok(Taken::Said(self.answer_of(question)?, going)),
            Own::Search(by) => Ok(Taken::ToSearch(by)),
        }
    }
}
