//! What follows a change: filtering, or so many revisions. A search follows where the reply is written.
ghost use Rattle.std.specs.Prelude.{◌-◌, IfOk, OnOk};
ghost use Rattle.palm_engine.specs.Following.{OrderFollows};
ghost use Rattle.palm_search.specs.Following.{GuideFollows};
ghost use Rattle.palm_session.specs.Effects.{unless_paused};
ghost use Rattle.palm_session.specs.Serving.{Followed, IsDone, RanAll, Spends};

use crate::desk::Desk;
use crate::remainder::{Own, Remainder};
use crate::reply::Reply;
use palm_agenda::Order;
use palm_base::{NoMemory, Steps};
use palm_guide::Guide;
use palm_lang::Fixed;
use std::sync::ledger::Ledger;

impl<G: Guide, O: Order> Desk<G, O> {
    /// Does what is left of a request, and answers what is to be said.
    pub(crate) fn follow<L: Ledger>(
        &mut self,
        remainder: Remainder,
        steps: &mut Steps<L>,
    ) -> Result<Own, NoMemory>
        ensures done { IfOk result (IsDone (GuideFollows G.answers G.hears G.state) (OrderFollows O.answers O.hears O.state) self.old.state remainder self.old.objects self.new.state self.new.objects (steps.new - steps.old)) }
        ensures spends { Spends self.old self.new steps.old steps.new }
    {
        match remainder {
            Remainder::Say(own) => Ok(own),
            Remainder::Filter => {
                self.filter(steps)?;
                Ok(Own::Said(Reply::Word(Fixed::Done)))
            }
            Remainder::Run(count) => Ok(Own::Said(Reply::Ran(self.run(count, steps)?))),
            Remainder::Search(by) => Ok(Own::Search(by)),
            Remainder::End => Ok(Own::Said(Reply::Word(Fixed::Bye))),
        }
    }

    /// Filters, unless filtering waits.
    fn filter<L: Ledger>(&mut self, steps: &mut Steps<L>) -> Result<(), NoMemory>
        ensures followed { OnOk result (Followed (GuideFollows G.answers G.hears G.state) (OrderFollows O.answers O.hears O.state) self.old.state (unless_paused self.old.state) self.old.objects self.new.state self.new.objects (steps.new - steps.old)) }
        ensures spends { Spends self.old self.new steps.old steps.new }
    {
        if self.is_paused() {
            return Ok(());
        }
        self.settle(None, steps)?;
        Ok(())
    }

    /// Runs so many revisions at most, and answers how many ran.
    fn run<L: Ledger>(&mut self, count: u64, steps: &mut Steps<L>) -> Result<u64, NoMemory>
        ensures ran { IfOk result (λ told. RanAll (OrderFollows O.answers O.hears O.state) self.old.state count told self.old.objects self.new.state self.new.objects (steps.new - steps.old)) }
        ensures spends { Spends self.old self.new steps.old steps.new }
    {
        self.settle(Some(count), steps)
    }
}
