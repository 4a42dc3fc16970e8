//! What requests change, and what is left of them then: an arm each.
ghost use Rattle.std.specs.Prelude.{◌≡◌, ◌<◌, true, false, Contains, IfOk, IfSome, OnOk, length};
ghost use Rattle.palm_session.specs.Led.{objects_after};
ghost use Rattle.palm_session.specs.Requests.{Admits, CanAdd, CanDeclare, CanDeclareIn, StandsAt};
ghost use Rattle.palm_session.specs.Serving.{Obeys};
ghost use Rattle.palm_session.specs.State.{IsHeld};
ghost use Rattle.palm_session.specs.declared.request.Request.TheVariants as Request;

use crate::desk::Desk;
use crate::remainder::{Own, Remainder};
use crate::reply::Reply;
use crate::request::Request;
use palm_agenda::Order;
use palm_base::{NoMemory, Var};
use palm_guide::Guide;
use palm_lang::{DomainText, Fixed, Name, values_in};
use palm_model::Con;

/// Nothing is left but to say this.
fn say(reply: Reply) -> Remainder
    ensures { result ≡ Remainder.Say (Own.Said reply) }
{
    Remainder::Say(Own::Said(reply))
}

impl<G: Guide, O: Order> Desk<G, O> {
    /// Makes the change of a request, and answers what is left of it.
    pub(crate) fn obey(&mut self, request: Request) -> Result<Remainder, NoMemory>
        requires held { IsHeld self.old.state }
        requires admitted { Admits self.old.state request }
        ensures obeys { IfOk result (Obeys self.old.state request self.new.state) }
        ensures checks { self.new.checks ≡ self.old.checks }
        ensures objects { OnOk result (self.new.objects ≡ objects_after request self.old.objects) }
    {
        match request {
            Request::Nothing => Ok(say(Reply::Nothing)),
            Request::Header => Ok(say(Reply::Word(Fixed::Done))),
            Request::Declare { name, domain } => self.obey_declare(name, domain),
            Request::DeclareIn {
                name,
                universe,
                domain,
            } => self.obey_declare_in(name, universe, domain),
            Request::Add { name, con } => self.obey_add(name, con),
            Request::Relax(place) => Ok(self.obey_relax(place)),
            Request::Enforce(place) => self.obey_enforce(place),
            Request::Retract(place) => Ok(self.obey_retract(place)),
            Request::Ask(question) => Ok(Remainder::Say(Own::Answer(question))),
            Request::Pause => Ok(self.obey_pause()),
            Request::Resume => Ok(self.obey_resume()),
            Request::Step(count) => Ok(Remainder::Run(count)),
            Request::Solve(by) => Ok(Remainder::Search(by)),
            Request::ChooseGuide(chosen) => Ok(self.obey_choose_guide(chosen)),
            Request::DropGuide(number) => Ok(self.obey_drop_guide(number)),
            Request::ChooseOrder(chosen) => Ok(self.obey_choose_order(chosen)),
            Request::DropOrder(number) => Ok(self.obey_drop_order(number)),
            Request::Prefer { place, weight } => self.obey_prefer(place, weight),
            Request::Quit => Ok(Remainder::End),
        }
    }

    /// One more variable.
    fn obey_declare(&mut self, name: Name, domain: DomainText) -> Result<Remainder, NoMemory>
        requires held { IsHeld self.old.state }
        requires can { CanDeclare self.old.state name domain }
        ensures obeys { IfOk result (Obeys self.old.state (Request.Declare name domain) self.new.state) }
        ensures checks { self.new.checks ≡ self.old.checks }
        ensures objects { self.new.objects ≡ self.old.objects }
    {
        let values = values_in(self.alloc(), domain)?;
        self.declare(name, values)?;
        Ok(say(Reply::Word(Fixed::Done)))
    }

    /// One more variable, and under its name one more constraint, which is filtered.
    fn obey_declare_in(
        &mut self,
        name: Name,
        universe: DomainText,
        domain: DomainText,
    ) -> Result<Remainder, NoMemory>
        requires held { IsHeld self.old.state }
        requires can { CanDeclareIn self.old.state name universe domain }
        ensures obeys { IfOk result (Obeys self.old.state (Request.DeclareIn name universe domain) self.new.state) }
        ensures checks { self.new.checks ≡ self.old.checks }
        ensures objects { self.new.objects ≡ self.old.objects }
    {
        let con = Con::Within {
            var: Var(self.book().variables()),
            values: values_in(self.alloc(), domain)?,
        };
        let values = values_in(self.alloc(), universe)?;
        self.declare(name.copy()?, values)?;
        self.add(name, con)?;
        Ok(Remainder::Filter)
    }

    /// One more constraint, which is filtered.
    fn obey_add(&mut self, name: Name, con: Con) -> Result<Remainder, NoMemory>
        requires held { IsHeld self.old.state }
        requires can { CanAdd self.old.state name con }
        ensures obeys { IfOk result (Obeys self.old.state (Request.Add name con) self.new.state) }
        ensures checks { self.new.checks ≡ self.old.checks }
        ensures objects { self.new.objects ≡ self.old.objects }
    {
        self.add(name, con)?;
        Ok(Remainder::Filter)
    }

    /// One active constraint less.
    fn obey_relax(&mut self, place: usize) -> Remainder
        requires held { IsHeld self.old.state }
        requires can { StandsAt self.old.state place true }
        ensures obeys { Obeys self.old.state (Request.Relax place) self.new.state result }
        ensures checks { self.new.checks ≡ self.old.checks }
        ensures objects { self.new.objects ≡ self.old.objects }
    {
        self.relax(place);
        Remainder::Filter
    }

    /// One active constraint more.
    fn obey_enforce(&mut self, place: usize) -> Result<Remainder, NoMemory>
        requires held { IsHeld self.old.state }
        requires can { StandsAt self.old.state place false }
        ensures obeys { IfOk result (Obeys self.old.state (Request.Enforce place) self.new.state) }
        ensures checks { self.new.checks ≡ self.old.checks }
        ensures objects { self.new.objects ≡ self.old.objects }
    {
        self.enforce(place)?;
        Ok(Remainder::Filter)
    }

    /// One constraint less.
    fn obey_retract(&mut self, place: usize) -> Remainder
        requires held { IsHeld self.old.state }
        requires can { place < length self.old.state.book.constraints }
        ensures obeys { Obeys self.old.state (Request.Retract place) self.new.state result }
        ensures checks { self.new.checks ≡ self.old.checks }
        ensures objects { self.new.objects ≡ self.old.objects }
    {
        self.retract(place);
        Remainder::Filter
    }

    /// From now on filtering waits.
    fn obey_pause(&mut self) -> Remainder
        ensures obeys { Obeys self.old.state Request.Pause self.new.state result }
        ensures checks { self.new.checks ≡ self.old.checks }
        ensures objects { self.new.objects ≡ self.old.objects }
    {
        self.set_paused(true);
        say(Reply::Word(Fixed::Done))
    }

    /// Filtering waits no longer, and what waited is filtered.
    fn obey_resume(&mut self) -> Remainder
        ensures obeys { Obeys self.old.state Request.Resume self.new.state result }
        ensures checks { self.new.checks ≡ self.old.checks }
        ensures objects { self.new.objects ≡ self.old.objects }
    {
        self.set_paused(false);
        Remainder::Filter
    }

    /// Another guide decides, or none.
    fn obey_choose_guide(&mut self, chosen: Option<u32>) -> Remainder
        requires can { IfSome chosen (Contains self.old.state.guides) }
        ensures obeys { Obeys self.old.state (Request.ChooseGuide chosen) self.new.state result }
        ensures checks { self.new.checks ≡ self.old.checks }
        ensures objects { self.new.objects ≡ objects_after (Request.ChooseGuide chosen) self.old.objects }
    {
        self.choose_guide(chosen);
        say(Reply::Word(Fixed::Done))
    }

    /// One guide less.
    fn obey_drop_guide(&mut self, number: u32) -> Remainder
        requires can { Contains self.old.state.guides number }
        ensures obeys { Obeys self.old.state (Request.DropGuide number) self.new.state result }
        ensures checks { self.new.checks ≡ self.old.checks }
        ensures objects { self.new.objects ≡ objects_after (Request.DropGuide number) self.old.objects }
    {
        self.drop_guide(number);
        say(Reply::Word(Fixed::Done))
    }

    /// Another order decides, or none.
    fn obey_choose_order(&mut self, chosen: Option<u32>) -> Remainder
        requires can { IfSome chosen (Contains self.old.state.orders) }
        ensures obeys { Obeys self.old.state (Request.ChooseOrder chosen) self.new.state result }
        ensures checks { self.new.checks ≡ self.old.checks }
        ensures objects { self.new.objects ≡ objects_after (Request.ChooseOrder chosen) self.old.objects }
    {
        self.choose_order(chosen);
        say(Reply::Word(Fixed::Done))
    }

    /// One order less.
    fn obey_drop_order(&mut self, number: u32) -> Remainder
        requires can { Contains self.old.state.orders number }
        ensures obeys { Obeys self.old.state (Request.DropOrder number) self.new.state result }
        ensures checks { self.new.checks ≡ self.old.checks }
        ensures objects { self.new.objects ≡ objects_after (Request.DropOrder number) self.old.objects }
    {
        self.drop_order(number);
        say(Reply::Word(Fixed::Done))
    }

    /// A weight of a constraint, or none.
    fn obey_prefer(&mut self, place: usize, weight: Option<u32>) -> Result<Remainder, NoMemory>
        requires { place < length self.old.state.book.constraints }
        ensures obeys { IfOk result (Obeys self.old.state (Request.Prefer place weight) self.new.state) }
        ensures checks { self.new.checks ≡ self.old.checks }
        ensures objects { self.new.objects ≡ self.old.objects }
    {
        self.weigh(place, weight)?;
        Ok(say(Reply::Word(Fixed::Done)))
    }
}
