//! Objects that the caller handed in, and what is done by those that are chosen.
ghost use Rattle.std.specs.Prelude.{◌≡◌, ◌+◌, ◌-◌, ◌≤◌, [], Contains, IfErr, IfOk, None, Some, is_some, min};
ghost use Rattle.palm_base.specs.Streams.{IsSameSink};
ghost use Rattle.palm_base.specs.Tells.{Tells};
ghost use Rattle.palm_base.specs.declared.limits.TheConstants.{LAST_COUNT};
ghost use Rattle.palm_engine.specs.Engine.{HasAsked};
ghost use Rattle.palm_engine.specs.Following.{HasSettledBy, OrderFollows};
ghost use Rattle.palm_lang.specs.Writing.{IsCounted};
ghost use Rattle.palm_model.specs.State.{IsValid};
ghost use Rattle.palm_search.specs.Following.{GuideFollows};
ghost use Rattle.proof_write.specs.Proving.{IsListedInBook};
ghost use Rattle.palm_session.specs.Objects.{LendsChosen, all_placed, chosen_object, numbers_of, without_number, without_object};
ghost use Rattle.palm_session.specs.Ways.{CanRun, RunsTo, StopsSo};

use crate::request::Procedure;
use crate::stop::Stop;
use crate::ways::{Searched, run};
use palm_agenda::Order;
use palm_base::{NoMemory, Sink, Steps};
use palm_engine::{Engine, Settle};
use palm_guide::Guide;
use palm_kind::Kind;
use palm_lang::Book;
use palm_search::{Machine, Search};
use std::alloc::Global;
use std::marker::Model;
use std::sync::ledger::Ledger;

/// Objects that the caller handed in, by number from 1, and the one that is chosen. An object that was dropped leaves its
/// place empty; the first place never holds one, and stands for the default.
#[derive(Drop)]
pub(crate) struct Objects<T: Drop> {
    places: Vec<Option<T>>,
    chosen: usize,
}

impl<T: Drop> Model for Objects<T> {
    ghost use Rattle.proof_write.specs.Proving.{IsListedInBook};
    ghost use Rattle.palm_session.specs.Objects.{ArePlaces, ObjectsView, objects_at};

    ghost Value = { ObjectsView T };

    ghost view = { λ o. objects_at o.places.items o.chosen };

    ghost invariant = { λ o. ArePlaces o.places.items o.chosen };
}

impl<T: Drop> Objects<T> {
    /// All of these objects, none chosen.
    pub(crate) fn new(alloc: Global, objects: Vec<T>) -> Result<Objects<T>, NoMemory>
        ensures { IfOk result (λ o. o ≡ all_placed objects.items) }
    {
        let mut places = Vec::new(alloc);
        places.push(None)?;
        for object in objects {
            places.push(Some(object))?;
        }
        Ok(Objects { places, chosen: 0 })
    }

    /// Whether there is an object with a number.
    pub(crate) fn has(&self, number: u32) -> bool
        ensures { Tells result (Contains (numbers_of self.now.places) number) }
    {
        match self.places.get(number as usize) {
            Some(object) => object.is_some(),
            None => false,
        }
    }

    /// Chooses the object with a number.
    pub(crate) fn choose(&mut self, number: u32)
        requires { Contains (numbers_of self.old.places) number }
        ensures { self.new ≡ record self.old { chosen = Some number } }
    {
        self.chosen = number as usize;
    }

    /// Goes back to the default.
    pub(crate) fn choose_none(&mut self)
        ensures { self.new ≡ record self.old { chosen = None } }
    {
        self.chosen = 0;
    }

    /// Drops the object with a number. Where it was chosen, the default is back.
    pub(crate) fn remove(&mut self, number: u32)
        requires { Contains (numbers_of self.old.places) number }
        ensures objects { self.new ≡ without_object number self.old }
        ensures numbers { numbers_of self.new.places ≡ without_number number (numbers_of self.old.places) }
    {
        self.places[number as usize] = None;
    }
}

/// Settles by the order that is chosen, or without one.
pub(crate) fn settle_by<O: Order, L: Ledger>(
    engine: &mut Engine<Kind>,
    orders: &mut Objects<O>,
    limit: Option<u64>,
    steps: &mut Steps<L>,
) -> Result<Settle, NoMemory>
    ensures ok { IfOk result (λ answer. HasSettledBy (OrderFollows O.answers O.hears O.state) limit (chosen_object orders.old) (chosen_object orders.new) answer engine.old engine.new) }
    ensures asked { HasAsked engine.old.state engine.new.state steps.old steps.new }
    ensures checks { engine.new.checks ≡ min (engine.old.checks + (steps.new - steps.old)) LAST_COUNT }
    ensures orders { LendsChosen orders.old orders.new }
    ensures valid { IsValid engine.new.state }
{
    let place = orders.chosen;
    engine.settle(&mut orders.places[place], limit, steps)
}

/// Searches in this way by the guide and the order that are chosen, or without them.
pub(crate) fn search_by<G: Guide, O: Order, K: Sink, L: Ledger>(
    alloc: Global,
    engine: &mut Engine<Kind>,
    search: &mut Search,
    book: &Book,
    guides: &mut Objects<G>,
    orders: &mut Objects<O>,
    by: Procedure,
    out: &mut K,
    steps: &mut Steps<L>,
) -> Result<Searched, Stop>
    requires fresh { search.old ≡ record { decisions = []; journal = [] } }
    requires listed { IsListedInBook book.now engine.old.state }
    requires can { CanRun engine.old.state by }
    ensures ok { IfOk result (λ answer. RunsTo (GuideFollows G.answers G.hears G.state) (OrderFollows O.answers O.hears O.state) (chosen_object guides.old) (chosen_object guides.new) (chosen_object orders.old) (chosen_object orders.new)
        by book.now engine.old.state search.new.journal answer engine.new.state (K.state out.old).written (K.state out.new).written) }
    ensures front { IfErr result (λ stop. StopsSo stop (is_some guides.old.chosen) (is_some orders.old.chosen) by book.now engine.old.state (K.state out.old).written (K.state out.new).written) }
    ensures counted { IsCounted (K.state out.old).faults (K.state out.new).faults result }
    ensures stands { IsSameSink (K.state out.old) (K.state out.new) result }
    ensures later { steps.old ≤ steps.new }
    ensures checks { engine.new.checks ≡ min (engine.old.checks + (steps.new - steps.old)) LAST_COUNT }
    ensures guides { LendsChosen guides.old guides.new }
    ensures orders { LendsChosen orders.old orders.new }
    ensures valid { IsValid engine.new.state }
{
    let guide = guides.chosen;
    let order = orders.chosen;
    let mut machine = Machine {
        alloc,
        engine,
        search,
        guide: &mut guides.places[guide],
        order: &mut orders.places[order],
        steps,
    };
    run(&mut machine, book, by, out)
}
