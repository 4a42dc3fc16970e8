//! What a session keeps between two lines. What keeps the book and the engine in step is here, and nowhere else.
ghost use Rattle.std.specs.Prelude.{◌≡◌, ◌-◌, ◌<◌, None, true, false, Contains, IfErr, IfOk, IfSome, OnOk, Some, length, slice_get};
ghost use Rattle.palm_base.specs.Streams.{IsSameSink};
ghost use Rattle.palm_base.specs.Tells.{Tells};
ghost use Rattle.palm_book.specs.Book.{AreValues, user_at};
ghost use Rattle.palm_book.specs.declared.book.BookCon.{BookCon as BookConTerm};
ghost use Rattle.palm_engine.specs.Engine.{KeepsCounts};
ghost use Rattle.palm_engine.specs.Following.{OrderFollows};
ghost use Rattle.palm_lang.specs.Writing.{IsCounted};
ghost use Rattle.palm_model.specs.Event.{Declares, Posts, Withdraws};
ghost use Rattle.palm_model.specs.Log.{IsActive};
ghost use Rattle.palm_model.specs.State.{EngineState, IsValid};
ghost use Rattle.palm_read.specs.Name.{IsNameText};
ghost use Rattle.palm_search.specs.Following.{GuideFollows};
ghost use Rattle.palm_session.specs.Effects.{WithdrawsActive, next_constraint, with_active_at, with_constraint, with_engine, with_variable, with_weight, without_constraint, without_guide, without_order};
ghost use Rattle.palm_session.specs.Led.{objects_after};
ghost use Rattle.palm_session.specs.Modes.{heard, misheard};
ghost use Rattle.palm_session.specs.Refusals.{IsFullOfVariables};
ghost use Rattle.palm_session.specs.Requests.{CanAdd, CanSearch, StandsAt};
ghost use Rattle.palm_session.specs.Serving.{Ran, Spends};
ghost use Rattle.palm_session.specs.State.{HasVariable, IsHeld};
ghost use Rattle.palm_session.specs.Ways.{HasSearched, HasToldFront};
ghost use Rattle.palm_session.specs.declared.request.Request.TheVariants as Request;

use crate::modes::{begun, mode_after};
use crate::objects::{Objects, search_by, settle_by};
use crate::request::Procedure;
use crate::stop::Stop;
use crate::ways::Searched;
use crate::weights::Weights;
use palm_agenda::Order;
use palm_base::{Cid, NoMemory, Sink, Steps, ValueList};
use palm_engine::Engine;
use palm_guide::Guide;
use palm_kind::Kind;
use palm_lang::{Book, BookCon, Line, Mode, Name};
use palm_model::Con;
use palm_search::{Search, Turn};
use std::alloc::Global;
use std::marker::Model;
use std::sync::ledger::Ledger;

/// The mode in which the next line is read, the book, the weights of its constraints, the engine that filters the active ones,
/// how many accepted lines added a constraint, whether filtering waits, the guides and orders that were handed in, and the last
/// search.
#[derive(Drop)]
pub(crate) struct Desk<G: Guide, O: Order> {
    alloc: Global,
    mode: Mode,
    book: Book,
    weights: Weights,
    engine: Engine<Kind>,
    accepted: u32,
    paused: bool,
    guides: Objects<G>,
    orders: Objects<O>,
    search: Search,
}

impl<G: Guide, O: Order> Model for Desk<G, O> {
    ghost use Rattle.palm_model.specs.State.{IsValid};
    ghost use Rattle.palm_session.specs.Serving.{DeskView, desk_of};

    ghost Value = { DeskView G O };

    ghost view = { λ d. desk_of d.mode d.book d.weights d.engine d.accepted d.paused d.guides d.orders d.search };

    ghost invariant = { λ d. IsValid d.engine.state };
}

impl<G: Guide, O: Order> Desk<G, O> {
    ghost use Rattle.std.specs.Prelude.{vec_len};
    ghost use Rattle.palm_session.specs.Objects.{all_placed, numbered};
    ghost use Rattle.palm_session.specs.State.{fresh};

    /// Nothing declared, nothing added, and none of these guides and orders chosen.
    pub(crate) fn new(alloc: Global, guides: Vec<G>, orders: Vec<O>) -> Result<Desk<G, O>, NoMemory>
        ensures { IfOk result (λ d. d ≡ record {
          state = fresh (numbered (vec_len guides)) (numbered (vec_len orders));
          checks = 0;
          objects = record { guides = all_placed guides.items; orders = all_placed orders.items };
        }) }
    {
        let guides = Objects::new(alloc, guides)?;
        let orders = Objects::new(alloc, orders)?;
        Ok(Desk {
            alloc,
            mode: Mode::First,
            book: Book::new(alloc),
            weights: Weights::new(alloc),
            engine: Engine::new(alloc),
            accepted: 0,
            paused: false,
            guides,
            orders,
            search: Search::begin(alloc),
        })
    }

    /// Where the session's memory comes from.
    pub(crate) fn alloc(&self) -> Global {
        self.alloc
    }

    /// The mode in which the next line is read.
    pub(crate) fn mode(&self) -> Mode
        ensures { result ≡ self.now.state.mode }
    {
        self.mode
    }

    /// Notes that a line was read, which sets the mode of those behind it.
    pub(crate) fn hear(&mut self, line: &Line)
        ensures state { self.new.state ≡ heard self.old.state line.now }
        ensures checks { self.new.checks ≡ self.old.checks }
        ensures objects { self.new.objects ≡ self.old.objects }
    {
        self.mode = mode_after(self.mode, line);
    }

    /// Notes that a line could not be read, which sets the mode of those behind it too.
    pub(crate) fn mishear(&mut self)
        ensures state { self.new.state ≡ misheard self.old.state }
        ensures checks { self.new.checks ≡ self.old.checks }
        ensures objects { self.new.objects ≡ self.old.objects }
    {
        self.mode = begun(self.mode);
    }

    /// The book.
    pub(crate) fn book(&self) -> &Book
        ensures { result.now ≡ self.now.state.book }
    {
        &self.book
    }

    /// The weights of constraints.
    pub(crate) fn weights(&self) -> &Weights
        ensures { result.now ≡ self.now.state.weights }
    {
        &self.weights
    }

    /// The turns of the last search, and none before one.
    pub(crate) fn journal(&self) -> &[Turn]
        ensures { result.now ≡ self.now.state.journal }
    {
        self.search.journal()
    }

    /// The engine.
    pub(crate) fn engine(&self) -> &Engine<Kind>
        ensures state { result.now.state ≡ self.now.state.engine }
        ensures checks { result.now.checks ≡ self.now.checks }
        ensures valid { IsValid self.now.state.engine }
    {
        &self.engine
    }

    /// How many accepted lines added a constraint.
    pub(crate) fn accepted(&self) -> u32
        ensures { result ≡ self.now.state.accepted }
    {
        self.accepted
    }

    /// Whether filtering waits.
    pub(crate) fn is_paused(&self) -> bool
        ensures { result ≡ self.now.state.paused }
    {
        self.paused
    }

    /// Whether there is a guide with the number.
    pub(crate) fn has_guide(&self, number: u32) -> bool
        ensures { Tells result (Contains self.now.state.guides number) }
    {
        self.guides.has(number)
    }

    /// Whether there is an order with the number.
    pub(crate) fn has_order(&self, number: u32) -> bool
        ensures { Tells result (Contains self.now.state.orders number) }
    {
        self.orders.has(number)
    }

    /// Puts a variable into the engine and into the book.
    pub(crate) fn declare(&mut self, name: Name, values: ValueList) -> Result<(), NoMemory>
        requires held { IsHeld self.old.state }
        requires text { IsNameText name }
        requires fresh { HasVariable self.old.state name → ⊥ }
        requires values { AreValues values }
        requires room { IsFullOfVariables self.old.state → ⊥ }
        ensures ok { OnOk result ((e : EngineState) × Declares self.old.state.engine values e × (self.new.state ≡ with_engine (with_variable self.old.state name values) e)) }
        ensures checks { self.new.checks ≡ self.old.checks }
        ensures objects { self.new.objects ≡ self.old.objects }
    {
        self.engine.add_variable(values.as_slice())?;
        self.book.add_variable(name, values)?;
        Ok(())
    }

    /// Adds a constraint under the next number, to the engine and to the book.
    pub(crate) fn add(&mut self, name: Name, con: Con) -> Result<(), NoMemory>
        requires held { IsHeld self.old.state }
        requires can { CanAdd self.old.state name con }
        ensures ok { OnOk result ((e : EngineState) × Posts self.old.state.engine (user_at (next_constraint self.old.state name con)) e
            × (self.new.state ≡ with_engine (with_constraint self.old.state name con) e)) }
        ensures checks { self.new.checks ≡ self.old.checks }
        ensures objects { self.new.objects ≡ self.old.objects }
    {
        let number = self.accepted + 1;
        self.engine.post(number, Kind::from_con(self.alloc, &con)?)?;
        self.book.add_constraint(BookCon {
            number,
            name,
            active: true,
            con,
        })?;
        self.accepted = number;
        Ok(())
    }

    /// Relaxes the active constraint at a place: the engine gives it up, and the book keeps it under its number.
    pub(crate) fn relax(&mut self, place: usize)
        requires held { IsHeld self.old.state }
        requires active { StandsAt self.old.state place true }
        ensures relaxes { (c : BookConTerm) → slice_get self.old.state.book.constraints place ≡ Some c → (e : EngineState)
            × Withdraws self.old.state.engine (Cid.User c.number) e × (self.new.state ≡ with_engine (with_active_at self.old.state place false) e) }
        ensures checks { self.new.checks ≡ self.old.checks }
        ensures objects { self.new.objects ≡ self.old.objects }
    {
        let number = self.book.constraint(place).number;
        self.engine.withdraw(Cid::User(number));
        self.book.set_active(place, false);
    }

    /// Makes the relaxed constraint at a place active again, under its own number.
    pub(crate) fn enforce(&mut self, place: usize) -> Result<(), NoMemory>
        requires held { IsHeld self.old.state }
        requires relaxed { StandsAt self.old.state place false }
        ensures enforces { OnOk result ((c : BookConTerm) → slice_get self.old.state.book.constraints place ≡ Some c → (e : EngineState)
            × Posts self.old.state.engine (user_at c) e × (self.new.state ≡ with_engine (with_active_at self.old.state place true) e)) }
        ensures checks { self.new.checks ≡ self.old.checks }
        ensures objects { self.new.objects ≡ self.old.objects }
    {
        let entry = self.book.constraint(place);
        let kind = Kind::from_con(self.alloc, &entry.con)?;
        self.engine.post(entry.number, kind)?;
        self.book.set_active(place, true);
        Ok(())
    }

    /// Takes the constraint at a place out of the book, with its weight, and where it is active out of the engine.
    pub(crate) fn retract(&mut self, place: usize)
        requires held { IsHeld self.old.state }
        requires within { place < length self.old.state.book.constraints }
        ensures retracts { (c : BookConTerm) → slice_get self.old.state.book.constraints place ≡ Some c → (e : EngineState)
            × WithdrawsActive self.old.state.engine c e × (self.new.state ≡ with_engine (without_constraint self.old.state place c) e) }
        ensures checks { self.new.checks ≡ self.old.checks }
        ensures objects { self.new.objects ≡ self.old.objects }
    {
        let entry = self.book.constraint(place);
        let number = entry.number;
        withdraw_active(&mut self.engine, entry);
        self.book.remove(place);
        self.weights.forget(number);
    }

    /// Gives the constraint at a place a weight, or takes it away.
    pub(crate) fn weigh(&mut self, place: usize, weight: Option<u32>) -> Result<(), NoMemory>
        requires { place < length self.old.state.book.constraints }
        ensures weighs { OnOk result ((c : BookConTerm) → slice_get self.old.state.book.constraints place ≡ Some c → self.new.state ≡ with_weight self.old.state c weight) }
        ensures checks { self.new.checks ≡ self.old.checks }
        ensures objects { self.new.objects ≡ self.old.objects }
    {
        let number = self.book.constraint(place).number;
        self.weights.set(number, weight)
    }

    /// Lets filtering wait, or wait no longer.
    pub(crate) fn set_paused(&mut self, paused: bool)
        ensures state { self.new.state ≡ record self.old.state { paused = paused } }
        ensures checks { self.new.checks ≡ self.old.checks }
        ensures objects { self.new.objects ≡ self.old.objects }
    {
        self.paused = paused;
    }

    /// Chooses the guide with the number, or none.
    pub(crate) fn choose_guide(&mut self, chosen: Option<u32>)
        requires { IfSome chosen (Contains self.old.state.guides) }
        ensures state { self.new.state ≡ record self.old.state { guide = chosen } }
        ensures checks { self.new.checks ≡ self.old.checks }
        ensures objects { self.new.objects ≡ objects_after (Request.ChooseGuide chosen) self.old.objects }
    {
        match chosen {
            Some(number) => self.guides.choose(number),
            None => self.guides.choose_none(),
        }
    }

    /// Drops the guide with the number.
    pub(crate) fn drop_guide(&mut self, number: u32)
        requires { Contains self.old.state.guides number }
        ensures state { self.new.state ≡ without_guide self.old.state number }
        ensures checks { self.new.checks ≡ self.old.checks }
        ensures objects { self.new.objects ≡ objects_after (Request.DropGuide number) self.old.objects }
    {
        self.guides.remove(number);
    }

    /// Chooses the order with the number, or none.
    pub(crate) fn choose_order(&mut self, chosen: Option<u32>)
        requires { IfSome chosen (Contains self.old.state.orders) }
        ensures state { self.new.state ≡ record self.old.state { order = chosen } }
        ensures checks { self.new.checks ≡ self.old.checks }
        ensures objects { self.new.objects ≡ objects_after (Request.ChooseOrder chosen) self.old.objects }
    {
        match chosen {
            Some(number) => self.orders.choose(number),
            None => self.orders.choose_none(),
        }
    }

    /// Drops the order with the number.
    pub(crate) fn drop_order(&mut self, number: u32)
        requires { Contains self.old.state.orders number }
        ensures state { self.new.state ≡ without_order self.old.state number }
        ensures checks { self.new.checks ≡ self.old.checks }
        ensures objects { self.new.objects ≡ objects_after (Request.DropOrder number) self.old.objects }
    {
        self.orders.remove(number);
    }

    /// Runs revisions until a domain is empty, nothing is pending, or as many ran as the limit says. It answers how many
    /// ran, and the last number of a count where there were more.
    pub(crate) fn settle<L: Ledger>(
        &mut self,
        limit: Option<u64>,
        steps: &mut Steps<L>,
    ) -> Result<u64, NoMemory>
        ensures ran { IfOk result (λ told. Ran (OrderFollows O.answers O.hears O.state) self.old.state limit told self.old.objects self.new.state self.new.objects (steps.new - steps.old)) }
        ensures spends { Spends self.old self.new steps.old steps.new }
    {
        settle_by(&mut self.engine, &mut self.orders, limit, steps)?;
        Ok(self.engine.revisions())
    }

    /// Searches in this way, by the guide and the order that are chosen, or without them, and leaves the constraints and the log
    /// as they were. The journal is that of this search. A proof is written meanwhile.
    pub(crate) fn search<K: Sink, L: Ledger>(
        &mut self,
        by: Procedure,
        out: &mut K,
        steps: &mut Steps<L>,
    ) -> Result<Searched, Stop>
        requires held { IsHeld self.old.state }
        requires can { CanSearch self.old.state by }
        ensures searched { IfOk result (λ answer. HasSearched (GuideFollows G.answers G.hears G.state) (OrderFollows O.answers O.hears O.state) self.old.state by (K.state out.old).written (K.state out.new).written answer self.old.objects self.new.state self.new.objects) }
        ensures front { IfErr result (λ stop. HasToldFront stop self.old.state by (K.state out.old).written (K.state out.new).written) }
        ensures counted { IsCounted (K.state out.old).faults (K.state out.new).faults result }
        ensures stands { IsSameSink (K.state out.old) (K.state out.new) result }
        ensures spends { Spends self.old self.new steps.old steps.new }
    {
        self.search = Search::begin(self.alloc);
        search_by(
            self.alloc,
            &mut self.engine,
            &mut self.search,
            &self.book,
            &mut self.guides,
            &mut self.orders,
            by,
            out,
            steps,
        )
    }
}

/// Withdraws a constraint of the book where it is active.
fn withdraw_active(engine: &mut Engine<Kind>, entry: &BookCon)
    requires active { entry.now.active ≡ true → IsActive engine.old.state.active (Cid.User entry.now.number) }
    requires valid { IsValid engine.old.state }
    ensures withdraws { WithdrawsActive engine.old.state entry.now engine.new.state }
    ensures counts { KeepsCounts engine.old engine.new }
    ensures valid { IsValid engine.new.state }
{
    if entry.active {
        engine.withdraw(Cid::User(entry.number));
    }
}
