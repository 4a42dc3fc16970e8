//! What a search works with, and the steps that every way of searching is made of.
ghost use Rattle.std.specs.Prelude.{◌≡◌, ℕ, ◌⊎◌, [], None, IfOk, OnErr, OnOk, is_some};
ghost use Rattle.palm_model.specs.Event.{WithdrawsAll};
ghost use Rattle.palm_model.specs.State.{IsSettled, IsValid, present};
ghost use Rattle.palm_engine.specs.Engine.{HasAsked};
ghost use Rattle.palm_engine.specs.Following.{HasSettledBy, IsInterruptedBy, OrderAnswers, OrderFollows};
ghost use Rattle.palm_search.specs.declared.turn.Pick.{Pick as PickTerm};
ghost use Rattle.palm_search.specs.declared.turn.Turn.TheVariants.{Decide as TurnDecide};
ghost use Rattle.palm_search.specs.Asked.{Asks};
ghost use Rattle.palm_search.specs.Calls.{HoldsDecision, TakesBack, TakesTurn};
ghost use Rattle.palm_search.specs.Kept.{HasDecisions};
ghost use Rattle.palm_search.specs.Machine.{KeepsDecisions, KeepsOrder, RunsOn, state_of};
ghost use Rattle.palm_search.specs.Search.{search_cids};
ghost use Rattle.palm_search.specs.Turns.{HasFlatConflict, IsOpen};

use crate::search::Search;
use palm_agenda::Order;
use palm_base::{CidList, NoMemory, Pair, Steps};
use palm_engine::{Engine, Settle};
use palm_filter::Filter;
use palm_guide::Guide;
use std::alloc::Global;
use std::sync::ledger::Ledger;

/// What a search works with, lent for as long as it runs: an engine and a search that are used together, the guide and the
/// order, where they are chosen, and a counter of what support is asked for.
#[derive(Drop)]
pub struct Machine<'e, 's, 'g, 'o, 't, F: Filter, G: Guide, O: Order, L: Ledger> {
    /// Where its memory comes from.
    pub alloc: Global,
    pub engine: &'e mut Engine<F>,
    pub search: &'s mut Search,
    pub guide: &'g mut Option<G>,
    pub order: &'o mut Option<O>,
    pub steps: &'t mut Steps<L>,
}

impl<F: Filter, G: Guide, O: Order, L: Ledger> Machine<'_, '_, '_, '_, '_, F, G, O, L> {
    /// Runs revisions by the order until a domain is empty or nothing is pending, as [`Engine::settle`] does without a limit.
    pub fn settle(&mut self) -> Result<Settle, NoMemory>
        ensures ok { IfOk result (λ answer. HasSettledBy (OrderFollows O.answers O.hears O.state) None
            self.old.order.now self.new.order.now answer self.old.engine.now self.new.engine.now) }
        ensures err { OnErr result (IsInterruptedBy (OrderAnswers O.answers O.state)
            (OrderFollows O.answers O.hears O.state) None
            self.old.order.now self.new.order.now self.old.engine.now self.new.engine.now) }
        ensures asked { HasAsked self.old.engine.now.state self.new.engine.now.state
            self.old.steps.now self.new.steps.now }
        ensures valid { IsValid self.new.engine.now.state }
        ensures search { self.new.search.now ≡ self.old.search.now }
        ensures guide { self.new.guide.now ≡ self.old.guide.now }
        ensures runs { RunsOn self.old self.new }
    {
        self.engine.settle(self.order, None, self.steps)
    }

    /// Asks the guide once, where there is one, and takes a decision, as [`Search::decide`] does.
    pub fn decide(&mut self) -> Result<Pair, NoMemory>
        requires decisions { HasDecisions (state_of self.old) }
        requires settled { IsSettled self.old.engine.now.state }
        requires open { (x : ℕ) × IsOpen (present self.old.engine.now.state) x }
        ensures ok { IfOk result (λ pair. (pick : PickTerm)
            × Asks G.answers G.state (present self.old.engine.now.state)
            self.old.guide.now self.new.guide.now pick
            × TakesTurn (is_some self.old.guide.now) (TurnDecide pair pick)
            self.old.engine.now.state self.old.search.now
            self.new.engine.now.state self.new.search.now) }
        ensures err { OnErr result ((self.new.engine.now ≡ self.old.engine.now)
            × (self.new.search.now ≡ self.old.search.now)) }
        ensures asked { OnErr result ((self.new.guide.now ≡ self.old.guide.now)
            ⊎ ((pick : PickTerm) × Asks G.answers G.state (present self.old.engine.now.state)
            self.old.guide.now self.new.guide.now pick)) }
        ensures keeps { KeepsDecisions self.old self.new }
    {
        self.search.decide(self.engine, self.guide)
    }

    /// Withdraws the decision at the place of the decisions, for this flat conflict, as [`Search::undo`] does.
    pub fn undo(&mut self, index: usize, conflict: &CidList) -> Result<(), NoMemory>
        requires decisions { HasDecisions (state_of self.old) }
        requires flat { HasFlatConflict self.old.engine.now.state conflict.now }
        requires held { HoldsDecision self.old.search.now.decisions conflict.now index }
        ensures ok { OnOk result (TakesBack conflict.now index
            self.old.engine.now.state self.old.search.now
            self.new.engine.now.state self.new.search.now) }
        ensures err { OnErr result ((self.new.engine.now ≡ self.old.engine.now)
            × (self.new.search.now ≡ self.old.search.now)) }
        ensures valid { IsValid self.new.engine.now.state }
        ensures guide { self.new.guide.now ≡ self.old.guide.now }
        ensures keeps { KeepsDecisions self.old self.new }
    {
        self.search.undo(self.engine, index, conflict)
    }

    /// Withdraws all decisions and all negations; the journal stays. It takes no memory.
    pub fn close(&mut self)
        requires { HasDecisions (state_of self.old) }
        ensures withdraws { WithdrawsAll self.old.engine.now.state
            (search_cids self.old.engine.now.state.active) self.new.engine.now.state }
        ensures decisions { self.new.search.now.decisions ≡ [] }
        ensures journal { self.new.search.now.journal ≡ self.old.search.now.journal }
        ensures valid { IsValid self.new.engine.now.state }
        ensures guide { self.new.guide.now ≡ self.old.guide.now }
        ensures keeps { KeepsOrder self.old self.new }
    {
        self.search.close(self.engine);
    }
}
