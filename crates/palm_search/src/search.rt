//! The search machine: decisions that are taken and undone one at a time, and the journal of its turns.
ghost use Rattle.std.specs.Prelude.{◌≡◌, ℕ, ◌<◌, ◌⊎◌, [], ◌∷◌, ◌++◌, length, IfOk, OnErr, OnOk, is_some, vec_capacity};
ghost use Rattle.palm_base.specs.declared.terms.Pair.{Pair as PairTerm};
ghost use Rattle.palm_domain.specs.Rows.{present_of};
ghost use Rattle.palm_model.specs.Event.{WithdrawsAll};
ghost use Rattle.palm_model.specs.Log.{IsActive};
ghost use Rattle.palm_model.specs.State.{AllFilled, IsSettled, IsValid, present};
ghost use Rattle.palm_engine.specs.Engine.{KeepsCounts};
ghost use Rattle.palm_search.specs.declared.turn.Pick.{Pick as PickTerm};
ghost use Rattle.palm_search.specs.declared.turn.Turn.TheVariants.{Decide as TurnDecide};
ghost use Rattle.palm_search.specs.Asked.{Asks, pick_of};
ghost use Rattle.palm_search.specs.Calls.{HoldsDecision, LetsGo, TakesBack, TakesTurn, search_state};
ghost use Rattle.palm_search.specs.Kept.{HasDecisions};
ghost use Rattle.palm_search.specs.Search.{of_search, search_cids};
ghost use Rattle.palm_search.specs.Turns.{HasFlatConflict, IsOpen};

use crate::choice::decided_pair;
use crate::turn::{Pick, Turn};
use crate::view::show;
use palm_base::{Cid, CidList, NoMemory, Pair};
use palm_domain::DomainStore;
use palm_engine::Engine;
use palm_filter::Filter;
use palm_guide::{Guide, ViewRow};
use std::alloc::Global;
use std::marker::Model;

/// The decisions of a search in the order in which they were taken, and the journal of its turns. It is used with one
/// engine, whose active decisions are those of the search.
#[derive(Drop)]
pub struct Search {
    decisions: Vec<Pair>,
    journal: Vec<Turn>,
    view: Vec<ViewRow>,
}

impl Model for Search {
    ghost use Rattle.palm_search.specs.Calls.{SearchView};

    ghost Value = { SearchView };

    ghost view = { λ s. record { decisions = s.decisions.items; journal = s.journal.items } };
}

impl Search {
    /// No decision and no turn.
    pub fn begin(alloc: Global) -> Search
        ensures { result ≡ record { decisions = []; journal = [] } }
    {
        Search {
            decisions: Vec::new(alloc),
            journal: Vec::new(alloc),
            view: Vec::new(alloc),
        }
    }

    /// Asks the guide once, where there is one, and decides its pick where that is lawful, and otherwise the least value of
    /// the lowest variable with at least two. The decision and the turn are appended, and the decision is posted. Without
    /// memory the engine and the search are as before, and the guide was asked once at most.
    pub fn decide<F: Filter, G: Guide>(
        &mut self,
        engine: &mut Engine<F>,
        guide: &mut Option<G>,
    ) -> Result<Pair, NoMemory>
        requires decisions { HasDecisions (search_state engine.old.state self.old) }
        requires settled { IsSettled engine.old.state }
        requires open { (x : ℕ) × IsOpen (present engine.old.state) x }
        ensures ok { IfOk result (λ pair. (pick : PickTerm)
            × Asks G.answers G.state (present engine.old.state) guide.old guide.new pick
            × TakesTurn (is_some guide.old) (TurnDecide pair pick) engine.old.state self.old engine.new.state self.new) }
        ensures err { OnErr result ((engine.new ≡ engine.old) × (self.new ≡ self.old)) }
        ensures asked { OnErr result ((guide.new ≡ guide.old)
            ⊎ ((pick : PickTerm) × Asks G.answers G.state (present engine.old.state) guide.old guide.new pick)) }
        ensures decisions { HasDecisions (search_state engine.new.state self.new) }
        ensures counts { KeepsCounts engine.old engine.new }
        ensures stays { is_some guide.new ≡ is_some guide.old }
    {
        self.decisions.reserve(1)?;
        self.journal.reserve(1)?;
        let pick = ask(&mut self.view, engine.store(), guide)?;
        let pair = decided_pair(engine.store(), &pick);
        engine.assume(pair.copy())?;
        append(&mut self.decisions, pair.copy());
        append(
            &mut self.journal,
            Turn::Decide {
                pair: pair.copy(),
                pick,
            },
        );
        Ok(pair)
    }

    /// Withdraws the decision at the place, and with it each negation whose justification holds it, and appends the turn;
    /// later decisions move one place forward. The conflict is the engine's flat conflict, and it holds that decision.
    /// Without memory the engine and the search are as before.
    pub fn undo<F: Filter>(
        &mut self,
        engine: &mut Engine<F>,
        index: usize,
        conflict: &CidList,
    ) -> Result<(), NoMemory>
        requires decisions { HasDecisions (search_state engine.old.state self.old) }
        requires flat { HasFlatConflict engine.old.state conflict.now }
        requires held { HoldsDecision self.old.decisions conflict.now index }
        ensures ok { OnOk result (TakesBack conflict.now index engine.old.state self.old engine.new.state self.new) }
        ensures err { OnErr result ((engine.new ≡ engine.old) × (self.new ≡ self.old)) }
        ensures decisions { HasDecisions (search_state engine.new.state self.new) }
        ensures counts { KeepsCounts engine.old engine.new }
        ensures valid { IsValid engine.new.state }
    {
        // What holds of every engine is known once its store is read.
        let _store = engine.store();
        self.journal.reserve(1)?;
        let conflict = conflict.copy()?;
        let gone = self.decisions.remove(index);
        engine.withdraw(Cid::Decide(gone.var));
        append(&mut self.journal, Turn::Undo { gone, conflict });
        Ok(())
    }

    /// The decisions in the order in which they were taken.
    pub fn decisions(&self) -> &[Pair]
        ensures { result.now ≡ self.now.decisions }
    {
        self.decisions.as_slice()
    }

    /// The turns so far.
    pub fn journal(&self) -> &[Turn]
        ensures { result.now ≡ self.now.journal }
    {
        self.journal.as_slice()
    }

    /// Withdraws all decisions and all negations; the journal stays. It takes no memory.
    pub fn close<F: Filter>(&mut self, engine: &mut Engine<F>)
        requires { HasDecisions (search_state engine.old.state self.old) }
        ensures withdraws { WithdrawsAll engine.old.state (search_cids engine.old.state.active) engine.new.state }
        ensures decisions { self.new.decisions ≡ [] }
        ensures journal { self.new.journal ≡ self.old.journal }
        ensures counts { KeepsCounts engine.old engine.new }
        ensures valid { IsValid engine.new.state }
    {
        withdraw_decisions(&mut self.decisions, engine);
        withdraw_negations(engine);
    }
}

/// Appends an item where there is room.
fn append<T: Drop>(items: &mut Vec<T>, item: T)
    requires { length items.old.items < vec_capacity items.old }
    ensures { items.new.items ≡ items.old.items ++ item ∷ [] }
{
    let pushed = items.push(item);
    prove!(pushed.is_ok());
}

/// Asks the guide once, where there is one.
fn ask<G: Guide>(
    view: &mut Vec<ViewRow>,
    store: &DomainStore,
    guide: &mut Option<G>,
) -> Result<Pick, NoMemory>
    requires { AllFilled (present_of store.now) }
    ensures ok { IfOk result (Asks G.answers G.state (present_of store.now) guide.old guide.new) }
    ensures err { OnErr result (guide.new ≡ guide.old) }
{
    let Some(guide) = guide else {
        return Ok(Pick::NoGuide);
    };
    show(view, store)?;
    Ok(pick_of(guide.pick(view)))
}

/// What is recorded of a guide's answer.
fn pick_of(answer: Option<Pair>) -> Pick
    ensures { result ≡ pick_of answer }
{
    match answer {
        Some(pair) => Pick::Asked(pair),
        None => Pick::Nothing,
    }
}

/// Withdraws each of the decisions.
fn withdraw_decisions<F: Filter>(decisions: &mut Vec<Pair>, engine: &mut Engine<F>)
    requires { HasDecisions (record { engine = engine.old.state; decisions = decisions.old.items }) }
    ensures gone { LetsGo of_search engine.old.state engine.new.state }
    ensures none { (x : ℕ) → IsActive engine.new.state.active (Cid.Decide x) → ⊥ }
    ensures decisions { decisions.new.items ≡ [] }
    ensures counts { KeepsCounts engine.old engine.new }
    ensures before { IsValid engine.old.state }
    ensures valid { IsValid engine.new.state }
{
    // What holds of every engine is known once its store is read.
    let _store = engine.store();
    while let Some(pair) = decisions.pop() {
        engine.withdraw(Cid::Decide(pair.var));
    }
}

/// Withdraws each of the negations.
fn withdraw_negations<F: Filter>(engine: &mut Engine<F>)
    ensures gone { LetsGo of_search engine.old.state engine.new.state }
    ensures none { (p : PairTerm) → IsActive engine.new.state.active (Cid.Not p) → ⊥ }
    ensures counts { KeepsCounts engine.old engine.new }
    ensures before { IsValid engine.old.state }
    ensures valid { IsValid engine.new.state }
{
    // What holds of every engine is known once its store is read.
    let _store = engine.store();
    while let Some(pair) = engine.first_negation() {
        engine.withdraw(Cid::Not(pair));
    }
}
