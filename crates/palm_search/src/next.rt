//! What comes after a settling.
ghost use Rattle.std.specs.Prelude.{◌≡◌, ℕ, ◌≤◌, length, IfOk};
ghost use Rattle.palm_base.specs.Tells.{Tells};
ghost use Rattle.palm_domain.specs.Rows.{present_of};
ghost use Rattle.palm_events.specs.Along.{IsStill};
ghost use Rattle.palm_model.specs.State.{AllFilled, present};
ghost use Rattle.palm_search.specs.Search.{IsFound};
ghost use Rattle.palm_search.specs.Turning.{HasOnlyEmpty, IsNext};
ghost use Rattle.palm_search.specs.Turns.{IsOpen};

use crate::choice::open_variable;
use crate::conflict::{flat_conflict, has_decision, users_of};
use crate::ending::SearchEnd;
use crate::machine::Machine;
use crate::search::Search;
use palm_agenda::Order;
use palm_base::{CidList, NoMemory, ValueList, Var};
use palm_domain::DomainStore;
use palm_filter::Filter;
use palm_guide::Guide;
use std::alloc::Global;
use std::sync::ledger::Ledger;

/// What comes after a settling.
#[derive(Debug, Drop)]
pub enum Next {
    /// The search ends so.
    Ended(SearchEnd),
    /// A decision is to be taken: no domain is empty, and some variable has two values.
    Decide,
    /// A decision of this flat conflict is to be undone.
    Undo(CidList),
}

/// Whether as many turns were taken as the budget allows.
fn is_spent(search: &Search, budget: u64) -> bool
    ensures { Tells result (length search.now.journal ≡ budget) }
{
    search.journal().len() as u64 == budget
}

/// The value of each variable, where each has one.
fn only_values(alloc: Global, store: &DomainStore) -> Result<ValueList, NoMemory>
    requires filled { AllFilled (present_of store.now) }
    requires closed { (x : ℕ) → IsOpen (present_of store.now) x → ⊥ }
    ensures { IfOk result (IsFound (present_of store.now)) }
{
    let mut values = ValueList::new(alloc);
    for var in 0..store.variables() {
        values.push(store.least(Var(var)))?;
    }
    Ok(values)
}

impl<F: Filter, G: Guide, O: Order, L: Ledger> Machine<'_, '_, '_, '_, '_, F, G, O, L> {
    /// What comes after a settling, within so many turns: the first end that holds, and otherwise the kind of the next turn.
    /// A conflict is formed once.
    pub fn next(&self, budget: u64) -> Result<Next, NoMemory>
        requires still { IsStill self.now.engine.now.state }
        requires within { length self.now.search.now.journal ≤ budget }
        ensures { IfOk result (IsNext budget self.now.engine.now.state self.now.search.now) }
    {
        match self.engine.empty_variable() {
            Some(_) => self.next_undoing(budget),
            None => self.next_decision(budget),
        }
    }

    /// Where no domain is empty: the values, if each variable has one, and otherwise a decision.
    fn next_decision(&self, budget: u64) -> Result<Next, NoMemory>
        requires still { IsStill self.now.engine.now.state }
        requires filled { AllFilled (present self.now.engine.now.state) }
        requires within { length self.now.search.now.journal ≤ budget }
        ensures { IfOk result (IsNext budget self.now.engine.now.state self.now.search.now) }
    {
        let Some(_) = open_variable(self.engine.store()) else {
            let values = only_values(self.alloc, self.engine.store())?;
            return Ok(Next::Ended(SearchEnd::Found(values)));
        };
        if is_spent(self.search, budget) {
            return Ok(Next::Ended(SearchEnd::Spent(budget)));
        }
        Ok(Next::Decide)
    }

    /// Where a domain is empty: the users of its flat conflict, if that holds no decision, and otherwise its undoing.
    fn next_undoing(&self, budget: u64) -> Result<Next, NoMemory>
        requires empty { HasOnlyEmpty (present self.now.engine.now.state) }
        requires within { length self.now.search.now.journal ≤ budget }
        ensures { IfOk result (IsNext budget self.now.engine.now.state self.now.search.now) }
    {
        let conflict = flat_conflict(self.alloc, self.engine)?;
        if !has_decision(conflict.as_slice()) {
            let users = users_of(self.alloc, conflict.as_slice())?;
            return Ok(Next::Ended(SearchEnd::NoSolution(users)));
        }
        if is_spent(self.search, budget) {
            return Ok(Next::Ended(SearchEnd::Spent(budget)));
        }
        Ok(Next::Undo(conflict))
    }
}
