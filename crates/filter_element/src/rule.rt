//! The entry of a list that is chosen by an index, counted from 1.
ghost use Rattle.std.specs.Prelude.{◌≡◌, ◌++◌, ◌+◌, ◌<◌, ◌≤◌, pos, length, OnOk};
ghost use Rattle.filter_element.specs.Element.{IsEntryOpen, IsEntryReached};
ghost use Rattle.palm_base.specs.Tells.{Tells};
ghost use Rattle.palm_domain.specs.Rows.{initial_of, present_of};
ghost use Rattle.palm_model.specs.Domains.{AllAscend};
ghost use Rattle.palm_model.specs.Element.{element_reason, entry_at, indices_of, outcomes_at};
ghost use Rattle.palm_model.specs.Removed.{pairs_of};

use palm_base::{NoMemory, Pair, Value, Var};
use palm_domain::DomainStore;
use palm_filter::{Reasons, ValueIndex};
use palm_model::{MOST_ROWS, number_of};

/// `outcome` is the entry at `index`, counted from 1.
#[derive(Debug, Drop)]
pub struct ElementRule {
    pub outcome: Var,
    pub index: Var,
    pub entries: ValueIndex,
}

impl ElementRule {
    /// The index of a place, which is counted from 0.
    #[inline(always)]
    fn index_at(&self, place: usize) -> Pair
        requires { place < MOST_ROWS }
        ensures var { result.var ≡ self.now.index }
        ensures value { result.value ≡ pos (place + 1) }
    {
        Pair {
            var: self.index,
            value: Value((place + 1) as i32),
        }
    }

    /// Whether the value is the entry at a present index.
    pub(crate) fn is_entry_reached(&self, store: &DomainStore, outcome: &Value) -> bool
        requires index { self.now.index < length store.now }
        requires few { length self.now.entries ≤ MOST_ROWS }
        ensures { Tells result (IsEntryReached (present_of store.now) self.now outcome.now) }
    {
        for place in self.entries.places(outcome) {
            if store.contains(self.index_at(*place)) {
                return true;
            }
        }
        false
    }

    /// Whether there is an entry at the index, and it is a present outcome.
    pub(crate) fn is_entry_open(&self, store: &DomainStore, index: &Value) -> bool
        requires { self.now.outcome < length store.now }
        ensures { Tells result (IsEntryOpen (present_of store.now) self.now index.now) }
    {
        let Some(entry) = self.entry(index) else {
            return false;
        };
        store.contains(Pair {
            var: self.outcome,
            value: entry,
        })
    }

    /// The entry at the index, if there is one.
    fn entry(&self, index: &Value) -> Option<Value>
        ensures { result ≡ entry_at self.now.entries index.now }
    {
        let number = number_of(index);
        if number < 1 {
            return None;
        }
        self.entries.values().get((number - 1) as usize).copied()
    }

    /// Appends the reason of the pair: the declared indices of an outcome, or the declared outcome of an index.
    pub(crate) fn push_reason(
        &self,
        store: &DomainStore,
        pair: &Pair,
        out: &mut Reasons,
    ) -> Result<(), NoMemory>
        requires outcome { self.now.outcome < length store.now }
        requires index { self.now.index < length store.now }
        requires few { length self.now.entries ≤ MOST_ROWS }
        requires ascend { AllAscend (initial_of store.now) }
        ensures { OnOk result (out.new.items ≡ out.old.items ++ element_reason (initial_of store.now) self.now.outcome self.now.index self.now.entries pair.now.var pair.now.value) }
    {
        if pair.var == self.outcome {
            self.push_indices(store, &pair.value, out)
        } else {
            self.push_outcome(store, &pair.value, out)
        }
    }

    /// Appends the declared indices whose entry is the outcome: the places of the outcome tell which they are.
    fn push_indices(
        &self,
        store: &DomainStore,
        outcome: &Value,
        out: &mut Reasons,
    ) -> Result<(), NoMemory>
        requires index { self.now.index < length store.now }
        requires few { length self.now.entries ≤ MOST_ROWS }
        requires ascend { AllAscend (initial_of store.now) }
        ensures { OnOk result (out.new.items ≡ out.old.items ++ pairs_of self.now.index (indices_of (initial_of store.now) self.now.index self.now.entries outcome.now)) }
    {
        let places = self.entries.places(outcome);
        for place in places {
            if store.declared(self.index_at(*place)) {
                out.push(self.index_at(*place))?;
            }
        }
        Ok(())
    }

    /// Appends the entry at the index, where there is one and it is declared.
    fn push_outcome(
        &self,
        store: &DomainStore,
        index: &Value,
        out: &mut Reasons,
    ) -> Result<(), NoMemory>
        requires { self.now.outcome < length store.now }
        ensures { OnOk result (out.new.items ≡ out.old.items ++ pairs_of self.now.outcome (outcomes_at (initial_of store.now) self.now.outcome self.now.entries index.now)) }
    {
        let Some(entry) = self.entry(index) else {
            return Ok(());
        };
        if store.declared(Pair {
            var: self.outcome,
            value: entry,
        }) {
            out.push(Pair {
                var: self.outcome,
                value: entry,
            })?;
        }
        Ok(())
    }
}
