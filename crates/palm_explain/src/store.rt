//! The log of removals, with what each of them rests on.
ghost use Rattle.std.specs.Prelude.{◌≡◌, ◌↔◌, ℕ, ℤ, ◌<◌, List, Some, [], ◌∷◌, ◌++◌, length, slice_get, Contains, MatchOption, OnOk, OnErr, vec_len};
ghost use Rattle.palm_base.specs.Tells.{Tells};
ghost use Rattle.palm_base.specs.declared.terms.Pair.{Pair as PairTerm};
ghost use Rattle.palm_domain.specs.Rows.{Ascends, initial_of};
ghost use Rattle.palm_model.specs.Constraint.{Distinct};
ghost use Rattle.palm_model.specs.Event.{lost_pairs, vars_of};
ghost use Rattle.palm_model.specs.Log.{IsListOf, Loses, NamesOfPair, Removal, log_pairs};
ghost use Rattle.palm_explain.specs.CidSets.{Adds, AddsSome};
ghost use Rattle.palm_explain.specs.Entries.{pairs_with};
ghost use Rattle.palm_explain.specs.Moving.{AreFitting};
ghost use Rattle.palm_explain.specs.Needed.{AreNeeded};
ghost use Rattle.palm_explain.specs.Explanations.{AreEnds, AreSpanned, IsLinked, IsRunOf, IsSpanned, LacksExactly, NamesOfSome, log_bys, reasons_of, restored_vars};

use crate::cid_set::CidSet;
use crate::entry::{Entry, place_of};
use crate::firsts::Firsts;
use crate::losing::lose_each;
use crate::moving::{MovingSpan, are_all_countable, push_run};
use crate::naming::names_at;
use crate::needing::{add_cids, add_needed};
use crate::restored::Restored;
use crate::rows::{
    NO_NUMBER, Row, declare_values, number_each, number_near, put_number, reach_values,
};
use crate::spans::{Span, are_countable, copy_of, count_of, push_spans, reason_in, spans_of};
use crate::withdrawing::{close_up, forget_each};
use palm_base::{Cid, CidList, NoMemory, Pair, Value, Var};
use palm_domain::DomainStore;
use std::alloc::{AllocError, Global};
use std::marker::Model;

/// The removals in their order, each with spans of values that were removed before it: its reasons. No explanation is stored. The
/// explanation of a removal is its constraint together with the explanations of its reasons: a set of constraints that
/// together imply that the variable does not take the value.
#[derive(Debug, Drop)]
pub struct ExplainStore {
    log: Vec<Entry>,
    rows: Vec<Row>,
    /// The number of the next removal.
    next: usize,
    firsts: Firsts,
    /// The variables of which the last withdrawal put values back, each once.
    restored: Vec<Restored>,
}

impl Model for ExplainStore {
    ghost use Rattle.std.specs.Prelude.{vec_capacity};
    ghost use Rattle.palm_explain.specs.Explanations.{Explanations};
    ghost use Rattle.palm_explain.specs.Entries.{IsWhole, log_of};

    ghost Value = { Explanations };

    ghost view = { λ s. record { log = log_of s.rows.items s.log.items; restored = s.restored.items } };

    ghost invariant = { λ s. IsWhole s.log.items s.rows.items s.next (vec_capacity s.restored) s.firsts };
}

impl ExplainStore {
    /// No removal, and no variable.
    pub fn new(alloc: Global) -> ExplainStore
        ensures { result ≡ record { log = []; restored = [] } }
    {
        ExplainStore {
            log: Vec::new(alloc),
            rows: Vec::new(alloc),
            next: 0,
            firsts: Firsts::new(alloc),
            restored: Vec::new(alloc),
        }
    }

    /// Tells the values of a variable of which nothing was entered yet, so that its removals are found without a search. Where
    /// something was, nothing changes.
    pub fn declare(&mut self, var: Var, values: &[Value]) -> Result<(), NoMemory>
        requires { Ascends values.now }
        ensures { self.new ≡ self.old }
    {
        declare_values(&mut self.rows, var, values)
    }

    /// Adds a removal behind the others; without memory nothing changes.
    pub fn enter(&mut self, pair: Pair, by: Cid, reasons: &[Pair]) -> Result<(), NoMemory>
        requires fresh { Contains (log_pairs self.old.log) pair → ⊥ }
        requires earlier { (p : Pair) → Contains reasons.now p → Contains (log_pairs self.old.log) p }
        ensures ok { OnOk result (self.new ≡ record self.old { log = self.old.log ++ record { pair = pair; by = by; reasons = reasons.now } ∷ [] }) }
        ensures err { OnErr result (self.new ≡ self.old) }
    {
        let spans = spans_of(*self.log.allocator(), &self.rows, reasons)?;
        self.enter_spans(pair, by, spans.as_slice())
    }

    /// Adds a removal behind the others, whose reasons are the removals that the spans stand for, as any spans do; without memory
    /// nothing changes.
    fn enter_spans(&mut self, pair: Pair, by: Cid, spans: &[Span]) -> Result<(), NoMemory>
        requires fresh { Contains (log_pairs self.old.log) pair → ⊥ }
        ensures spanned { OnOk result ((reasons : List PairTerm)
            × AreSpanned (log_pairs self.old.log) spans.now reasons) }
        ensures ok { (reasons : List PairTerm) → AreSpanned (log_pairs self.old.log) spans.now reasons
            → OnOk result (self.new ≡ record self.old { log = self.old.log ++ record { pair = pair; by = by; reasons = reasons } ∷ [] }) }
        ensures err { OnErr result (self.new ≡ self.old) }
    {
        let number = self.next;
        if number == NO_NUMBER || !are_countable(&self.rows, spans) {
            return Err(NoMemory);
        }
        let own = copy_of(*self.log.allocator(), spans)?;
        self.restored.reserve(self.log.len() + 1)?;
        self.log.reserve(1)?;
        self.firsts.note(&self.log, &by, number)?;
        put_number(&mut self.rows, &pair, number)?;
        self.log.push_reserved(Entry {
            number,
            pair,
            by,
            mark: false,
            spans: own,
        });
        self.next = number + 1;
        Ok(())
    }

    /// Adds a removal of each of the values behind the others, whose reasons are the removals that the spans stand for at the value;
    /// without memory nothing changes.
    pub fn enter_run(
        &mut self,
        var: Var,
        values: &[Value],
        by: Cid,
        spans: &[MovingSpan],
    ) -> Result<(), NoMemory>
        requires ascend { Ascends values.now }
        requires fresh { (v : ℤ) → Contains values.now v
            → Contains (log_pairs self.old.log) (record { var = var; value = v }) → ⊥ }
        requires fits { AreFitting spans.now values.now }
        ensures ok { (run : List Removal) → IsRunOf var by spans.now self.old.log values.now run
            → OnOk result (self.new ≡ record self.old { log = self.old.log ++ run }) }
        ensures err { OnErr result (self.new ≡ self.old) }
    {
        let number = self.next;
        if NO_NUMBER - number < values.len() {
            return Err(NoMemory);
        }
        self.restored.reserve(self.log.len() + values.len())?;
        self.log.reserve(values.len())?;
        let place = reach_values(&mut self.rows, var, values)?;
        if !are_all_countable(&self.rows, spans) {
            return Err(NoMemory);
        }
        self.firsts.note(&self.log, &by, number)?;
        push_run(&mut self.log, number, var, values, &by, spans)?;
        number_each(&mut self.rows, var, values, number, place);
        self.next = number + values.len();
        Ok(())
    }

    /// How many removals there are. That the log is linked holds of every store.
    pub fn removals(&self) -> usize
        ensures count { result ≡ length self.now.log }
        ensures linked { IsLinked self.now.log }
    {
        self.log.len()
    }

    /// The pair of the removal at a place.
    pub fn pair_at(&self, place: usize) -> Pair
        requires { place < length self.now.log }
        ensures { slice_get (log_pairs self.now.log) place ≡ Some result }
    {
        self.log[place].pair
    }

    /// The constraint that made the removal at a place.
    pub fn by_at(&self, place: usize) -> Cid
        requires { place < length self.now.log }
        ensures { slice_get (log_bys self.now.log) place ≡ Some result }
    {
        self.log[place].by
    }

    /// How many reasons the removal at a place has.
    pub fn reasons_at(&self, place: usize) -> usize
        requires { place < length self.now.log }
        ensures { result ≡ length (reasons_of self.now.log place) }
    {
        let entry = &self.log[place];
        count_of(&self.rows, entry.spans.as_slice(), entry.number)
    }

    /// A reason of the removal at a place.
    pub fn reason_at(&self, place: usize, index: usize) -> Pair
        requires place { place < length self.now.log }
        requires index { index < length (reasons_of self.now.log place) }
        ensures { slice_get (reasons_of self.now.log place) index ≡ Some result }
    {
        let entry = &self.log[place];
        reason_in(&self.rows, entry.spans.as_slice(), entry.number, index).unwrap()
    }

    /// Makes `out` the reasons of the removal at a place; without memory `out` is empty.
    pub fn reasons(&self, place: usize, out: &mut Vec<Pair>) -> Result<(), NoMemory>
        requires { place < length self.now.log }
        ensures ok { OnOk result (out.new.items ≡ reasons_of self.now.log place) }
        ensures err { OnErr result (out.new.items ≡ []) }
    {
        out.clear();
        let entry = &self.log[place];
        let pushed = push_spans(&self.rows, entry.spans.as_slice(), entry.number, out);
        if pushed.is_err() {
            out.clear();
        }
        pushed
    }

    /// The place of a pair's removal.
    pub fn place_of(&self, pair: Pair) -> Option<usize>
        ensures { MatchOption result
            (Contains (log_pairs self.now.log) pair → ⊥)
            (λ place. slice_get (log_pairs self.now.log) place ≡ Some pair) }
    {
        let mut near = 0;
        match number_near(&self.rows, &pair, &mut near) {
            Some(number) if number < NO_NUMBER => Some(place_of(&self.log, number)),
            _ => None,
        }
    }

    /// Whether the explanation of a removed pair holds the constraint. The removals stay. It takes no memory.
    pub fn names(&mut self, pair: Pair, cid: Cid) -> bool
        requires { Contains (log_pairs self.old.log) pair }
        ensures same { self.new ≡ self.old }
        ensures tells { Tells result (NamesOfPair self.old.log pair cid) }
    {
        let mut near = 0;
        let number = number_near(&self.rows, &pair, &mut near).unwrap();
        let place = place_of(&self.log, number);
        names_at(&mut self.log, &self.rows, place, &cid)
    }

    /// Makes `out` the explanation of a removed pair, by rising id; without memory `out` is empty.
    pub fn explanation(&self, pair: Pair, out: &mut CidList) -> Result<(), NoMemory>
        requires { Contains (log_pairs self.now.log) pair }
        ensures ok { OnOk result (IsListOf (NamesOfPair self.now.log pair) out.new) }
        ensures err { OnErr result (out.new ≡ []) }
    {
        self.explanations(pair.var, &[pair.value], out)
    }

    /// Adds the constraints of the explanations of these values of a variable, where they are removed. Without memory some of them
    /// are added.
    pub fn add_explanations(
        &self,
        var: Var,
        values: &[Value],
        cids: &mut CidSet,
    ) -> Result<(), NoMemory>
        ensures ok { OnOk result (Adds cids.old (NamesOfSome self.now.log var values.now) cids.new) }
        ensures err { OnErr result (AddsSome cids.old (NamesOfSome self.now.log var values.now) cids.new) }
    {
        let alloc = *self.log.allocator();
        add_cids(alloc, &self.log, &self.rows, var, values, cids)
    }

    /// Makes `out` the constraints of the explanations of these removed values of a variable, by rising id; without
    /// memory `out` is empty.
    pub fn explanations(
        &self,
        var: Var,
        values: &[Value],
        out: &mut CidList,
    ) -> Result<(), NoMemory>
        requires { (v : ℤ) → Contains values.now v → Contains (log_pairs self.now.log) (record { var = var; value = v }) }
        ensures ok { OnOk result (IsListOf (NamesOfSome self.now.log var values.now) out.new) }
        ensures err { OnErr result (out.new ≡ []) }
    {
        out.clear();
        let alloc = *self.log.allocator();
        let mut cids = CidSet::new(alloc);
        self.add_explanations(var, values, &mut cids)?;
        let list = cids.list(alloc)?;
        *out = CidList::from_vec(list);
        Ok(())
    }

    /// Makes `places` the places of the removals on which those of these values rest, where they are removed: themselves, and with
    /// each the reasons for which it was made. They rise; without memory `places` is empty.
    pub fn needed(
        &self,
        var: Var,
        values: &[Value],
        places: &mut Vec<usize>,
    ) -> Result<(), NoMemory>
        ensures ok { OnOk result (AreNeeded self.now.log (pairs_with var values.now) places.new.items) }
        ensures err { OnErr result (places.new.items ≡ []) }
    {
        places.clear();
        let added = add_needed(&self.log, &self.rows, var, values, places);
        if added.is_err() {
            places.clear();
        }
        places.reverse();
        added
    }

    /// Takes the removals out whose explanations hold the constraint, and puts their pairs back; the others keep
    /// their order. It takes no memory.
    pub fn withdraw(&mut self, cid: Cid, store: &mut DomainStore)
        requires lacks { LacksExactly store.old (log_pairs self.old.log) }
        ensures loses { Loses self.old.log (cid ∷ []) self.old.log self.new.log }
        ensures initial { initial_of store.new ≡ initial_of store.old }
        ensures lacks { LacksExactly store.new (log_pairs self.new.log) }
        ensures once { Distinct (restored_vars self.new.restored) }
        ensures restored { (x : ℕ) → Contains (restored_vars self.new.restored) x ↔ Contains (vars_of (lost_pairs self.old.log self.new.log)) x }
        ensures within { (p : PairTerm) → Contains (lost_pairs self.old.log self.new.log) p → IsSpanned self.new.restored p }
        ensures ends { AreEnds self.new.restored (lost_pairs self.old.log self.new.log) }
    {
        let first = self.firsts.take(&cid);
        let start = place_of(&self.log, first);
        self.restored.clear();
        lose_each(
            &mut self.log,
            start,
            &cid,
            &mut self.rows,
            &mut self.restored,
            store,
        );
        forget_each(&self.log, start, &mut self.rows);
        close_up(&mut self.log, start);
    }

    /// The variables of which the last withdrawal put values back, each once.
    pub fn restored(&self) -> &[Restored]
        ensures { result.now ≡ self.now.restored }
    {
        self.restored.as_slice()
    }
}
