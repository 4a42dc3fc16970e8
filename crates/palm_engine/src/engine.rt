//! The engine: constraints that are active under their ids, the values that they leave, and why.
ghost use Rattle.std.specs.Prelude.{◌≡◌, ℕ, ◌+◌, ◌-◌, ◌^◌, ◌<◌, ◌≤◌, [], length, min, true, All, Contains, IfOk, IfSome, MatchOption, OnErr, OnOk, is_some};
ghost use Rattle.palm_base.specs.Tells.{Tells};
ghost use Rattle.palm_base.specs.declared.limits.TheConstants.{LAST_COUNT};
ghost use Rattle.palm_base.specs.declared.terms.Cid.{Cid as CidTerm};
ghost use Rattle.palm_base.specs.declared.terms.Pair.{Pair as PairTerm};
ghost use Rattle.palm_domain.specs.Rows.{Ascends, initial_of, present_of};
ghost use Rattle.palm_domain.specs.declared.limits.TheConstants.{MOST_VALUES};
ghost use Rattle.palm_model.specs.Conflict.{InFlat, IsKeptConflict};
ghost use Rattle.palm_model.specs.Constraint.{scope};
ghost use Rattle.palm_model.specs.Domains.{Has};
ghost use Rattle.palm_model.specs.Event.{Declares, Posts, Withdraws};
ghost use Rattle.palm_base.specs.Order.{pair_before};
ghost use Rattle.palm_model.specs.Log.{Active, IsActive, IsListOf};
ghost use Rattle.palm_model.specs.State.{AreJustifiers, HasEmpty, IsEmptyAt, IsValid, blank, present, decision_of, negation_of, user_of};
ghost use Rattle.palm_events.specs.Scoped.{HasScopedReasons};
ghost use Rattle.palm_engine.specs.Engine.{HasAsked, KeepsCounts};
ghost use Rattle.palm_engine.specs.Following.{HasSettledBy, IsInterruptedBy, OrderAnswers, OrderFollows};
ghost use Rattle.palm_engine.specs.Posted.{active_of};

use crate::actives::Actives;
use crate::conflicts::{conflict_of, flat_of};
use crate::filtering::Filtering;
use crate::justification::Justification;
use crate::posted::Posted;
use crate::posting::{insert, take_out, take_out_resting};
use crate::reasons::ReasonRoom;
use crate::settle::{Settle, outcome, pass_clear, run_revision, take_next, tell};
use palm_agenda::Order;
use palm_base::{Cid, CidList, HasCid, NoMemory, Pair, Steps, Value, Var};
use palm_domain::DomainStore;
use palm_explain::ExplainStore;
use palm_filter::Filter;
use std::alloc::Global;
use std::marker::Model;
use std::sync::ledger::Ledger;

/// Filters constraints over finite domains, and keeps of every removed value the constraints that explain it, so that a
/// constraint can be withdrawn with exactly what rests on it. (Jussien and Barichard 2000)
#[derive(Drop)]
pub struct Engine<F: Filter> {
    filtering: Filtering,
    posted: Actives<F>,
    revisions: u64,
}

impl<F: Filter> Model for Engine<F> {
    ghost use Rattle.palm_engine.specs.Engine.{View, view_of};
    ghost use Rattle.palm_engine.specs.Kept.{IsEngine};
    ghost use Rattle.palm_engine.specs.Posted.{actives_of};

    ghost Value = { View };

    ghost view = { λ e. view_of e.filtering (actives_of F.meaning e.posted.items) e.revisions };

    ghost invariant = { λ e. IsEngine e.filtering (actives_of F.meaning e.posted.items) };
}

impl<F: Filter> Engine<F> {
    /// No variable and no constraint.
    pub fn new(alloc: Global) -> Engine<F>
        ensures { result ≡ record { state = blank []; revisions = 0; checks = 0 } }
    {
        Engine {
            filtering: Filtering::new(alloc),
            posted: Actives::new(alloc),
            revisions: 0,
        }
    }

    /// Appends a variable with these values, and answers it. Without memory nothing changes.
    pub fn add_variable(&mut self, values: &[Value]) -> Result<Var, NoMemory>
        requires ascend { Ascends values.now }
        requires filled { 0 < length values.now }
        requires small { length values.now ≤ MOST_VALUES }
        requires few { length self.old.state.initial < 2 ^ 32 - 1 }
        ensures var { IfOk result (λ x. x ≡ length self.old.state.initial) }
        ensures ok { OnOk result (Declares self.old.state values.now self.new.state) }
        ensures counts { KeepsCounts self.old self.new }
        ensures err { OnErr result (self.new ≡ self.old) }
        ensures valid { IsValid self.new.state }
    {
        self.filtering.add_variable(values)
    }

    /// Makes the constraint of a user active and pending. Without memory nothing changes.
    pub fn post(&mut self, number: u32, filter: F) -> Result<(), NoMemory>
        requires inactive { IsActive self.old.state.active (Cid.User number) → ⊥ }
        requires declared { All (λ x. x < length self.old.state.initial) (scope (F.meaning filter)) }
        ensures ok { OnOk result (Posts self.old.state (user_of number (F.meaning filter)) self.new.state) }
        ensures counts { KeepsCounts self.old self.new }
        ensures err { OnErr result (self.new ≡ self.old) }
        ensures valid { IsValid self.new.state }
    {
        self.activate(Posted::User { number, filter })
    }

    /// Makes the decision active and pending that the variable of the pair has its value. Without memory nothing changes.
    pub fn assume(&mut self, pair: Pair) -> Result<(), NoMemory>
        requires present { Has (present self.old.state) pair.var pair.value }
        requires free { IsActive self.old.state.active (Cid.Decide pair.var) → ⊥ }
        ensures ok { OnOk result (Posts self.old.state (decision_of pair) self.new.state) }
        ensures counts { KeepsCounts self.old self.new }
        ensures err { OnErr result (self.new ≡ self.old) }
        ensures valid { IsValid self.new.state }
    {
        self.activate(Posted::Decision(pair))
    }

    /// Makes the negation of the pair active and pending, for these constraints. Without memory nothing changes.
    pub fn forbid(&mut self, pair: Pair, because: &[Cid]) -> Result<(), NoMemory>
        requires inactive { IsActive self.old.state.active (Cid.Not pair) → ⊥ }
        requires declared { Has self.old.state.initial pair.var pair.value }
        requires justifiers { AreJustifiers self.old.state.active because.now }
        ensures ok { OnOk result (Posts self.old.state (negation_of pair because.now) self.new.state) }
        ensures counts { KeepsCounts self.old self.new }
        ensures err { OnErr result (self.new ≡ self.old) }
        ensures valid { IsValid self.new.state }
    {
        let justification = Justification::new(*self.posted.allocator(), because)?;
        self.activate(Posted::Negation {
            pair,
            justification,
        })
    }

    /// Makes the constraint inactive together with each negation whose justification holds it, takes the removals out
    /// that rest on any of these, and wakes the constraints over every restored variable. It takes no memory.
    pub fn withdraw(&mut self, cid: Cid)
        requires { IsActive self.old.state.active cid }
        ensures withdraws { Withdraws self.old.state cid self.new.state }
        ensures counts { KeepsCounts self.old self.new }
        ensures valid { IsValid self.new.state }
    {
        let place = self.posted.place_of(&cid);
        take_out(&mut self.filtering, &mut self.posted, place);
        take_out_resting(&mut self.filtering, &mut self.posted, &cid);
    }

    /// Runs revisions until a domain is empty, nothing is pending, or as many ran as the limit says. The order, where there
    /// is one, is asked once before each revision with the pending constraints, and told it once after it. After want of
    /// memory the interrupted constraint is pending, the order was asked for it and told nothing of it, and the call may be
    /// made again.
    pub fn settle<O: Order, L: Ledger>(
        &mut self,
        order: &mut Option<O>,
        limit: Option<u64>,
        steps: &mut Steps<L>,
    ) -> Result<Settle, NoMemory>
        ensures ok { IfOk result (λ answer. HasSettledBy (OrderFollows O.answers O.hears O.state) limit order.old order.new answer self.old self.new) }
        ensures err { OnErr result (IsInterruptedBy (OrderAnswers O.answers O.state) (OrderFollows O.answers O.hears O.state) limit order.old order.new self.old self.new) }
        ensures asked { HasAsked self.old.state self.new.state steps.old steps.new }
        ensures checks { self.new.checks ≡ min (self.old.checks + (steps.new - steps.old)) LAST_COUNT }
        ensures stays { is_some order.new ≡ is_some order.old }
        ensures valid { IsValid self.new.state }
    {
        // A number that is read is known to fit its type.
        let _checks = self.filtering.checks;
        let mut room = ReasonRoom::new(*self.posted.allocator());
        self.revisions = 0;
        while let Some(taken) = take_next(&mut self.filtering, order, limit, self.revisions) {
            let removed = run_revision(&mut self.filtering, &self.posted, &taken, &mut room, steps);
            self.revisions = self.revisions.saturating_add(1);
            tell(order, &taken.cid, removed?);
            self.revisions = pass_clear(&mut self.filtering, order, limit, self.revisions);
        }
        Ok(outcome(&self.filtering))
    }

    /// How many revisions the last settling ran, one that was interrupted included, and the last number of a count where
    /// there were more.
    pub fn revisions(&self) -> u64
        ensures { result ≡ self.now.revisions }
    {
        self.revisions
    }

    /// How often support was asked for in all settlings so far, and the last number of a count where it was more.
    pub fn checks(&self) -> u64
        ensures { result ≡ self.now.checks }
    {
        self.filtering.checks
    }

    /// The variable that has no value left.
    pub fn empty_variable(&self) -> Option<Var>
        ensures empty { MatchOption result (HasEmpty (present self.now.state) → ⊥) (IsEmptyAt (present self.now.state)) }
        ensures only { IfSome result (λ x. (y : ℕ) → IsEmptyAt (present self.now.state) y → y ≡ x) }
    {
        self.filtering.empty
    }

    /// Makes `out` the constraints of the explanations of all declared values of the empty variable, by rising id.
    /// Without memory `out` is empty.
    pub fn conflict(&self, out: &mut CidList) -> Result<(), NoMemory>
        requires { HasEmpty (present self.now.state) }
        ensures ok { OnOk result ((x : ℕ) → IsEmptyAt (present self.now.state) x → IsKeptConflict self.now.state x out.new) }
        ensures err { OnErr result (out.new ≡ []) }
    {
        out.clear();
        if let Some(var) = self.filtering.empty {
            conflict_of(&self.filtering, var, out)?;
        }
        Ok(())
    }

    /// Makes `out` the ids with each negation replaced by its justification, by rising id. Without memory `out` is
    /// empty.
    pub fn flat(&self, from: &CidList, out: &mut CidList) -> Result<(), NoMemory>
        requires { (c : CidTerm) → Contains from.now c → IsActive self.now.state.active c }
        ensures ok { OnOk result (IsListOf (InFlat self.now.state.active (Contains from.now)) out.new) }
        ensures err { OnErr result (out.new ≡ []) }
    {
        out.clear();
        *out = flat_of(*self.posted.allocator(), &self.posted, from.as_slice())?;
        Ok(())
    }

    /// The domains. What it ensures besides holds of every engine.
    pub fn store(&self) -> &DomainStore
        ensures initial { initial_of result.now ≡ self.now.state.initial }
        ensures present { present_of result.now ≡ present self.now.state }
        ensures valid { IsValid self.now.state }
        ensures scoped { HasScopedReasons self.now.state }
    {
        &self.filtering.store
    }

    /// The removals with their explanations.
    pub fn log(&self) -> &ExplainStore
        ensures { result.now.log ≡ self.now.state.log }
    {
        &self.filtering.log
    }

    /// Whether a constraint is active under the id.
    pub fn is_active(&self, cid: Cid) -> bool
        ensures { Tells result (IsActive self.now.state.active cid) }
    {
        match self.posted.get(self.posted.place_of(&cid)) {
            Some(constraint) => constraint.cid().is_same(&cid),
            None => false,
        }
    }

    /// The filter of the active constraint of a user with this number, where there is one.
    pub fn filter(&self, number: u32) -> Option<&F>
        ensures filter { MatchOption result
            (IsActive self.now.state.active (Cid.User number) → ⊥)
            (λ filter. Contains self.now.state.active (user_of number (F.meaning filter.now))) }
        ensures only { IfSome result (λ filter. (a : Active) → Contains self.now.state.active a → a.cid ≡ Cid.User number
            → a ≡ user_of number (F.meaning filter.now)) }
    {
        let constraint = self.posted.get(self.posted.place_of(&Cid::User(number)))?;
        constraint.filter(number)
    }

    /// The least pair whose negation is active.
    pub fn first_negation(&self) -> Option<Pair>
        ensures { MatchOption result
            ((p : PairTerm) → IsActive self.now.state.active (Cid.Not p) → ⊥)
            (λ p. IsActive self.now.state.active (Cid.Not p) × ((q : PairTerm) → IsActive self.now.state.active (Cid.Not q) → pair_before q p ≡ true → ⊥)) }
    {
        let constraint = self.posted.get(self.posted.decisions())?;
        constraint.negated()
    }

    /// Makes a constraint active and pending. Without memory nothing changes.
    fn activate(&mut self, constraint: Posted<F>) -> Result<(), NoMemory>
        requires inactive { IsActive self.old.state.active (active_of F.meaning constraint).cid → ⊥ }
        requires declared { All (λ x. x < length self.old.state.initial) (scope (active_of F.meaning constraint).con) }
        requires justifiers { AreJustifiers self.old.state.active (active_of F.meaning constraint).justification }
        ensures ok { OnOk result (Posts self.old.state (active_of F.meaning constraint) self.new.state) }
        ensures counts { KeepsCounts self.old self.new }
        ensures err { OnErr result (self.new ≡ self.old) }
        ensures valid { IsValid self.new.state }
    {
        insert(&mut self.filtering.agenda, &mut self.posted, constraint)
    }
}
