//! The active constraints of an engine.
ghost use Rattle.std.specs.Prelude.{◌≡◌, ℕ, ◌+◌, ◌-◌, ◌≤◌, [], true, false, min, length, Contains, Some, IfOk, MatchOption, OnErr, OnOk, ◌<◌, slice_get};
ghost use Rattle.palm_base.specs.declared.limits.TheConstants.{LAST_COUNT};
ghost use Rattle.palm_domain.specs.Rows.{initial_of, present_of};
ghost use Rattle.palm_model.specs.Constraint.{scope, IsWellFormed};
ghost use Rattle.palm_model.specs.Domains.{Has};
ghost use Rattle.palm_base.specs.Order.{Rises, cid_before, IsPartedAt};
ghost use Rattle.palm_model.specs.Log.{Active, cids_of, is_named};
ghost use Rattle.palm_model.specs.Reason.{AreFilled, reason};
ghost use Rattle.palm_model.specs.State.{user_of};
ghost use Rattle.palm_model.specs.Support.{IsSupported, LacksSupport};
ghost use Rattle.palm_explain.specs.CidSets.{Adds};
ghost use Rattle.palm_filter.specs.Heeds.{FitsHeed};
ghost use Rattle.palm_filter.specs.Shapes.{FitsShape};
ghost use Rattle.palm_engine.specs.Posted.{IsInForm, active_of, actives_of, is_decision, is_negation, negated};
ghost use Rattle.palm_engine.specs.Reasons.{Goes, Knows, TellsReason};
ghost use Rattle.palm_engine.specs.Work.{asks_of};

use crate::justification::Justification;
use crate::reasons::{ReasonRoom, spans_by_rule};
use palm_base::{Cid, HasCid, NoMemory, Pair, Steps, Var};
use palm_domain::DomainStore;
use palm_explain::CidSet;
use palm_filter::{Filter, Heed, Reasons, Shape, ask};
use std::array;
use std::sync::ledger::Ledger;

/// A constraint that is active. Decisions and negations need no filter.
#[derive(Drop)]
pub(crate) enum Posted<F> {
    /// The variable has the value.
    Decision(Pair),
    /// The variable does not have the value, for these constraints.
    Negation {
        pair: Pair,
        justification: Justification,
    },
    /// The constraint of a user.
    User {
        number: u32,
        filter: F,
    },
}

impl<F: Filter> HasCid for Posted<F> {
    ghost use Rattle.palm_engine.specs.Posted.{active_of};

    ghost id = { λ p. (active_of F.meaning p).cid };

    #[inline(always)]
    fn cid(&self) -> Cid
        ensures { result ≡ (active_of F.meaning self.now).cid }
    {
        match self {
            Posted::Decision(pair) => Cid::Decide(pair.var),
            Posted::Negation { pair, .. } => Cid::Not(*pair),
            Posted::User { number, .. } => Cid::User(*number),
        }
    }
}

impl<F: Filter> Posted<F> {
    /// The variables of the constraint, in the order of its text. What it ensures besides holds of every filter.
    pub(crate) fn scope(&self) -> &[Var]
        ensures scope { result.now ≡ scope (active_of F.meaning self.now).con }
        ensures formed { (number : ℕ) → (active_of F.meaning self.now).cid ≡ Cid.User number
            → (variables : ℕ) × IsWellFormed variables (active_of F.meaning self.now).con }
    {
        match self {
            Posted::Decision(pair) | Posted::Negation { pair, .. } => array::from_ref(&pair.var),
            Posted::User { filter, .. } => filter.scope().as_slice(),
        }
    }

    /// What is known of the support of the values of the variable at a place of the scope, whatever the domains are.
    pub(crate) fn shape(&self, place: usize) -> Shape
        requires { place < length (scope (active_of F.meaning self.now).con) }
        ensures { FitsShape (active_of F.meaning self.now).con place result }
    {
        match self {
            Posted::Decision(_) | Posted::Negation { .. } => Shape::Any,
            Posted::User { filter, .. } => filter.shape(place),
        }
    }

    /// Which losses of the variable at a place of the scope may take support from values of the other variables, whatever the
    /// domains are.
    pub(crate) fn heed(&self, place: usize) -> Heed
        requires { place < length (scope (active_of F.meaning self.now).con) }
        ensures { FitsHeed (active_of F.meaning self.now).con place result }
    {
        match self {
            Posted::Decision(_) | Posted::Negation { .. } => Heed::Each,
            Posted::User { filter, .. } => filter.heed(place),
        }
    }

    /// Adds the ids for which a negation holds, and none of other constraints.
    pub(crate) fn add_justification(&self, cids: &mut CidSet) -> Result<(), NoMemory>
        ensures { OnOk result
            (Adds cids.old (Contains (active_of F.meaning self.now).justification) cids.new) }
    {
        match self {
            Posted::Negation { justification, .. } => justification.add_to(cids),
            Posted::Decision(_) | Posted::User { .. } => Ok(()),
        }
    }

    /// Whether it is a decision.
    pub(crate) fn is_decision(&self) -> bool
        ensures { result ≡ is_decision self.now }
    {
        matches!(self, Posted::Decision(_))
    }

    /// Whether it is a negation.
    pub(crate) fn is_negation(&self) -> bool
        ensures { result ≡ is_negation self.now }
    {
        matches!(self, Posted::Negation { .. })
    }

    /// The pair of a negation.
    pub(crate) fn negated(&self) -> Option<Pair>
        ensures { result ≡ negated self.now }
    {
        match self {
            Posted::Negation { pair, .. } => Some(*pair),
            Posted::Decision(_) | Posted::User { .. } => None,
        }
    }

    /// The filter of the constraint of the user with this number.
    pub(crate) fn filter(&self, number: u32) -> Option<&F>
        ensures { MatchOption result
            ((active_of F.meaning self.now).cid ≡ Cid.User number → ⊥)
            (λ filter. active_of F.meaning self.now ≡ user_of number (F.meaning filter.now)) }
    {
        match self {
            Posted::User {
                number: own,
                filter,
            } if *own == number => Some(filter),
            Posted::Decision(_) | Posted::Negation { .. } | Posted::User { .. } => None,
        }
    }

    /// Whether it is a negation whose justification holds the id.
    pub(crate) fn rests_on(&self, cid: &Cid) -> bool
        ensures { result ≡ is_named (active_of F.meaning self.now).justification cid.now }
    {
        match self {
            Posted::Negation { justification, .. } => justification.has(cid),
            Posted::Decision(_) | Posted::User { .. } => false,
        }
    }

    /// Whether the value has support in every part over its variable. A user's filter is asked, which counts one
    /// check and one step; decisions and negations ask nothing.
    #[inline(always)]
    pub(crate) fn is_supported<L: Ledger>(
        &self,
        store: &DomainStore,
        pair: Pair,
        checks: &mut u64,
        steps: &mut Steps<L>,
    ) -> bool
        requires formed { IsInForm (length store.now) (active_of F.meaning self.now) }
        requires over { Contains (scope (active_of F.meaning self.now).con) pair.var }
        requires present { Has (present_of store.now) pair.var pair.value }
        ensures supported { result ≡ true → IsSupported (present_of store.now) (active_of F.meaning self.now).con pair.var pair.value }
        ensures lacking { result ≡ false → LacksSupport (present_of store.now) (active_of F.meaning self.now).con pair.var pair.value }
        ensures counted { steps.new ≡ steps.old + asks_of (active_of F.meaning self.now) }
        ensures checks { checks.new ≡ min (checks.old + (steps.new - steps.old)) LAST_COUNT }
    {
        let counted = checks.saturating_add(1);
        match self {
            Posted::Decision(decided) => decided.value == pair.value,
            Posted::Negation { pair: negated, .. } => negated.value != pair.value,
            Posted::User { filter, .. } => {
                *checks = counted;
                ask(filter, store, pair, steps)
            }
        }
    }

    /// Makes the room's spans those of the removed pairs for which the value has no support, where a rule of them is known, and
    /// answers whether it is. Decisions and negations have no reasons.
    pub(crate) fn tells_spans(
        &self,
        store: &DomainStore,
        pair: &Pair,
        room: &mut ReasonRoom,
    ) -> Result<bool, NoMemory>
        requires formed { IsInForm (length store.now) (active_of F.meaning self.now) }
        requires goes { Goes store.now (active_of F.meaning self.now).con pair.now }
        requires knows { Knows store.now (active_of F.meaning self.now).con pair.now.var
            pair.now.value room.old }
        ensures told { IfOk result (λ told. told ≡ true
            → TellsReason store.now (active_of F.meaning self.now).con pair.now room.new.spans.items) }
        ensures knows { OnOk result (Knows store.now (active_of F.meaning self.now).con
            pair.now.var pair.now.value room.new) }
    {
        match self {
            Posted::Decision(_) | Posted::Negation { .. } => {
                room.known = None;
                room.spans.clear();
                Ok(true)
            }
            Posted::User { filter, .. } => spans_by_rule(filter, store, pair, room),
        }
    }

    /// Replaces what `out` has by the removed pairs for which the value has no support. Without memory `out` is empty.
    pub(crate) fn reason(
        &self,
        store: &DomainStore,
        pair: Pair,
        out: &mut Reasons,
    ) -> Result<(), NoMemory>
        requires formed { IsInForm (length store.now) (active_of F.meaning self.now) }
        requires present { Has (present_of store.now) pair.var pair.value }
        requires unsupported { LacksSupport (present_of store.now) (active_of F.meaning self.now).con pair.var pair.value }
        requires filled { AreFilled (present_of store.now) (scope (active_of F.meaning self.now).con) }
        ensures ok { OnOk result (out.new.items ≡ reason (initial_of store.now) (present_of store.now) (active_of F.meaning self.now).con pair.var pair.value) }
        ensures err { OnErr result (out.new.items ≡ []) }
    {
        match self {
            Posted::Decision(_) | Posted::Negation { .. } => {
                out.clear();
                Ok(())
            }
            Posted::User { filter, .. } => filter.reason(store, pair, out),
        }
    }
}
