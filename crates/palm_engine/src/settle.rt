//! Settlings.
ghost use Rattle.std.specs.Prelude.{◌≡◌, ◌≤◌, [], ◌∷◌, false, List, IfNone, IfOk, IfSome, OnErr, is_some};
ghost use Rattle.palm_base.specs.Tells.{Tells};
ghost use Rattle.palm_base.specs.declared.limits.TheConstants.{LAST_COUNT};
ghost use Rattle.palm_model.specs.Log.{Active};
ghost use Rattle.palm_agenda.specs.Agenda.{IsStanding};
ghost use Rattle.palm_engine.specs.Following.{OrderAnswers, OrderHears, told_count};
ghost use Rattle.palm_engine.specs.Kept.{IsInStep, state_in_revision, state_of};
ghost use Rattle.palm_engine.specs.Posted.{actives_of};
ghost use Rattle.palm_engine.specs.Revising.{HasCounted, HasPartlyRevised, HasRevised, IsTaken, PassesClear, TakesNext, TakesNone, TellsEnd, most_left};
ghost use Rattle.palm_engine.specs.Settling.{HasReached};
ghost use Rattle.palm_engine.specs.Work.{named_sizes};

use crate::actives::Actives;
use crate::filtering::Filtering;
use crate::reasons::ReasonRoom;
use crate::revise::revise;
use palm_agenda::{Agenda, Order, Taken};
use palm_base::{Cid, NoMemory, Steps, Var};
use palm_filter::Filter;
use std::sync::ledger::Ledger;

/// How a settling ended.
#[derive(Clone, Copy, Debug, PartialEq, Eq)]
pub enum Settle {
    /// Nothing is pending, and no domain is empty.
    Settled,
    /// The variable has no value left.
    Empty(Var),
    /// As many revisions ran as the limit says, something is pending, and no domain is empty.
    Stopped,
}

/// Whether as many revisions ran as the limit says.
fn is_reached(limit: Option<u64>, ran: u64) -> bool
    ensures tells { Tells result (HasReached limit ran) }
    ensures bounded { IfSome limit (λ most. most ≤ LAST_COUNT) }
{
    match limit {
        Some(limit) => ran == limit,
        None => false,
    }
}

/// How many revisions the limit still allows.
fn left_of(limit: Option<u64>, ran: u64) -> u64
    ensures { (result ≡ most_left limit ran) × IfSome limit (λ most. most ≤ LAST_COUNT) }
{
    limit.unwrap_or(u64::MAX).saturating_sub(ran)
}

/// Takes the pending constraints that come first and have no mark, where no order is asked for them, while no domain is empty and as
/// far as the limit allows it. Each is a revision that takes nothing out. Answers how many revisions ran then.
#[inline(always)]
pub(crate) fn pass_clear<O: Order>(
    filtering: &mut Filtering,
    order: &Option<O>,
    limit: Option<u64>,
    ran: u64,
) -> u64
    ensures { PassesClear limit (is_some order.now) ran filtering.old filtering.new result }
{
    if order.is_some() || filtering.empty.is_some() {
        return ran;
    }
    ran + filtering.agenda.take_clear(left_of(limit, ran))
}

/// Takes the constraint that is revised next, while no domain is empty and the limit is not reached.
#[inline(always)]
pub(crate) fn take_next<O: Order>(
    filtering: &mut Filtering,
    order: &mut Option<O>,
    limit: Option<u64>,
    ran: u64,
) -> Option<Taken>
    ensures none { IfNone result ((filtering.new ≡ filtering.old) × TakesNone limit ran filtering.old × (order.new ≡ order.old)) }
    ensures standing { IfSome result (IsStanding filtering.new.agenda.connected) }
    ensures some { IfSome result (λ taken. (takes : TakesNext limit (is_some order.old) ran filtering.old filtering.new taken.cid)
        × OrderAnswers O.answers O.state filtering.old.agenda.pending takes.answer order.old order.new) }
    ensures stays { is_some order.new ≡ is_some order.old }
{
    if filtering.empty.is_some() || is_reached(limit, ran) {
        return None;
    }
    filtering.agenda.take(order)
}

/// How many values a revision took out, as an order is told it: the last number of its type where there were more.
fn told_count(removed: usize) -> u32
    ensures { result ≡ told_count removed }
{
    u32::try_from(removed).unwrap_or(u32::MAX)
}

/// Tells the order, where there is one, what the revision took out.
pub(crate) fn tell<O: Order>(order: &mut Option<O>, cid: &Cid, removed: usize)
    ensures told { OrderHears O.hears O.state cid.now removed order.old order.new }
    ensures stays { is_some order.new ≡ is_some order.old }
{
    if let Some(order) = order {
        order.ran(*cid, told_count(removed));
    }
}

/// Revises the constraint that was taken, and answers how many values that took out. Without memory the constraint is
/// pending again.
#[inline(always)]
pub(crate) fn run_revision<F: Filter, L: Ledger>(
    filtering: &mut Filtering,
    posted: &Actives<F>,
    taken: &Taken,
    room: &mut ReasonRoom,
    steps: &mut Steps<L>,
) -> Result<usize, NoMemory>
    requires taken { IsTaken filtering.old (actives_of F.meaning posted.now.items) taken.now.cid }
    requires standing { IsStanding filtering.old.agenda.connected taken.now }
    ensures ok { IfOk result (HasRevised (actives_of F.meaning posted.now.items) taken.now.cid (state_in_revision filtering.old (actives_of F.meaning posted.now.items) taken.now.cid) (state_of filtering.new (actives_of F.meaning posted.now.items))) }
    ensures err { OnErr result (HasPartlyRevised (actives_of F.meaning posted.now.items) taken.now.cid (state_in_revision filtering.old (actives_of F.meaning posted.now.items) taken.now.cid) (state_of filtering.new (actives_of F.meaning posted.now.items))) }
    ensures kept { IsInStep filtering.new (actives_of F.meaning posted.now.items) }
    ensures counted { HasCounted (named_sizes (state_in_revision filtering.old (actives_of F.meaning posted.now.items) taken.now.cid) (taken.now.cid ∷ [])) filtering.old filtering.new steps.old steps.new }
{
    let constraint = posted.at(taken.at);
    let before = filtering.log.removals();
    if revise(filtering, constraint, taken, room, steps).is_err() {
        filtering.agenda.wake_taken(taken);
        return Err(NoMemory);
    }
    Ok(filtering.log.removals() - before)
}

/// What a settling answers that ends here.
pub(crate) fn outcome(filtering: &Filtering) -> Settle
    ensures { (active : List Active) → IsInStep filtering.now active → TellsEnd result (state_of filtering.now active) }
{
    match filtering.empty {
        Some(var) => Settle::Empty(var),
        None if filtering.agenda.is_empty() => Settle::Settled,
        None => Settle::Stopped,
    }
}
