//! Putting a constraint among the active ones, and taking it out with what rests on it.
ghost use Rattle.std.specs.Prelude.{◌≡◌, ◌↔◌, ◌⊎◌, ℕ, ◌-◌, ◌^◌, ◌<◌, ◌≤◌, List, [], ◌∷◌, length, remove, Contains, Some, true, false, IfOk, IfSome, OnErr, OnOk, slice_get};
ghost use Rattle.palm_base.specs.declared.terms.Cid.{Cid as CidTerm};
ghost use Rattle.palm_model.specs.Constraint.{scope, IsWellFormed};
ghost use Rattle.palm_model.specs.Event.{WithdrawsAll, with_posted};
ghost use Rattle.palm_base.specs.Order.{Rises};
ghost use Rattle.palm_model.specs.Log.{Active, IsActive, cids_of};
ghost use Rattle.palm_agenda.specs.Agenda.{IsFormed, marked_whole, with_connected};
ghost use Rattle.palm_filter.specs.declared.heed.Heed.{Heed as HeedTerm};
ghost use Rattle.palm_filter.specs.Heeds.{FitsHeed};
ghost use Rattle.palm_engine.specs.Kept.{AreConnected, IsHeededAs, IsInStep, state_of};
ghost use Rattle.palm_engine.specs.Posted.{active_of, actives_of, is_negation, resting_on};

use crate::actives::Actives;
use crate::filtering::Filtering;
use crate::posted::Posted;
use palm_agenda::Agenda;
use palm_base::{Cid, HasCid, NoMemory};
use palm_filter::{Filter, Heed};
use std::alloc::Global;

/// How the constraint heeds losses of the variable at each place of its scope. Where it has one variable, there is no other one that a
/// loss could hurt, and nothing is told.
fn heeds_of<F: Filter>(alloc: Global, constraint: &Posted<F>) -> Result<Vec<Heed>, NoMemory>
    ensures each { IfOk result (λ heeds. 2 ≤ length (scope (active_of F.meaning constraint.now).con) → length heeds.items ≡ length (scope (active_of F.meaning constraint.now).con)) }
    ensures fit { IfOk result (λ heeds. (place : ℕ) (heed : HeedTerm) → slice_get heeds.items place ≡ Some heed → FitsHeed (active_of F.meaning constraint.now).con place heed) }
{
    let mut heeds = Vec::new(alloc);
    let places = constraint.scope().len();
    if places < 2 {
        return Ok(heeds);
    }
    for place in 0..places {
        heeds.push(constraint.heed(place))?;
    }
    Ok(heeds)
}

/// Puts a constraint at its place, pending. Without memory nothing changes.
pub(crate) fn insert<F: Filter>(
    agenda: &mut Agenda,
    posted: &mut Actives<F>,
    constraint: Posted<F>,
) -> Result<(), NoMemory>
    requires rising { Rises (cids_of (actives_of F.meaning posted.old.items)) }
    requires connected { AreConnected (actives_of F.meaning posted.old.items) agenda.old.connected }
    requires inactive { IsActive (actives_of F.meaning posted.old.items) (active_of F.meaning constraint).cid → ⊥ }
    ensures active { OnOk result (actives_of F.meaning posted.new.items ≡ with_posted (active_of F.meaning constraint) (actives_of F.meaning posted.old.items)) }
    ensures connected { OnOk result ((heeds : List HeedTerm) × IsHeededAs (active_of F.meaning constraint) heeds
        × (agenda.new.connected ≡ with_connected (marked_whole (active_of F.meaning constraint).cid (scope (active_of F.meaning constraint).con) heeds) agenda.old.connected)) }
    ensures pending { OnOk result ((c : CidTerm) → Contains agenda.new.pending c ↔ (Contains agenda.old.pending c ⊎ (c ≡ (active_of F.meaning constraint).cid))) }
    ensures formed { OnOk result (IsFormed agenda.new) }
    ensures shaped { OnOk result ((number : ℕ) → (active_of F.meaning constraint).cid ≡ Cid.User number → (variables : ℕ) × IsWellFormed variables (active_of F.meaning constraint).con) }
    ensures err { OnErr result ((posted.new.items ≡ posted.old.items) × (agenda.new ≡ agenda.old)) }
{
    let cid = constraint.cid();
    let place = posted.place_of(&cid);
    posted.reserve()?;
    let heeds = heeds_of(*posted.allocator(), &constraint)?;
    agenda.connect(cid, constraint.scope(), heeds)?;
    posted.insert(place, constraint);
    Ok(())
}

/// Takes the constraint at a place out, with all removals that rest on it.
pub(crate) fn take_out<F: Filter>(filtering: &mut Filtering, posted: &mut Actives<F>, place: usize)
    requires kept { IsInStep filtering.old (actives_of F.meaning posted.old.items) }
    requires rising { Rises (cids_of (actives_of F.meaning posted.old.items)) }
    requires within { place < length posted.old.items }
    ensures posted { posted.new.items ≡ remove posted.old.items place }
    ensures kept { IsInStep filtering.new (actives_of F.meaning posted.new.items) }
    ensures withdraws { (a : Active) → slice_get (actives_of F.meaning posted.old.items) place ≡ Some a
        → WithdrawsAll (state_of filtering.old (actives_of F.meaning posted.old.items)) (a.cid ∷ []) (state_of filtering.new (actives_of F.meaning posted.new.items)) }
    ensures checks { filtering.new.checks ≡ filtering.old.checks }
{
    let constraint = posted.remove(place);
    filtering.withdraw(&constraint.cid());
}

/// Whether a negation stands at the place.
fn stands_negation<F: Filter>(posted: &Actives<F>, place: usize) -> bool
    ensures within { result ≡ true → place < length posted.now.items }
    ensures few { result ≡ true → place < 2 ^ 64 - 1 }
    ensures other { result ≡ false → IfSome (slice_get posted.now.items place) (λ p. is_negation p ≡ false) }
{
    match posted.get(place) {
        Some(constraint) => constraint.is_negation(),
        None => false,
    }
}

/// Takes each negation out whose justification holds the id, with all removals that rest on it.
pub(crate) fn take_out_resting<F: Filter>(
    filtering: &mut Filtering,
    posted: &mut Actives<F>,
    cid: &Cid,
)
    requires kept { IsInStep filtering.old (actives_of F.meaning posted.old.items) }
    requires rising { Rises (cids_of (actives_of F.meaning posted.old.items)) }
    ensures kept { IsInStep filtering.new (actives_of F.meaning posted.new.items) }
    ensures withdraws { WithdrawsAll (state_of filtering.old (actives_of F.meaning posted.old.items)) (resting_on (actives_of F.meaning posted.old.items) cid.now) (state_of filtering.new (actives_of F.meaning posted.new.items)) }
    ensures checks { filtering.new.checks ≡ filtering.old.checks }
{
    let mut place = posted.decisions();
    while stands_negation(posted, place) {
        if posted.at(place).rests_on(cid) {
            take_out(filtering, posted, place);
        } else {
            place += 1;
        }
    }
}
