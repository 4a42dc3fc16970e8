//! The list of the active constraints of an engine.
ghost use Rattle.std.specs.Prelude.{◌≡◌, ◌-◌, ◌^◌, ◌<◌, ◌≤◌, [], true, false, length, Contains, Some, IfSome, MatchOption, OnOk, slice_get, slice_index_or, vec_capacity};
ghost use Rattle.std.specs.List.{insert, remove};
ghost use Rattle.palm_base.specs.Order.{Rises, cid_before, IsPartedAt};
ghost use Rattle.palm_model.specs.Log.{Active, cids_of};
ghost use Rattle.palm_engine.specs.Posted.{active_of, actives_of, is_decision};

use crate::posted::Posted;
use palm_base::{Cid, NoMemory};
use palm_filter::Filter;
use std::alloc::Global;
use std::marker::Model;

/// Active constraints by rising id. Decisions and negations, whose ids come first, stand apart from users: so that they move no users,
/// and a newest user stands at an end.
#[derive(Drop)]
pub(crate) struct Actives<F: Filter> {
    /// Those in front: decisions and negations.
    front: Vec<Posted<F>>,
    users: Vec<Posted<F>>,
}

impl<F: Filter> Model for Actives<F> {
    ghost use Rattle.std.specs.Prelude.{◌++◌, ◌-◌, length, min, vec_capacity};
    ghost use Rattle.palm_engine.specs.Posted.{Roomy};
    ghost use Rattle.palm_engine.specs.declared.posted.Posted.{Posted};

    ghost Value = { Roomy (Posted F) };

    ghost view = { λ a. record {
      items = a.front.items ++ a.users.items;
      room = min (vec_capacity a.front - length a.front.items) (vec_capacity a.users - length a.users.items);
    } };
}

/// Whether a constraint that belongs at a place goes to those in front, so many of them.
fn goes_in_front<F: Filter>(constraint: &Posted<F>, place: usize, front: usize) -> bool
    ensures { (result ≡ true → place ≤ front) × (result ≡ false → front ≤ place) }
{
    match constraint {
        Posted::User { .. } => place < front,
        Posted::Decision(_) | Posted::Negation { .. } => place <= front,
    }
}

/// Puts a constraint in at the place, where there is room.
fn put<F: Filter>(part: &mut Vec<Posted<F>>, place: usize, constraint: Posted<F>)
    requires within { place ≤ length part.old.items }
    requires room { length part.old.items < vec_capacity part.old }
    ensures items { part.new.items ≡ insert part.old.items place constraint }
{
    let inserted = part.insert(place, constraint);
    prove!(inserted.is_ok());
}

/// How many of the constraints of a part are decisions.
fn decisions_in<F: Filter>(part: &[Posted<F>]) -> usize
    requires { Rises (cids_of (actives_of F.meaning part.now)) }
    ensures { IsPartedAt is_decision part.now result }
{
    part.partition_point(|constraint| constraint.is_decision())
}

impl<F: Filter> Actives<F> {
    /// No constraint.
    pub(crate) fn new(alloc: Global) -> Actives<F>
        ensures { result.items ≡ [] }
    {
        Actives {
            front: Vec::new(alloc),
            users: Vec::new(alloc),
        }
    }

    /// Where their memory comes from.
    pub(crate) fn allocator(&self) -> &Global {
        self.users.allocator()
    }

    /// The constraint at the place.
    #[inline(always)]
    pub(crate) fn at(&self, place: usize) -> &Posted<F>
        requires { place < length self.now.items }
        ensures { result.now ≡ slice_index_or self.now.items place result.now }
    {
        let front = self.front.len();
        if place < front {
            &self.front[place]
        } else {
            &self.users[place - front]
        }
    }

    /// The constraint at the place, where there is one.
    pub(crate) fn get(&self, place: usize) -> Option<&Posted<F>>
        ensures found { MatchOption result (length self.now.items ≤ place)
            (λ p. slice_get self.now.items place ≡ Some p.now) }
        ensures few { IfSome result (λ p. place < 2 ^ 64 - 1) }
    {
        if place < self.front.len() + self.users.len() {
            Some(self.at(place))
        } else {
            None
        }
    }

    /// How many of the constraints have ids that come before this one. The one under the id stands behind these.
    pub(crate) fn place_of(&self, cid: &Cid) -> usize
        requires { Rises (cids_of (actives_of F.meaning self.now.items)) }
        ensures parted { IsPartedAt (λ p. cid_before (active_of F.meaning p).cid cid.now) self.now.items result }
        ensures owner { (a : Active) → Contains (actives_of F.meaning self.now.items) a → a.cid ≡ cid.now
            → slice_get (actives_of F.meaning self.now.items) result ≡ Some a }
    {
        let place = palm_base::place_of(&self.front, cid);
        if place < self.front.len() {
            return place;
        }
        place + palm_base::place_of(&self.users, cid)
    }

    /// How many of the constraints are decisions. The others stand behind these.
    pub(crate) fn decisions(&self) -> usize
        requires { Rises (cids_of (actives_of F.meaning self.now.items)) }
        ensures { IsPartedAt is_decision self.now.items result }
    {
        let place = decisions_in(&self.front);
        if place < self.front.len() {
            return place;
        }
        place + decisions_in(&self.users)
    }

    /// Makes room for one more.
    pub(crate) fn reserve(&mut self) -> Result<(), NoMemory>
        ensures items { self.new.items ≡ self.old.items }
        ensures room { OnOk result (0 < self.new.room) }
    {
        self.front.reserve(1)?;
        self.users.reserve(1)?;
        Ok(())
    }

    /// Puts a constraint in at the place, where there is room.
    pub(crate) fn insert(&mut self, place: usize, constraint: Posted<F>)
        requires within { place ≤ length self.old.items }
        requires room { 0 < self.old.room }
        ensures { self.new.items ≡ insert self.old.items place constraint }
    {
        let front = self.front.len();
        if goes_in_front(&constraint, place, front) {
            put(&mut self.front, place, constraint);
        } else {
            put(&mut self.users, place - front, constraint);
        }
    }

    /// Takes the constraint at the place out.
    pub(crate) fn remove(&mut self, place: usize) -> Posted<F>
        requires { place < length self.old.items }
        ensures value { result ≡ slice_index_or self.old.items place result }
        ensures items { self.new.items ≡ remove self.old.items place }
    {
        let front = self.front.len();
        if place < front {
            self.front.remove(place)
        } else {
            self.users.remove(place - front)
        }
    }
}
