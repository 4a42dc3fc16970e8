//! The connected constraints.
ghost use Rattle.std.specs.Prelude.{◌≡◌, ◌+◌, ◌-◌, ◌^◌, ◌<◌, ◌≤◌, ℕ, true, false, [], length, Contains, IfNone, IfSome, OnErr, OnOk, Some, slice_get, slice_index_or, slice_set};
ghost use Rattle.std.specs.List.{insert, remove};
ghost use Rattle.palm_base.specs.Tells.{Tells};
ghost use Rattle.palm_base.specs.declared.terms.Cid.TheVariants.{User};
ghost use Rattle.palm_base.specs.Order.{Rises, StandsAt, cid_before, IsPartedAt};
ghost use Rattle.palm_agenda.specs.Agenda.{Connected, IsRun, connected_cids, unmarked};
ghost use Rattle.palm_agenda.specs.Heard.{ChangesAt};
ghost use Rattle.palm_agenda.specs.Losses.{heed_of};
ghost use Rattle.palm_agenda.specs.Places.{mark_places};

use crate::connection::{Connection, Places};
use crate::mark::Change;
use palm_base::{Cid, HasCid, NoMemory, Var};
use std::alloc::Global;
use std::marker::Model;

/// Connected constraints by rising id. Decisions and negations, whose ids come first, stand apart from users: so that a decision
/// moves no users, and a newest user stands at an end.
#[derive(Debug, Drop)]
pub(crate) struct Connections {
    /// Those in front: decisions and negations.
    front: Vec<Connection>,
    users: Vec<Connection>,
}

impl Model for Connections {
    ghost use Rattle.std.specs.Prelude.{List, ◌++◌};
    ghost use Rattle.palm_agenda.specs.Agenda.{Connected};

    ghost Value = { List Connected };

    ghost view = { λ c. c.front.items ++ c.users.items };
}

/// Whether a constraint with this id, which belongs at a place, goes to those in front, so many of them.
fn goes_in_front(cid: &Cid, place: usize, front: usize) -> bool
    ensures front { result ≡ true → place ≤ front }
    ensures behind { result ≡ false → front ≤ place }
{
    match cid {
        Cid::User(_) => place < front,
        Cid::Decide(_) | Cid::Not(_) => place <= front,
    }
}

/// How many of the constraints of a part have ids that come before this one.
#[inline(always)]
fn place_in(part: &[Connection], cid: &Cid) -> usize
    requires { Rises (connected_cids part.now) }
    ensures { IsPartedAt (λ d. cid_before d.cid cid.now) part.now result }
{
    part.partition_point(|connection| connection.cid().is_before(cid))
}

/// The number of a user.
#[inline(always)]
fn number_of(cid: &Cid) -> Option<u32>
    ensures some { IfSome result (λ number. cid.now ≡ User number) }
    ensures none { IfNone result ((number : ℕ) → cid.now ≡ User number → ⊥) }
{
    match cid {
        Cid::User(number) => Some(*number),
        Cid::Decide(_) | Cid::Not(_) => None,
    }
}

/// The number of the user's constraint at the place, where one stands there.
#[inline(always)]
fn number_at(part: &[Connection], place: usize) -> Option<u32>
    ensures { IfSome result
        (λ number. slice_get (connected_cids part.now) place ≡ Some (User number)) }
{
    number_of(&part.get(place)?.cid())
}

/// The number of the first of the constraints, where they are users' and their numbers leave none out.
#[inline(always)]
fn first_of_run(users: &[Connection]) -> Option<u32>
    requires { Rises (connected_cids users.now) }
    ensures { IfSome result (λ first. (k n : ℕ)
        → slice_get (connected_cids users.now) k ≡ Some (User n) → n ≡ first + k) }
{
    let first = number_at(users, 0)?;
    let place = users.len().checked_sub(1)?;
    let last = number_at(users, place)?;
    if last as usize == first as usize + place {
        Some(first)
    } else {
        None
    }
}

/// Whether none of the constraints is a user's: the last one is not.
#[inline(always)]
fn has_no_user(front: &[Connection]) -> bool
    requires { Rises (connected_cids front.now) }
    ensures { result ≡ true → (k n : ℕ)
        → slice_get (connected_cids front.now) k ≡ Some (User n) → ⊥ }
{
    let Some(connection) = front.last() else {
        return true;
    };
    match number_of(&connection.cid()) {
        Some(_) => false,
        None => true,
    }
}

impl Connections {
    /// No constraint.
    pub(crate) fn new(alloc: Global) -> Connections
        ensures { result ≡ [] }
    {
        Connections {
            front: Vec::new(alloc),
            users: Vec::new(alloc),
        }
    }

    /// How many there are.
    #[inline(always)]
    pub(crate) fn len(&self) -> usize
        ensures many { result ≡ length self.now }
        ensures few { result < 2 ^ 64 - 1 }
    {
        self.front.len() + self.users.len()
    }

    /// The constraint at the place.
    #[inline(always)]
    pub(crate) fn at(&self, place: usize) -> &Connection
        requires { place < length self.now }
        ensures { result.now ≡ slice_index_or self.now place result.now }
    {
        let front = self.front.len();
        if place < front {
            &self.front[place]
        } else {
            &self.users[place - front]
        }
    }

    /// Whether the constraint at the place has the id.
    #[inline(always)]
    pub(crate) fn stands_at(&self, place: usize, cid: &Cid) -> bool
        ensures { Tells result (StandsAt (λ d. d.cid) self.now place cid.now) }
    {
        place < self.len() && self.at(place).cid().is_same(cid)
    }

    /// How many of the constraints have ids that come before this one.
    pub(crate) fn place_of(&self, cid: &Cid) -> usize
        requires { Rises (connected_cids self.now) }
        ensures { IsPartedAt (λ d. cid_before d.cid cid.now) self.now result }
    {
        let place = place_in(&self.front, cid);
        if place < self.front.len() {
            return place;
        }
        place + place_in(&self.users, cid)
    }

    /// How far behind its number each user's constraint stands, where their numbers leave none out. It wraps around.
    #[inline(always)]
    pub(crate) fn run(&self) -> Option<usize>
        requires rising { Rises (connected_cids self.now) }
        ensures { IfSome result (IsRun self.now) }
    {
        if !has_no_user(&self.front) {
            return None;
        }
        let first = first_of_run(&self.users)?;
        Some(self.front.len().wrapping_sub(first as usize))
    }

    /// Puts a constraint in at the place. Without memory nothing changes.
    pub(crate) fn insert(&mut self, place: usize, connection: Connection) -> Result<(), NoMemory>
        requires { place ≤ length self.old }
        ensures ok { OnOk result (self.new ≡ insert self.old place connection) }
        ensures err { OnErr result (self.new ≡ self.old) }
    {
        let front = self.front.len();
        if goes_in_front(&connection.cid(), place, front) {
            self.front.insert(place, connection)?;
        } else {
            self.users.insert(place - front, connection)?;
        }
        Ok(())
    }

    /// Takes the constraint at the place out.
    pub(crate) fn remove(&mut self, place: usize) -> Connection
        requires { place < length self.old }
        ensures removed { result ≡ slice_index_or self.old place result }
        ensures left { self.new ≡ remove self.old place }
    {
        let front = self.front.len();
        if place < front {
            self.front.remove(place)
        } else {
            self.users.remove(place - front)
        }
    }

    /// Marks these places of the constraint at the place, as seen from the variable, over which it is. The change is that
    /// of a constraint that heeds losses of the variable as this one does.
    #[inline(always)]
    pub(crate) fn mark(&mut self, place: usize, places: &Places, var: &Var, change: &Change)
        requires within { place < length self.old }
        requires over { (d : Connected) → d ≡ slice_index_or self.old place d → Contains d.scope var.now }
        requires changes { (d : Connected) → d ≡ slice_index_or self.old place d → ChangesAt change.now places.now (heed_of var.now d.scope d.heeds) }
        ensures { (d : Connected) → d ≡ slice_index_or self.old place d → self.new ≡ slice_set self.old place (mark_places places.now var.now d) }
    {
        let front = self.front.len();
        if place < front {
            let connection = &mut self.front[place];
            connection.mark(places, var, change);
        } else {
            let connection = &mut self.users[place - front];
            connection.mark(places, var, change);
        }
    }

    /// Takes a mark of the constraint at the place away.
    #[inline(always)]
    pub(crate) fn unmark(&mut self, place: usize, marked: usize)
        requires within { place < length self.old }
        requires marked { (d : Connected) → d ≡ slice_index_or self.old place d → marked < length d.scope }
        ensures { (d : Connected) → d ≡ slice_index_or self.old place d → self.new ≡ slice_set self.old place (unmarked marked d) }
    {
        let front = self.front.len();
        if place < front {
            let connection = &mut self.front[place];
            connection.unmark(marked);
        } else {
            let connection = &mut self.users[place - front];
            connection.unmark(marked);
        }
    }
}
