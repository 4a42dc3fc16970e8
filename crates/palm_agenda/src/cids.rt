//! Ids of constraints in their order.
ghost use Rattle.std.specs.Prelude.{◌≡◌, ◌+◌, ◌<◌, ◌≤◌, [], length, reverse, OnOk, vec_capacity};
ghost use Rattle.std.specs.List.{insert};
ghost use Rattle.palm_base.specs.Order.{Rises, cid_before, IsPartedAt, with_cid};
ghost use Rattle.palm_model.specs.State.{without_cid};
ghost use Rattle.palm_agenda.specs.Cids.{HasRoomFor};

use palm_base::{Cid, NoMemory, stands_at};
use std::alloc::Global;
use std::marker::Model;

/// Different ids, with room for more. They are kept in falling order, so that the first one is taken from the end.
#[derive(Debug, Drop)]
pub(crate) struct Cids {
    falling: Vec<Cid>,
}

impl Model for Cids {
    ghost use Rattle.std.specs.Prelude.{reverse};
    ghost use Rattle.std.specs.Prelude.{vec_capacity};
    ghost use Rattle.palm_base.specs.Order.{Rises};
    ghost use Rattle.palm_agenda.specs.Cids.{Roomy};

    ghost Value = { Roomy };

    ghost view = { λ n. record { cids = reverse n.falling.items; room = vec_capacity n.falling } };

    ghost invariant = { λ n. Rises (reverse n.falling.items) };
}

impl Cids {
    /// No id, and no room.
    pub(crate) fn new(alloc: Global) -> Cids
        ensures { result ≡ record { cids = []; room = 0 } }
    {
        Cids {
            falling: Vec::new(alloc),
        }
    }

    /// The ids from the last one to the first.
    pub(crate) fn falling(&self) -> &[Cid]
        ensures { result.now ≡ reverse self.now.cids }
    {
        self.falling.as_slice()
    }

    /// Makes room for so many more ids.
    pub(crate) fn reserve(&mut self, more: usize) -> Result<(), NoMemory>
        ensures cids { self.new.cids ≡ self.old.cids }
        ensures grows { self.old.room ≤ self.new.room }
        ensures ok { OnOk result (length self.new.cids + more ≤ self.new.room) }
    {
        self.falling.reserve(more)?;
        Ok(())
    }

    /// Puts an id at its place, where it was not there.
    pub(crate) fn insert(&mut self, cid: &Cid)
        requires { HasRoomFor cid.now self.old }
        ensures cids { self.new.cids ≡ with_cid cid.now self.old.cids }
        ensures room { self.new.room ≡ self.old.room }
    {
        let place = place_of(&self.falling, cid);
        if !stands_at(&self.falling, place, cid) {
            put_at(&mut self.falling, place, cid);
        }
    }

    /// Takes an id out, where it was there.
    pub(crate) fn remove(&mut self, cid: &Cid)
        ensures cids { self.new.cids ≡ without_cid cid.now self.old.cids }
        ensures room { self.new.room ≡ self.old.room }
    {
        let place = place_of(&self.falling, cid);
        if stands_at(&self.falling, place, cid) {
            self.falling.remove(place);
        }
    }
}

/// How many of the ids come after this one.
fn place_of(falling: &[Cid], cid: &Cid) -> usize
    requires { Rises (reverse falling.now) }
    ensures { IsPartedAt (λ c. cid_before cid.now c) falling.now result }
{
    falling.partition_point(|before| cid.is_before(before))
}

/// Puts the id at the place, where there is room.
fn put_at(cids: &mut Vec<Cid>, place: usize, cid: &Cid)
    requires within { place ≤ length cids.old.items }
    requires room { length cids.old.items < vec_capacity cids.old }
    ensures items { cids.new.items ≡ insert cids.old.items place cid.now }
    ensures room { vec_capacity cids.new ≡ vec_capacity cids.old }
{
    let inserted = cids.insert(place, cid.copy());
    prove!(inserted.is_ok());
}
