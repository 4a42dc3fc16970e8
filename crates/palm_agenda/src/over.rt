//! For each variable the ids of the constraints over it.
ghost use Rattle.std.specs.Prelude.{◌≡◌, ℕ, ◌<◌, ◌≤◌, ◌↔◌, ◌⊎◌, length, reverse, Contains, OnOk};
ghost use Rattle.palm_base.specs.declared.terms.Cid.{Cid as CidTerm};
ghost use Rattle.palm_model.specs.State.{without_cid};
ghost use Rattle.palm_base.specs.Order.{with_cid};
ghost use Rattle.palm_agenda.specs.Cids.{HasRoomFor, HasSpace, cids_at, row_at, with_cids_at};

use crate::cids::Cids;
use palm_base::{Cid, NoMemory, Var};
use std::alloc::Global;

/// The ids of the constraints over the variable, from the last one to the first.
pub(crate) fn cids_over<'a>(over: &'a [Cids], var: &Var) -> &'a [Cid]
    ensures { result.now ≡ reverse (cids_at over.now var.now) }
{
    match over.get(var.0 as usize) {
        Some(cids) => cids.falling(),
        None => &[],
    }
}

/// Makes a list for each of the first variables, so many of them.
fn reach(over: &mut Vec<Cids>, variables: usize) -> Result<(), NoMemory>
    ensures rows { (x : ℕ) → row_at over.new.items x ≡ row_at over.old.items x }
    ensures longer { length over.old.items ≤ length over.new.items }
    ensures ok { OnOk result (variables ≤ length over.new.items) }
{
    while over.len() < variables {
        let cids = Cids::new(*over.allocator());
        over.push(cids)?;
    }
    Ok(())
}

/// Makes room for one more id in the list of the variable.
fn make_room_at(over: &mut Vec<Cids>, var: &Var) -> Result<(), NoMemory>
    ensures cids { (x : ℕ) → cids_at over.new.items x ≡ cids_at over.old.items x }
    ensures grows { (x : ℕ) → (row_at over.old.items x).room ≤ (row_at over.new.items x).room }
    ensures longer { length over.old.items ≤ length over.new.items }
    ensures ok { OnOk result (HasSpace over.new.items var.now) }
{
    let place = var.0 as usize;
    reach(over, place + 1)?;
    let cids = &mut over[place];
    cids.reserve(1)
}

/// Makes room for one more id in the list of each variable of a scope.
pub(crate) fn make_room(over: &mut Vec<Cids>, scope: &[Var]) -> Result<(), NoMemory>
    ensures cids { (x : ℕ) → cids_at over.new.items x ≡ cids_at over.old.items x }
    ensures ok { OnOk result ((x : ℕ) → Contains scope.now x → HasSpace over.new.items x) }
{
    for var in scope {
        make_room_at(over, var)?;
    }
    Ok(())
}

/// Puts the id into the list of the variable.
fn insert_at(over: &mut Vec<Cids>, var: &Var, cid: &Cid)
    requires within { var.now < length over.old.items }
    requires room { HasRoomFor cid.now (row_at over.old.items var.now) }
    ensures { over.new.items ≡ with_cids_at over.old.items var.now (with_cid cid.now (cids_at over.old.items var.now)) }
{
    let cids = &mut over[var.0 as usize];
    cids.insert(cid);
}

/// Puts the id into the list of each variable of a scope.
pub(crate) fn insert_over(over: &mut Vec<Cids>, scope: &[Var], cid: &Cid)
    requires { (x : ℕ) → Contains scope.now x → HasSpace over.old.items x }
    ensures { (x : ℕ) (c : CidTerm) → Contains (cids_at over.new.items x) c
        ↔ (Contains (cids_at over.old.items x) c ⊎ (Contains scope.now x × (c ≡ cid.now))) }
{
    for var in scope {
        insert_at(over, var, cid);
    }
}

/// Takes the id out of the list of the variable.
fn remove_at(over: &mut Vec<Cids>, var: &Var, cid: &Cid)
    requires { var.now < length over.old.items }
    ensures { over.new.items ≡ with_cids_at over.old.items var.now (without_cid cid.now (cids_at over.old.items var.now)) }
{
    let cids = &mut over[var.0 as usize];
    cids.remove(cid);
}

/// Takes the id out of the list of each variable of a scope.
pub(crate) fn remove_over(over: &mut Vec<Cids>, scope: &[Var], cid: &Cid)
    requires { (x : ℕ) → Contains scope.now x → x < length over.old.items }
    ensures { (x : ℕ) (c : CidTerm) → Contains (cids_at over.new.items x) c
        ↔ (Contains (cids_at over.old.items x) c × (Contains scope.now x → c ≡ cid.now → ⊥)) }
{
    for var in scope {
        remove_at(over, var, cid);
    }
}
