//! Where the removals of each constraint begin, so that a withdrawal looks at nothing before its own first one.
ghost use Rattle.std.specs.Prelude.{◌≡◌, ℕ, ◌<◌, true, Some, length, min, set, slice_get, Contains, OnOk};
ghost use Rattle.palm_base.specs.declared.terms.Cid.{Cid as CidTerm};
ghost use Rattle.palm_explain.specs.Firsts.{AreFormedFirsts, HasFirst, first_of};
ghost use Rattle.palm_explain.specs.declared.entry.Entry.{Entry as EntryTerm};

use crate::entry::Entry;
use crate::rows::NO_NUMBER;
use palm_base::{Cid, NoMemory, place_for};
use std::alloc::{AllocError, AllocFailed, Global};

/// The constraints that removed something at some time, by rising id, and beside each a number that none of its removals comes before.
#[derive(Debug, Drop)]
pub(crate) struct Firsts {
    cids: Vec<Cid>,
    numbers: Vec<usize>,
    /// The place that was looked for last: a constraint mostly removes several values in a row.
    near: usize,
}

impl Firsts {
    /// No constraint.
    pub(crate) fn new(alloc: Global) -> Firsts
        ensures formed { AreFormedFirsts result }
    {
        Firsts {
            cids: Vec::new(alloc),
            numbers: Vec::new(alloc),
            near: 0,
        }
    }

    /// Notes the number of a constraint's next removal, unless it has a less one, as where it made the last removal of the log too.
    /// Without memory nothing changes.
    #[inline(always)]
    pub(crate) fn note(&mut self, log: &[Entry], cid: &Cid, number: usize) -> Result<(), NoMemory>
        requires formed { AreFormedFirsts self.old }
        requires begun { (e : EntryTerm) → Contains log.now e → HasFirst self.old e.by number }
        ensures formed { AreFormedFirsts self.new }
        ensures noted { OnOk result (HasFirst self.new cid.now number) }
        ensures stays { (c : CidTerm) (k : ℕ) → first_of self.old c ≡ Some k → HasFirst self.new c k }
    {
        if made_last(log, cid) {
            return Ok(());
        }
        match place_for(&self.cids, self.near, cid) {
            Ok(place) => {
                self.near = place;
                lower(&mut self.numbers, place, number);
            }
            Err(place) => {
                self.numbers.reserve(1)?;
                self.cids.insert(place, *cid)?;
                self.numbers.insert(place, number).unwrap();
                self.near = place;
            }
        }
        Ok(())
    }

    /// Takes the number of a constraint.
    pub(crate) fn take(&mut self, cid: &Cid) -> usize
        requires { AreFormedFirsts self.old }
        ensures formed { AreFormedFirsts self.new }
        ensures taken { (k : ℕ) → first_of self.old cid.now ≡ Some k → result ≡ k }
        ensures others { (c : CidTerm) → (cid.now ≡ c → ⊥) → first_of self.new c ≡ first_of self.old c }
    {
        match place_for(&self.cids, self.near, cid) {
            Ok(place) => replaced(&mut self.numbers, place, NO_NUMBER),
            Err(_) => NO_NUMBER,
        }
    }
}

/// Whether the constraint made the last removal of the log.
#[inline(always)]
fn made_last(log: &[Entry], cid: &Cid) -> bool
    ensures { result ≡ true → (e : EntryTerm) × Contains log.now e × (e.by ≡ cid.now) }
{
    match log.last() {
        Some(entry) => entry.by.is_same(cid),
        None => false,
    }
}

/// Puts a number in place of a greater one.
fn lower(numbers: &mut Vec<usize>, place: usize, number: usize)
    requires { place < length numbers.old.items }
    ensures { (k : ℕ) → slice_get numbers.old.items place ≡ Some k → numbers.new.items ≡ set numbers.old.items place (min k number) }
{
    numbers[place] = numbers[place].min(number);
}

/// Puts another number at a place, and answers the one that stood there.
fn replaced(numbers: &mut Vec<usize>, place: usize, number: usize) -> usize
    requires { place < length numbers.old.items }
    ensures old { slice_get numbers.old.items place ≡ Some result }
    ensures new { numbers.new.items ≡ set numbers.old.items place number }
{
    let old = numbers[place];
    numbers[place] = number;
    old
}
