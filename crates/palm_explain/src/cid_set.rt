//! Sets of ids: a bit for each decision and each user, in words of 64, and the negations by rising id. A set is gathered in any order,
//! and another set is added to it a word at a time; a list of it is made once.
ghost use Rattle.std.specs.Prelude.{◌≡◌, ◌⊎◌, ◌%◌, ◌^◌, ◌<◌, ℕ, [], ◌∷◌, Contains, IfOk, OnErr, OnOk};
ghost use Rattle.palm_base.specs.Order.{Rises};
ghost use Rattle.palm_base.specs.Tells.{Tells};
ghost use Rattle.palm_base.specs.declared.terms.Cid.{Cid as CidTerm};
ghost use Rattle.palm_model.specs.Log.{IsListOf};
ghost use Rattle.palm_explain.specs.CidSets.{Adds, AddsSome, HasAppended, IsIdIn, IsIdOf, IsMember, id_of};
ghost use Rattle.palm_explain.specs.Merging.{IsMerged};
ghost use Rattle.palm_explain.specs.Places.{HasPlace, IsIn};

use crate::places::{PlaceWord, Places, first_in};
use palm_base::{Cid, NoMemory, Var, place_for};
use std::alloc::{AllocFailed, Global};
use std::marker::Model;

/// Ids, each once.
#[derive(Drop)]
pub struct CidSet {
    /// By their variables.
    decisions: Places,
    /// By rising id.
    negations: Vec<Cid>,
    /// By their numbers.
    users: Places,
}

impl Model for CidSet {
    ghost use Rattle.palm_explain.specs.CidSets.{AreMembers, CidMembers};

    ghost Value = { CidMembers };

    ghost view = { λ s. record { decisions = s.decisions; negations = s.negations.items; users = s.users } };

    ghost invariant = { λ s. AreMembers s.decisions s.negations.items s.users };
}

/// The ids that are numbers.
#[derive(Clone, Copy, Debug)]
enum Numbered {
    /// Decisions, by their variables.
    Decisions,
    /// Users, by their numbers.
    Users,
}

impl Numbered {
    /// The id with the number.
    #[inline(always)]
    fn id(self, number: u32) -> Cid
        ensures { result ≡ id_of self number }
    {
        match self {
            Numbered::Decisions => Cid::Decide(Var(number)),
            Numbered::Users => Cid::User(number),
        }
    }
}

impl CidSet {
    /// No id.
    pub fn new(alloc: Global) -> CidSet
        ensures { (c : CidTerm) → IsMember result c → ⊥ }
    {
        CidSet {
            decisions: Places::new(alloc),
            negations: Vec::new(alloc),
            users: Places::new(alloc),
        }
    }

    /// Adds an id, unless it is there.
    pub fn add(&mut self, cid: &Cid) -> Result<(), NoMemory>
        ensures ok { OnOk result (Adds self.old (λ c. c ≡ cid.now) self.new) }
        ensures err { OnErr result (AddsSome self.old (λ c. c ≡ cid.now) self.new) }
    {
        match cid {
            Cid::Decide(var) => self.decisions.add(var.0 as usize),
            Cid::Not(_) => put(&mut self.negations, cid),
            Cid::User(number) => self.users.add(*number as usize),
        }
    }

    /// Adds each of the ids, unless it is there. Without memory some of them are added.
    pub fn add_each(&mut self, cids: &[Cid]) -> Result<(), NoMemory>
        ensures ok { OnOk result (Adds self.old (Contains cids.now) self.new) }
        ensures err { OnErr result (AddsSome self.old (Contains cids.now) self.new) }
    {
        for cid in cids {
            self.add(cid)?;
        }
        Ok(())
    }

    /// Adds each id of another set, unless it is there. Without memory some of them are added.
    pub fn add_all(&mut self, other: &CidSet) -> Result<(), NoMemory>
        ensures ok { OnOk result (Adds self.old (IsMember other.now) self.new) }
        ensures err { OnErr result (AddsSome self.old (IsMember other.now) self.new) }
    {
        self.decisions.add_all(&other.decisions)?;
        put_each(&mut self.negations, &other.negations)?;
        self.users.add_all(&other.users)
    }

    /// Whether the id is in the set.
    pub fn has(&self, cid: &Cid) -> bool
        ensures { Tells result (IsMember self.now cid.now) }
    {
        match cid {
            Cid::Decide(var) => self.decisions.has(var.0 as usize),
            Cid::Not(_) => place_for(&self.negations, 0, cid).is_ok(),
            Cid::User(number) => self.users.has(*number as usize),
        }
    }

    /// The ids, by rising id.
    pub fn list(&self, alloc: Global) -> Result<Vec<Cid>, NoMemory>
        ensures { IfOk result (λ cids. IsListOf (IsMember self.now) cids.items) }
    {
        let mut cids = Vec::with_capacity(alloc, self.count())?;
        push_ids(&self.decisions, Numbered::Decisions, &mut cids)?;
        cids.extend_from_slice(&self.negations)?;
        push_ids(&self.users, Numbered::Users, &mut cids)?;
        Ok(cids)
    }

    /// How many ids there are.
    fn count(&self) -> usize {
        let numbers = self.decisions.count().saturating_add(self.users.count());
        numbers.saturating_add(self.negations.len())
    }
}

/// Adds an id at its place in the order, unless it is there. Without memory nothing changes.
fn put(cids: &mut Vec<Cid>, cid: &Cid) -> Result<(), NoMemory>
    requires { Rises cids.old.items }
    ensures ok { OnOk result (IsMerged cids.old.items (cid.now ∷ []) cids.new.items) }
    ensures err { OnErr result (cids.new.items ≡ cids.old.items) }
{
    if let Err(place) = place_for(cids, 0, cid) {
        cids.insert(place, *cid)?;
    }
    Ok(())
}

/// Adds each of the ids at its place in the order, unless it is there.
fn put_each(cids: &mut Vec<Cid>, more: &[Cid]) -> Result<(), NoMemory>
    requires { Rises cids.old.items }
    ensures rises { Rises cids.new.items }
    ensures stay { (c : CidTerm) → Contains cids.old.items c → Contains cids.new.items c }
    ensures only { (c : CidTerm) → Contains cids.new.items c
        → Contains cids.old.items c ⊎ Contains more.now c }
    ensures ok { OnOk result (IsMerged cids.old.items more.now cids.new.items) }
{
    for cid in more {
        put(cids, cid)?;
    }
    Ok(())
}

/// Appends the ids by the numbers of a word, by rising id.
fn push_word(word: &PlaceWord, ids: Numbered, cids: &mut Vec<Cid>) -> Result<(), NoMemory>
    requires aligned { word.now.start % 64 ≡ 0 }
    requires small { (n : ℕ) → IsIn word.now n → n < 2 ^ 32 }
    ensures { OnOk result (HasAppended cids.old.items (IsIdOf ids word.now) cids.new.items) }
{
    let mut from = 0;
    while let Some(number) = first_in(word, from) {
        cids.push(ids.id(number as u32))?;
        from = number + 1;
    }
    Ok(())
}

/// Appends the ids by these numbers, by rising id.
fn push_ids(numbers: &Places, ids: Numbered, cids: &mut Vec<Cid>) -> Result<(), NoMemory>
    requires { (n : ℕ) → HasPlace numbers.now n → n < 2 ^ 32 }
    ensures { OnOk result (HasAppended cids.old.items (IsIdIn ids numbers.now) cids.new.items) }
{
    let words = numbers.words();
    let mut index = words.len();
    while index > 0 {
        index -= 1;
        push_word(&words[index], ids, cids)?;
    }
    Ok(())
}
