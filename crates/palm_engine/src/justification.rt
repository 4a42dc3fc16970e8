//! For which constraints a negation holds.
ghost use Rattle.std.specs.Prelude.{◌≡◌, Contains, IfOk, OnOk};
ghost use Rattle.palm_model.specs.Log.{is_named};
ghost use Rattle.palm_explain.specs.CidSets.{Adds};

use palm_base::{Cid, CidList, NoMemory};
use palm_explain::CidSet;
use std::alloc::Global;
use std::marker::Model;

/// The ids as they were handed in, which contracts see, and the same ids as a set, which is read.
#[derive(Drop)]
pub(crate) struct Justification {
    list: CidList,
    set: CidSet,
}

impl Model for Justification {
    ghost use Rattle.std.specs.Prelude.{◌↔◌, List, Contains};
    ghost use Rattle.palm_base.specs.declared.terms.Cid.{Cid as CidTerm};
    ghost use Rattle.palm_explain.specs.CidSets.{IsMember};

    ghost Value = { List CidTerm };

    ghost view = { λ j. j.list };

    ghost invariant = { λ j. (c : CidTerm) → IsMember j.set c ↔ Contains j.list c };
}

impl Justification {
    /// These ids.
    pub(crate) fn new(alloc: Global, because: &[Cid]) -> Result<Justification, NoMemory>
        ensures { IfOk result (λ justification. justification ≡ because.now) }
    {
        let list = CidList::from_slice(alloc, because)?;
        let mut set = CidSet::new(alloc);
        set.add_each(because)?;
        Ok(Justification { list, set })
    }

    /// Adds the ids to a set.
    pub(crate) fn add_to(&self, cids: &mut CidSet) -> Result<(), NoMemory>
        ensures { OnOk result (Adds cids.old (Contains self.now) cids.new) }
    {
        cids.add_all(&self.set)
    }

    /// Whether the id is one of them.
    pub(crate) fn has(&self, cid: &Cid) -> bool
        ensures { result ≡ is_named self.now cid.now }
    {
        self.set.has(cid)
    }
}
