//! The constraints of a conflict.
ghost use Rattle.std.specs.Prelude.{◌≡◌, [], List, Contains, IfOk, OnErr, OnOk};
ghost use Rattle.palm_base.specs.declared.terms.Cid.{Cid as CidTerm};
ghost use Rattle.palm_domain.specs.Rows.{present_of};
ghost use Rattle.palm_model.specs.Conflict.{InFlat, IsKeptConflict};
ghost use Rattle.palm_base.specs.Order.{Rises};
ghost use Rattle.palm_model.specs.Log.{Active, IsActive, IsListOf, cids_of, log_pairs};
ghost use Rattle.palm_model.specs.State.{IsEmptyAt};
ghost use Rattle.palm_explain.specs.CidSets.{Adds};
ghost use Rattle.palm_explain.specs.Explanations.{LacksExactly};
ghost use Rattle.palm_engine.specs.Kept.{state_of};
ghost use Rattle.palm_engine.specs.Posted.{actives_of};

use crate::actives::Actives;
use crate::filtering::Filtering;
use palm_base::{Cid, CidList, NoMemory, Var};
use palm_explain::CidSet;
use palm_filter::Filter;
use std::alloc::Global;

/// Makes `out` the constraints of the explanations of all declared values of an empty variable, by rising id. Without
/// memory `out` is empty.
pub(crate) fn conflict_of(
    filtering: &Filtering,
    var: Var,
    out: &mut CidList,
) -> Result<(), NoMemory>
    requires removed { LacksExactly filtering.now.store (log_pairs filtering.now.log.log) }
    requires empty { IsEmptyAt (present_of filtering.now.store) var }
    ensures ok { OnOk result ((active : List Active) → IsKeptConflict (state_of filtering.now active) var out.new) }
    ensures err { OnErr result (out.new ≡ []) }
{
    let values = filtering.store.initial_values(var);
    filtering.log.explanations(var, values, out)
}

/// Adds the justifiers of a negation, or the id itself of another constraint.
fn add_flat<F: Filter>(posted: &Actives<F>, cid: &Cid, cids: &mut CidSet) -> Result<(), NoMemory>
    requires rising { Rises (cids_of (actives_of F.meaning posted.now.items)) }
    requires active { IsActive (actives_of F.meaning posted.now.items) cid.now }
    ensures { OnOk result
        (Adds cids.old (InFlat (actives_of F.meaning posted.now.items) (λ c. c ≡ cid.now)) cids.new) }
{
    match cid {
        Cid::Not(_) => posted.at(posted.place_of(cid)).add_justification(cids),
        Cid::Decide(_) | Cid::User(_) => cids.add(cid),
    }
}

/// Adds the same of each of the ids.
fn add_flat_each<F: Filter>(
    posted: &Actives<F>,
    from: &[Cid],
    cids: &mut CidSet,
) -> Result<(), NoMemory>
    requires rising { Rises (cids_of (actives_of F.meaning posted.now.items)) }
    requires active { (c : CidTerm) → Contains from.now c → IsActive (actives_of F.meaning posted.now.items) c }
    ensures { OnOk result
        (Adds cids.old (InFlat (actives_of F.meaning posted.now.items) (Contains from.now)) cids.new) }
{
    for cid in from {
        add_flat(posted, cid, cids)?;
    }
    Ok(())
}

/// The ids with each negation replaced by its justification, by rising id.
pub(crate) fn flat_of<F: Filter>(
    alloc: Global,
    posted: &Actives<F>,
    from: &[Cid],
) -> Result<CidList, NoMemory>
    requires rising { Rises (cids_of (actives_of F.meaning posted.now.items)) }
    requires active { (c : CidTerm) → Contains from.now c → IsActive (actives_of F.meaning posted.now.items) c }
    ensures { IfOk result (IsListOf (InFlat (actives_of F.meaning posted.now.items) (Contains from.now))) }
{
    let mut cids = CidSet::new(alloc);
    add_flat_each(posted, from, &mut cids)?;
    let list = cids.list(alloc)?;
    Ok(CidList::from_vec(list))
}
