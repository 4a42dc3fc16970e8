//! The flat conflict of an empty domain, and what is read from it.
ghost use Rattle.std.specs.Prelude.{◌≡◌, ℕ, true, false, [], filter, Contains, MatchOption, IfOk, OnErr, OnOk, is_some};
ghost use Rattle.palm_base.specs.Tells.{Tells};
ghost use Rattle.palm_base.specs.declared.terms.Cid.{Cid as CidTerm};
ghost use Rattle.palm_base.specs.declared.terms.Pair.{Pair as PairTerm};
ghost use Rattle.palm_base.specs.Order.{same_cid};
ghost use Rattle.palm_model.specs.State.{is_user, present, without_cid};
ghost use Rattle.palm_search.specs.Turns.{HasFlatConflict, decided_vars};
ghost use Rattle.palm_search.specs.Turning.{HasOnlyEmpty, Hears, IsLatestAt};

use palm_base::{Cid, CidList, NoMemory, Pair, Var, VarList};
use palm_engine::Engine;
use palm_filter::Filter;
use palm_guide::Guide;
use std::alloc::Global;

/// The flat conflict of the empty domain.
pub(crate) fn flat_conflict<F: Filter>(
    alloc: Global,
    engine: &Engine<F>,
) -> Result<CidList, NoMemory>
    requires { HasOnlyEmpty (present engine.now.state) }
    ensures { IfOk result (HasFlatConflict engine.now.state) }
{
    // What holds of every engine is known once its store is read.
    let _store = engine.store();
    let mut kept = CidList::new(alloc);
    let mut flat = CidList::new(alloc);
    engine.conflict(&mut kept)?;
    engine.flat(&kept, &mut flat)?;
    Ok(flat)
}

/// Whether the id is that of the decision on the variable.
fn is_decision_on(cid: &Cid, var: &Var) -> bool
    ensures { result ≡ same_cid (CidTerm.Decide var.now) cid.now }
{
    match cid {
        Cid::Decide(decided) => decided.0 == var.0,
        _ => false,
    }
}

/// Whether the decision on the variable is among the ids.
pub fn holds(cids: &[Cid], var: &Var) -> bool
    ensures { Tells result (Contains cids.now (CidTerm.Decide var.now)) }
{
    for cid in cids {
        if is_decision_on(cid, var) {
            return true;
        }
    }
    false
}

/// The place of the latest decision among the ids, and none exactly where they hold no decision of these.
pub(crate) fn latest(decisions: &[Pair], cids: &[Cid]) -> Option<usize>
    ensures { MatchOption result
        ((p : PairTerm) → Contains decisions.now p → Contains cids.now (CidTerm.Decide p.var) → ⊥)
        (IsLatestAt decisions.now cids.now) }
{
    let mut place = decisions.len();
    while place > 0 {
        place -= 1;
        if holds(cids, &decisions[place].var) {
            return Some(place);
        }
    }
    None
}

/// Whether the id is a user's.
fn is_user(cid: &Cid) -> bool
    ensures { result ≡ is_user cid.now }
{
    match cid {
        Cid::User(_) => true,
        Cid::Decide(_) | Cid::Not(_) => false,
    }
}

/// The users among the ids.
pub fn users_of(alloc: Global, cids: &[Cid]) -> Result<CidList, NoMemory>
    ensures { IfOk result (λ users. users ≡ filter is_user cids.now) }
{
    let mut users = CidList::new(alloc);
    for cid in cids {
        if is_user(cid) {
            users.push(*cid)?;
        }
    }
    Ok(users)
}

/// The ids but that of the decision on the variable.
pub(crate) fn rest_of(alloc: Global, cids: &[Cid], var: &Var) -> Result<CidList, NoMemory>
    ensures { IfOk result (λ rest. rest ≡ without_cid (CidTerm.Decide var.now) cids.now) }
{
    let mut rest = CidList::new(alloc);
    for cid in cids {
        if !is_decision_on(cid, var) {
            rest.push(*cid)?;
        }
    }
    Ok(rest)
}

/// Whether a decision is among the ids.
pub(crate) fn has_decision(cids: &[Cid]) -> bool
    ensures some { result ≡ true → (x : ℕ) × Contains cids.now (CidTerm.Decide x) }
    ensures none { result ≡ false → decided_vars cids.now ≡ [] }
{
    for cid in cids {
        if let Cid::Decide(_) = cid {
            return true;
        }
    }
    false
}

/// The variables of the decisions among the ids.
pub fn decided_vars(alloc: Global, cids: &[Cid]) -> Result<VarList, NoMemory>
    ensures { IfOk result (λ vars. vars ≡ decided_vars cids.now) }
{
    let mut vars = VarList::new(alloc);
    for cid in cids {
        if let Cid::Decide(var) = cid {
            vars.push(*var)?;
        }
    }
    Ok(vars)
}

/// Tells the guide these variables, where there is one.
pub fn tell<G: Guide>(guide: &mut Option<G>, vars: &[Var])
    ensures { Hears G.hears G.state vars.now guide.old guide.new }
{
    if let Some(guide) = guide {
        guide.learned(vars);
    }
}

/// Tells the guide, where there is one, the variables of the decisions among the ids. Without memory it is told nothing.
pub(crate) fn tell_decided<G: Guide>(
    alloc: Global,
    guide: &mut Option<G>,
    cids: &[Cid],
) -> Result<(), NoMemory>
    ensures ok { OnOk result (Hears G.hears G.state (decided_vars cids.now) guide.old guide.new) }
    ensures err { OnErr result (guide.new ≡ guide.old) }
    ensures stays { is_some guide.new ≡ is_some guide.old }
{
    if guide.is_some() {
        let vars = decided_vars(alloc, cids)?;
        tell(guide, vars.as_slice());
    }
    Ok(())
}
