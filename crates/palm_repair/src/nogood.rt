//! Nogoods: what is read from one, and the posting of the negation that it forces.
ghost use Rattle.std.specs.Prelude.{◌≡◌, ◌<◌, ◌++◌, ◌∷◌, [], flat_map, length, Contains, IfNone, IfOk, IfSome, OnErr, OnOk, Some, slice_set};
ghost use Rattle.palm_base.specs.declared.terms.Cid.{Cid as CidTerm};
ghost use Rattle.palm_base.specs.declared.terms.Pair.{Pair as PairTerm};
ghost use Rattle.palm_engine.specs.Engine.{KeepsCounts};
ghost use Rattle.palm_model.specs.Constraint.{Distinct};
ghost use Rattle.palm_model.specs.Event.{vars_of};
ghost use Rattle.palm_repair.specs.Posting.{justification, nogood_of, pairs_under};
ghost use Rattle.palm_repair.specs.Learned.{Forces, IsForced, ShowsDecisions, is_shown, left_open};

use palm_base::{Cid, CidList, NoMemory, Pair, Value, Var};
use palm_engine::Engine;
use palm_filter::Filter;
use palm_search::users_of;
use std::alloc::Global;
use std::marker::Model;

/// The decided pairs and the users of one flat conflict.
#[derive(Drop)]
pub(crate) struct Nogood {
    pairs: Vec<Pair>,
    users: CidList,
}

impl Model for Nogood {
    ghost use Rattle.palm_repair.specs.Posting.{Nogood};

    ghost Value = { Nogood };

    ghost view = { λ n. record { pairs = n.pairs.items; users = n.users } };
}

impl Nogood {
    /// The decided pairs.
    fn pairs(&self) -> &[Pair]
        ensures { result.now ≡ self.now.pairs }
    {
        self.pairs.as_slice()
    }

    /// The users.
    fn users(&self) -> &[Cid]
        ensures { result.now ≡ self.now.users }
    {
        self.users.as_slice()
    }
}

/// Appends the decision on the variable, if there is one.
fn push_decision(pairs: &mut Vec<Pair>, decisions: &[Pair], var: &Var) -> Result<(), NoMemory>
    ensures { OnOk result (pairs.new.items ≡ pairs.old.items ++ pairs_under decisions.now (CidTerm.Decide var.now)) }
{
    for pair in decisions {
        if pair.var == *var {
            pairs.push(pair.copy())?;
        }
    }
    Ok(())
}

/// The decisions under the ids.
fn pairs_of(alloc: Global, decisions: &[Pair], cids: &[Cid]) -> Result<Vec<Pair>, NoMemory>
    ensures { IfOk result (λ pairs. pairs.items ≡ flat_map (pairs_under decisions.now) cids.now) }
{
    let mut pairs = Vec::new(alloc);
    for cid in cids {
        if let Cid::Decide(var) = cid {
            push_decision(&mut pairs, decisions, var)?;
        }
    }
    Ok(pairs)
}

/// The nogood of a flat conflict.
pub(crate) fn nogood_of(
    alloc: Global,
    decisions: &[Pair],
    conflict: &[Cid],
) -> Result<Nogood, NoMemory>
    ensures { IfOk result (λ nogood. nogood ≡ nogood_of decisions.now conflict.now) }
{
    Ok(Nogood {
        pairs: pairs_of(alloc, decisions, conflict)?,
        users: users_of(alloc, conflict)?,
    })
}

/// Notes the decided value of a variable.
fn set_value(values: &mut Vec<Option<Value>>, pair: &Pair)
    requires { pair.now.var < length values.old.items }
    ensures { values.new.items ≡ slice_set values.old.items pair.now.var (Some pair.now.value) }
{
    values[pair.var.0 as usize] = Some(pair.value);
}

/// The decided value of each variable, where it has one.
pub(crate) fn decided_values(
    alloc: Global,
    variables: u32,
    decisions: &[Pair],
) -> Result<Vec<Option<Value>>, NoMemory>
    requires within { (p : PairTerm) → Contains decisions.now p → p.var < variables }
    requires distinct { Distinct (vars_of decisions.now) }
    ensures { IfOk result (λ values. ShowsDecisions decisions.now values.items) }
{
    let mut values = Vec::new(alloc);
    values.resize(variables as usize, None)?;
    for pair in decisions {
        set_value(&mut values, pair);
    }
    Ok(values)
}

/// Whether the pair is decided, by these values.
fn is_shown(values: &[Option<Value>], pair: &Pair) -> bool
    ensures { result ≡ is_shown values.now pair.now }
{
    match values.get(pair.var.0 as usize) {
        Some(Some(value)) => *value == pair.value,
        _ => false,
    }
}

/// The undecided pair of the nogood, where exactly one is left, by these values.
fn only_open(nogood: &Nogood, values: &[Option<Value>]) -> Option<Pair>
    ensures some { IfSome result (λ p. left_open values.now nogood.now ≡ p ∷ []) }
    ensures none { IfNone result ((p : PairTerm) → left_open values.now nogood.now ≡ p ∷ [] → ⊥) }
{
    let mut left = None;
    for pair in nogood.pairs() {
        if !is_shown(values, pair) {
            if left.is_some() {
                return None;
            }
            left = Some(pair.copy());
        }
    }
    left
}

/// Appends the users.
fn push_users(cids: &mut CidList, users: &[Cid]) -> Result<(), NoMemory>
    ensures { OnOk result (cids.new ≡ cids.old ++ users.now) }
{
    for user in users {
        cids.push(*user)?;
    }
    Ok(())
}

/// Why the pair cannot hold: the decisions of the nogood's other pairs, and its users.
fn justification(alloc: Global, nogood: &Nogood, pair: &Pair) -> Result<CidList, NoMemory>
    ensures { IfOk result (λ cids. cids ≡ justification nogood.now pair.now) }
{
    let mut cids = CidList::new(alloc);
    for other in nogood.pairs() {
        if !other.is_same(pair) {
            cids.push(Cid::Decide(other.var))?;
        }
    }
    push_users(&mut cids, nogood.users())?;
    Ok(cids)
}

/// Posts the negation of the only undecided pair of the nogood, where there is one and its negation is not active. It
/// answers the pair of the posted negation. Without memory nothing changes.
pub(crate) fn force<F: Filter>(
    alloc: Global,
    engine: &mut Engine<F>,
    nogood: &Nogood,
    values: &[Option<Value>],
) -> Result<Option<Pair>, NoMemory>
    requires { (p : PairTerm) → left_open values.now nogood.now ≡ p ∷ [] → IsForced engine.old.state nogood.now p }
    ensures ok { IfOk result (Forces nogood.now (left_open values.now nogood.now) engine.old.state engine.new.state) }
    ensures err { OnErr result (engine.new.state ≡ engine.old.state) }
    ensures counts { KeepsCounts engine.old engine.new }
{
    let Some(pair) = only_open(nogood, values) else {
        return Ok(None);
    };
    if engine.is_active(Cid::Not(pair.copy())) {
        return Ok(None);
    }
    let because = justification(alloc, nogood, &pair)?;
    engine.forbid(pair.copy(), because.as_slice())?;
    Ok(Some(pair))
}
