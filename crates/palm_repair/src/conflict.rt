//! The heaviest decision of a conflict.
ghost use Rattle.std.specs.Prelude.{◌≡◌, ◌<◌, length, Contains, MatchOption};
ghost use Rattle.palm_base.specs.declared.terms.Cid.{Cid as CidTerm};
ghost use Rattle.palm_base.specs.declared.terms.Pair.{Pair as PairTerm};
ghost use Rattle.palm_repair.specs.Learned.{IsHeaviestAt};
ghost use Rattle.palm_repair.specs.Repair.{weight_of};

use palm_base::{Cid, Pair, Var};
use palm_search::holds;

/// The weight of a variable.
fn weight_of(weights: &[u64], var: &Var) -> u64
    requires { var.now < length weights.now }
    ensures { result ≡ weight_of weights.now var.now }
{
    weights[var.0 as usize]
}

/// The place of the heaviest decision among the ids, the latest one of several, and none exactly where they hold no
/// decision of these.
pub(crate) fn heaviest(weights: &[u64], decisions: &[Pair], cids: &[Cid]) -> Option<usize>
    requires { (p : PairTerm) → Contains decisions.now p → p.var < length weights.now }
    ensures { MatchOption result
        ((p : PairTerm) → Contains decisions.now p → Contains cids.now (CidTerm.Decide p.var) → ⊥)
        (IsHeaviestAt weights.now decisions.now cids.now) }
{
    let mut best = None;
    let mut greatest = 0;
    for place in 0..decisions.len() {
        let var = &decisions[place].var;
        let weight = weight_of(weights, var);
        if weight >= greatest && holds(cids, var) {
            best = Some(place);
            greatest = weight;
        }
    }
    best
}
