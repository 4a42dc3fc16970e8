//! Lemmas: one that has no step yet, a second one, and whether a pair stands by one.
ghost use Rattle.std.specs.Prelude.{◌≡◌, IfOk};
ghost use Rattle.palm_base.specs.Tells.{Tells};
ghost use Rattle.proof_check.specs.Kept.{IsByOthers};
ghost use Rattle.proof_text.specs.Draft.{unproved};

use crate::assumed::is_assumed;
use palm_base::{NoMemory, Pair, Value};
use proof_text::{Lemma, NumberList, PairList};
use std::alloc::Global;
use text_check::is_among;

/// A lemma with these pairs and no step.
pub fn unproved_lemma(alloc: Global, pairs: PairList) -> Lemma
    ensures { result ≡ unproved pairs }
{
    Lemma {
        pairs,
        constraints: NumberList::new(alloc),
        lemmas: NumberList::new(alloc),
    }
}

/// The lemma again.
pub fn copy_lemma(lemma: &Lemma) -> Result<Lemma, NoMemory>
    ensures { IfOk result (λ copy. copy ≡ lemma.now) }
{
    Ok(Lemma {
        pairs: lemma.pairs.copy()?,
        constraints: lemma.constraints.copy()?,
        lemmas: lemma.lemmas.copy()?,
    })
}

/// Whether the pair is one of these, and all others of them are assumed.
pub fn is_by_others(assumed: &[Option<Value>], pairs: &[Pair], pair: &Pair) -> bool
    ensures { Tells result (IsByOthers assumed.now pairs.now pair.now) }
{
    is_among(pairs, pair)
        && pairs
            .iter()
            .all(|p| p.is_same(pair) || is_assumed(assumed, p))
}
