//! Which lemma gave the negation of which pair.
ghost use Rattle.std.specs.Prelude.{◌≡◌, ◌-◌, ◌^◌, ◌<◌, [], ◌∷◌, ◌++◌, List, OnOk};
ghost use Rattle.palm_base.specs.declared.terms.Pair.{Pair as PairTerm};
ghost use Rattle.proof_write.specs.Numbers.{AreNumbers, number_under};

use indexmap::IndexMap;
use palm_base::{NoMemory, Pair};
use std::alloc::Global;

/// For each pair whose decision was undone, the number of the last lemma that gave its negation.
#[derive(Drop)]
pub(crate) struct LemmaNumbers {
    last: IndexMap<Pair, u64>,
    count: u64,
}

impl LemmaNumbers {
    /// No lemma was written.
    pub(crate) fn new(alloc: Global) -> LemmaNumbers
        ensures { AreNumbers [] result }
    {
        LemmaNumbers {
            last: IndexMap::new(alloc),
            count: 0,
        }
    }

    /// One more lemma gave the negation of the pair. Without memory this lemma has no number.
    pub(crate) fn note(&mut self, gone: Pair) -> Result<(), NoMemory>
        requires { self.old.count < 2 ^ 64 - 1 }
        ensures { (undone : List PairTerm) → AreNumbers undone self.old → OnOk result (AreNumbers (undone ++ gone ∷ []) self.new) }
    {
        let number = self.count + 1;
        self.last.insert(gone, number)?;
        self.count = number;
        Ok(())
    }

    /// The number of the last lemma that gave the negation of the pair, and 0 where none did.
    pub(crate) fn number_of(&self, pair: &Pair) -> u64
        ensures { result ≡ number_under self.now pair.now }
    {
        match self.last.get(pair) {
            Some(number) => *number,
            None => 0,
        }
    }
}
