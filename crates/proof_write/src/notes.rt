//! What a writer of lemmas keeps from one to the next.
ghost use Rattle.std.specs.Prelude.{◌≡◌, ◌-◌, ◌^◌, ◌<◌, [], ◌∷◌, ◌++◌, List, OnOk};
ghost use Rattle.palm_base.specs.declared.terms.Cid.{Cid};
ghost use Rattle.palm_base.specs.declared.terms.Pair.{Pair};
ghost use Rattle.palm_search.specs.declared.turn.Turn.{Turn as TurnTerm};
ghost use Rattle.proof_write.specs.Numbers.{AreNumbers};

use crate::numbers::LemmaNumbers;
use palm_base::NoMemory;
use palm_search::Turn;
use std::alloc::Global;

/// The numbers of the lemmas, and memory for the steps of one lemma after another.
#[derive(Drop)]
pub(crate) struct Notes {
    /// Which lemma gave which negation.
    pub(crate) numbers: LemmaNumbers,
    /// The places in the log of the removals that are steps of the lemma, rising: the first step has the number 1.
    pub(crate) steps: Vec<usize>,
    /// The numbers of the steps that proved the reasons of one.
    pub(crate) reasons: Vec<usize>,
}

impl Notes {
    /// No lemma was written. It takes no memory yet.
    pub(crate) fn new(alloc: Global) -> Notes
        ensures { AreNumbers [] result.numbers }
    {
        Notes {
            numbers: LemmaNumbers::new(alloc),
            steps: Vec::new(alloc),
            reasons: Vec::new(alloc),
        }
    }

    /// Notes the pair of the last turn, whose lemma was written, if that is an undoing.
    pub(crate) fn note_last(&mut self, journal: &[Turn]) -> Result<(), NoMemory>
        requires { self.old.numbers.count < 2 ^ 64 - 1 }
        ensures { (undone : List Pair) (before : List TurnTerm) (gone : Pair) (conflict : List Cid) → journal.now ≡ before ++ Turn.Undo gone conflict ∷ []
            → AreNumbers undone self.old.numbers → OnOk result (AreNumbers (undone ++ gone ∷ []) self.new.numbers) }
    {
        match journal.last() {
            Some(Turn::Undo { gone, .. }) => self.numbers.note(gone.copy()),
            _ => Ok(()),
        }
    }
}
