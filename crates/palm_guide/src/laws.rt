//! Laws about the stock guides, each the contract of a function with an empty body.
ghost use Rattle.palm_guide.specs.Once.{AnswersOnce, HearsOnce};

use crate::guide::Guide;
use crate::stock::{FirstGuide, MostConflicts, SmallestGuide};

/// A stock guide has one answer to a view, and is left in one state by each call.
pub fn stock_guides_answer_once()
    ensures first { AnswersOnce ⟦<FirstGuide as Guide>⟧.answers }
    ensures smallest { AnswersOnce ⟦<SmallestGuide as Guide>⟧.answers }
    ensures most { AnswersOnce ⟦<MostConflicts as Guide>⟧.answers }
    ensures first_hears { HearsOnce ⟦<FirstGuide as Guide>⟧.hears }
    ensures smallest_hears { HearsOnce ⟦<SmallestGuide as Guide>⟧.hears }
    ensures most_hears { HearsOnce ⟦<MostConflicts as Guide>⟧.hears }
{}
