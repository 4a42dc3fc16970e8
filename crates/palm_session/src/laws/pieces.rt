//! Laws of lines that are fed in pieces: it is as if each had been fed whole.
ghost use Rattle.std.specs.Prelude.{◌≡◌, ◌++◌, ◌∷◌, ℕ, [], List, Option, take};
ghost use Rattle.palm_base.specs.Streams.{Appended};
ghost use Rattle.palm_lang.specs.declared.stop.WriteStop.{WriteStop};
ghost use Rattle.palm_lang.specs.declared.stop.WriteStop.TheVariants.{NoMemory};
ghost use Rattle.palm_read.specs.Lines.{HasNoFeed, without_return};
ghost use Rattle.palm_session.specs.Feeding.{AnswersFront, AnswersWhole, FeedsEnd, FeedsPart, KeepsRest};
ghost use Rattle.palm_session.specs.State.{SessionState, IsState};
ghost use Rattle.palm_session.specs.declared.going.Going.TheVariants.{More, Quit};

use crate::limits::MOST_KEPT_BYTES;

/// A piece without a line feed is kept behind what was kept before, and answers nothing: nothing is written, no line ends the
/// session, and no write fails.
pub fn pieces_are_kept()
    ensures kept { (s t : SessionState) (before piece after : List ℕ) (was now : Option (List ℕ)) (asked : ℕ)
        → HasNoFeed before → HasNoFeed piece → KeepsRest s (before ++ piece) was now after t asked
        → (t ≡ s) × Appended was now [] × (after ≡ take MOST_KEPT_BYTES (before ++ piece)) }
    ensures unended { (s t : SessionState) (before piece : List ℕ) (was now : Option (List ℕ)) (asked : ℕ)
        → HasNoFeed before → HasNoFeed piece → FeedsEnd s (before ++ piece) was now t asked → ⊥ }
    ensures stopped { (stop : WriteStop) (s : SessionState) (before piece : List ℕ) (was now : Option (List ℕ))
        → HasNoFeed before → HasNoFeed piece → FeedsPart stop s (before ++ piece) was now → (stop ≡ NoMemory) × Appended was now [] }
{}

/// A line whose first bytes were kept is answered by its line feed as if it had been fed whole.
pub fn a_line_in_pieces_is_a_line()
    ensures more { (s t : SessionState) (line after : List ℕ) (was now : Option (List ℕ)) (asked : ℕ)
        → HasNoFeed line → KeepsRest s (take MOST_KEPT_BYTES line ++ 10 ∷ []) was now after t asked
        → AnswersWhole s line was now More t × (after ≡ []) }
    ensures quit { (s t : SessionState) (line : List ℕ) (was now : Option (List ℕ)) (asked : ℕ)
        → HasNoFeed line → FeedsEnd s (take MOST_KEPT_BYTES line ++ 10 ∷ []) was now t asked → AnswersWhole s line was now Quit t }
    ensures stopped { (stop : WriteStop) (s : SessionState) (line : List ℕ) (was now : Option (List ℕ))
        → IsState s → HasNoFeed line → FeedsPart stop s (take MOST_KEPT_BYTES line ++ 10 ∷ []) was now
        → AnswersFront stop s (without_return line) was now }
{}
