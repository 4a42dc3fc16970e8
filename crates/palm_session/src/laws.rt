//! Laws of sessions: in every state that a session can hold, every line has one answer, and a text has one output.
ghost use Rattle.std.specs.Prelude.{◌≡◌, ◌↔◌, ℕ, None, List, take};
ghost use Rattle.palm_session.specs.State.{SessionState, IsState, fresh};
ghost use Rattle.palm_session.specs.Answers.{Answers};
ghost use Rattle.palm_session.specs.EachLine.{EachLine, TellsTruth, LeavesAllRefused};
ghost use Rattle.palm_read.specs.Lines.{AreLines, without_return};
ghost use Rattle.palm_read.specs.declared.mode.Mode.TheVariants.{First, One};
ghost use Rattle.palm_session.specs.Modes.{in_mode};
ghost use Rattle.palm_session.specs.Replies.{BeginsVersion2, ChoosesNone, Ends, KeepsNoneChosen, Replies, RepliesFrom, Run};
ghost use Rattle.palm_events.specs.Scoped.{HasScopedReasons};

pub mod asking;
pub mod pieces;
pub mod printed;

use crate::limits::MOST_KEPT_BYTES;

/// How many bytes are kept of an unfinished line.
pub fn limits_are_these_numbers()
    ensures kept { MOST_KEPT_BYTES ≡ 65538 }
{}

/// A fresh session holds a state that a session can hold.
pub fn fresh_states_are_states()
    ensures { (guides orders : List ℕ) → IsState (fresh guides orders) }
{}

/// Every line has an answer, whether a guide or an order is chosen or not.
pub fn each_line_has_an_answer()
    ensures { (s : SessionState) → IsState s → (bytes : List ℕ)
        → (reply : List ℕ) × (t : SessionState) × Answers s bytes reply t }
{}

/// What is held after a line is again a state that a session can hold.
pub fn states_stay()
    ensures { (s : SessionState) (bytes reply : List ℕ) (t : SessionState)
        → IsState s → Answers s bytes reply t → IsState t }
{}

/// The reasons of a log lie in the scopes of the constraints that took their values out, and are of other variables: so it is
/// in a fresh session, every line keeps it so, and so it is in every session.
pub fn reasons_lie_in_scopes()
    ensures begins { (guides orders : List ℕ) → HasScopedReasons (fresh guides orders).engine }
    ensures stays { (s : SessionState) (bytes reply : List ℕ) (t : SessionState)
        → IsState s → HasScopedReasons s.engine → Answers s bytes reply t → HasScopedReasons t.engine }
    ensures runs { (guides orders : List ℕ) (lines : List (List ℕ)) (replies : List ℕ) (t : SessionState)
        → Run (fresh guides orders) lines replies t → HasScopedReasons t.engine }
{}

/// While no guide and no order is chosen, no line has two replies, or leaves two states.
pub fn no_line_has_two_answers()
    ensures { (s : SessionState) (bytes a b : List ℕ) (t u : SessionState)
        → s.guide ≡ None → s.order ≡ None → IsState s → Answers s bytes a t → Answers s bytes b u → (a ≡ b) × (t ≡ u) }
{}

/// A text whose first line that is no comment is not the header has the replies of version 1; and once the mode of a session is
/// set, no line changes it.
pub fn version_1_texts_stay()
    ensures texts { (guides orders text output : List ℕ) → ((lines : List (List ℕ)) → AreLines text lines → BeginsVersion2 lines → ⊥)
        → (Replies guides orders text output ↔ RepliesFrom (in_mode One (fresh guides orders)) text output) }
    ensures set { (s : SessionState) (bytes reply : List ℕ) (t : SessionState)
        → (s.mode ≡ First → ⊥) → Answers s bytes reply t → t.mode ≡ s.mode }
{}

/// A text has an output.
pub fn a_text_has_an_output()
    ensures { (guides orders text : List ℕ) → (output : List ℕ) × Replies guides orders text output }
{}

/// A text has no two outputs where no guide and no order is chosen at any line that is answered. None is chosen where no
/// line of the text chooses a guide or an order that was handed in.
pub fn a_text_has_one_output()
    ensures once { (guides orders text a b : List ℕ) → KeepsNoneChosen guides orders text
        → Replies guides orders text a → Replies guides orders text b → a ≡ b }
    ensures unchosen { (guides orders text : List ℕ) → ChoosesNone guides orders text → KeepsNoneChosen guides orders text }
{}

/// The answer to a line depends on its first bytes alone, a carriage return at their end counted.
pub fn the_first_bytes_decide()
    ensures { (s : SessionState) (line reply : List ℕ) (t : SessionState)
        → (Answers s (without_return line) reply t ↔ Answers s (without_return (take MOST_KEPT_BYTES line)) reply t) }
{}

/// And so does whether it ends the session.
pub fn the_first_bytes_end()
    ensures { (line : List ℕ) → (Ends (without_return line) ↔ Ends (without_return (take MOST_KEPT_BYTES line))) }
{}

/// What is printed is true: of each accepted line of a text, what its reply tells holds of what the session holds.
/// `contradiction` comes exactly where some greatest closed domain is empty while filtering does not wait; domains are the
/// greatest closed ones; the constraints of explanations and conflicts are active, and explain or conflict; the values of a
/// search satisfy the active constraints, those that it names have no common solution, and a spent budget is below its bound;
/// certificates, and proofs that end with 'none', are accepted; and each word comes where its condition holds.
pub fn what_is_printed_is_true()
    ensures { (guides orders text output : List ℕ) (replies : Replies guides orders text output)
        → EachLine TellsTruth (fresh guides orders) replies.answered output replies.state replies.run }
{}

/// A refused line changes nothing but the mode that a first line sets, and asks for nothing: so it is of each line of a text whose
/// reply begins as refusals do.
pub fn refused_lines_change_nothing()
    ensures { (guides orders text output : List ℕ) (replies : Replies guides orders text output)
        → EachLine LeavesAllRefused (fresh guides orders) replies.answered output replies.state replies.run }
{}
