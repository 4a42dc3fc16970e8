//! Laws of hubs: the limits, that the replies to an input are there and are the only ones, and that sessions are apart.
ghost use Rattle.std.specs.Prelude.{◌≡◌, ℕ, List, [], All};
ghost use Rattle.palm_read.specs.Lines.{HasNoFeed};
ghost use Rattle.palm_session.specs.Replies.{Replies};
ghost use Rattle.palm_hub.specs.Hub.{HubAnswers, HubReplies, HubRun, Opened, Outcome, replies_of, text_of};

use crate::limits::MOST_SESSIONS;

/// The number of the limit.
pub fn limits_are_these_numbers()
    ensures sessions { MOST_SESSIONS ≡ 16 }
{}

/// Behind whatever hub lines were answered, a hub line has an outcome, and no two.
pub fn each_hub_line_has_one_outcome()
    ensures some { (lines : List (List ℕ)) (outcomes : List Outcome) (hub : List Opened) → All HasNoFeed lines → HubRun [] lines outcomes hub
        → (line : List ℕ) → (outcome : Outcome) × (after : List Opened) × HubAnswers hub line outcome after }
    ensures once { (lines : List (List ℕ)) (outcomes : List Outcome) (hub : List Opened) → All HasNoFeed lines → HubRun [] lines outcomes hub
        → (line : List ℕ) (a b : Outcome) (after later : List Opened) → HubAnswers hub line a after → HubAnswers hub line b later
        → (a ≡ b) × (after ≡ later) }
{}

/// An input has an output.
pub fn an_input_has_an_output()
    ensures { (input : List ℕ) → (output : List ℕ) × HubReplies input output }
{}

/// An input has no two outputs: the sessions of a hub are handed no guides and no orders.
pub fn an_input_has_one_output()
    ensures { (input a b : List ℕ) → HubReplies input a → HubReplies input b → a ≡ b }
{}

/// The replies of each session are those to its own lines alone, whatever lines of other names come between.
pub fn sessions_are_apart()
    ensures { (lines : List (List ℕ)) (outcomes : List Outcome) (hub : List Opened) → All HasNoFeed lines → HubRun [] lines outcomes hub
        → (name : List ℕ) → Replies [] [] (text_of name outcomes) (replies_of name outcomes) }
{}

/// Two inputs with the same lines for a name that were not refused give it the same replies.
pub fn names_have_the_same_replies()
    ensures { (name input output other told : List ℕ) (one : HubReplies input output) (two : HubReplies other told)
        → text_of name one.outcomes ≡ text_of name two.outcomes → replies_of name one.outcomes ≡ replies_of name two.outcomes }
{}
