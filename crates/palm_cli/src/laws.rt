//! Laws of the limits of the commands, of what they accept, and of the summary of a generated session.
ghost use Rattle.std.specs.Prelude.{◌≡◌, ◌≤◌, ℕ, List, [], ◌++◌};
ghost use Rattle.palm_session.specs.EachLine.{EachLine};
ghost use Rattle.palm_session.specs.Replies.{Replies};
ghost use Rattle.palm_session.specs.State.{fresh};
ghost use Rattle.palm_pump.specs.Streams.{Streams};
ghost use Rattle.palm_cli.specs.Commands.{JudgesSource, RunsAll};
ghost use Rattle.palm_cli.specs.Evident.{Passes, TellsSo};
ghost use Rattle.palm_cli.specs.Generator.{IsSummary, generated_text};
ghost use Rattle.palm_cli.specs.declared.limits.TheConstants.{MOST_QUEENS, MOST_SIZE_DIGITS, SEARCH_BUDGET};
ghost use Rattle.palm_cli.specs.declared.status.Status.TheVariants.{Done};
ghost use Rattle.palm_cli.specs.declared.words.Evidence.{Evidence};

/// The numbers of the limits.
pub fn limits_are_these_numbers()
    ensures queens { MOST_QUEENS ≡ 16 }
    ensures digits { MOST_SIZE_DIGITS ≡ 3 }
    ensures budget { SEARCH_BUDGET ≡ 20000 }
{}

/// A number of queens has one summary.
pub fn a_size_has_one_summary()
    ensures { (size : ℕ) (a b : List ℕ) → IsSummary size a → IsSummary size b → a ≡ b }
{}

/// The replies of a summary are among the replies to the text of the generated session.
pub fn summaries_are_of_replies()
    ensures { (size : ℕ) (summary : List ℕ) (s : IsSummary size summary) → size ≤ MOST_QUEENS
        → Replies [] [] (generated_text size) (s.posing ++ s.first ++ s.easing ++ s.second) }
{}

/// What `check` and `proof` accept is so: where they end with `Done`, the whole source was taken, within the limit, and the line
/// that was written tells of the text what holds: the constraints that a certificate lists explain its claim, and the
/// constraints that a proof names have no solution.
pub fn what_is_accepted_is_so()
    ensures { (evidence : Evidence) (before after : Streams)
        → JudgesSource evidence before after Done → TellsSo evidence before after }
{}

/// What `run` writes whole as a certificate, or as a proof that there is no solution, the command that judges it accepts.
pub fn what_run_writes_is_accepted()
    ensures { (guides orders : List ℕ) (before after : Streams) (runs : RunsAll guides orders before after)
        → EachLine Passes (fresh guides orders) runs.replies.answered runs.output runs.replies.state runs.replies.run }
{}
