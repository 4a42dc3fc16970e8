//! What a certificate claims, and the verdict on it.
ghost use Rattle.std.specs.Prelude.{◌≡◌};

use palm_base::{Pair, Var};
use palm_book::Book;

/// What a certificate claims of the constraints that it lists.
#[derive(Debug, Drop)]
pub enum Claim {
    /// The value is not in their greatest closed domains.
    Gone(Pair),
    /// They are a conflict, in whose greatest closed domains the variable has no value.
    Conflict(Var),
}

impl Claim {
    /// The claim again.
    pub fn copy(&self) -> Claim
        ensures { result ≡ self.now }
    {
        match self {
            Claim::Gone(pair) => Claim::Gone(pair.copy()),
            Claim::Conflict(var) => Claim::Conflict(*var),
        }
    }
}

/// What an accepted certificate has proved.
#[derive(Debug, Drop)]
pub struct Proved {
    /// The claim, about the variables of the book.
    pub claim: Claim,
    /// The listed variables and constraints. All constraints are active, and numbered from 1 in the order of their lines.
    pub book: Book,
}

/// Why a line of a certificate or of a proof is refused, in the order in which the causes are looked for.
#[derive(Clone, Copy, Debug, PartialEq, Eq)]
pub enum Cause {
    /// C1, P1: the line has no form of such a text, or may not stand there.
    Malformed,
    /// C2, P2: a name or a value is not declared, or a name is declared or a variable assumed a second time.
    Misdeclared,
    /// C6, P6: there are more values, variables, rows, entries or constraints than there may be.
    Beyond,
    /// C3, P3: a reason is no earlier step, or a lemma no earlier lemma.
    Unproved,
    /// C4, P4: the step is not right.
    NotRight,
    /// C5, P5: a claim, the wipe of a variable or the end is not reached.
    NotReached,
}

/// The verdict on a text.
#[derive(Debug, Drop)]
pub enum Verdict {
    /// It is a certificate, and this is what it proves.
    Accepted(Proved),
    /// It is none: the first line that has a cause, counted from 1, and its first cause.
    Refused { line: u64, cause: Cause },
}
