//! What an admitted line asks for: each name in it is resolved.
use palm_base::{Pair, Var};
use palm_lang::{DomainText, Name};
use palm_model::Con;

/// What is asked of a session without changing it.
#[derive(Debug, Drop)]
pub(crate) enum Question {
    /// The values of every variable.
    Domains,
    /// The values of one variable.
    Domain(Var),
    /// The book.
    List,
    /// The removals.
    Log,
    /// The explanation of a value that the log keeps.
    Why(Pair),
    /// The conflict that the engine keeps.
    Conflict,
    /// The minimal explanation of a value.
    Minimal(Pair),
    /// The minimal conflict.
    MinimalConflict,
    /// The certificate of a value's removal.
    Cert(Pair),
    /// The certificate of the kept conflict.
    CertConflict,
    /// Which constraints are kept where not all can be.
    Preferred,
}

/// A way of searching.
#[derive(Debug, Drop)]
pub(crate) enum Procedure {
    /// mac-dbt, within so many turns.
    Dbt { budget: u64 },
    /// Decision-repair by a list of at most so many nogoods, within so many turns.
    Repair { tabu: u32, budget: u64 },
    /// mac-dbt, within so many turns, whose reply is its proof.
    Proof { budget: u64 },
    /// mac-dbt that goes on below the values that it finds, within so many turns, until a variable has its least value.
    Least { target: Var, budget: u64 },
}

/// What is asked of a session. Constraints of the book are named by their places, guides and orders by their numbers.
#[derive(Debug, Drop)]
pub(crate) enum Request {
    /// Nothing, by a comment.
    Nothing,
    /// Nothing, by the header, which sets the mode.
    Header,
    /// One more variable.
    Declare {
        name: Name,
        domain: DomainText,
    },
    /// One more variable, and under its name the constraint that it has one of these values.
    DeclareIn {
        name: Name,
        universe: DomainText,
        domain: DomainText,
    },
    /// One more constraint.
    Add {
        name: Name,
        con: Con,
    },
    /// That a constraint no longer holds, but stays in the book.
    Relax(usize),
    /// That a relaxed constraint holds again.
    Enforce(usize),
    /// That a constraint goes.
    Retract(usize),
    /// An answer.
    Ask(Question),
    /// That filtering waits.
    Pause,
    /// That filtering waits no longer.
    Resume,
    /// So many revisions at most.
    Step(u64),
    /// A search.
    Solve(Procedure),
    /// That a guide decides, or none.
    ChooseGuide(Option<u32>),
    /// That a guide goes.
    DropGuide(u32),
    /// That an order decides, or none.
    ChooseOrder(Option<u32>),
    /// That an order goes.
    DropOrder(u32),
    /// That a constraint has this weight, or none.
    Prefer {
        place: usize,
        weight: Option<u32>,
    },
    /// The end of the session.
    Quit,
}
