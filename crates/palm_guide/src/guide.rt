//! What a guide is shown, and what it is asked and told.
ghost use Rattle.std.specs.Prelude.{◌≡◌};
ghost use Rattle.palm_guide.specs.Picks.{is_open, least_pair};

use palm_base::{Pair, Value, Var};

/// What a guide sees of a variable: how many present values it has, and the least and the greatest of them.
#[derive(Clone, Copy, Debug, PartialEq, Eq)]
pub struct ViewRow {
    pub var: Var,
    pub count: u32,
    pub least: Value,
    pub greatest: Value,
}

impl ViewRow {
    /// Whether the variable has at least two values.
    pub(crate) fn is_open(&self) -> bool
        ensures { result ≡ is_open self.now }
    {
        self.count >= 2
    }

    /// The variable with its least value.
    pub(crate) fn least_pair(&self) -> Pair
        ensures { result ≡ least_pair self.now }
    {
        Pair {
            var: self.var,
            value: self.least,
        }
    }
}

/// Picks the next decision of a search, and is told what became of earlier ones.
pub trait Guide: Drop {
    ghost use Rattle.std.specs.Prelude.{ℕ, List, Option};
    ghost use Rattle.palm_base.specs.declared.terms.Pair.{Pair as PairTerm};
    ghost use Rattle.palm_guide.specs.declared.guide.ViewRow.{ViewRow as ViewRowTerm};

    /// Numbers that tell the object's state.
    ghost state: { Self → List ℕ };

    /// Asked with this view, the object gives this answer and is left in this state.
    ghost answers: { Self → List ViewRowTerm → Option PairTerm → List ℕ → Type 0 };

    /// Told of a conflict of decisions on these variables, the object is left in this state.
    ghost hears: { Self → List ℕ → List ℕ → Type 0 };

    /// The pair to decide, if the object has one to propose. The view has a row for each variable, in order. It takes
    /// no memory.
    fn pick(&mut self, view: &[ViewRow]) -> Option<Pair>
        ensures { answers self.old view.now result (state self.new) };

    /// Tells the object the variables of the decisions in a conflict, ascending. It takes no memory.
    fn learned(&mut self, conflict: &[Var])
        ensures { hears self.old conflict.now (state self.new) };
}
