//! The stock guides.
ghost use Rattle.std.specs.Prelude.{◌≡◌, ℕ, ◌∷◌, [], IfOk, replicate};
ghost use Rattle.palm_guide.specs.Picks.{Raises, number_of};

use crate::guide::{Guide, ViewRow};
use crate::preference::{Preference, best_pair};
use palm_base::{NoMemory, Pair, Var};
use std::alloc::Global;
use std::marker::Model;

/// Picks the lowest variable with at least two values, and its least value.
#[derive(Debug, Drop)]
pub struct FirstGuide;

impl FirstGuide {
    /// It has no state.
    pub fn new() -> FirstGuide {
        FirstGuide
    }
}

impl Guide for FirstGuide {
    ghost use Rattle.std.specs.Prelude.{◌≡◌, []};
    ghost use Rattle.palm_guide.specs.Picks.{first_pick};

    ghost state = { λ guide. [] };

    ghost answers = { λ guide view answer after. (answer ≡ first_pick view) × (after ≡ []) };

    ghost hears = { λ guide conflict after. after ≡ [] };

    fn pick(&mut self, view: &[ViewRow]) -> Option<Pair> {
        view.iter()
            .find(|row| row.is_open())
            .map(|row| row.least_pair())
    }

    fn learned(&mut self, _conflict: &[Var]) {}
}

/// Picks the variable with the fewest values among those with at least two, the lowest of several, and its least
/// value (Haralick and Elliott, "Increasing tree search efficiency for constraint satisfaction problems", 1980).
#[derive(Debug, Drop)]
pub struct SmallestGuide;

impl SmallestGuide {
    /// It has no state.
    pub fn new() -> SmallestGuide {
        SmallestGuide
    }
}

impl Preference for SmallestGuide {
    ghost use Rattle.std.proofs.lemmas.List.MinMax.{IsStrictWeakOrder-by_number};
    ghost use Rattle.palm_guide.specs.Picks.{has_fewer, is_open};

    ghost allows = { λ guide. is_open };

    ghost beats = { λ guide. has_fewer };

    ghost ranks = { λ guide. IsStrictWeakOrder-by_number (λ row. row.count) };

    fn allows(&self, row: &ViewRow) -> bool {
        row.is_open()
    }

    fn beats(&self, row: &ViewRow, other: &ViewRow) -> bool {
        row.count < other.count
    }
}

impl Guide for SmallestGuide {
    ghost use Rattle.std.specs.Prelude.{◌≡◌, [], filter};
    ghost use Rattle.palm_guide.specs.Picks.{IsPick, has_fewer, is_open};

    ghost state = { λ guide. [] };

    ghost answers = { λ guide view answer after. IsPick has_fewer (filter is_open view) answer × (after ≡ []) };

    ghost hears = { λ guide conflict after. after ≡ [] };

    fn pick(&mut self, view: &[ViewRow]) -> Option<Pair> {
        best_pair(self, view)
    }

    fn learned(&mut self, _conflict: &[Var]) {}
}

/// Keeps a number of conflicts for each of the first variables, and picks the variable with the greatest number among
/// those with at least two values, the lowest of several, and its least value.
#[derive(Debug, Drop)]
pub struct MostConflicts {
    numbers: Vec<u64>,
}

impl Model for MostConflicts {
    ghost use Rattle.std.specs.Prelude.{ℕ, List};

    ghost Value = { List ℕ };

    ghost view = { λ guide. guide.numbers.items };
}

/// Raises the number of the variable, where one is kept.
fn raise(numbers: &mut Vec<u64>, var: &Var)
    ensures { Raises numbers.old.items (var.now ∷ []) numbers.new.items }
{
    if let Some(number) = numbers.get_mut(var.0 as usize) {
        *number = number.saturating_add(1);
    }
}

/// Raises the number of each of the variables.
fn raise_each(numbers: &mut Vec<u64>, vars: &[Var])
    ensures { Raises numbers.old.items vars.now numbers.new.items }
{
    for var in vars {
        raise(numbers, var);
    }
}

impl MostConflicts {
    /// Keeps a number for each of the first variables, so many of them; each begins with 0.
    pub fn new(alloc: Global, variables: u32) -> Result<MostConflicts, NoMemory>
        ensures { IfOk result (λ numbers. numbers ≡ replicate variables 0) }
    {
        let mut numbers = Vec::new(alloc);
        numbers.resize(variables as usize, 0)?;
        Ok(MostConflicts { numbers })
    }

    /// The number of the variable, 0 where none is kept.
    fn number_of(&self, var: &Var) -> u64
        ensures { result ≡ number_of self.now var.now }
    {
        self.numbers.get(var.0 as usize).copied().unwrap_or(0)
    }
}

impl Preference for MostConflicts {
    ghost use Rattle.std.specs.Prelude.{nat_lt};
    ghost use Rattle.std.proofs.lemmas.List.MinMax.{IsStrictWeakOrder-by_number, IsStrictWeakOrder-flip};
    ghost use Rattle.palm_guide.specs.Picks.{has_more, is_counted, number_of};

    ghost allows = { is_counted };

    ghost beats = { has_more };

    ghost ranks = { λ numbers. IsStrictWeakOrder-flip (λ row other. nat_lt (number_of numbers row.var) (number_of numbers other.var)) (IsStrictWeakOrder-by_number (λ row. number_of numbers row.var)) };

    fn allows(&self, row: &ViewRow) -> bool {
        row.is_open() && (row.var.0 as usize) < self.numbers.len()
    }

    fn beats(&self, row: &ViewRow, other: &ViewRow) -> bool {
        self.number_of(&other.var) < self.number_of(&row.var)
    }
}

impl Guide for MostConflicts {
    ghost use Rattle.std.specs.Prelude.{◌≡◌, filter};
    ghost use Rattle.palm_guide.specs.Picks.{IsPick, Raises, has_more, is_counted};

    ghost state = { λ numbers. numbers };

    ghost answers = { λ numbers view answer after. IsPick (has_more numbers) (filter (is_counted numbers) view) answer × (after ≡ numbers) };

    ghost hears = { Raises };

    fn pick(&mut self, view: &[ViewRow]) -> Option<Pair> {
        best_pair(self, view)
    }

    fn learned(&mut self, conflict: &[Var]) {
        raise_each(&mut self.numbers, conflict);
    }
}
