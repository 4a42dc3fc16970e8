//! Guides of the tests' own, and searches with a guide in a box.
use crate::searches::{Case, guided};
use palm_base::{NoMemory, Pair, Value, Var};
use palm_guide::{Guide, MostConflicts, ViewRow};
use std::alloc::Global;

/// Always answers the same.
#[derive(Drop)]
pub struct Fixed {
    pub pick: Option<Pair>,
}

impl Guide for Fixed {
    ghost use Rattle.std.specs.Prelude.{◌≡◌, []};

    ghost state = { λ guide. [] };

    ghost answers = { λ guide view answer after. answer ≡ guide.pick };

    ghost hears = { λ guide conflict after. after ≡ [] };

    fn pick(&mut self, _view: &[ViewRow]) -> Option<Pair> {
        match self.pick {
            Some(Pair { var, value }) => Some(Pair { var, value }),
            None => None,
        }
    }

    fn learned(&mut self, _conflict: &[Var]) {}
}

/// Counts the variables that it is told, over all conflicts. It has nothing to propose until it is told of one, and from
/// then on it answers a variable that does not exist: 1000 and its count.
#[derive(Drop)]
pub struct Counting {
    pub count: u32,
}

impl Guide for Counting {
    ghost use Rattle.std.specs.Prelude.{◌≡◌, ◌∷◌, []};

    ghost state = { λ guide. guide.count ∷ [] };

    ghost answers = { λ guide view answer after. after ≡ guide.count ∷ [] };

    ghost hears = { λ guide conflict after. Unit {0} };

    fn pick(&mut self, _view: &[ViewRow]) -> Option<Pair> {
        if self.count == 0 {
            return None;
        }
        Some(Pair {
            var: Var(self.count.saturating_add(1000)),
            value: Value(1),
        })
    }

    fn learned(&mut self, conflict: &[Var]) {
        let told = u32::try_from(conflict.len()).unwrap_or(u32::MAX);
        self.count = self.count.saturating_add(told);
    }
}

/// The text of a search with a guide that always answers this.
pub fn with_pick(alloc: Global, case: &Case, pick: Option<Pair>) -> Result<String, NoMemory> {
    let mut guide: Option<Box<dyn Guide>> = Some(Box::new(alloc, Fixed { pick })?);
    guided(alloc, case, &mut guide)
}

/// The text of a search with a guide that counts.
pub fn counted(alloc: Global, case: &Case) -> Result<String, NoMemory> {
    let mut guide: Option<Box<dyn Guide>> = Some(Box::new(alloc, Counting { count: 0 })?);
    guided(alloc, case, &mut guide)
}

/// The text of a search with the guide that picks a variable with most conflicts.
pub fn weighed(alloc: Global, case: &Case) -> Result<String, NoMemory> {
    let conflicts = MostConflicts::new(alloc, 64)?;
    let mut guide: Option<Box<dyn Guide>> = Some(Box::new(alloc, conflicts)?);
    guided(alloc, case, &mut guide)
}

/// The text of a search with a guide that counts, and how many variables the guide was told in all.
pub fn told_in_all(alloc: Global, case: &Case) -> Result<String, NoMemory> {
    let mut guide = Some(Counting { count: 0 });
    let mut text = guided(alloc, case, &mut guide)?;
    if let Some(counting) = &guide {
        writeln!(text, "told {}", counting.count)?;
    }
    Ok(text)
}
