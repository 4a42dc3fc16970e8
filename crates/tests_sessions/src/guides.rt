//! The guide of the tests' own. All tests here share it, so that sessions of one type alone are proved to be given up.
use palm_base::{Pair, Value, Var};
use palm_guide::{Guide, ViewRow};

/// Always picks the same pair, where it has one. Else it counts the variables that it is told: it has no pick until it is
/// first told, and from then on picks a variable that there is not, 1,000 and its count.
#[derive(Drop)]
pub struct Scripted {
    pub pick: Option<Pair>,
    pub count: u32,
}

impl Guide for Scripted {
    ghost use Rattle.std.specs.Prelude.{◌≡◌, ◌∷◌, []};

    ghost state = { λ guide. guide.count ∷ [] };

    ghost answers = { λ guide view answer after. after ≡ guide.count ∷ [] };

    ghost hears = { λ guide conflict after. Unit {0} };

    fn pick(&mut self, _view: &[ViewRow]) -> Option<Pair> {
        if let Some(Pair { var, value }) = self.pick {
            return Some(Pair { var, value });
        }
        if self.count == 0 {
            return None;
        }
        Some(Pair {
            var: Var(self.count.saturating_add(1_000)),
            value: Value(1),
        })
    }

    fn learned(&mut self, conflict: &[Var]) {
        let told = u32::try_from(conflict.len()).unwrap_or(u32::MAX);
        self.count = self.count.saturating_add(told);
    }
}
