//! What the guides and the orders of whole searches are asked and told.
use crate::guides::told_in_all;
use crate::journal::text_of;
use crate::problems::Problem;
use crate::searches::{Case, Way, ordered};
use palm_agenda::Order;
use palm_base::{Cid, NoMemory};
use palm_guide::MostConflicts;
use std::alloc::Global;
use std::test::Fail;
use tests_compare::first_difference;

/// Answers 0, and counts how often it was asked and told, and the numbers that it was told together.
#[derive(Drop)]
struct Tally {
    asked: u32,
    told: u32,
    removed: u32,
}

impl Order for Tally {
    ghost use Rattle.std.specs.Prelude.{◌≡◌, ◌∷◌, []};

    ghost state = { λ tally. tally.asked ∷ tally.told ∷ tally.removed ∷ [] };

    ghost answers = { λ tally pending index after. index ≡ 0 };

    ghost hears = { λ tally cid removed after. Unit {0} };

    fn next(&mut self, _pending: &[Cid]) -> usize {
        self.asked = self.asked.saturating_add(1);
        0
    }

    fn ran(&mut self, _cid: Cid, removed: u32) {
        self.told = self.told.saturating_add(1);
        self.removed = self.removed.saturating_add(removed);
    }
}

/// The text of a search of `x < y` with that order, and how often it was asked and told, and how many values together.
fn tallied(alloc: Global, way: Way) -> Result<String, NoMemory> {
    let case = Case {
        problem: Problem::Less,
        way,
        budget: 9,
    };
    let mut guide: Option<MostConflicts> = None;
    let mut order = Some(Tally {
        asked: 0,
        told: 0,
        removed: 0,
    });
    let mut text = ordered(alloc, &case, &mut guide, &mut order)?;
    if let Some(tally) = &order {
        let (asked, told) = (tally.asked, tally.told);
        writeln!(text, "asked {asked}, told {told} of {}", tally.removed)?;
    }
    Ok(text)
}

// Worked out by hand: each of the two decisions takes one value out, rests, and then the constraint rests; when both are
// withdrawn the constraint is revised once more.
#[test]
fn orders_choose_in_all_settlings(rt: HostRuntime) -> Result<(), Fail> {
    let alloc = rt.alloc();
    let lines = ["x0 = 1", "x1 = 2", "asked 7, told 7 of 2"];
    let wanted = text_of(alloc, "found 1 2", &lines)?;
    for way in [Way::Dbt, Way::Repair(7)] {
        let got = tallied(alloc, way)?;
        assert_eq!(rt;
            first_difference(wanted.as_bytes(), got.as_bytes()),
            None,
            "{way:?}"
        );
    }
    Ok(())
}

/// What a search of three variables over two values that differ writes, by its way and within so many turns. The first decision
/// leads to a conflict. Where no turn is left it is not undone, and the guide is not told.
const THREE: &[(Way, u64, &str, &[&str])] = &[
    (Way::Dbt, 1, "spent 1", &["x0 = 1 after nothing", "told 0"]),
    (
        Way::Dbt,
        2,
        "none c1",
        &["x0 = 1 after nothing", "not x0 = 1 by x0 c1", "told 1"],
    ),
    (
        Way::Repair(7),
        1,
        "spent 1 dropped 0",
        &["x0 = 1 after nothing", "told 0"],
    ),
    (
        Way::Repair(7),
        2,
        "none c1",
        &["x0 = 1 after nothing", "not x0 = 1 by x0 c1", "told 1"],
    ),
];

#[test]
fn guides_are_told_of_undoings_alone(rt: HostRuntime) -> Result<(), Fail> {
    let alloc = rt.alloc();
    for (way, budget, end, lines) in THREE {
        let case = Case {
            problem: Problem::Three,
            way: *way,
            budget: *budget,
        };
        let wanted = text_of(alloc, end, lines)?;
        let got = told_in_all(alloc, &case)?;
        assert_eq!(rt;
            first_difference(wanted.as_bytes(), got.as_bytes()),
            None,
            "{case:?}"
        );
    }
    Ok(())
}
