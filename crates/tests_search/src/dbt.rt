//! Searches by mac-dbt.
use crate::guides::{counted, weighed, with_pick};
use crate::journal::{pair, text_of};
use crate::problems::Problem;
use crate::searches::{Case, Way, plain};
use std::test::Fail;
use tests_compare::first_difference;

/// A search by mac-dbt within so many turns.
fn within(problem: Problem, budget: u64) -> Case {
    Case {
        problem,
        way: Way::Dbt,
        budget,
    }
}

/// The turns of a search of the five variables. The third of them is y: x is decided, then p, then y; a conflict names the
/// decisions that it rests on.
const FOUR: [&str; 11] = [
    "x0 = 1",
    "x1 = 1",
    "x2 = 2",
    "not x2 = 2 by x0 x2 c1",
    "not x0 = 1 by x0 c1",
    "x0 = 2",
    "x2 = 1",
    "not x2 = 1 by x0 x2 c1",
    "not x0 = 2 by x0 c1",
    "x2 = 1",
    "not x2 = 1 by x2 c1",
];

/// The turns of a search of three variables over two values that differ.
const THREE: [&str; 2] = ["x0 = 1", "not x0 = 1 by x0 c1"];

#[test]
fn one_decision_of_a_conflict_is_undone(rt: HostRuntime) -> Result<(), Fail> {
    let alloc = rt.alloc();
    let rows = [
        (within(Problem::Four, 11), "none c1", &FOUR[..]),
        (within(Problem::Four, 10), "spent 10", &FOUR[..10]),
    ];
    for (case, end, turns) in rows {
        let wanted = text_of(alloc, end, turns)?;
        let got = plain(alloc, &case)?;
        assert_eq!(rt;
            first_difference(wanted.as_bytes(), got.as_bytes()),
            None,
            "{case:?}"
        );
    }
    Ok(())
}

#[test]
fn searches_end_without_a_solution(rt: HostRuntime) -> Result<(), Fail> {
    let alloc = rt.alloc();
    let rows = [
        (within(Problem::Circle, 10), "none c1 c2", &THREE[..0]),
        (within(Problem::Three, 2), "none c1", &THREE[..]),
        (within(Problem::Three, 1), "spent 1", &THREE[..1]),
    ];
    for (case, end, turns) in rows {
        let wanted = text_of(alloc, end, turns)?;
        let got = plain(alloc, &case)?;
        assert_eq!(rt;
            first_difference(wanted.as_bytes(), got.as_bytes()),
            None,
            "{case:?}"
        );
    }
    Ok(())
}

// The turns are many, and are not looked at.
#[test]
fn values_are_found(rt: HostRuntime) -> Result<(), Fail> {
    let got = plain(rt.alloc(), &within(Problem::Money, 10000))?;
    assert_eq!(rt; got.lines().next(), Some("found 9 5 6 7 1 0 8 2"));
    Ok(())
}

// A pick is taken where the variable exists, has two values and has the value.
#[test]
fn a_pick_is_tried_before_it_is_taken(rt: HostRuntime) -> Result<(), Fail> {
    let alloc = rt.alloc();
    let removed = ["x0 = 1 after x0 = 3", "x1 = 2 after x0 = 3"];
    let missing = ["x0 = 1 after x7 = 1", "x1 = 2 after x7 = 1"];
    let undeclared = ["x0 = 1 after x0 = 9", "x1 = 2 after x0 = 9"];
    let nothing = ["x0 = 1 after nothing", "x1 = 2 after nothing"];
    let rows = [
        (Some(pair(0, 3)), removed),
        (Some(pair(7, 1)), missing),
        (Some(pair(0, 9)), undeclared),
        (None, nothing),
    ];
    let case = within(Problem::Less, 9);
    for (pick, turns) in rows {
        let wanted = text_of(alloc, "found 1 2", &turns)?;
        let got = with_pick(alloc, &case, pick)?;
        assert_eq!(rt;
            first_difference(wanted.as_bytes(), got.as_bytes()),
            None,
            "{pick:?}"
        );
    }
    let wanted = text_of(alloc, "found 1 2", &["x0 = 1", "x1 = 2"])?;
    let got = plain(alloc, &case)?;
    assert_eq!(rt;
        first_difference(wanted.as_bytes(), got.as_bytes()),
        None,
        "no guide"
    );
    Ok(())
}

/// The turns where the guide picks a value of the first variable, or of the second.
const PICKED_X: &[&str] = &["x0 = 2 after x0 = 2"];

const PICKED_Y: &[&str] = &["x1 = 3 after x1 = 3", "x0 = 1 after x1 = 3"];

#[test]
fn a_lawful_pick_is_taken(rt: HostRuntime) -> Result<(), Fail> {
    let alloc = rt.alloc();
    let case = within(Problem::Less, 9);
    let rows = [
        (pair(0, 2), "found 2 3", PICKED_X),
        (pair(1, 3), "found 1 3", PICKED_Y),
    ];
    for (pick, end, turns) in rows {
        let wanted = text_of(alloc, end, turns)?;
        let got = with_pick(alloc, &case, Some(pick))?;
        assert_eq!(rt;
            first_difference(wanted.as_bytes(), got.as_bytes()),
            None,
            "{pick:?}"
        );
    }
    let turns = ["x0 = 1 after x0 = 1", "x1 = 2 after x1 = 2"];
    let wanted = text_of(alloc, "found 1 2", &turns)?;
    let got = weighed(alloc, &case)?;
    assert_eq!(rt;
        first_difference(wanted.as_bytes(), got.as_bytes()),
        None,
        "most conflicts"
    );
    Ok(())
}

// The guide is told 2, 1, 2 and 1 variables before its last pick.
#[test]
fn guides_are_told_the_conflicts(rt: HostRuntime) -> Result<(), Fail> {
    let turns = [
        "x0 = 1 after nothing",
        "x1 = 1 after nothing",
        "x2 = 2 after nothing",
        "not x2 = 2 by x0 x2 c1",
        "not x0 = 1 by x0 c1",
        "x0 = 2 after x1003 = 1",
        "x2 = 1 after x1003 = 1",
        "not x2 = 1 by x0 x2 c1",
        "not x0 = 2 by x0 c1",
        "x2 = 1 after x1006 = 1",
        "not x2 = 1 by x2 c1",
    ];
    let wanted = text_of(rt.alloc(), "none c1", &turns)?;
    let got = counted(rt.alloc(), &within(Problem::Four, 11))?;
    assert_eq!(rt; first_difference(wanted.as_bytes(), got.as_bytes()), None);
    Ok(())
}
