//! Searches by decision-repair. What is wanted is worked out by hand from the definitions.
use crate::guides::counted;
use crate::journal::text_of;
use crate::problems::Problem;
use crate::searches::{Case, Way, plain};
use std::test::Fail;
use tests_compare::first_difference;

#[test]
fn repairs_end_without_a_solution(rt: HostRuntime) -> Result<(), Fail> {
    let alloc = rt.alloc();
    let wanted = text_of(alloc, "none c1", &["x0 = 1", "not x0 = 1 by x0 c1"])?;
    for tabu in [1, 2, 1024] {
        let case = Case {
            problem: Problem::Three,
            way: Way::Repair(tabu),
            budget: 50,
        };
        let got = plain(alloc, &case)?;
        assert_eq!(rt;
            first_difference(wanted.as_bytes(), got.as_bytes()),
            None,
            "{case:?}"
        );
    }
    Ok(())
}

/// The first ten turns of a repair of the four variables whose list has room for one nogood. At the second undoing the
/// heavier of two decisions goes, and the first nogood makes room; so at each later one.
const TEN_TURNS: [&str; 10] = [
    "x0 = 1",
    "x1 = 2",
    "not x1 = 2 by x0 x1 c1",
    "not x0 = 1 by x0 c1",
    "x0 = 2",
    "x1 = 1",
    "not x0 = 2 by x0 x1 c1",
    "not x1 = 1 by x1 c1",
    "x0 = 1",
    "x1 = 2",
];

#[test]
fn the_oldest_nogood_makes_room(rt: HostRuntime) -> Result<(), Fail> {
    let alloc = rt.alloc();
    let rows = [
        (1, &TEN_TURNS[..6], "spent 6 dropped 1"),
        (2, &TEN_TURNS[..6], "spent 6 dropped 0"),
        (1024, &TEN_TURNS[..6], "spent 6 dropped 0"),
        (1, &TEN_TURNS[..], "spent 10 dropped 3"),
    ];
    for (tabu, turns, end) in rows {
        let case = Case {
            problem: Problem::FourAlone,
            way: Way::Repair(tabu),
            budget: turns.len() as u64,
        };
        let wanted = text_of(alloc, end, turns)?;
        let got = plain(alloc, &case)?;
        assert_eq!(rt;
            first_difference(wanted.as_bytes(), got.as_bytes()),
            None,
            "{case:?}"
        );
    }
    Ok(())
}

// The guide is told 2 and 1 variables before its first pick.
#[test]
fn guides_are_told_the_conflicts_of_repairs(rt: HostRuntime) -> Result<(), Fail> {
    let turns = [
        "x0 = 1 after nothing",
        "x1 = 2 after nothing",
        "not x1 = 2 by x0 x1 c1",
        "not x0 = 1 by x0 c1",
        "x0 = 2 after x1003 = 1",
        "x1 = 1 after x1003 = 1",
    ];
    let case = Case {
        problem: Problem::FourAlone,
        way: Way::Repair(1),
        budget: 6,
    };
    let wanted = text_of(rt.alloc(), "spent 6 dropped 1", &turns)?;
    let got = counted(rt.alloc(), &case)?;
    assert_eq!(rt;
        first_difference(wanted.as_bytes(), got.as_bytes()),
        None,
        "{case:?}"
    );
    Ok(())
}
