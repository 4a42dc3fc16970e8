//! Searches by mac-dbt and by decision-repair with guides that are handed in.
use crate::outcomes::{Outcome, accepted, no_orders, run_with};
use palm_base::{NoMemory, Pair, Value, Var};
use palm_cli::Status;
use palm_guide::{Guide, ViewRow};
use std::alloc::Global;
use std::test::Fail;
use tests_compare::first_difference;

/// Always answers the same.
#[derive(Drop)]
struct Always {
    answer: Option<Pair>,
}

impl Guide for Always {
    ghost use Rattle.std.specs.Prelude.{◌≡◌, []};

    ghost state = { λ guide. [] };

    ghost answers = { λ guide view answer after. after ≡ [] };

    ghost hears = { λ guide conflict after. after ≡ [] };

    fn pick(&mut self, _view: &[ViewRow]) -> Option<Pair> {
        self.answer
    }

    fn learned(&mut self, _conflict: &[Var]) {}
}

/// A pair as an answer.
fn pair(var: u32, value: i32) -> Option<Pair> {
    Some(Pair {
        var: Var(var),
        value: Value(value),
    })
}

/// What x < y and then these lines lead to, where the first guide always picks x = `first`, and the second y = 3.
fn guided(alloc: Global, first: i32, lines: &str) -> Result<Outcome, NoMemory> {
    let mut guides = Vec::new(alloc);
    guides.push(Always {
        answer: pair(0, first),
    })?;
    guides.push(Always { answer: pair(1, 3) })?;
    let mut text = String::from_str(alloc, "var x 1..3\nvar y 1..3\nadd a : x < y\n")?;
    text.push_str(lines)?;
    run_with(alloc, text.as_bytes(), guides, no_orders(alloc))
}

/// What the first guide picks for x, lines with a search by mac-dbt, and the replies to them. The value 3 is taken out before.
const SEARCHES: &[(i32, &str, &str)] = &[
    (
        3,
        "guide 1\nsolve dbt\ndrop guide 1\nguide 1\n",
        "ok\nfound x=1 y=2\nok\nerror E11 no such object\n",
    ),
    (
        2,
        "guide 1\nsolve dbt\ndrop guide 1\nguide 1\n",
        "ok\nfound x=2 y=3\nok\nerror E11 no such object\n",
    ),
    (
        2,
        "guide 2\nsolve dbt\nguide 1\nsolve dbt\n",
        "ok\nfound x=1 y=3\nok\nfound x=2 y=3\n",
    ),
];

#[test]
fn a_guide_picks_decisions(rt: HostRuntime) -> Result<(), Fail> {
    for (first, lines, replies) in SEARCHES {
        let outcome = guided(rt.alloc(), *first, lines)?;
        let wanted = accepted(rt.alloc(), 3, replies)?;
        assert_eq!(rt; outcome.status, Status::Done, "{lines}");
        assert_eq!(rt;
            first_difference(wanted.as_bytes(), &outcome.output),
            None,
            "{lines}"
        );
    }
    Ok(())
}

/// The same with searches by decision-repair.
const REPAIRS: &[(i32, &str, &str)] = &[
    (
        3,
        "guide 1\nsolve repair tabu 7 budget 500\nguide none\nsolve repair tabu 7 budget 500\n",
        "ok\nfound x=1 y=2\nok\nfound x=1 y=2\n",
    ),
    (
        2,
        "guide 1\nsolve repair tabu 7 budget 500\nguide none\nsolve repair tabu 7 budget 500\n",
        "ok\nfound x=2 y=3\nok\nfound x=1 y=2\n",
    ),
    (
        2,
        "guide 2\nsolve repair tabu 7 budget 500\n",
        "ok\nfound x=1 y=3\n",
    ),
];

#[test]
fn a_guide_picks_decisions_of_a_repair(rt: HostRuntime) -> Result<(), Fail> {
    for (first, lines, replies) in REPAIRS {
        let outcome = guided(rt.alloc(), *first, lines)?;
        let wanted = accepted(rt.alloc(), 3, replies)?;
        assert_eq!(rt; outcome.status, Status::Done, "{lines}");
        assert_eq!(rt;
            first_difference(wanted.as_bytes(), &outcome.output),
            None,
            "{lines}"
        );
    }
    Ok(())
}

/// Lines behind which no guide is chosen, and a search.
const DEFAULTS: &[(&str, &str)] = &[
    (
        "guide 1\nguide none\nsolve dbt\n",
        "ok\nok\nfound x=1 y=2\n",
    ),
    (
        "guide 1\ndrop guide 1\nsolve dbt\n",
        "ok\nok\nfound x=1 y=2\n",
    ),
];

#[test]
fn without_a_guide_the_default_is_decided(rt: HostRuntime) -> Result<(), Fail> {
    for (lines, replies) in DEFAULTS {
        let outcome = guided(rt.alloc(), 2, lines)?;
        let wanted = accepted(rt.alloc(), 3, replies)?;
        assert_eq!(rt; outcome.status, Status::Done, "{lines}");
        assert_eq!(rt;
            first_difference(wanted.as_bytes(), &outcome.output),
            None,
            "{lines}"
        );
    }
    Ok(())
}

/// How a search ends where a guide is chosen that always answers this.
fn outcome_by_answer(alloc: Global, answer: Option<Pair>) -> Result<Outcome, NoMemory> {
    let text = b"var x 1..3\nvar y 1..3\nadd a : x < y\nguide 1\nsolve dbt\n";
    let mut guides = Vec::new(alloc);
    guides.push(Always { answer })?;
    run_with(alloc, text, guides, no_orders(alloc))
}

#[test]
fn an_unlawful_answer_counts_for_nothing(rt: HostRuntime) -> Result<(), Fail> {
    let answers = [None, pair(4_000_000_000, 1), pair(0, 9), pair(0, 77)];
    for answer in answers {
        let outcome = outcome_by_answer(rt.alloc(), answer)?;
        let wanted = b"ok\nok\nok\nok\nfound x=1 y=2\n";
        assert_eq!(rt; outcome.status, Status::Done);
        assert_eq!(rt; first_difference(wanted, &outcome.output), None);
    }
    Ok(())
}
