//! The journal of a session's last search.
use crate::fresh::{Question, ask, feed};
use crate::guides::Scripted;
use palm_agenda::LastOrder;
use palm_base::{NoMemory, Pair, SteadySink, Steps, Value, Var};
use palm_search::{Pick, Turn};
use palm_session::{Session, Stop};
use std::alloc::Global;
use std::process::Abort;
use std::sync::ledger::Ledger;
use std::test::Fail;

/// What a journal is to be: so many turns, with these decisions and these picks, in order.
#[derive(Clone, Copy)]
struct Wanted<'a> {
    turns: usize,
    decided: &'a [Pair],
    picks: &'a [Pick],
}

/// What a journal tells of its search.
#[derive(Debug, Drop)]
struct Told {
    turns: usize,
    decided: Vec<Pair>,
    picks: Vec<Pick>,
}

fn told_of(alloc: Global, journal: &[Turn]) -> Result<Told, NoMemory> {
    let mut told = Told {
        turns: journal.len(),
        decided: Vec::new(alloc),
        picks: Vec::new(alloc),
    };
    for turn in journal {
        if let Turn::Decide { pair, pick } = turn {
            told.decided.push(*pair)?;
            told.picks.push(*pick)?;
        }
    }
    Ok(told)
}

/// A text, behind which a session leaves a journal.
#[derive(Clone, Copy)]
struct Left<'a> {
    text: &'a [u8],
}

impl Question for Left<'_> {
    type Answer = Told;

    fn answer<L: Ledger>(
        &self,
        alloc: Global,
        session: &mut Session<Scripted, LastOrder>,
        steps: &mut Steps<L>,
    ) -> Result<Told, Stop> {
        let mut sink = SteadySink::new(alloc);
        feed(session, self.text, &mut sink, steps)?;
        Ok(told_of(alloc, session.journal())?)
    }
}

/// The one guide that always picks the pair, or counts where there is none.
fn guides_of(alloc: Global, pick: Option<Pair>) -> Result<Vec<Scripted>, NoMemory> {
    let mut guides = Vec::new(alloc);
    guides.push(Scripted { pick, count: 0 })?;
    Ok(guides)
}

/// Asserts that a fresh session that has the guide with this pick leaves such a journal behind the text.
fn assert_leaves(
    rt: &impl Abort,
    alloc: Global,
    pick: Option<Pair>,
    text: &[u8],
    wanted: &Wanted<'_>,
) -> Result<(), Stop> {
    let told = ask(alloc, guides_of(alloc, pick)?, &Left { text })?;
    assert_eq!(rt;
        told.turns,
        wanted.turns,
        "the turns of '{}'",
        text.escape_ascii()
    );
    assert_eq!(rt;
        told.decided.as_slice(),
        wanted.decided,
        "the decisions of '{}'",
        text.escape_ascii()
    );
    assert_eq!(rt;
        told.picks.as_slice(),
        wanted.picks,
        "the picks of '{}'",
        text.escape_ascii()
    );
    Ok(())
}

/// The pair of a variable and a value.
fn pair_of(var: u32, value: i32) -> Pair {
    Pair {
        var: Var(var),
        value: Value(value),
    }
}

#[test]
fn a_pick_is_recorded_and_tried(rt: HostRuntime) -> Result<(), Fail> {
    let text = b"var x 1..3\nvar y 1..3\nadd a : x < y\nguide 1\nsolve dbt\n";
    let removed = Wanted {
        turns: 2,
        decided: &[pair_of(0, 1), pair_of(1, 2)],
        picks: &[Pick::Asked(pair_of(0, 3)), Pick::Asked(pair_of(0, 3))],
    };
    let lawful = Wanted {
        turns: 1,
        decided: &[pair_of(0, 2)],
        picks: &[Pick::Asked(pair_of(0, 2))],
    };
    assert_leaves(&rt, rt.alloc(), Some(pair_of(0, 3)), text, &removed)?;
    assert_leaves(&rt, rt.alloc(), Some(pair_of(0, 2)), text, &lawful)?;
    Ok(())
}

#[test]
fn the_journal_is_that_of_the_last_search(rt: HostRuntime) -> Result<(), Fail> {
    let none = Wanted {
        turns: 0,
        decided: &[],
        picks: &[],
    };
    let first = Wanted {
        turns: 1,
        decided: &[pair_of(0, 1)],
        picks: &[Pick::NoGuide],
    };
    let text = b"var x 1..3\nguide 1\n";
    assert_leaves(&rt, rt.alloc(), Some(pair_of(0, 2)), text, &none)?;
    let text = b"var x 1..3\nguide 1\nsolve dbt\nguide none\nsolve dbt\nadd a : x != 1\nlist\n";
    assert_leaves(&rt, rt.alloc(), Some(pair_of(0, 2)), text, &first)?;
    let text =
        b"var x 1..3\nguide 1\nsolve dbt\nguide none\nsolve repair tabu 1 budget 50\npause\nsolve dbt\n";
    assert_leaves(&rt, rt.alloc(), Some(pair_of(0, 2)), text, &first)?;
    Ok(())
}

// A cut is no turn. A whole run has one decision and its undoing here, and two cuts where the guide picks another value than the
// least.
#[test]
fn a_search_for_the_least_value_leaves_its_turns(rt: HostRuntime) -> Result<(), Fail> {
    let plain = Wanted {
        turns: 2,
        decided: &[pair_of(0, 1)],
        picks: &[Pick::NoGuide],
    };
    let guided = Wanted {
        turns: 2,
        decided: &[pair_of(0, 2)],
        picks: &[Pick::Asked(pair_of(0, 2))],
    };
    let spent = Wanted {
        turns: 1,
        decided: &[pair_of(0, 1)],
        picks: &[Pick::NoGuide],
    };
    let text = b"palm 2\nvar x 1..3\nminimize x budget 9\npause\nminimize x budget 1\n";
    assert_leaves(&rt, rt.alloc(), None, text, &plain)?;
    let text = b"palm 2\nvar x 1..3\nguide 1\nminimize x budget 9\nminimize q budget 1\n";
    assert_leaves(&rt, rt.alloc(), Some(pair_of(0, 2)), text, &guided)?;
    let text = b"palm 2\nvar x 1..3\nsolve dbt\nminimize x budget 1\n";
    assert_leaves(&rt, rt.alloc(), None, text, &spent)?;
    Ok(())
}

#[test]
fn a_guide_is_told_the_variables_of_conflicts(rt: HostRuntime) -> Result<(), Fail> {
    let by_dbt =
        b"var x 1..3\nvar p 1..2\nvar y 1..3\nvar z 1..3\nvar w 1..3\nadd d : differ x y z w\n\
        guide 1\nsolve dbt budget 11\n";
    let of_dbt = Wanted {
        turns: 11,
        decided: &[
            pair_of(0, 1),
            pair_of(1, 1),
            pair_of(2, 2),
            pair_of(0, 2),
            pair_of(2, 1),
            pair_of(2, 1),
        ],
        picks: &[
            Pick::Nothing,
            Pick::Nothing,
            Pick::Nothing,
            Pick::Asked(pair_of(1_003, 1)),
            Pick::Asked(pair_of(1_003, 1)),
            Pick::Asked(pair_of(1_006, 1)),
        ],
    };
    let by_repair = b"var x 1..3\nvar y 1..3\nvar z 1..3\nvar w 1..3\nadd d : differ x y z w\n\
        guide 1\nsolve repair tabu 1 budget 6\n";
    let of_repair = Wanted {
        turns: 6,
        decided: &[pair_of(0, 1), pair_of(1, 2), pair_of(0, 2), pair_of(1, 1)],
        picks: &[
            Pick::Nothing,
            Pick::Nothing,
            Pick::Asked(pair_of(1_003, 1)),
            Pick::Asked(pair_of(1_003, 1)),
        ],
    };
    assert_leaves(&rt, rt.alloc(), None, by_dbt, &of_dbt)?;
    assert_leaves(&rt, rt.alloc(), None, by_repair, &of_repair)?;
    Ok(())
}
