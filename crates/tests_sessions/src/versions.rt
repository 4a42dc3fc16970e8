//! The two versions of the language: how many variables and constraints each has room for.
use crate::fresh::{Question, ask, bytes_of, feed};
use crate::guides::Scripted;
use palm_agenda::LastOrder;
use palm_base::{NoMemory, SteadySink, Steps};
use palm_session::{Session, Stop};
use std::alloc::Global;
use std::sync::ledger::Ledger;
use std::test::Fail;
use tests_compare::first_difference;

/// A text that a session is fed.
#[derive(Clone, Copy)]
struct Text<'a> {
    bytes: &'a [u8],
}

impl Question for Text<'_> {
    /// The replies.
    type Answer = Vec<u8>;

    fn answer<L: Ledger>(
        &self,
        alloc: Global,
        session: &mut Session<Scripted, LastOrder>,
        steps: &mut Steps<L>,
    ) -> Result<Vec<u8>, Stop> {
        let mut sink = SteadySink::new(alloc);
        feed(session, self.bytes, &mut sink, steps)?;
        Ok(bytes_of(alloc, &sink)?)
    }
}

/// First lines, then so many that differ in a number alone, each answered `ok`, and then others. The replies to the first and
/// the last ones stand beside them.
#[derive(Clone, Copy)]
struct Filled<'a> {
    first: (&'a str, &'a str),
    front: &'a str,
    count: u32,
    back: &'a str,
    last: (&'a str, &'a str),
}

/// The lines.
fn lines_of(alloc: Global, filled: &Filled<'_>) -> Result<String, NoMemory> {
    let mut text = String::from_str(alloc, filled.first.0)?;
    for number in 0..filled.count {
        writeln!(text, "{}{number}{}", filled.front, filled.back)?;
    }
    text.push_str(filled.last.0)?;
    Ok(text)
}

/// Their replies.
fn replies_of(alloc: Global, filled: &Filled<'_>) -> Result<String, NoMemory> {
    let mut replies = String::from_str(alloc, filled.first.1)?;
    for _ in 0..filled.count {
        replies.push_str("ok\n")?;
    }
    replies.push_str(filled.last.1)?;
    Ok(replies)
}

/// The replies of a fresh session to the lines.
fn answered(alloc: Global, filled: &Filled<'_>) -> Result<Vec<u8>, Stop> {
    let lines = lines_of(alloc, filled)?;
    let bytes = lines.as_bytes();
    ask(alloc, Vec::new(alloc), &Text { bytes })
}

/// As many variables and constraints as a version has room for, and more.
const FILLED: &[Filled<'static>] = &[
    Filled {
        first: ("", ""),
        front: "var x",
        count: 64,
        back: " 1..2",
        last: ("var y 1..2\n", "error E7 limit\n"),
    },
    Filled {
        first: ("palm 2\n", "ok\n"),
        front: "var x",
        count: 128,
        back: " 1..2 in 2..3",
        last: (
            "var y 1..2\nvar y 1..2 in 1..2\nadd y : x127 = 2\ndomain x127\n",
            "error E7 limit\nerror E7 limit\nok\nx127: 2\n",
        ),
    },
    Filled {
        first: ("var x 1..2\n", "ok\n"),
        front: "add a",
        count: 256,
        back: " : x = 1",
        last: ("add b : x = 1\n", "error E7 limit\n"),
    },
    Filled {
        first: ("palm 2\nvar x 1..2\n", "ok\nok\n"),
        front: "add a",
        count: 512,
        back: " : x in {1}",
        last: (
            "add b : x = 1\nvar y 1..2 in 1..2\nvar y 1..2\nretract a7\nvar z 1..2 in 1..2\n",
            "error E7 limit\nerror E7 limit\nok\nok\nok\n",
        ),
    },
];

#[test]
fn each_version_has_its_limits(rt: HostRuntime) -> Result<(), Fail> {
    for filled in FILLED {
        let expected = replies_of(rt.alloc(), filled)?;
        let got = answered(rt.alloc(), filled)?;
        assert_eq!(rt;
            first_difference(expected.as_bytes(), &got),
            None,
            "{} {}s",
            filled.count,
            filled.front
        );
    }
    Ok(())
}
