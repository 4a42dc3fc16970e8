//! The words after the program's name.
use crate::outcomes::{Outcome, front_of, no_guides, no_orders, words_of};
use palm_base::{ByteList, CallList, MemorySink, MemorySource, NoMemory};
use palm_cli::{Status, top};
use std::alloc::Global;
use std::test::Fail;
use tests_compare::first_difference;

/// How `top` ends with these words and a source of one line, and what it writes.
fn outcome_of_words(alloc: Global, words: &[&str]) -> Result<Outcome, NoMemory> {
    let bytes = ByteList::from_slice(alloc, b"list\n")?;
    let mut source = MemorySource::new(bytes, 4, CallList::new(alloc));
    let mut sink = MemorySink::new(alloc, 7, CallList::new(alloc));
    sink.reserve(256)?;
    let words = words_of(alloc, words)?;
    let status = top(
        alloc,
        &words,
        &mut source,
        &mut sink,
        no_guides(alloc),
        no_orders(alloc),
    );
    let output = Vec::from_slice(alloc, sink.bytes())?;
    Ok(Outcome { status, output })
}

/// Words that are no command.
const OTHER_WORDS: [&[&str]; 20] = [
    &[],
    &["help"],
    &["runs"],
    &["run", "--"],
    &["run", "run"],
    &["check", "run"],
    &["checks"],
    &["proof", "proof"],
    &["proofs"],
    &["gen"],
    &["gen", "0"],
    &["gen", "000"],
    &["gen", "17"],
    &["gen", "0004"],
    &["gen", "+3"],
    &["gen", "-3"],
    &["gen", "3.0"],
    &["gen", "help"],
    &["gen", "2", "3"],
    &["--", "run"],
];

#[test]
fn other_words_get_the_usage_line(rt: HostRuntime) -> Result<(), Fail> {
    let usage = b"usage: palm run, palm check, palm proof or palm gen N\n";
    for (place, words) in OTHER_WORDS.iter().enumerate() {
        let outcome = outcome_of_words(rt.alloc(), words)?;
        assert_eq!(rt; outcome.status, Status::Usage, "words {place}");
        assert_eq!(rt;
            first_difference(usage, &outcome.output),
            None,
            "words {place}"
        );
    }
    Ok(())
}

/// Numbers of queens, and their summaries.
const SUMMARIES: &[(&str, &str)] = &[
    ("1", "queens 1\nlines 3\nfound q1=1\nfound q1=1\n"),
    (
        "2",
        "queens 2\nlines 8\nnone d u1_2 l1_2\nfound q1=1 q2=1\n",
    ),
    (
        "4",
        "queens 4\nlines 20\nfound q1=2 q2=4 q3=1 q4=3\nfound q1=1 q2=1 q3=1 q4=1\n",
    ),
];

#[test]
fn sessions_are_generated(rt: HostRuntime) -> Result<(), Fail> {
    for (number, summary) in SUMMARIES {
        let outcome = outcome_of_words(rt.alloc(), &["gen", number])?;
        assert_eq!(rt; outcome.status, Status::Done, "{number}");
        assert_eq!(rt;
            first_difference(summary.as_bytes(), &outcome.output),
            None,
            "{number}"
        );
    }
    Ok(())
}

#[test]
fn a_number_may_have_zeros_before_it(rt: HostRuntime) -> Result<(), Fail> {
    let outcome = outcome_of_words(rt.alloc(), &["gen", "007"])?;
    let front = b"queens 7\nlines 53\nfound q1=";
    assert_eq!(rt; outcome.status, Status::Done);
    assert_eq!(rt;
        first_difference(front, front_of(&outcome.output, front.len())),
        None
    );
    Ok(())
}
