//! Lines as long as they may be, and longer, and lines that are refused.
ghost use Rattle.std.specs.Prelude.{◌<◌};

use crate::outcomes::{Outcome, accepted, outcome_in};
use palm_base::NoMemory;
use palm_cli::Status;
use std::alloc::Global;
use std::test::Fail;
use tests_compare::first_difference;

/// How a line behind the declaration of x begins, the byte that follows so often, and its reply.
const LINES: &[(&str, u8, usize, &str)] = &[
    ("#", b'c', 65_535, ""),
    ("#", b'c', 65_536, "error E1 bytes or length\n"),
    ("domain x", b' ', 65_528, "x: 1 2 3\n"),
    ("domain x", b' ', 65_529, "error E1 bytes or length\n"),
    (
        "step 99999999999999999999999999999999999999999",
        b' ',
        0,
        "error E6 number out of range\n",
    ),
    ("add p : x <", b' ', 0, "error E2 no such form\n"),
];

/// What is replied to the declaration of x and such a line, in pieces of at most so many bytes.
fn replied(
    alloc: Global,
    line: &str,
    byte: u8,
    count: usize,
    piece: usize,
) -> Result<Outcome, NoMemory>
    requires { 0 < piece }
{
    let mut text = Vec::from_slice(alloc, b"var x 1..3\n")?;
    text.extend_from_slice(line.as_bytes())?;
    for _ in 0..count {
        text.push(byte)?;
    }
    text.push(b'\n')?;
    outcome_in(alloc, "run", &text, piece)
}

#[test]
fn a_line_has_65536_bytes_and_a_form(rt: HostRuntime) -> Result<(), Fail> {
    for (line, byte, count, reply) in LINES {
        let outcome = replied(rt.alloc(), line, *byte, *count, 7)?;
        let wanted = accepted(rt.alloc(), 1, reply)?;
        assert_eq!(rt; outcome.status, Status::Done, "{line}");
        assert_eq!(rt;
            first_difference(wanted.as_bytes(), &outcome.output),
            None,
            "{line}"
        );
    }
    Ok(())
}

#[test]
fn a_line_is_the_same_in_longer_pieces(rt: HostRuntime) -> Result<(), Fail> {
    for (line, byte, count, reply) in LINES {
        let outcome = replied(rt.alloc(), line, *byte, *count, 4_096)?;
        let wanted = accepted(rt.alloc(), 1, reply)?;
        assert_eq!(rt; outcome.status, Status::Done, "{line}");
        assert_eq!(rt;
            first_difference(wanted.as_bytes(), &outcome.output),
            None,
            "{line}"
        );
    }
    Ok(())
}

/// A line of this many letters.
fn long_line(alloc: Global, letters: usize) -> Result<Vec<u8>, NoMemory> {
    let mut text = vec![in alloc; b'a'; letters]?;
    text.push(b'\n')?;
    Ok(text)
}

/// Two lines that are too long, each with another line behind it.
fn two_long_lines(alloc: Global) -> Result<Vec<u8>, NoMemory> {
    let mut text = long_line(alloc, 65_537)?;
    text.extend_from_slice(b"var x 1..1\n")?;
    text.extend_from_slice(&long_line(alloc, 70_000)?)?;
    text.extend_from_slice(b"domain x\n")?;
    Ok(text)
}

/// The replies to these.
const LONG_REPLIES: &str = "error E1 bytes or length\nok\nerror E1 bytes or length\nx: 1\n";

#[test]
fn lines_are_too_long(rt: HostRuntime) -> Result<(), Fail> {
    let text = two_long_lines(rt.alloc())?;
    let outcome = outcome_in(rt.alloc(), "run", &text, 1_000)?;
    assert_eq!(rt; outcome.status, Status::Done);
    assert_eq!(rt;
        first_difference(LONG_REPLIES.as_bytes(), &outcome.output),
        None
    );
    let longer = outcome_in(rt.alloc(), "run", &text, 4_096)?;
    assert_eq!(rt; longer.status, Status::Done);
    assert_eq!(rt;
        first_difference(LONG_REPLIES.as_bytes(), &longer.output),
        None
    );
    Ok(())
}

#[test]
fn the_longest_line_is_read(rt: HostRuntime) -> Result<(), Fail> {
    let mut text = vec![in rt.alloc(); b'#'; 65_536]?;
    text.extend_from_slice(b"\r\nvar x 1..1\n")?;
    let outcome = outcome_in(rt.alloc(), "run", &text, 1_000)?;
    assert_eq!(rt; outcome.status, Status::Done);
    assert_eq!(rt; first_difference(b"ok\n", &outcome.output), None);
    Ok(())
}
