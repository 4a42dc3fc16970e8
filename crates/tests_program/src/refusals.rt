//! The refusals of a session, one line behind the other.
use crate::outcomes::outcome_in;
use palm_base::NoMemory;
use palm_cli::Status;
use std::alloc::Global;
use std::test::Fail;
use tests_compare::first_difference;

/// Lines behind one another, and the reply to each. Behind them comes a line that is too long.
const LINES: &[(&[u8], &str)] = &[
    (b"var x 1..3\n", "ok\n"),
    (b"domain q\n", "error E4 unknown variable\n"),
    (b"var x 1..2\n", "error E3 name taken\n"),
    (b"var w 3..1\n", "error E9 empty or zero\n"),
    (b"var w 1..257\n", "error E7 limit\n"),
    (b"var w 0..2000000\n", "error E6 number out of range\n"),
    (b"add p : differ x x q\n", "error E8 repeated variable\n"),
    (b"add p : sum 0*x <= 1\n", "error E9 empty or zero\n"),
    (b"add p : x + 1\n", "error E2 no such form\n"),
    (b"retract z\n", "error E5 unknown constraint\n"),
    (b"add p : x != 2\n", "ok\n"),
    (b"relax p\n", "ok\n"),
    (b"relax p\n", "error E10 wrong state\n"),
    (b"step 2\n", "error E10 wrong state\n"),
    (b"why x 7\n", "error E12 value never declared\n"),
    (b"guide 9\n", "error E11 no such object\n"),
    (b"solve dbt budget 0\n", "error E6 number out of range\n"),
    (b"\xc8\n", "error E1 bytes or length\n"),
];

/// The line that is too long, and the list of what was accepted.
fn long_line_and_list(alloc: Global) -> Result<Vec<u8>, NoMemory> {
    let mut text = vec![in alloc; b'a'; 65_537]?;
    text.extend_from_slice(b"\nlist\n")?;
    Ok(text)
}

/// The replies to these two.
const LAST: &str = "error E1 bytes or length\nvar x 1..3\n1 relaxed p : x != 2\nend\n";

/// Appends the lines to a text, and their replies to others.
fn put_lines(text: &mut Vec<u8>, replies: &mut Vec<u8>) -> Result<(), NoMemory> {
    for (line, reply) in LINES {
        text.extend_from_slice(line)?;
        replies.extend_from_slice(reply.as_bytes())?;
    }
    Ok(())
}

#[test]
fn each_refusal_has_its_reply(rt: HostRuntime) -> Result<(), Fail> {
    let mut text = Vec::new(rt.alloc());
    let mut wanted = Vec::new(rt.alloc());
    put_lines(&mut text, &mut wanted)?;
    text.extend_from_slice(&long_line_and_list(rt.alloc())?)?;
    wanted.extend_from_slice(LAST.as_bytes())?;
    let outcome = outcome_in(rt.alloc(), "run", &text, 7)?;
    assert_eq!(rt; outcome.status, Status::Done);
    assert_eq!(rt; first_difference(&wanted, &outcome.output), None);
    Ok(())
}
