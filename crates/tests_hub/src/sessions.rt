//! A worked hub in pieces, and the ends of lines.
use crate::served::answer;
use std::test::Fail;
use tests_compare::first_difference;

/// Two sessions, one of which ends, and lines without a name: the lines of the worked hub `hub-two-sessions`, which stand here
/// for the streams that cut them and that fail.
pub const TWO: &str =
    "a var x 1..2\nb var x 5..6\na add p : x = 1\nb domains\na domains\nc\nb quit\nb list\n9 x\n";

/// What is written of it.
pub const TWO_ANSWERED: &str = "a : ok\nb : ok\na : ok\nb : x: 5 6\nb : end\na : x: 1\na : end\n\
    hub error H1 no session name\nb : bye\nhub error H3 session over\nhub error H1 no session name\n";

#[test]
fn two_sessions_are_answered_in_pieces(rt: HostRuntime) -> Result<(), Fail> {
    let got = answer(rt.alloc(), TWO.as_bytes(), TWO_ANSWERED)?;
    assert_eq!(rt;
        first_difference(TWO_ANSWERED.as_bytes(), &got.output),
        None,
        "in pieces of {}",
        got.piece
    );
    Ok(())
}

/// The ends of lines, and of the input.
const ENDS: &[(&[u8], &str)] = &[
    (b"", ""),
    (b"\n", ""),
    (b"a list", "a : end\n"),
    (b"a list\r", "a : end\n"),
    (b"a list\r\n", "a : end\n"),
    (b"a list\r\r\n", "a : end\n"),
    (b"a list\r\r\r\n", "a : error E1 bytes or length\n"),
    (b"a li\rst\n", "a : error E1 bytes or length\n"),
    (b"a \r", ""),
    (b"a", "hub error H1 no session name\n"),
    (b"a\r\n", "hub error H1 no session name\n"),
    (b"\r", ""),
    (b"\r\r\n", "hub error H1 no session name\n"),
    (b" ", ""),
    (b"#", ""),
    (b" x", "hub error H1 no session name\n"),
    (b"a list\na", "a : end\nhub error H1 no session name\n"),
];

#[test]
fn lines_end_as_those_of_a_session(rt: HostRuntime) -> Result<(), Fail> {
    for (text, output) in ENDS {
        let got = answer(rt.alloc(), text, output)?;
        assert_eq!(rt;
            first_difference(output.as_bytes(), &got.output),
            None,
            "{} in pieces of {}",
            text.escape_ascii(),
            got.piece
        );
    }
    Ok(())
}
