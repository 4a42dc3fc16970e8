//! Long lines, and inputs as long as they may be.
use crate::served::{ended, written};
use palm_base::NoMemory;
use palm_hub::HubStatus;
use std::alloc::Global;
use std::test::Fail;
use tests_compare::first_difference;

/// A text, the same byte so many times behind it, and another text.
fn stretched(
    alloc: Global,
    front: &str,
    byte: u8,
    count: usize,
    back: &str,
) -> Result<Vec<u8>, NoMemory> {
    let mut text = Vec::from_slice(alloc, front.as_bytes())?;
    text.extend_from_slice(&vec![in alloc; byte; count]?)?;
    text.extend_from_slice(back.as_bytes())?;
    Ok(text)
}

/// How a text begins, the byte that it goes on with, so many times, how it ends, and what is written of it. A session line has
/// 65,536 bytes at most; a comment, and what stands in the place of a name, may have more.
const LONG: &[(&str, u8, usize, &str, &str)] = &[
    ("#", b'c', 70_000, "\na list\n", "a : end\n"),
    (
        "a var x 1..2\n#",
        b' ',
        70_000,
        "\na domain x\n",
        "a : ok\na : x: 1 2\n",
    ),
    ("", b' ', 70_000, "", ""),
    ("", b'\t', 70_000, "# note\n", ""),
    (
        "",
        b' ',
        70_000,
        "a list\n",
        "hub error H1 no session name\n",
    ),
    (
        "",
        b'a',
        70_000,
        " list\nb list\n",
        "hub error H1 no session name\nb : end\n",
    ),
    ("a", b' ', 65_533, "list\n", "a : end\n"),
    (
        "a",
        b' ',
        65_534,
        "list\n",
        "a : error E1 bytes or length\n",
    ),
    ("a", b' ', 65_533, "list\r\r\n", "a : end\n"),
    ("a", b' ', 65_537, "\na list\n", "a : end\n"),
    (
        "a",
        b' ',
        65_538,
        "\na list\n",
        "a : error E1 bytes or length\na : end\n",
    ),
    ("a #", b'c', 65_535, "\na list\n", "a : end\n"),
    (
        "a #",
        b'c',
        65_536,
        "\na list\n",
        "a : error E1 bytes or length\na : end\n",
    ),
    (
        "a quit\na ",
        b'x',
        70_000,
        "\nb list\n",
        "a : bye\nhub error H3 session over\nb : end\n",
    ),
];

#[test]
fn long_lines_are_answered(rt: HostRuntime) -> Result<(), Fail> {
    let alloc = rt.alloc();
    for (front, byte, count, back, output) in LONG {
        for piece in [1_000, 4_096] {
            let text = stretched(alloc, front, *byte, *count, back)?;
            let got = written(alloc, &text, piece)?;
            assert_eq!(rt;
                first_difference(output.as_bytes(), &got),
                None,
                "{front} .. {back} in pieces of {piece}"
            );
        }
    }
    Ok(())
}

/// How an input of one line begins that goes on with one byte, how many bytes it has, how the hub ends, and what it writes.
const WHOLE: &[(&str, u8, usize, HubStatus, &str)] = &[
    (
        "a ",
        b'x',
        16_777_216,
        HubStatus::Done,
        "a : error E1 bytes or length\n",
    ),
    ("a ", b'x', 16_777_217, HubStatus::TooLong, ""),
    ("#", b'c', 16_777_216, HubStatus::Done, ""),
];

#[test]
fn an_input_has_16777216_bytes_at_most(rt: HostRuntime) -> Result<(), Fail> {
    for (front, byte, whole, status, output) in WHOLE {
        let count = whole.saturating_sub(front.len());
        let bytes = stretched(rt.alloc(), front, *byte, count, "")?;
        let got = ended(rt.alloc(), bytes, 4_096)?;
        assert_eq!(rt; got.status, *status, "{front} and {whole} bytes");
        assert_eq!(rt;
            first_difference(output.as_bytes(), &got.output),
            None,
            "{front} and {whole} bytes"
        );
    }
    Ok(())
}

#[test]
fn the_lines_within_the_limit_are_answered(rt: HostRuntime) -> Result<(), Fail> {
    let bytes = stretched(rt.alloc(), "#", b'c', 16_777_207, "\na quit\nb list")?;
    let got = ended(rt.alloc(), bytes, 1_000)?;
    assert_eq!(rt; got.status, HubStatus::TooLong);
    assert_eq!(rt; first_difference(b"a : bye\n", &got.output), None);
    Ok(())
}
