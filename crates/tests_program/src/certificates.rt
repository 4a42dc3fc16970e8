//! Certificates by the command `check`: how those with a line changed are refused, and what comes of streams that fail.
use crate::outcomes::{outcome_failing, outcome_in};
use palm_base::NoMemory;
use palm_cli::Status;
use std::alloc::Global;
use std::test::Fail;
use tests_compare::first_difference;

/// The lines of a certificate: x and y are equal and y is not 2, so x is not 2.
const LINES: [&str; 9] = [
    "palm-cert 1",
    "var x 1..3",
    "var y 1..3",
    "add a : x = y",
    "add d : y != 2",
    "step y 2 by d",
    "step x 2 by a from 1",
    "claim x 2",
    "end",
];

/// Appends the first of these lines, so many, with another line in the place of the one with this number.
pub fn put_lines(
    text: &mut Vec<u8>,
    all: &[&str],
    lines: usize,
    number: usize,
    other: &str,
) -> Result<(), NoMemory> {
    for (place, line) in all.iter().take(lines).enumerate() {
        let line = if place + 1 == number { other } else { *line };
        text.extend_from_slice(line.as_bytes())?;
        text.extend_from_slice(b"\n")?;
    }
    Ok(())
}

/// The first lines, so many, with another in the place of one, and an end behind them.
fn changed(
    alloc: Global,
    lines: usize,
    number: usize,
    other: &str,
    end: &str,
) -> Result<Vec<u8>, NoMemory> {
    let mut text = Vec::new(alloc);
    put_lines(&mut text, &LINES, lines, number, other)?;
    text.extend_from_slice(end.as_bytes())?;
    Ok(text)
}

/// A certificate that is cut or changed: how many of its lines stay, the number of the line that says something else and
/// what it says (0 where none does), what stands behind them, and how it is refused.
const CHANGED: &[(usize, usize, &str, &str, &str)] = &[
    (9, 1, "palm-cert 9", "", "refused 1 C1\n"),
    (9, 4, "add a : x = x", "", "refused 4 C1\n"),
    (9, 4, "add a : x = q", "", "refused 4 C2\n"),
    (9, 5, "add a : y != 2", "", "refused 5 C2\n"),
    (9, 6, "step y 2 by a", "", "refused 6 C4\n"),
    (9, 7, "step x 2 by a", "", "refused 7 C4\n"),
    (9, 7, "step x 2 by a from 2", "", "refused 7 C3\n"),
    (9, 7, "step x 2 by a from 0", "", "refused 7 C1\n"),
    (6, 0, "", "step x 2 by", "refused 7 C1\n"),
    (9, 8, "claim conflict y", "", "refused 8 C5\n"),
    (8, 0, "", "", "refused 9 C5\n"),
    (9, 0, "", "step y 2 by d\n", "refused 10 C1\n"),
    (9, 2, "var x 1..257", "", "refused 2 C6\n"),
    (9, 6, "step y 3 by d", "", "refused 6 C4\n"),
    (9, 6, "step y 9 by d", "", "refused 6 C2\n"),
    (9, 6, "step y two by d", "", "refused 6 C1\n"),
    (9, 8, "claim x 3", "", "refused 8 C5\n"),
    (0, 0, "", "", "refused 1 C5\n"),
    (7, 0, "", "", "refused 8 C5\n"),
    (
        5,
        0,
        "",
        "step x 2 by a from 1\nstep y 2 by d\nclaim x 2\nend\n",
        "refused 6 C3\n",
    ),
];

#[test]
fn a_changed_certificate_is_refused(rt: HostRuntime) -> Result<(), Fail> {
    for (lines, number, line, end, output) in CHANGED {
        let text = changed(rt.alloc(), *lines, *number, line, end)?;
        let outcome = outcome_in(rt.alloc(), "check", &text, 7)?;
        assert_eq!(rt; outcome.status, Status::Refused, "{output}");
        assert_eq!(rt;
            first_difference(output.as_bytes(), &outcome.output),
            None,
            "{line}"
        );
    }
    Ok(())
}

#[test]
fn a_changed_certificate_is_refused_byte_by_byte(rt: HostRuntime) -> Result<(), Fail> {
    for (lines, number, line, end, output) in CHANGED {
        let text = changed(rt.alloc(), *lines, *number, line, end)?;
        let outcome = outcome_in(rt.alloc(), "check", &text, 1)?;
        assert_eq!(rt; outcome.status, Status::Refused, "{output}");
        assert_eq!(rt;
            first_difference(output.as_bytes(), &outcome.output),
            None,
            "{line}"
        );
    }
    Ok(())
}

/// The read or the write that fails, how the command ends then on the whole certificate, and what was written.
const FAILING: &[(&[u64], &[u64], Status, &str)] = &[
    (&[1], &[], Status::ReadFault, ""),
    (&[9], &[], Status::ReadFault, ""),
    (&[], &[3], Status::WriteFault, "accepted x 2 b"),
];

#[test]
fn a_failing_stream_ends_the_check(rt: HostRuntime) -> Result<(), Fail> {
    let text = changed(rt.alloc(), 9, 0, "", "")?;
    for (reads, writes, status, output) in FAILING {
        let outcome = outcome_failing(rt.alloc(), "check", &text, reads, writes)?;
        assert_eq!(rt; outcome.status, *status);
        assert_eq!(rt; first_difference(output.as_bytes(), &outcome.output), None);
    }
    Ok(())
}
