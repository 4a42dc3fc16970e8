//! Where the lines of a proof may stand, and proofs that end early.
use crate::told::{LINES, verdict_from, verdict_within};
use palm_base::NoMemory;
use std::alloc::Global;
use std::test::Fail;
use tests_compare::first_difference;

#[test]
fn a_proof_is_accepted_and_with_a_line_changed_refused(rt: HostRuntime) -> Result<(), Fail> {
    let rows: [(usize, &[u8], usize, &str); 8] = [
        (19, b"", 19, "accepted none because d"),
        (12, b"step x 1 lemma 2\n", 13, "refused 13 P3"),
        (12, b"step x 2 lemma 1\n", 13, "refused 13 P4"),
        (6, b"step x 1 assume\n", 7, "refused 7 P4"),
        (9, b"", 10, "refused 10 P5"),
        (11, b"", 17, "refused 12 P5"),
        (17, b"none\n", 18, "refused 18 P5"),
        // The first of two lines that have a cause.
        (6, b"step x 1 assume\nstep q 1 assume\n", 7, "refused 7 P4"),
    ];
    for (first, text, behind, line) in rows {
        let got = verdict_within(rt.alloc(), first, text, behind)?;
        assert_eq!(rt;
            first_difference(line.as_bytes(), &got),
            None,
            "{} behind {first} lines",
            text.escape_ascii()
        );
    }
    Ok(())
}

/// Lines, and beside each a mark for each number of lines of the proof before it, from none to all 19: `x` where the line
/// may not stand there.
const PLACES: &[(&str, &str)] = &[
    ("palm-proof 1", ".xxxxxxxxxxxxxxxxxxx"),
    ("var w 1..2", "x....xxxxxxxxxxxxxxx"),
    ("var x 1..2", "x....xxxxxxxxxxxxxxx"),
    ("add e : x != 1", "x.....xxxxxxxxxxxxxx"),
    ("add d : x != 1", "x.....xxxxxxxxxxxxxx"),
    ("lemma", "x.....xxxxx.xxxxx.xx"),
    ("lemma q=1", "x.....xxxxx.xxxxx.xx"),
    ("step x 2 assume", "xxxxxx.....x.....xxx"),
    ("step q 1 by d from 9", "xxxxxx.....x.....xxx"),
    ("step x 1 lemma 1", "xxxxxx.....x.....xxx"),
    ("wipe z", "xxxxxx.....x.....xxx"),
    ("none d", "xxxxxxxxxxx.xxxxx.xx"),
    ("none q", "xxxxxxxxxxx.xxxxx.xx"),
    ("end", "xxxxxxxxxxxxxxxxxx.x"),
    ("", "...................."),
    ("# end", "...................."),
    ("found x=1 y=2 z=1", "xxxxxxxxxxxxxxxxxxxx"),
    ("found", "xxxxxxxxxxxxxxxxxxxx"),
    ("spent 3", "xxxxxxxxxxxxxxxxxxxx"),
    ("palm-cert 1", "xxxxxxxxxxxxxxxxxxxx"),
    ("palm 2", "xxxxxxxxxxxxxxxxxxxx"),
    ("claim x 1", "xxxxxxxxxxxxxxxxxxxx"),
    ("claim conflict x", "xxxxxxxxxxxxxxxxxxxx"),
    ("relax d", "xxxxxxxxxxxxxxxxxxxx"),
    ("solve dbt", "xxxxxxxxxxxxxxxxxxxx"),
];

/// The marks of a line: `x` where it is refused behind so many lines of the proof since it may not stand there, and else `.`.
fn marks_of(alloc: Global, line: &str) -> Result<Vec<u8>, NoMemory> {
    let text = format!(in alloc; "{line}\n")?;
    let mut marks = Vec::new(alloc);
    for lines in 0..=LINES.len() {
        let misplaced = format!(in alloc; "refused {} P1", lines + 1)?;
        let got = verdict_from(alloc, lines, text.as_bytes())?;
        marks.push(if got.as_slice() == misplaced.as_bytes() {
            b'x'
        } else {
            b'.'
        })?;
    }
    Ok(marks)
}

#[test]
fn each_line_has_its_places(rt: HostRuntime) -> Result<(), Fail> {
    for (line, marks) in PLACES {
        let got = marks_of(rt.alloc(), line)?;
        assert_eq!(rt; first_difference(marks.as_bytes(), &got), None, "{line}");
    }
    Ok(())
}

/// The verdicts on so many of the first lines, alone, with a comment behind them, and with two blank lines.
fn early(alloc: Global, lines: usize) -> Result<Vec<u8>, NoMemory> {
    let mut verdicts = verdict_from(alloc, lines, b"")?;
    verdicts.push(b'\n')?;
    verdicts.extend_from_slice(&verdict_from(alloc, lines, b"# more")?)?;
    verdicts.push(b'\n')?;
    verdicts.extend_from_slice(&verdict_from(alloc, lines, b"\r\n \n")?)?;
    Ok(verdicts)
}

#[test]
fn a_proof_that_ends_early_is_not_reached(rt: HostRuntime) -> Result<(), Fail> {
    for lines in 0..LINES.len() {
        let expected = format!(in rt.alloc();
            "refused {} P5\nrefused {} P5\nrefused {} P5",
            lines + 1,
            lines + 2,
            lines + 3
        )?;
        let got = early(rt.alloc(), lines)?;
        assert_eq!(rt;
            first_difference(expected.as_bytes(), &got),
            None,
            "{lines}"
        );
    }
    Ok(())
}
