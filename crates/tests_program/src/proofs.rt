//! Proofs that constraints have no solution, by the command `proof`: how those with lines changed or left out are refused, and what
//! comes of streams that fail.
use crate::certificates::put_lines;
use crate::outcomes::{outcome_failing, outcome_in};
use palm_base::NoMemory;
use palm_cli::Status;
use std::alloc::Global;
use std::test::Fail;
use tests_compare::first_difference;

/// The lines of a proof: x, y and z differ, and only 1 and 2 are left for them.
const LINES: [&str; 19] = [
    "palm-proof 1",
    "var x 1..2",
    "var y 1..2",
    "var z 1..2",
    "add d : differ x y z",
    "lemma x=1",
    "step x 2 assume",
    "step y 1 by d from 1",
    "step z 1 by d from 1",
    "step z 2 by d from 2",
    "wipe z",
    "lemma",
    "step x 1 lemma 1",
    "step y 2 by d from 1",
    "step z 1 by d from 2",
    "step z 2 by d from 1",
    "wipe z",
    "none d",
    "end",
];

/// The proof with another line in the place of the one with this number.
fn changed(alloc: Global, number: usize, other: &str) -> Result<Vec<u8>, NoMemory> {
    let mut text = Vec::new(alloc);
    put_lines(&mut text, &LINES, 19, number, other)?;
    Ok(text)
}

/// A proof that is changed: the number of the line that says something else, what it says, and how the proof is refused.
const CHANGED: &[(usize, &str, &str)] = &[
    (1, "palm-cert 1", "refused 1 P1\n"),
    (5, "add d : differ x y q", "refused 5 P2\n"),
    (2, "var x 1..257", "refused 2 P6\n"),
    (13, "step x 1 lemma 2", "refused 13 P3\n"),
    (13, "step x 2 lemma 1", "refused 13 P4\n"),
    (7, "step x 1 assume", "refused 7 P4\n"),
    (18, "none", "refused 18 P5\n"),
];

#[test]
fn a_changed_proof_is_refused(rt: HostRuntime) -> Result<(), Fail> {
    for (number, line, output) in CHANGED {
        let text = changed(rt.alloc(), *number, line)?;
        let outcome = outcome_in(rt.alloc(), "proof", &text, 7)?;
        assert_eq!(rt; outcome.status, Status::Refused, "{line}");
        assert_eq!(rt;
            first_difference(output.as_bytes(), &outcome.output),
            None,
            "{line}"
        );
    }
    Ok(())
}

#[test]
fn a_changed_proof_is_refused_byte_by_byte(rt: HostRuntime) -> Result<(), Fail> {
    for (number, line, output) in CHANGED {
        let text = changed(rt.alloc(), *number, line)?;
        let outcome = outcome_in(rt.alloc(), "proof", &text, 1)?;
        assert_eq!(rt; outcome.status, Status::Refused, "{line}");
        assert_eq!(rt;
            first_difference(output.as_bytes(), &outcome.output),
            None,
            "{line}"
        );
    }
    Ok(())
}

/// The proof without the lines from one number to another.
fn without(alloc: Global, from: usize, to: usize) -> Result<Vec<u8>, NoMemory> {
    let mut text = Vec::new(alloc);
    for (place, line) in LINES.iter().enumerate() {
        if place + 1 < from || to < place + 1 {
            text.extend_from_slice(line.as_bytes())?;
            text.extend_from_slice(b"\n")?;
        }
    }
    Ok(text)
}

/// The numbers of the first and the last line that are left out, and how the proof is refused.
const CUT: &[(usize, usize, &str)] = &[
    (10, 10, "refused 10 P5\n"),
    (12, 17, "refused 12 P5\n"),
    (1, 19, "refused 1 P5\n"),
];

#[test]
fn a_proof_without_some_lines_is_refused(rt: HostRuntime) -> Result<(), Fail> {
    for (from, to, output) in CUT {
        let text = without(rt.alloc(), *from, *to)?;
        let outcome = outcome_in(rt.alloc(), "proof", &text, 7)?;
        assert_eq!(rt; outcome.status, Status::Refused, "{output}");
        assert_eq!(rt;
            first_difference(output.as_bytes(), &outcome.output),
            None,
            "{output}"
        );
        let bytewise = outcome_in(rt.alloc(), "proof", &text, 1)?;
        assert_eq!(rt; bytewise.status, Status::Refused, "{output}");
        assert_eq!(rt;
            first_difference(output.as_bytes(), &bytewise.output),
            None,
            "{output}"
        );
    }
    Ok(())
}

/// The read or the write that fails, how the command ends then on the whole proof, and what was written.
const FAILING: &[(&[u64], &[u64], Status, &str)] = &[
    (&[1], &[], Status::ReadFault, ""),
    (&[9], &[], Status::ReadFault, ""),
    (&[], &[3], Status::WriteFault, "accepted none "),
];

#[test]
fn a_failing_stream_ends_the_command(rt: HostRuntime) -> Result<(), Fail> {
    let text = changed(rt.alloc(), 0, "")?;
    for (reads, writes, status, output) in FAILING {
        let outcome = outcome_failing(rt.alloc(), "proof", &text, reads, writes)?;
        assert_eq!(rt; outcome.status, *status);
        assert_eq!(rt; first_difference(output.as_bytes(), &outcome.output), None);
    }
    Ok(())
}
