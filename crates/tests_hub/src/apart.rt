//! Sixteen sessions at once, against each of them alone.
use crate::served::written;
use palm_base::NoMemory;
use std::alloc::Global;
use std::test::Fail;
use tests_compare::first_difference;

/// The lines that each session is told in turn, the first one from another place on.
const LINES: [&str; 20] = [
    "palm 2",
    "var x 1..4",
    "var y 0..5 in 1..3",
    "var z {1,2,3}",
    "add a : x < y",
    "add b : sum x + y + z <= 6",
    "domains",
    "solve dbt budget 50",
    "add c : differ x y z",
    "log",
    "add d : x > 3",
    "conflict",
    "minimal conflict",
    "relax d",
    "list",
    "why x 4",
    "pause",
    "nonsense",
    "resume",
    "# note",
];

/// How many lines there are in all.
const TOLD: u32 = 640;

/// The lines of sixteen sessions, one after another by a fixed order without a rule that is easy to see, or those of one of
/// them alone.
fn told(alloc: Global, alone: Option<usize>) -> Result<String, NoMemory> {
    let mut text = String::new(alloc);
    let mut places = [0_usize; 16];
    let mut state = 1_u32;
    for _ in 0..TOLD {
        state = state.wrapping_mul(1_103_515_245).wrapping_add(12_345);
        let session = ((state >> 16) % 16) as usize;
        if alone.is_none_or(|one| one == session) {
            let line = LINES[session.wrapping_add(places[session]) % 20];
            writeln!(text, "s{session} {line}")?;
        }
        places[session] = places[session].wrapping_add(1);
    }
    Ok(text)
}

/// The lines of an output that begin so.
fn lines_with(alloc: Global, output: &[u8], front: &str) -> Result<Vec<u8>, NoMemory> {
    let mut lines = Vec::new(alloc);
    for line in output.split_inclusive(|byte| *byte == b'\n') {
        if line.starts_with(front.as_bytes()) {
            lines.extend_from_slice(line)?;
        }
    }
    Ok(lines)
}

/// What is written of a session's lines alone.
fn alone(alloc: Global, session: usize) -> Result<Vec<u8>, NoMemory> {
    let text = told(alloc, Some(session))?;
    written(alloc, text.as_bytes(), 100)
}

#[test]
fn sixteen_sessions_are_as_each_alone(rt: HostRuntime) -> Result<(), Fail> {
    let output = written(rt.alloc(), told(rt.alloc(), None)?.as_bytes(), 100)?;
    let mut bytes = 0_usize;
    for session in 0..16 {
        let name = format!(in rt.alloc(); "s{session} : ")?;
        let expected = alone(rt.alloc(), session)?;
        let among = lines_with(rt.alloc(), &output, &name)?;
        assert_eq!(rt; first_difference(&expected, &among), None, "of s{session}");
        assert!(rt; expected.len() > 500, "of s{session}");
        bytes = bytes.saturating_add(among.len());
    }
    assert_eq!(rt; bytes, output.len());
    Ok(())
}
