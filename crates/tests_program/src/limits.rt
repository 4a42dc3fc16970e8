//! As many variables and constraints as a session may have, and one more.
use crate::outcomes::{accepted, outcome_in};
use palm_base::NoMemory;
use palm_cli::Status;
use std::alloc::Global;
use std::test::Fail;
use tests_compare::first_difference;

/// The declaration of x, then so many lines, each with its number between two texts, and a last line.
fn listed(
    alloc: Global,
    front: &str,
    count: u32,
    back: &str,
    last: &str,
) -> Result<String, NoMemory> {
    let mut text = String::from_str(alloc, "var x 1..2\n")?;
    for number in 0..count {
        writeln!(text, "{front}{number}{back}")?;
    }
    text.push_str(last)?;
    Ok(text)
}

#[test]
fn there_are_64_variables_at_most(rt: HostRuntime) -> Result<(), Fail> {
    let text = listed(rt.alloc(), "var x", 63, " 1..2", "var y 1..2\n")?;
    let outcome = outcome_in(rt.alloc(), "run", text.as_bytes(), 7)?;
    let wanted = accepted(rt.alloc(), 64, "error E7 limit\n")?;
    assert_eq!(rt; outcome.status, Status::Done);
    assert_eq!(rt; first_difference(wanted.as_bytes(), &outcome.output), None);
    Ok(())
}

#[test]
fn there_are_256_constraints_at_most(rt: HostRuntime) -> Result<(), Fail> {
    let text = listed(rt.alloc(), "add a", 256, " : x = 1", "add b : x = 1\n")?;
    let outcome = outcome_in(rt.alloc(), "run", text.as_bytes(), 7)?;
    let wanted = accepted(rt.alloc(), 257, "error E7 limit\n")?;
    assert_eq!(rt; outcome.status, Status::Done);
    assert_eq!(rt; first_difference(wanted.as_bytes(), &outcome.output), None);
    Ok(())
}
