//! Proofs that sessions write with each guide and order: `palm proof` accepts them.
use crate::outcomes::{Outcome, accepted, front_of, outcome_in};
use crate::stock::{CHOICES, outcome_by};
use palm_base::NoMemory;
use palm_cli::Status;
use std::alloc::Global;
use std::test::Fail;
use tests_compare::first_difference;

/// Five variables, four of which differ and have three values.
const FIVE: &str =
    "var x 1..3\nvar p 1..2\nvar y 1..3\nvar z 1..3\nvar w 1..3\nadd d : differ x y z w\nadd e : p < x\nrelax e\n\
     prove budget 100\n";

/// How many lines are accepted before the proof, the header and those that choose among them, and how many bytes are replied to them.
const ACCEPTED: usize = 11;

const FRONT: usize = 33;

/// How `proof` ends on what stands behind the first bytes, so many.
fn judged(alloc: Global, replies: &[u8], front: usize) -> Result<Outcome, NoMemory> {
    match replies.get(front..) {
        Some(text) => outcome_in(alloc, "proof", text, 64),
        None => outcome_in(alloc, "proof", b"", 64),
    }
}

#[test]
fn proofs_with_guides_and_orders_are_accepted(rt: HostRuntime) -> Result<(), Fail> {
    for choice in CHOICES {
        let written = outcome_by(rt.alloc(), choice, FIVE)?;
        let front = accepted(rt.alloc(), ACCEPTED, "palm-proof 1\n")?;
        let begun = front_of(&written.output, front.len());
        assert_eq!(rt; first_difference(front.as_bytes(), begun), None, "{choice}");
        let verdict = judged(rt.alloc(), &written.output, FRONT)?;
        let line = b"accepted none because d\n";
        assert_eq!(rt; verdict.status, Status::Done, "{choice}");
        assert_eq!(rt; first_difference(line, &verdict.output), None, "{choice}");
    }
    Ok(())
}
