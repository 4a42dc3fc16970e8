//! The verdict on a proof in one line of text, and a proof whose lines the tests change.
use palm_base::{Cid, CidList, NoMemory, push_int};
use palm_book::Book;
use palm_proof::{ProofCause, ProofVerdict, check_proof};
use std::alloc::Global;
use std::process::Abort;
use tests_compare::first_difference;

/// The lines of a proof: three variables with two values each are not pairwise different.
pub(crate) const LINES: [&str; 19] = [
    "palm-proof 1",
    "var x 1..2",
    "var y 1..2",
    "var z 1..2",
    "add d : differ x y z",
    "lemma x=1",
    "step x 2 assume",
    "step y 1 by d from 1",
    "step z 1 by d from 1",
    "step z 2 by d from 2",
    "wipe z",
    "lemma",
    "step x 1 lemma 1",
    "step y 2 by d from 1",
    "step z 1 by d from 2",
    "step z 2 by d from 1",
    "wipe z",
    "none d",
    "end",
];

/// The first lines of the proof, so many.
pub(crate) fn first_lines(alloc: Global, lines: usize) -> Result<Vec<u8>, NoMemory> {
    let mut text = Vec::new(alloc);
    put_lines(&mut text, 0, lines)?;
    Ok(text)
}

/// Appends the lines of the proof behind the first ones, up to a last one.
fn put_lines(text: &mut Vec<u8>, before: usize, last: usize) -> Result<(), NoMemory> {
    for place in before..LINES.len().min(last) {
        text.extend_from_slice(LINES[place].as_bytes())?;
        text.extend_from_slice(b"\n")?;
    }
    Ok(())
}

/// The verdict on so many of the first lines of the proof, then the text, and then the lines behind those that the second number
/// counts.
pub(crate) fn verdict_within(
    alloc: Global,
    first: usize,
    text: &[u8],
    behind: usize,
) -> Result<Vec<u8>, NoMemory> {
    let mut whole = first_lines(alloc, first)?;
    whole.extend_from_slice(text)?;
    put_lines(&mut whole, behind, LINES.len())?;
    verdict_of(alloc, &whole)
}

/// The verdict on the text behind so many of the first lines of the proof.
pub(crate) fn verdict_from(alloc: Global, lines: usize, text: &[u8]) -> Result<Vec<u8>, NoMemory> {
    verdict_within(alloc, lines, text, LINES.len())
}

/// The verdict on the text between a head and a tail.
pub(crate) fn verdict_between(
    alloc: Global,
    head: &[u8],
    text: &[u8],
    tail: &[u8],
) -> Result<Vec<u8>, NoMemory> {
    let mut whole = Vec::from_slice(alloc, head)?;
    whole.extend_from_slice(text)?;
    whole.extend_from_slice(tail)?;
    verdict_of(alloc, &whole)
}

/// Asserts the verdict on each of these texts between a head and a tail.
pub(crate) fn assert_verdicts(
    rt: &impl Abort,
    alloc: Global,
    head: &[u8],
    rows: &[(&[u8], &str)],
    tail: &[u8],
) -> Result<(), NoMemory> {
    for (text, line) in rows {
        let got = verdict_between(alloc, head, text, tail)?;
        assert_eq!(rt;
            first_difference(line.as_bytes(), &got),
            None,
            "{}",
            text.escape_ascii()
        );
    }
    Ok(())
}

/// The same of texts behind so many of the first lines of the proof.
pub(crate) fn assert_verdicts_from(
    rt: &impl Abort,
    alloc: Global,
    lines: usize,
    rows: &[(&[u8], &str)],
) -> Result<(), NoMemory> {
    assert_verdicts(rt, alloc, &first_lines(alloc, lines)?, rows, b"")
}

/// The verdict on the text, as a line.
pub(crate) fn verdict_of(alloc: Global, text: &[u8]) -> Result<Vec<u8>, NoMemory> {
    let verdict = check_proof(alloc, text)?;
    let mut out = Vec::new(alloc);
    put_verdict(&mut out, &verdict)?;
    Ok(out)
}

/// `accepted none because NAME NAME`, or `refused LINE CAUSE`.
fn put_verdict(out: &mut Vec<u8>, verdict: &ProofVerdict) -> Result<(), NoMemory> {
    match verdict {
        ProofVerdict::Accepted { book, users } => {
            out.extend_from_slice(b"accepted none because")?;
            put_users(out, book, users)?;
        }
        ProofVerdict::Refused { line, cause } => {
            out.extend_from_slice(b"refused ")?;
            push_int(out, i128::from(*line))?;
            out.extend_from_slice(cause_text(cause))?;
        }
    }
    Ok(())
}

fn put_users(out: &mut Vec<u8>, book: &Book, users: &CidList) -> Result<(), NoMemory> {
    for user in users.as_slice() {
        out.extend_from_slice(b" ")?;
        put_user(out, book, user)?;
    }
    Ok(())
}

/// The name of a user of the book.
fn put_user(out: &mut Vec<u8>, book: &Book, user: &Cid) -> Result<(), NoMemory> {
    if let Cid::User(number) = user {
        if let Some(place) = book.place_of(*number) {
            out.extend_from_slice(book.constraint(place).name.as_slice())?;
        }
    }
    Ok(())
}

fn cause_text(cause: &ProofCause) -> &'static [u8] {
    match cause {
        ProofCause::Malformed => b" P1",
        ProofCause::Misdeclared => b" P2",
        ProofCause::Unproved => b" P3",
        ProofCause::NotRight => b" P4",
        ProofCause::NotReached => b" P5",
        ProofCause::Beyond => b" P6",
    }
}
