//! The verdict on a certificate in one line of text.
ghost use Rattle.palm_claim.specs.Claim.{IsOver, IsOverItsBook};

use palm_base::{NoMemory, push_int};
use palm_book::Book;
use palm_check::{Cause, Proved, Verdict, check};
use palm_claim::Claim;
use std::alloc::Global;

/// The verdict on the text, as a line.
pub(crate) fn verdict_of(alloc: Global, text: &[u8]) -> Result<Vec<u8>, NoMemory> {
    let verdict = check(alloc, text)?;
    let mut out = Vec::new(alloc);
    put_verdict(&mut out, &verdict)?;
    Ok(out)
}

/// `accepted NAME VALUE because NAME NAME`, `accepted conflict NAME because NAME NAME`, or `refused LINE CAUSE`.
fn put_verdict(out: &mut Vec<u8>, verdict: &Verdict) -> Result<(), NoMemory>
    requires { IsOverItsBook verdict.now }
{
    match verdict {
        Verdict::Accepted(proved) => put_accepted(out, proved)?,
        Verdict::Refused { line, cause } => {
            out.extend_from_slice(b"refused ")?;
            push_int(out, i128::from(*line))?;
            out.extend_from_slice(cause_text(cause))?;
        }
    }
    Ok(())
}

fn put_accepted(out: &mut Vec<u8>, proved: &Proved) -> Result<(), NoMemory>
    requires { IsOver proved.now.book proved.now.claim }
{
    out.extend_from_slice(b"accepted ")?;
    match &proved.claim {
        Claim::Gone(pair) => {
            out.extend_from_slice(proved.book.variable_name(pair.var).as_slice())?;
            out.extend_from_slice(b" ")?;
            push_int(out, i128::from(pair.value.0))?;
        }
        Claim::Conflict(var) => {
            out.extend_from_slice(b"conflict ")?;
            out.extend_from_slice(proved.book.variable_name(*var).as_slice())?;
        }
    }
    out.extend_from_slice(b" because")?;
    put_constraints(out, &proved.book)
}

fn put_constraints(out: &mut Vec<u8>, book: &Book) -> Result<(), NoMemory> {
    for place in 0..book.constraints() {
        out.extend_from_slice(b" ")?;
        out.extend_from_slice(book.constraint(place).name.as_slice())?;
    }
    Ok(())
}

fn cause_text(cause: &Cause) -> &'static [u8] {
    match cause {
        Cause::Malformed => b" C1",
        Cause::Misdeclared => b" C2",
        Cause::Unproved => b" C3",
        Cause::NotRight => b" C4",
        Cause::NotReached => b" C5",
        Cause::Beyond => b" C6",
    }
}
