//! The line that tells the verdict on a text, and the status behind it.
ghost use Rattle.std.specs.Prelude.{◌≡◌, ◌++◌, ◌⊎◌, map, decimal, OnOk, IfOk};
ghost use Rattle.palm_claim.specs.Claim.{IsOver, IsOverItsBook};
ghost use Rattle.palm_lang.specs.Reply.{ended};
ghost use Rattle.palm_read.specs.Words.{after_spaces};
ghost use Rattle.proof_text.specs.Users.{AreOfTheirBook};
ghost use Rattle.palm_cli.specs.Verdicts.{IsTold, accepted_text, cause_digit, claim_text, evidence_letter, proof_line, proof_status, refused_text, verdict_line, verdict_status};
ghost use Rattle.palm_cli.specs.declared.status.Status.TheVariants as Status;
ghost use Rattle.palm_cli.specs.declared.words.Evidence.TheVariants as Evidence;

use crate::status::Status;
use crate::words::Evidence;
use palm_base::{NoMemory, push_int};
use palm_claim::{Cause, Claim, Proved, Verdict};
use palm_lang::{Book, Lead, print_names};
use palm_proof::{ProofVerdict, check_proof};
use std::alloc::Global;

/// What is told of a text.
#[derive(Drop)]
pub struct Told {
    /// The line.
    pub line: Vec<u8>,
    /// How the command ends behind it.
    pub status: Status,
}

/// What is told of a text that is judged as this.
pub fn told_of(alloc: Global, evidence: Evidence, text: &[u8]) -> Result<Told, NoMemory>
    ensures told { IfOk result (λ told. IsTold evidence text.now told.line.items told.status) }
    ensures ends { IfOk result (λ told. (told.status ≡ Status.Done) ⊎ (told.status ≡ Status.Refused)) }
{
    match evidence {
        Evidence::Certificate => certificate_told(alloc, text),
        Evidence::Proof => proof_told(alloc, text),
    }
}

// ---- certificates

/// What is told of a certificate.
fn certificate_told(alloc: Global, text: &[u8]) -> Result<Told, NoMemory>
    ensures told { IfOk result (λ told. IsTold Evidence.Certificate text.now told.line.items told.status) }
    ensures ends { IfOk result (λ told. (told.status ≡ Status.Done) ⊎ (told.status ≡ Status.Refused)) }
{
    let verdict = palm_check::check(alloc, text)?;
    let mut line = Vec::new(alloc);
    push_verdict(&mut line, &verdict)?;
    Ok(Told {
        line,
        status: verdict_status(&verdict),
    })
}

/// The status behind the line of a verdict.
fn verdict_status(verdict: &Verdict) -> Status
    ensures is { result ≡ verdict_status verdict.now }
    ensures ends { (result ≡ Status.Done) ⊎ (result ≡ Status.Refused) }
{
    match verdict {
        Verdict::Accepted(_) => Status::Done,
        Verdict::Refused { .. } => Status::Refused,
    }
}

/// Appends the line of a verdict.
fn push_verdict(out: &mut Vec<u8>, verdict: &Verdict) -> Result<(), NoMemory>
    requires { IsOverItsBook verdict.now }
    ensures { OnOk result (out.new.items ≡ out.old.items ++ verdict_line verdict.now) }
{
    match verdict {
        Verdict::Accepted(proved) => push_accepted(out, proved),
        Verdict::Refused { line, cause } => {
            push_refused(out, Evidence::Certificate, *line, *cause)
        }
    }
}

/// `accepted NAME VALUE because NAME NAME` or `accepted conflict NAME because NAME NAME`
fn push_accepted(out: &mut Vec<u8>, proved: &Proved) -> Result<(), NoMemory>
    requires { IsOver proved.now.book proved.now.claim }
    ensures { OnOk result (out.new.items ≡ out.old.items ++ ended (accepted_text proved.now)) }
{
    out.extend_from_slice(b"accepted ")?;
    push_claim(out, &proved.book, &proved.claim)?;
    out.extend_from_slice(b" because")?;
    push_constraints(out, &proved.book)?;
    out.extend_from_slice(b"\n")?;
    Ok(())
}

/// `NAME VALUE` or `conflict NAME`
fn push_claim(out: &mut Vec<u8>, book: &Book, claim: &Claim) -> Result<(), NoMemory>
    requires { IsOver book.now claim.now }
    ensures { OnOk result (out.new.items ≡ out.old.items ++ claim_text book.now.variables claim.now) }
{
    match claim {
        Claim::Gone(pair) => {
            out.extend_from_slice(book.variable_name(pair.var).as_slice())?;
            out.extend_from_slice(b" ")?;
            push_int(out, i128::from(pair.value.0))
        }
        Claim::Conflict(var) => {
            out.extend_from_slice(b"conflict ")?;
            out.extend_from_slice(book.variable_name(*var).as_slice())?;
            Ok(())
        }
    }
}

/// The names of all constraints, with a space before each.
fn push_constraints(out: &mut Vec<u8>, book: &Book) -> Result<(), NoMemory>
    ensures { OnOk result (out.new.items ≡ out.old.items ++ after_spaces (map (λ c. c.name) book.now.constraints)) }
{
    for place in 0..book.constraints() {
        out.extend_from_slice(b" ")?;
        out.extend_from_slice(book.constraint(place).name.as_slice())?;
    }
    Ok(())
}

// ---- proofs

/// What is told of a proof.
fn proof_told(alloc: Global, text: &[u8]) -> Result<Told, NoMemory>
    ensures told { IfOk result (λ told. IsTold Evidence.Proof text.now told.line.items told.status) }
    ensures ends { IfOk result (λ told. (told.status ≡ Status.Done) ⊎ (told.status ≡ Status.Refused)) }
{
    let verdict = check_proof(alloc, text)?;
    let mut line = Vec::new(alloc);
    push_proof_verdict(&mut line, &verdict)?;
    Ok(Told {
        line,
        status: proof_status(&verdict),
    })
}

/// The status behind the line of a verdict on a proof.
fn proof_status(verdict: &ProofVerdict) -> Status
    ensures is { result ≡ proof_status verdict.now }
    ensures ends { (result ≡ Status.Done) ⊎ (result ≡ Status.Refused) }
{
    match verdict {
        ProofVerdict::Accepted { .. } => Status::Done,
        ProofVerdict::Refused { .. } => Status::Refused,
    }
}

/// Appends the line of a verdict on a proof: `accepted none because NAME NAME`, or the refused line and its cause.
fn push_proof_verdict(out: &mut Vec<u8>, verdict: &ProofVerdict) -> Result<(), NoMemory>
    requires { AreOfTheirBook verdict.now }
    ensures { OnOk result (out.new.items ≡ out.old.items ++ proof_line verdict.now) }
{
    match verdict {
        ProofVerdict::Accepted { book, users } => {
            out.extend_from_slice(b"accepted none ")?;
            print_names(book, Lead::Because, users, out)
        }
        ProofVerdict::Refused { line, cause } => {
            push_refused(out, Evidence::Proof, *line, *cause)
        }
    }
}

// ---- what both have

/// `refused LINE CAUSE`
fn push_refused(
    out: &mut Vec<u8>,
    evidence: Evidence,
    line: u64,
    cause: Cause,
) -> Result<(), NoMemory>
    ensures { OnOk result (out.new.items ≡ out.old.items ++ ended (refused_text evidence line cause)) }
{
    out.extend_from_slice(b"refused ")?;
    push_number(out, line)?;
    out.extend_from_slice(b" ")?;
    out.extend_from_slice(evidence_letter(evidence).as_bytes())?;
    out.extend_from_slice(cause_digit(cause).as_bytes())?;
    out.extend_from_slice(b"\n")?;
    Ok(())
}

/// A number.
fn push_number(out: &mut Vec<u8>, number: u64) -> Result<(), NoMemory>
    ensures { OnOk result (out.new.items ≡ out.old.items ++ decimal number) }
{
    push_int(out, i128::from(number))
}

/// The letter of the causes.
fn evidence_letter(evidence: Evidence) -> &'static str
    ensures { result.now ≡ evidence_letter evidence }
{
    match evidence {
        Evidence::Certificate => "C",
        Evidence::Proof => "P",
    }
}

/// The digit of a cause.
fn cause_digit(cause: Cause) -> &'static str
    ensures { result.now ≡ cause_digit cause }
{
    match cause {
        Cause::Malformed => "1",
        Cause::Misdeclared => "2",
        Cause::Unproved => "3",
        Cause::NotRight => "4",
        Cause::NotReached => "5",
        Cause::Beyond => "6",
    }
}
