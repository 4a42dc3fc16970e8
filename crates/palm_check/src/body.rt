//! What is kept of a certificate besides what it lists: how far it has come, and the pairs that its steps proved.
ghost use Rattle.std.specs.Prelude.{All, IfOk, OnOk};
ghost use Rattle.palm_check.specs.Kept.{IsKept, TakesPhrase, said};
ghost use Rattle.palm_claim.specs.Draft.{IsOpen};
ghost use Rattle.palm_claim.specs.Claim.{IsOverItsBook};
ghost use Rattle.palm_claim.specs.Statement.{IsStepNumber};
ghost use Rattle.palm_claim.specs.Verdict.{IsVerdict};
ghost use Rattle.palm_claim.specs.declared.statement.CertificatePhrase.TheVariants as phrases;

use crate::phrases::{claim, step};
use palm_base::{NoMemory, Pair, Value};
use palm_book::Book;
use palm_claim::{Cause, CertificatePhrase, Claim, Proved, Stage, Verdict};
use palm_listed::Listed;
use palm_read::{Cursor, LineError, Name};
use std::alloc::Global;
use std::mem;
use text_check::{Body, FirstCause, check_step, check_text, check_wiped, is_among, read_header};

/// What is kept of a certificate besides what it lists.
#[derive(Drop)]
pub struct CertificateBody {
    stage: Stage,
    proved: Vec<Pair>,
}

impl Body for CertificateBody {
    ghost use Rattle.palm_check.specs.Kept.{HasDeclared, said};
    ghost use Rattle.palm_claim.proofs.cited.Phrases.{are_phrases as spelled_phrases};
    ghost use Rattle.palm_claim.specs.Draft as drafts;
    ghost use Rattle.palm_claim.specs.Verdict.{of_certificates};
    ghost use Rattle.std.specs.Prelude.{refl};

    type Phrase = CertificatePhrase;

    type Verdict = Verdict;

    ghost Text = { drafts.Draft };

    ghost own = { of_certificates };

    ghost blank = { drafts.blank };

    ghost draft = { said };

    ghost keeps = { HasDeclared };

    ghost are_phrases = { spelled_phrases };

    ghost of_book = { λ book body. refl };

    #[tactic(auto, unfolding(palm_claim::specs::Reader::phrase_at, palm_read::specs::Reader::Steps::when, palm_read::specs::Reader::Steps::and_then))]
    fn read(cursor: &mut Cursor<'_>, alloc: Global) -> Result<CertificatePhrase, LineError> {
        if cursor.takes_word(b"step") {
            step(cursor, alloc)
        } else if cursor.takes_word(b"claim") {
            claim(cursor, alloc)
        } else if cursor.takes_word(b"end") {
            Ok(CertificatePhrase::End)
        } else {
            read_header(cursor, b"cert")?;
            Ok(CertificatePhrase::Header)
        }
    }

    fn new(alloc: Global) -> CertificateBody {
        CertificateBody {
            stage: Stage::Unopened,
            proved: Vec::new(alloc),
        }
    }

    fn may_declare(&self) -> bool {
        matches!(self.stage, Stage::Declaring)
    }

    fn may_list(&self) -> bool {
        matches!(self.stage, Stage::Declaring | Stage::Listing)
    }

    fn may_follow(&self, phrase: &CertificatePhrase) -> bool {
        match phrase {
            CertificatePhrase::Header => matches!(self.stage, Stage::Unopened),
            CertificatePhrase::Step { .. }
            | CertificatePhrase::ValueClaim { .. }
            | CertificatePhrase::ConflictClaim(_) => {
                matches!(
                    self.stage,
                    Stage::Declaring | Stage::Listing | Stage::Proving
                )
            }
            CertificatePhrase::End => matches!(self.stage, Stage::Claimed(_)),
        }
    }

    fn declared(&mut self) -> Result<(), NoMemory> {
        Ok(())
    }

    fn listed(&mut self) {
        self.stage = Stage::Listing;
    }

    fn take(
        &mut self,
        alloc: Global,
        listed: &mut Listed,
        phrase: CertificatePhrase,
    ) -> FirstCause {
        match phrase {
            CertificatePhrase::Header => {
                self.stage = Stage::Declaring;
                Ok(None)
            }
            CertificatePhrase::Step {
                name,
                value,
                by,
                reasons,
            } => self.prove(alloc, listed, &name, value, &by, reasons.as_slice()),
            CertificatePhrase::ValueClaim { name, value } => {
                Ok(self.claim_value(listed, &name, value))
            }
            CertificatePhrase::ConflictClaim(name) => Ok(self.claim_conflict(listed, &name)),
            CertificatePhrase::End => {
                let stage = mem::replace(&mut self.stage, Stage::Unopened);
                if let Stage::Claimed(claim) = stage {
                    self.stage = Stage::Closed(claim);
                }
                Ok(None)
            }
        }
    }

    fn ending(self, book: Book, line: u64) -> Verdict {
        let CertificateBody { stage, .. } = self;
        match stage {
            Stage::Closed(claim) => Verdict::Accepted(Proved { claim, book }),
            _ => Self::refused(line, Cause::NotReached),
        }
    }

    fn refused(line: u64, cause: Cause) -> Verdict {
        Verdict::Refused { line, cause }
    }
}

impl CertificateBody {
    /// Takes a step.
    fn prove(
        &mut self,
        alloc: Global,
        listed: &mut Listed,
        name: &Name,
        value: Value,
        by: &Name,
        reasons: &[u32],
    ) -> FirstCause
        requires stands { IsOpen self.old.stage }
        requires range { All IsStepNumber reasons.now }
        requires kept { IsKept listed.old self.old }
        ensures takes { IfOk result (λ cause. TakesPhrase (said listed.old.book self.old) (phrases.Step name.now value by.now reasons.now) cause
            (said listed.new.book self.new)) }
        ensures kept { OnOk result (IsKept listed.new self.new) }
    {
        let Some(pair) = listed.declared_pair(name, value) else {
            return Ok(Some(Cause::Misdeclared));
        };
        match check_step(alloc, listed, &self.proved, &pair, by, reasons)? {
            Err(cause) => Ok(Some(cause)),
            Ok(_) => {
                self.proved.push(pair)?;
                self.stage = Stage::Proving;
                Ok(None)
            }
        }
    }

    /// Takes the claim that a value is gone.
    fn claim_value(&mut self, listed: &Listed, name: &Name, value: Value) -> Option<Cause>
        requires stands { IsOpen self.old.stage }
        requires kept { IsKept listed.now self.old }
        ensures takes { TakesPhrase (said listed.now.book self.old) (phrases.ValueClaim name.now value) result (said listed.now.book self.new) }
        ensures kept { IsKept listed.now self.new }
    {
        let Some(pair) = listed.declared_pair(name, value) else {
            return Some(Cause::Misdeclared);
        };
        if !is_among(&self.proved, &pair) {
            return Some(Cause::NotReached);
        }
        self.stage = Stage::Claimed(Claim::Gone(pair));
        None
    }

    /// Takes the claim that a variable has no value.
    fn claim_conflict(&mut self, listed: &mut Listed, name: &Name) -> Option<Cause>
        requires stands { IsOpen self.old.stage }
        requires kept { IsKept listed.old self.old }
        ensures takes { TakesPhrase (said listed.old.book self.old) (phrases.ConflictClaim name.now) result (said listed.new.book self.new) }
        ensures kept { IsKept listed.new self.new }
    {
        match check_wiped(listed, &self.proved, name) {
            Ok(var) => {
                self.stage = Stage::Claimed(Claim::Conflict(var));
                None
            }
            Err(cause) => Some(cause),
        }
    }
}

/// The verdict on a text: that it is a certificate and what it proves, or its first line that has a cause. A text may be
/// of any length.
pub fn check(alloc: Global, bytes: &[u8]) -> Result<Verdict, NoMemory>
    ensures verdict { IfOk result (IsVerdict bytes.now) }
    ensures named { IfOk result IsOverItsBook }
{
    check_text::<CertificateBody>(alloc, bytes)
}
