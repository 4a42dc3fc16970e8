//! What is kept of a proof besides what it lists: how far it has come, the lemmas that are done, and of the lemma begun what it
//! assumes, what its steps name and the pairs that they proved.
ghost use Rattle.std.specs.Prelude.{◌≡◌, [], All, IfOk, OnOk};
ghost use Rattle.palm_book.specs.Book.{Contents, initial_of};
ghost use Rattle.palm_claim.specs.Statement.{IsStepNumber};
ghost use Rattle.palm_claim.specs.declared.ground.Ground.TheVariants as Ground;
ghost use Rattle.palm_model.specs.Domains.{Has};
ghost use Rattle.proof_check.specs.Kept.{AssumesOrNot, IsReasoned, IsKept, TakesGround, TakesPhrase, said};
ghost use Rattle.proof_text.specs.Draft.{MayFollow, with_lemma, with_wipe};
ghost use Rattle.proof_text.specs.Statement.{IsGroundInRange, IsLemmaNumber};
ghost use Rattle.proof_text.specs.Users.{AreOfTheirBook};
ghost use Rattle.proof_text.specs.Verdict.{IsVerdict};
ghost use Rattle.proof_text.specs.declared.statement.ProofPhrase.TheVariants as phrases;
ghost use Rattle.proof_text.specs.declared.statement.Stage.TheVariants as Stage;

use crate::assumed::{is_other_assumed, put, value_of};
use crate::lemmas::{copy_lemma, is_by_others, unproved_lemma};
use crate::marks::usage;
use crate::phrases::{NamedPairs, step};
use crate::users::{are_listed, are_names, marked_users};
use palm_base::{NoMemory, Pair, Value};
use palm_book::Book;
use palm_claim::{Cause, Ground};
use palm_listed::Listed;
use palm_read::{Cursor, LineError, Name};
use proof_text::{Lemma, LemmaList, NamedPair, PairList, ProofPhrase, ProofVerdict, Stage};
use std::alloc::Global;
use std::mem;
use text_check::{Body, FirstCause, check_step, check_text, check_wiped, read_header, read_items};

/// What is kept of a proof besides what it lists.
#[derive(Drop)]
pub struct ProofBody {
    stage: Stage,
    /// The lemmas that are done.
    lemmas: LemmaList,
    /// The lemma begun: what it assumes, and what its steps name.
    begun: Lemma,
    /// The pair that each step of the lemma begun proved.
    proved: Vec<Pair>,
    /// The pairs of the lemma begun, by their variables.
    assumed: Vec<Option<Value>>,
}

impl Body for ProofBody {
    ghost use Rattle.proof_check.specs.Kept.{IsReasoned, said};
    ghost use Rattle.proof_text.proofs.cited.Phrases.{are_phrases as spelled_phrases};
    ghost use Rattle.proof_text.specs.Draft as drafts;
    ghost use Rattle.proof_text.specs.Verdict.{of_proofs};
    ghost use Rattle.std.specs.Prelude.{refl};

    ghost Text = { drafts.Draft };

    ghost draft = { said };

    ghost blank = { drafts.blank };

    ghost of_book = { λ book body. refl };

    fn new(alloc: Global) -> ProofBody {
        ProofBody {
            stage: Stage::Unopened,
            lemmas: LemmaList::new(alloc),
            begun: unproved_lemma(alloc, PairList::new(alloc)),
            proved: Vec::new(alloc),
            assumed: Vec::new(alloc),
        }
    }

    type Verdict = ProofVerdict;

    fn ending(self, book: Book, line: u64) -> ProofVerdict {
        let ProofBody { stage, .. } = self;
        match stage {
            Stage::Closed(users) => ProofVerdict::Accepted { book, users },
            _ => Self::refused(line, Cause::NotReached),
        }
    }

    fn refused(line: u64, cause: Cause) -> ProofVerdict {
        ProofVerdict::Refused { line, cause }
    }

    type Phrase = ProofPhrase;

    ghost own = { of_proofs };

    ghost are_phrases = { spelled_phrases };

    #[tactic(auto, unfolding(proof_text::specs::Reader::phrase_at, proof_text::specs::Reader::lemma_at, proof_text::specs::Reader::wipe_at, proof_text::specs::Reader::users_at, palm_read::specs::Reader::Steps::when, palm_read::specs::Reader::Steps::and_then))]
    fn read(cursor: &mut Cursor<'_>, alloc: Global) -> Result<ProofPhrase, LineError> {
        if cursor.takes_word(b"step") {
            step(cursor, alloc)
        } else if cursor.takes_word(b"lemma") {
            Ok(ProofPhrase::Lemma(read_items::<NamedPairs>(cursor, alloc)?))
        } else if cursor.takes_word(b"wipe") {
            Ok(ProofPhrase::Wipe(cursor.owned_name(alloc)?))
        } else if cursor.takes_word(b"none") {
            Ok(ProofPhrase::Users(cursor.names(alloc, 0)?))
        } else if cursor.takes_word(b"end") {
            Ok(ProofPhrase::End)
        } else {
            read_header(cursor, b"proof")?;
            Ok(ProofPhrase::Header)
        }
    }

    fn may_follow(&self, phrase: &ProofPhrase) -> bool {
        match phrase {
            ProofPhrase::Header => matches!(self.stage, Stage::Unopened),
            ProofPhrase::Lemma(_) => {
                matches!(self.stage, Stage::Declaring | Stage::Listing | Stage::Wiped)
            }
            ProofPhrase::Step { .. } | ProofPhrase::Wipe(_) => {
                matches!(self.stage, Stage::Reasoning)
            }
            ProofPhrase::Users(_) => matches!(self.stage, Stage::Wiped),
            ProofPhrase::End => matches!(self.stage, Stage::Told(_)),
        }
    }

    fn may_declare(&self) -> bool {
        matches!(self.stage, Stage::Declaring)
    }

    fn may_list(&self) -> bool {
        matches!(self.stage, Stage::Declaring | Stage::Listing)
    }

    ghost keeps = { IsReasoned };

    /// Nothing is assumed for the variable.
    fn declared(&mut self) -> Result<(), NoMemory> {
        self.assumed.push(None)?;
        Ok(())
    }

    fn listed(&mut self) {
        self.stage = Stage::Listing;
    }

    fn take(&mut self, alloc: Global, listed: &mut Listed, phrase: ProofPhrase) -> FirstCause {
        match phrase {
            ProofPhrase::Header => {
                self.stage = Stage::Declaring;
                Ok(None)
            }
            ProofPhrase::Lemma(pairs) => self.begin(alloc, listed, pairs.as_slice()),
            ProofPhrase::Step {
                name,
                value,
                ground,
            } => self.prove(alloc, listed, &name, value, &ground),
            ProofPhrase::Wipe(name) => self.wipe(listed, &name),
            ProofPhrase::Users(names) => self.tell(alloc, listed, names.as_slice()),
            ProofPhrase::End => {
                let stage = mem::replace(&mut self.stage, Stage::Unopened);
                if let Stage::Told(users) = stage {
                    self.stage = Stage::Closed(users);
                }
                Ok(None)
            }
        }
    }
}

impl ProofBody {
    /// Takes the first line of a lemma.
    fn begin(&mut self, alloc: Global, listed: &Listed, named: &[NamedPair]) -> FirstCause
        requires stands { MayFollow self.old.stage (phrases.Lemma named.now) }
        requires kept { IsKept listed.now self.old }
        ensures takes { IfOk result (λ cause. TakesPhrase (said listed.now.book self.old) (phrases.Lemma named.now) cause (said listed.now.book self.new)) }
        ensures kept { OnOk result (IsKept listed.now self.new) }
    {
        self.clear(alloc)?;
        for pair in named {
            if !self.assume(listed, &pair.name, pair.value)? {
                return Ok(Some(Cause::Misdeclared));
            }
        }
        Ok(None)
    }

    /// Begins a lemma that assumes nothing.
    fn clear(&mut self, alloc: Global) -> Result<(), NoMemory>
        ensures begun { OnOk result ((book : Contents) → said book self.new ≡ with_lemma (said book self.old) []) }
        ensures kept { OnOk result ((book : Contents) → IsReasoned book self.old → IsReasoned book self.new) }
    {
        self.assumed = vec![in alloc; None; self.assumed.len()]?;
        self.begun = unproved_lemma(alloc, PairList::new(alloc));
        self.proved.clear();
        self.stage = Stage::Reasoning;
        Ok(())
    }

    /// Assumes the pair with the name and the value too. It must be declared, and nothing be assumed for its variable.
    fn assume(&mut self, listed: &Listed, name: &Name, value: Value) -> Result<bool, NoMemory>
        requires kept { IsKept listed.now self.old }
        ensures assumes { IfOk result (λ is. AssumesOrNot (said listed.now.book self.old) name.now value is (said listed.now.book self.new)) }
        ensures kept { OnOk result (IsKept listed.now self.new) }
    {
        let Some(pair) = listed.declared_pair(name, value) else {
            return Ok(false);
        };
        match value_of(&self.assumed, pair.var) {
            Some(_) => Ok(false),
            None => {
                self.begun.pairs.push(pair.copy())?;
                put(&mut self.assumed, pair.var, Some(pair.value));
                Ok(true)
            }
        }
    }

    /// Takes a step.
    fn prove(
        &mut self,
        alloc: Global,
        listed: &mut Listed,
        name: &Name,
        value: Value,
        basis: &Ground,
    ) -> FirstCause
        requires stands { self.old.stage ≡ Stage.Reasoning }
        requires range { IsGroundInRange basis.now }
        requires kept { IsKept listed.old self.old }
        ensures takes { IfOk result (λ cause. TakesPhrase (said listed.old.book self.old) (phrases.Step name.now value basis.now) cause
            (said listed.new.book self.new)) }
        ensures kept { OnOk result (IsKept listed.new self.new) }
    {
        let Some(pair) = listed.declared_pair(name, value) else {
            return Ok(Some(Cause::Misdeclared));
        };
        match basis {
            Ground::By { name, reasons } => {
                self.prove_by(alloc, listed, pair, name, reasons.as_slice())
            }
            Ground::Assumed => self.prove_assumed(listed, pair),
            Ground::OfLemma(number) => self.prove_of_lemma(listed, pair, *number),
        }
    }

    /// Takes a step of a declared pair by a constraint.
    fn prove_by(
        &mut self,
        alloc: Global,
        listed: &mut Listed,
        pair: Pair,
        by: &Name,
        reasons: &[u32],
    ) -> FirstCause
        requires stands { self.old.stage ≡ Stage.Reasoning }
        requires declared { Has (initial_of listed.old.book) pair.var pair.value }
        requires range { All IsStepNumber reasons.now }
        requires kept { IsKept listed.old self.old }
        ensures takes { IfOk result (λ cause. TakesGround (said listed.old.book self.old) pair (Ground.By by.now reasons.now) cause (said listed.new.book self.new)) }
        ensures kept { OnOk result (IsKept listed.new self.new) }
    {
        match check_step(alloc, listed, &self.proved, &pair, by, reasons)? {
            Err(cause) => Ok(Some(cause)),
            Ok(place) => {
                let number = listed.book.constraint(place).number;
                self.begun.constraints.push(u64::from(number))?;
                self.proved.push(pair)?;
                Ok(None)
            }
        }
    }

    /// Takes a step of a declared pair by what is assumed.
    fn prove_assumed(&mut self, listed: &Listed, pair: Pair) -> FirstCause
        requires stands { self.old.stage ≡ Stage.Reasoning }
        requires declared { Has (initial_of listed.now.book) pair.var pair.value }
        requires kept { IsKept listed.now self.old }
        ensures takes { IfOk result (λ cause. TakesGround (said listed.now.book self.old) pair Ground.Assumed cause (said listed.now.book self.new)) }
        ensures kept { OnOk result (IsKept listed.now self.new) }
    {
        let _ = listed;
        if !is_other_assumed(&self.assumed, &pair) {
            return Ok(Some(Cause::NotRight));
        }
        self.proved.push(pair)?;
        Ok(None)
    }

    /// Takes a step of a declared pair by a lemma.
    fn prove_of_lemma(&mut self, listed: &Listed, pair: Pair, number: u64) -> FirstCause
        requires stands { self.old.stage ≡ Stage.Reasoning }
        requires declared { Has (initial_of listed.now.book) pair.var pair.value }
        requires range { IsLemmaNumber number }
        requires kept { IsKept listed.now self.old }
        ensures takes { IfOk result (λ cause. TakesGround (said listed.now.book self.old) pair (Ground.OfLemma number) cause (said listed.now.book self.new)) }
        ensures kept { OnOk result (IsKept listed.now self.new) }
    {
        if number > self.lemmas.len() as u64 {
            return Ok(Some(Cause::Unproved));
        }
        let lemma = &self.lemmas.as_slice()[number as usize - 1];
        if !is_by_others(&self.assumed, lemma.pairs.as_slice(), &pair) {
            return Ok(Some(Cause::NotRight));
        }
        self.begun.lemmas.push(number)?;
        self.proved.push(pair)?;
        Ok(None)
    }

    /// Takes the wipe of a variable, with which the lemma begun is done.
    fn wipe(&mut self, listed: &mut Listed, name: &Name) -> FirstCause
        requires stands { self.old.stage ≡ Stage.Reasoning }
        requires kept { IsKept listed.old self.old }
        ensures takes { IfOk result (λ cause. TakesPhrase (said listed.old.book self.old) (phrases.Wipe name.now) cause (said listed.new.book self.new)) }
        ensures kept { OnOk result (IsKept listed.new self.new) }
    {
        match check_wiped(listed, &self.proved, name) {
            Err(cause) => Ok(Some(cause)),
            Ok(_) => {
                self.add_lemma()?;
                Ok(None)
            }
        }
    }

    /// Adds the lemma begun to those that are done.
    fn add_lemma(&mut self) -> Result<(), NoMemory>
        ensures ok { OnOk result ((book : Contents) → said book self.new ≡ with_wipe (said book self.old)) }
        ensures kept { OnOk result ((book : Contents) → IsReasoned book self.old → IsReasoned book self.new) }
    {
        let lemma = copy_lemma(&self.begun)?;
        self.lemmas.push(lemma)?;
        self.stage = Stage::Wiped;
        Ok(())
    }

    /// Takes the names of the constraints that the last lemma uses.
    fn tell(&mut self, alloc: Global, listed: &Listed, names: &[Name]) -> FirstCause
        requires stands { self.old.stage ≡ Stage.Wiped }
        requires kept { IsKept listed.now self.old }
        ensures takes { IfOk result (λ cause. TakesPhrase (said listed.now.book self.old) (phrases.Users names.now) cause (said listed.now.book self.new)) }
        ensures kept { OnOk result (IsKept listed.now self.new) }
    {
        if !are_listed(&listed.book, names) {
            return Ok(Some(Cause::Misdeclared));
        }
        if self.begun.pairs.len() > 0 {
            return Ok(Some(Cause::NotReached));
        }
        let most = listed.book.constraints();
        let marks = usage(alloc, most, self.lemmas.as_slice(), &self.begun)?;
        if !are_names(&listed.book, &marks, names) {
            return Ok(Some(Cause::NotReached));
        }
        self.stage = Stage::Told(marked_users(alloc, &listed.book, &marks)?);
        Ok(None)
    }
}

/// The verdict on a text: that it is a proof, and the constraints that it proves to have no solution, or its first line
/// that has a cause. A text may be of any length.
pub fn check_proof(alloc: Global, bytes: &[u8]) -> Result<ProofVerdict, NoMemory>
    ensures verdict { IfOk result (IsVerdict bytes.now) }
    ensures named { IfOk result AreOfTheirBook }
{
    check_text::<ProofBody>(alloc, bytes)
}
