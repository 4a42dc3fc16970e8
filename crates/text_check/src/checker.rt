//! What is kept of a text: what it lists, and the body of its family.
ghost use Rattle.std.specs.Prelude.{◌≡◌, IfOk, OnOk};
ghost use Rattle.palm_base.specs.Tells.{Tells};
ghost use Rattle.palm_claim.specs.Own.{family_of};
ghost use Rattle.palm_claim.specs.Taking.{TakesLine, TakesStatement};
ghost use Rattle.palm_claim.specs.declared.statement.Statement.TheVariants as statements;
ghost use Rattle.palm_read.specs.Limits.{IsBeyond};
ghost use Rattle.palm_read.specs.Sound.{IsSound};
ghost use Rattle.palm_read.specs.declared.line.Line.TheVariants.{Add, Var};
ghost use Rattle.text_check.specs.Kept.{IsChecker, draft_of};
ghost use Rattle.text_check.specs.Reading.{IsBeyondAlone, IsSoundStatement};

use crate::body::{Body, FirstCause};
use crate::statements::read_statement;
use palm_base::NoMemory;
use palm_book::{MOST_CONSTRAINTS, MOST_VARIABLES, Unresolved, values_in};
use palm_claim::{Cause, Statement};
use palm_listed::Listed;
use palm_read::{DomainText, Name, Shape};
use std::alloc::Global;

/// What is kept of the lines so far.
#[derive(Drop)]
pub struct Checker<B> {
    alloc: Global,
    listed: Listed,
    body: B,
}

impl<B: Body> Checker<B> {
    /// No line was read.
    pub fn new(alloc: Global) -> Checker<B>
        ensures blank { draft_of B.draft result ≡ B.blank }
        ensures kept { IsChecker B.keeps result }
    {
        Checker {
            alloc,
            listed: Listed::new(alloc),
            body: B::new(alloc),
        }
    }

    /// Takes the next line, or answers its first cause.
    pub fn take(&mut self, line: &[u8]) -> FirstCause
        requires { IsChecker B.keeps self.old }
        ensures takes { IfOk result (λ cause. TakesLine (family_of B.own) (draft_of B.draft self.old) line.now cause (draft_of B.draft self.new)) }
        ensures kept { OnOk result (IsChecker B.keeps self.new) }
    {
        let Some(reading) = read_statement::<B>(self.alloc, line)? else {
            return Ok(Some(Cause::Malformed));
        };
        self.hear(reading.statement, reading.is_beyond)
    }

    /// Takes what a line says, or answers its first cause. It is told whether the line breaks a limit by itself.
    fn hear(&mut self, statement: Statement<B::Phrase>, is_beyond: bool) -> FirstCause
        requires sound { IsSoundStatement B.own.phrases statement }
        requires beyond { Tells is_beyond (IsBeyondAlone statement) }
        requires kept { IsChecker B.keeps self.old }
        ensures takes { IfOk result (λ cause. TakesStatement (family_of B.own) (draft_of B.draft self.old) statement cause (draft_of B.draft self.new)) }
        ensures kept { OnOk result (IsChecker B.keeps self.new) }
    {
        match statement {
            Statement::Comment => Ok(None),
            Statement::Variable { name, domain } => self.declare(name, domain, is_beyond),
            Statement::Constraint { name, shape } => self.list(name, shape, is_beyond),
            Statement::Phrase(phrase) if self.body.may_follow(&phrase) => {
                self.body.take(self.alloc, &mut self.listed, phrase)
            }
            Statement::Phrase(_) => Ok(Some(Cause::Malformed)),
        }
    }

    /// Takes a variable.
    fn declare(&mut self, name: Name, domain: DomainText, is_beyond: bool) -> FirstCause
        requires sound { IsSound (Var name domain) }
        requires beyond { Tells is_beyond (IsBeyond (Var name domain)) }
        requires kept { IsChecker B.keeps self.old }
        ensures takes { IfOk result (λ cause. TakesStatement (family_of B.own) (draft_of B.draft self.old) (statements.Variable name domain) cause
            (draft_of B.draft self.new)) }
        ensures kept { OnOk result (IsChecker B.keeps self.new) }
    {
        if !self.body.may_declare() {
            return Ok(Some(Cause::Malformed));
        }
        if self.listed.book.has_variable(&name) {
            return Ok(Some(Cause::Misdeclared));
        }
        if is_beyond || self.listed.book.variables() >= MOST_VARIABLES as u32 {
            return Ok(Some(Cause::Beyond));
        }
        let values = values_in(self.alloc, domain)?;
        self.listed.declare(name, values)?;
        self.body.declared()?;
        Ok(None)
    }

    /// Takes a constraint.
    fn list(&mut self, name: Name, shape: Shape, is_beyond: bool) -> FirstCause
        requires sound { IsSound (Add name shape) }
        requires beyond { Tells is_beyond (IsBeyond (Add name shape)) }
        requires kept { IsChecker B.keeps self.old }
        ensures takes { IfOk result (λ cause. TakesStatement (family_of B.own) (draft_of B.draft self.old) (statements.Constraint name shape) cause
            (draft_of B.draft self.new)) }
        ensures kept { OnOk result (IsChecker B.keeps self.new) }
    {
        if !self.body.may_list() {
            return Ok(Some(Cause::Malformed));
        }
        if self.listed.book.has_constraint(&name) {
            return Ok(Some(Cause::Misdeclared));
        }
        let con = match self.listed.book.resolve(self.alloc, shape) {
            Ok(con) => con,
            Err(Unresolved::UnknownName) => return Ok(Some(Cause::Misdeclared)),
            Err(Unresolved::TooLarge) => return Ok(Some(Cause::Beyond)),
            Err(Unresolved::NoMemory) => return Err(NoMemory),
        };
        if is_beyond || self.listed.book.constraints() >= MOST_CONSTRAINTS {
            return Ok(Some(Cause::Beyond));
        }
        self.listed.list(name, con)?;
        self.body.listed();
        Ok(None)
    }

    /// The verdict where no line is left, and a next one would have this number.
    pub fn ending(self, line: u64) -> B::Verdict
        ensures { result ≡ B.own.ending (draft_of B.draft self) line }
    {
        let Checker { listed, body, .. } = self;
        body.ending(listed.book, line)
    }
}
