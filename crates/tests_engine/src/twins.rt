//! Two engines in step: what is said goes to one whose filters tell their shapes, and to one whose filters tell none.
ghost use Rattle.std.specs.Prelude.{ℕ, ◌<◌, length};
ghost use Rattle.palm_model.specs.Constraint.{IsWellFormed};
ghost use Rattle.palm_model.specs.declared.limits.TheConstants.{MOST_SCOPE};
ghost use Rattle.palm_read.specs.Domain.{IsLarge, IsSoundDomain};
ghost use Rattle.palm_read.specs.Limits.{HasManyRows, Repeats, names_of};
ghost use Rattle.palm_read.specs.Name.{IsNameText};
ghost use Rattle.palm_read.specs.Sound.{IsSoundShape};

use crate::alike::assert_alike;
use crate::calls::{add_variable, post, withdraw};
use crate::choice::{Choice, run_settling};
use crate::counted::{Counted, Silent};
use crate::texts::{con_of, has_room, line_of};
use palm_base::{Cid, NoMemory};
use palm_book::{Book, values_in};
use palm_engine::{Engine, Settle};
use palm_kind::Kind;
use palm_model::Con;
use palm_read::{DomainText, Line, Name, Shape};
use std::alloc::Global;
use std::cell::Cell;
use std::process::Abort;

/// How many settlings with a limit may follow one another until nothing is pending.
const MOST_SETTLINGS: u32 = 1_000;

/// How often the filters of the two engines were asked.
#[derive(Drop)]
pub struct Asked {
    pub told: Cell<u64>,
    pub silent: Cell<u64>,
}

impl Asked {
    /// Not at all.
    pub fn new() -> Asked {
        Asked {
            told: Cell::new(0),
            silent: Cell::new(0),
        }
    }
}

/// What two engines are asked, for the message of a failed assertion: the first constraint, what chooses the next revision, how
/// many revisions there are at a time, and how many settlings there were.
#[derive(Clone, Copy, Debug)]
pub struct Problem<'a> {
    pub first: &'a str,
    pub choice: Choice,
    pub limit: Option<u64>,
    pub settlings: u32,
}

/// The two engines, with the variables by their names.
#[derive(Drop)]
pub struct Twins<'a> {
    book: Book,
    told: Engine<Counted<'a>>,
    silent: Engine<Silent<'a>>,
    asked: &'a Asked,
    problem: Problem<'a>,
}

impl<'a> Twins<'a> {
    /// No variable and no constraint.
    pub fn new(alloc: Global, asked: &'a Asked, problem: &Problem<'a>) -> Twins<'a> {
        Twins {
            book: Book::new(alloc),
            told: Engine::new(alloc),
            silent: Engine::new(alloc),
            asked,
            problem: *problem,
        }
    }

    /// Takes a line, and tells whether it is a variable, or a constraint that is posted under the number.
    fn is_taken(&mut self, alloc: Global, number: u32, text: &str) -> Result<bool, NoMemory> {
        match line_of(alloc, text)? {
            Some(Line::Var { name, domain }) => self.declare(alloc, name, domain),
            Some(Line::Add { name: _, shape }) => self.add(alloc, number, shape),
            _ => Ok(false),
        }
    }

    /// Takes a line: a variable, or a constraint that is posted under the number.
    pub fn say(
        &mut self,
        rt: &impl Abort,
        alloc: Global,
        number: u32,
        text: &str,
    ) -> Result<(), NoMemory> {
        let taken = self.is_taken(alloc, number, text)?;
        assert!(rt; taken, "'{text}' is not taken, {:?}", self.problem);
        Ok(())
    }

    /// Appends a variable to both.
    fn declare(&mut self, alloc: Global, name: Name, domain: DomainText) -> Result<bool, NoMemory>
        requires text { IsNameText name }
        requires sound { IsSoundDomain domain }
        requires small { IsLarge domain → ⊥ }
    {
        if !has_room(&self.book, &name) {
            return Ok(false);
        }
        let values = values_in(alloc, domain)?;
        add_variable(&mut self.told, values.as_slice())?;
        add_variable(&mut self.silent, values.as_slice())?;
        self.book.add_variable(name, values)?;
        Ok(true)
    }

    /// Posts the constraint of the shape to both under the number, where it is one.
    fn add(&mut self, alloc: Global, number: u32, shape: Shape) -> Result<bool, NoMemory>
        requires once { Repeats (names_of shape) → ⊥ }
        requires sound { IsSoundShape shape }
        requires narrow { MOST_SCOPE < length (names_of shape) → ⊥ }
        requires few { HasManyRows shape → ⊥ }
    {
        match con_of(alloc, &self.book, shape)? {
            Some(con) => self.post(alloc, number, &con),
            None => Ok(false),
        }
    }

    /// Posts the constraint to both under the number, unless one has it.
    fn post(&mut self, alloc: Global, number: u32, con: &Con) -> Result<bool, NoMemory>
        requires { (variables : ℕ) × IsWellFormed variables con.now }
    {
        let told = Counted {
            kind: Kind::from_con(alloc, con)?,
            asked: &self.asked.told,
        };
        let silent = Silent {
            kind: Kind::from_con(alloc, con)?,
            asked: &self.asked.silent,
        };
        Ok(post(&mut self.told, number, told)? && post(&mut self.silent, number, silent)?)
    }

    /// Withdraws the constraint of the number from both.
    pub fn withdraw(&mut self, rt: &impl Abort, number: u32) {
        let cid = Cid::User(number);
        let active = withdraw(&mut self.told, &cid) && withdraw(&mut self.silent, &cid);
        assert!(rt; active, "{number} is not active, {:?}", self.problem);
    }

    /// Settles both, asserts that they end so and are alike then, and answers how they end.
    fn settle_once(&mut self, rt: &impl Abort, alloc: Global) -> Result<Settle, NoMemory> {
        let Problem { choice, limit, .. } = self.problem;
        let told = run_settling(alloc, &mut self.told, &choice, limit)?;
        let silent = run_settling(alloc, &mut self.silent, &choice, limit)?;
        self.problem.settlings = self.problem.settlings.saturating_add(1);
        assert_eq!(rt; told, silent, "{:?}", self.problem);
        assert_alike(rt, &self.problem, &self.told, &self.silent);
        Ok(told)
    }

    /// Settles both until nothing is pending or a domain is empty, by as many revisions at a time as the limit says, and asserts
    /// that they are alike each time.
    pub fn settle(&mut self, rt: &impl Abort, alloc: Global) -> Result<(), NoMemory> {
        for _ in 0..MOST_SETTLINGS {
            if self.settle_once(rt, alloc)? != Settle::Stopped {
                return Ok(());
            }
        }
        panic!(rt; "something is pending still, {:?}", self.problem)
    }
}
