//! The variables and constraints that a text lists, with a filter for each constraint and a store of the declared values.
ghost use Rattle.std.specs.Prelude.{◌≡◌, ℤ, ◌<◌, ◌≤◌, [], Some, length, slice_get, All, Contains, IfNone, IfSome, OnOk};
ghost use Rattle.palm_base.specs.Tells.{Tells};
ghost use Rattle.palm_book.specs.Book.{AreValues, HasConstraint, HasVariable, initial_of, with_listed, with_variable};
ghost use Rattle.palm_book.specs.Named.{IsDeclared, IsPair};
ghost use Rattle.palm_book.specs.declared.book.BookCon.{BookCon as BookConTerm};
ghost use Rattle.palm_listed.specs.Lists.{IsListed};
ghost use Rattle.palm_model.specs.Constraint.{IsWellFormed};
ghost use Rattle.palm_model.specs.Domains.{Has, without};
ghost use Rattle.palm_model.specs.Support.{LacksSupport};
ghost use Rattle.palm_read.specs.Name.{IsNameText};

use crate::without::{lacks_support_without, put_back_all, take_out_all};
use palm_base::{NoMemory, Pair, Value, ValueList, Var};
use palm_book::{Book, BookCon, MOST_CONSTRAINTS, MOST_VARIABLES};
use palm_domain::DomainStore;
use palm_kind::Kind;
use palm_model::Con;
use palm_read::Name;
use std::alloc::Global;

/// What a text lists. It is of no use where a variable or a constraint found no memory.
#[derive(Drop)]
pub struct Listed {
    alloc: Global,
    /// The variables and constraints. All constraints are active, and numbered from 1.
    pub book: Book,
    kinds: Vec<Kind>,
    store: DomainStore,
}

impl Listed {
    /// Nothing is listed.
    pub fn new(alloc: Global) -> Listed
        ensures blank { result.book ≡ record { variables = []; constraints = [] } }
        ensures listed { IsListed result }
    {
        Listed {
            alloc,
            book: Book::new(alloc),
            kinds: Vec::new(alloc),
            store: DomainStore::new(alloc),
        }
    }

    /// Adds a variable.
    pub fn declare(&mut self, name: Name, values: ValueList) -> Result<(), NoMemory>
        requires listed { IsListed self.old }
        requires text { IsNameText name }
        requires fresh { HasVariable self.old.book name → ⊥ }
        requires values { AreValues values }
        requires room { MOST_VARIABLES ≤ length self.old.book.variables → ⊥ }
        ensures ok { OnOk result (self.new.book ≡ with_variable self.old.book name values) }
        ensures listed { OnOk result (IsListed self.new) }
    {
        self.store.add_variable(values.as_slice())?;
        self.book.add_variable(name, values)?;
        let _ = self.book.variables();
        Ok(())
    }

    /// Adds a constraint under the next number.
    pub fn list(&mut self, name: Name, con: Con) -> Result<(), NoMemory>
        requires listed { IsListed self.old }
        requires text { IsNameText name }
        requires fresh { HasConstraint self.old.book name → ⊥ }
        requires formed { IsWellFormed (length self.old.book.variables) con }
        requires room { MOST_CONSTRAINTS ≤ length self.old.book.constraints → ⊥ }
        ensures ok { OnOk result (self.new.book ≡ with_listed self.old.book name con) }
        ensures listed { OnOk result (IsListed self.new) }
    {
        let number = self.book.constraints() as u32 + 1;
        self.kinds.push(Kind::from_con(self.alloc, &con)?)?;
        self.book.add_constraint(BookCon {
            number,
            name,
            active: true,
            con,
        })?;
        let _ = self.book.variables();
        Ok(())
    }

    /// The pair of the variable with the name and of the value, where it was declared.
    pub fn declared_pair(&self, name: &Name, value: Value) -> Option<Pair>
        requires { IsListed self.now }
        ensures pair { IfSome result (λ pair. IsPair self.now.book.variables name.now value pair) }
        ensures declared { IfSome result (λ pair. Has (initial_of self.now.book) pair.var pair.value) }
        ensures none { IfNone result (IsDeclared self.now.book.variables name.now value → ⊥) }
    {
        let var = self.book.variable_named(name)?;
        if self.store.declared(Pair { var, value }) {
            Some(Pair { var, value })
        } else {
            None
        }
    }

    /// Whether the pair lacks support in the constraint at a place within the declared values without these pairs.
    pub fn lacks_support(&mut self, pair: &Pair, place: usize, removed: &[Pair]) -> bool
        requires listed { IsListed self.old }
        requires place { place < length self.old.book.constraints }
        requires declared { Has (initial_of self.old.book) pair.now.var pair.now.value }
        requires removed { All (λ p. Has (initial_of self.old.book) p.var p.value) removed.now }
        ensures tells { (c : BookConTerm) → slice_get self.old.book.constraints place ≡ Some c
            → Tells result (LacksSupport (without (initial_of self.old.book) removed.now) c.con pair.now.var pair.now.value) }
        ensures same { self.new.book ≡ self.old.book }
        ensures listed { IsListed self.new }
    {
        lacks_support_without(&mut self.store, &self.kinds[place], pair, removed)
    }

    /// Whether each declared pair of the variable is one of these.
    pub fn is_empty(&mut self, var: Var, removed: &[Pair]) -> bool
        requires listed { IsListed self.old }
        requires declared { var < length self.old.book.variables }
        requires removed { All (λ p. Has (initial_of self.old.book) p.var p.value) removed.now }
        ensures tells { Tells result ((v : ℤ) → Has (initial_of self.old.book) var v → Contains removed.now (record { var = var; value = v })) }
        ensures same { self.new.book ≡ self.old.book }
        ensures listed { IsListed self.new }
    {
        let _ = self.store.variables();
        take_out_all(&mut self.store, removed);
        let is_empty = self.store.count(var) == 0;
        put_back_all(&mut self.store, removed);
        is_empty
    }
}
