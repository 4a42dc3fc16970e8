//! The book of a session: its variables and constraints, by number and by name.
ghost use Rattle.std.specs.Prelude.{◌≡◌, ◌≢◌, ◌<◌, [], ◌∷◌, ◌++◌, length, All, AllPairs, IfSome, IfNone, IfOk, OnOk, OnErr, Some, slice_get, remove};
ghost use Rattle.palm_model.specs.Constraint.{IsWellFormed};

mod by_name;

use crate::limits::{MOST_CONSTRAINTS, MOST_VARIABLES};
use by_name::{ByName, name_at, place_of_name, push_name, remove_at, value_at};
use palm_base::{NoMemory, ValueList, Var};
use palm_model::Con;
use palm_read::Name;
use std::alloc::Global;
use std::marker::Model;

/// A constraint of the book.
#[derive(Debug, Drop)]
pub struct BookCon {
    pub number: u32,
    pub name: Name,
    pub active: bool,
    pub con: Con,
}

/// The variables in the order of their declarations, and the constraints by rising number. Both are found by name.
#[derive(Debug, Drop)]
pub struct Book {
    variables: ByName<ValueList>,
    constraints: ByName<BookCon>,
}

impl Model for Book {
    ghost use Rattle.std.specs.Prelude.{◌≡◌, All};
    ghost use Rattle.palm_book.specs.Book.{Contents, contents, IsBook};

    ghost Value = { Contents };

    ghost view = { λ b. contents b.variables.entries b.constraints.entries };

    ghost invariant = { λ b. IsBook (contents b.variables.entries b.constraints.entries) × All (λ e. e.0 ≡ e.1.name) b.constraints.entries };
}

/// The place of the constraint with this number, by halving.
fn place_of_number(constraints: &[BookCon], number: u32) -> Option<usize>
    requires { AllPairs (λ c d. c.number < d.number) constraints.now }
    ensures found { IfSome result (λ place. IfSome (slice_get constraints.now place) (λ c. c.number ≡ number) × (place < length constraints.now)) }
    ensures none { IfNone result (All (λ c. c.number ≢ number) constraints.now) }
{
    constraints.binary_search_by_key(&number, |c| c.number).ok()
}

impl Book {
    ghost use Rattle.palm_base.specs.Tells.{Tells};
    ghost use Rattle.palm_book.specs.Book.{IsBook, AreValues, name_of, number_name, values_at, with_active, HasConstraint, HasNumber, HasVariable};
    ghost use Rattle.palm_read.specs.Name.{IsNameText};

    /// No variable and no constraint.
    pub fn new(alloc: Global) -> Book
        ensures { result ≡ record { variables = []; constraints = [] } }
    {
        Book {
            variables: ByName::new(alloc),
            constraints: ByName::new(alloc),
        }
    }

    /// How many variables there are.
    pub fn variables(&self) -> u32
        ensures count { result ≡ length self.now.variables }
        ensures valid { IsBook self.now }
    {
        self.variables.len() as u32
    }

    /// The name of a variable.
    pub fn variable_name(&self, var: Var) -> &Name
        requires { var < length self.now.variables }
        ensures { result.now ≡ name_of self.now.variables var }
    {
        name_at(&self.variables, var.0 as usize)
    }

    /// The initial values of a variable.
    pub fn initial(&self, var: Var) -> &ValueList
        requires { var < length self.now.variables }
        ensures { result.now ≡ values_at self.now.variables var }
    {
        value_at(&self.variables, var.0 as usize)
    }

    /// The variable with this name.
    pub fn variable_named(&self, name: &Name) -> Option<Var>
        ensures found { IfSome result (λ x. (x < length self.now.variables) × (name_of self.now.variables x ≡ name.now)) }
        ensures none { IfNone result (All (λ e. e.name ≢ name.now) self.now.variables) }
    {
        let place = place_of_name(&self.variables, name)?;
        Some(Var(place as u32))
    }

    /// Whether a variable has the name.
    pub fn has_variable(&self, name: &Name) -> bool
        ensures { Tells result (HasVariable self.now name.now) }
    {
        match self.variable_named(name) {
            Some(_) => true,
            None => false,
        }
    }

    /// Whether a constraint has the name.
    pub fn has_constraint(&self, name: &Name) -> bool
        ensures { Tells result (HasConstraint self.now name.now) }
    {
        match self.constraint_named(name) {
            Some(_) => true,
            None => false,
        }
    }

    /// How many constraints there are.
    pub fn constraints(&self) -> usize
        ensures count { result ≡ length self.now.constraints }
        ensures valid { IsBook self.now }
    {
        self.constraints.len()
    }

    /// The constraint at a place.
    pub fn constraint(&self, place: usize) -> &BookCon
        requires { place < length self.now.constraints }
        ensures at { slice_get self.now.constraints place ≡ Some result.now }
        ensures formed { IsWellFormed (length self.now.variables) result.now.con }
    {
        value_at(&self.constraints, place)
    }

    /// The place of the constraint with this number.
    pub fn place_of(&self, number: u32) -> Option<usize>
        ensures found { IfSome result (λ place. IfSome (slice_get self.now.constraints place) (λ c. c.number ≡ number) × (place < length self.now.constraints)) }
        ensures none { IfNone result (All (λ c. c.number ≢ number) self.now.constraints) }
    {
        place_of_number(self.constraints.values().as_slice(), number)
    }

    /// The name of the constraint with this number.
    pub fn constraint_name(&self, number: u32) -> &Name
        requires { HasNumber self.now number }
        ensures { result.now ≡ number_name self.now.constraints number }
    {
        match self.place_of(number) {
            Some(place) => &value_at(&self.constraints, place).name,
            None => unreachable!(),
        }
    }

    /// The place of the constraint with this name.
    pub fn constraint_named(&self, name: &Name) -> Option<usize>
        ensures found { IfSome result (λ place. IfSome (slice_get self.now.constraints place) (λ c. c.name ≡ name.now) × (place < length self.now.constraints)) }
        ensures none { IfNone result (All (λ c. c.name ≢ name.now) self.now.constraints) }
    {
        place_of_name(&self.constraints, name)
    }

    /// Adds a variable behind the others; without memory nothing changes.
    pub fn add_variable(&mut self, name: Name, values: ValueList) -> Result<Var, NoMemory>
        requires text { IsNameText name }
        requires fresh { All (λ e. e.name ≢ name) self.old.variables }
        requires values { AreValues values }
        requires room { length self.old.variables < MOST_VARIABLES }
        ensures var { IfOk result (λ x. x ≡ length self.old.variables) }
        ensures ok { OnOk result (self.new ≡ record self.old { variables = self.old.variables ++ record { name = name; values = values } ∷ [] }) }
        ensures err { OnErr result (self.new ≡ self.old) }
    {
        let var = Var(self.variables.len() as u32);
        push_name(&mut self.variables, name, values)?;
        Ok(var)
    }

    /// Adds a constraint behind the others; without memory nothing changes.
    pub fn add_constraint(&mut self, entry: BookCon) -> Result<(), NoMemory>
        requires text { IsNameText entry.name }
        requires fresh { All (λ c. c.name ≢ entry.name) self.old.constraints }
        requires rising { All (λ c. c.number < entry.number) self.old.constraints }
        requires formed { IsWellFormed (length self.old.variables) entry.con }
        requires room { length self.old.constraints < MOST_CONSTRAINTS }
        ensures ok { OnOk result (self.new ≡ record self.old { constraints = self.old.constraints ++ entry ∷ [] }) }
        ensures err { OnErr result (self.new ≡ self.old) }
    {
        let name = entry.name.copy()?;
        push_name(&mut self.constraints, name, entry)?;
        Ok(())
    }

    /// Makes the constraint at a place active or relaxed.
    pub fn set_active(&mut self, place: usize, active: bool)
        requires { place < length self.old.constraints }
        ensures { self.new ≡ record self.old { constraints = with_active self.old.constraints place active } }
    {
        let entry = &mut self.constraints[place];
        entry.active = active;
    }

    /// Takes the constraint at a place out.
    pub fn remove(&mut self, place: usize)
        requires { place < length self.old.constraints }
        ensures { self.new ≡ record self.old { constraints = remove self.old.constraints place } }
    {
        remove_at(&mut self.constraints, place);
    }
}
