//! Whether a line that was read is admitted: its refusals, in the order in which they are looked for, and what it asks
//! for, each name looked up once.
ghost use Rattle.std.specs.Prelude.{◌≡◌, IfOk};
ghost use Rattle.palm_base.specs.Tells.{Tells};
ghost use Rattle.palm_read.specs.Limits.{IsBeyond};
ghost use Rattle.palm_session.specs.Refusals.{IsFullOfConstraints, IsFullOfVariables, refusal_of};
ghost use Rattle.palm_session.specs.Requests.{Admission, FindsPair, IsNew};
ghost use Rattle.palm_session.specs.State.{IsHeld};

use crate::desk::Desk;
use crate::request::{Procedure, Question, Request};
use palm_agenda::Order;
use palm_base::{NoMemory, Pair, Value};
use palm_guide::Guide;
use palm_lang::{
    DomainText, Line, LineError, MOST_ADDED, Name, Refusal, Shape, Unresolved, beyond,
    most_constraints, most_variables,
};

/// The refusal of a line that could not be read; want of memory has none.
pub(crate) fn refusal_of(error: LineError) -> Option<Refusal>
    ensures { result ≡ refusal_of error }
{
    match error {
        LineError::Bytes => Some(Refusal::E1),
        LineError::Form => Some(Refusal::E2),
        LineError::Range => Some(Refusal::E6),
        LineError::Empty => Some(Refusal::E9),
        LineError::Repeated => Some(Refusal::E8),
        LineError::NoMemory => None,
    }
}

impl<G: Guide, O: Order> Desk<G, O> {
    /// What a line asks for, or its first refusal.
    pub(crate) fn admit(&self, line: Line) -> Result<Result<Request, Refusal>, NoMemory>
        requires { IsHeld self.now.state }
        ensures { IfOk result (Admission self.now.state line) }
    {
        match line {
            Line::Comment => Ok(Ok(Request::Nothing)),
            Line::Header => Ok(Ok(Request::Header)),
            Line::Var { .. } | Line::VarIn { .. } | Line::Add { .. } => self.admit_new(line),
            Line::Relax(name) => Ok(self.admit_relax(&name)),
            Line::Enforce(name) => Ok(self.admit_enforce(&name)),
            Line::Retract(name) => Ok(self.admit_retract(&name)),
            Line::Domains => Ok(Ok(Request::Ask(Question::Domains))),
            Line::Domain(name) => Ok(self.admit_domain(&name)),
            Line::List => Ok(Ok(Request::Ask(Question::List))),
            Line::Log => Ok(Ok(Request::Ask(Question::Log))),
            Line::Why { name, value } => Ok(self.admit_why(&name, value)),
            Line::Conflict => Ok(Ok(Request::Ask(Question::Conflict))),
            Line::Minimal { name, value } => Ok(self.admit_minimal(&name, value)),
            Line::MinimalConflict => Ok(Ok(Request::Ask(Question::MinimalConflict))),
            Line::Cert { name, value } => Ok(self.admit_cert(&name, value)),
            Line::CertConflict => Ok(Ok(Request::Ask(Question::CertConflict))),
            Line::Pause => Ok(self.admit_pause()),
            Line::Resume => Ok(self.admit_resume()),
            Line::Step(count) => Ok(self.admit_step(count)),
            Line::SolveDbt { budget } => Ok(Ok(Request::Solve(Procedure::Dbt { budget }))),
            Line::SolveRepair { tabu, budget } => {
                Ok(Ok(Request::Solve(Procedure::Repair { tabu, budget })))
            }
            Line::Prove { budget } => Ok(Ok(Request::Solve(Procedure::Proof { budget }))),
            Line::Minimize { target, budget } => Ok(self.admit_minimize(&target, budget)),
            Line::Prefer { name, weight } => Ok(self.admit_prefer(&name, weight)),
            Line::PreferNone(name) => Ok(self.admit_prefer_none(&name)),
            Line::Preferred => Ok(Ok(Request::Ask(Question::Preferred))),
            Line::Guide(number) => Ok(self.admit_guide(number)),
            Line::GuideNone => Ok(Ok(Request::ChooseGuide(None))),
            Line::Order(number) => Ok(self.admit_order(number)),
            Line::OrderNone => Ok(Ok(Request::ChooseOrder(None))),
            Line::DropGuide(number) => Ok(self.admit_drop_guide(number)),
            Line::DropOrder(number) => Ok(self.admit_drop_order(number)),
            Line::Quit => Ok(Ok(Request::Quit)),
        }
    }

    /// A line that declares or adds: its name is free, then its names are known, then it is within the limits.
    fn admit_new(&self, line: Line) -> Result<Result<Request, Refusal>, NoMemory>
        requires { IsNew line }
        ensures { IfOk result (Admission self.now.state line) }
    {
        let is_beyond = beyond(&line);
        self.admit_within(line, is_beyond)
    }

    /// The same, where it is known whether the line goes beyond a limit by itself.
    fn admit_within(
        &self,
        line: Line,
        is_beyond: bool,
    ) -> Result<Result<Request, Refusal>, NoMemory>
        requires new { IsNew line }
        requires over { Tells is_beyond (IsBeyond line) }
        ensures { IfOk result (Admission self.now.state line) }
    {
        match line {
            Line::Var { name, domain } => Ok(self.admit_var(name, domain, is_beyond)),
            Line::VarIn {
                name,
                universe,
                domain,
            } => Ok(self.admit_var_in(name, universe, domain, is_beyond)),
            Line::Add { name, shape } => self.admit_add(name, shape, is_beyond),
            _ => unreachable!(),
        }
    }

    /// `var`, of which it is known whether it goes beyond a limit by itself.
    fn admit_var(&self, name: Name, domain: DomainText, is_beyond: bool) -> Result<Request, Refusal>
        requires { Tells is_beyond (IsBeyond (Line.Var name domain)) }
        ensures { Admission self.now.state (Line.Var name domain) result }
    {
        if self.book().has_variable(&name) {
            return Err(Refusal::E3);
        }
        if is_beyond || self.is_full_of_variables() {
            return Err(Refusal::E7);
        }
        Ok(Request::Declare { name, domain })
    }

    /// `var` with a universe and a domain, of which it is known whether it goes beyond a limit by itself.
    fn admit_var_in(
        &self,
        name: Name,
        universe: DomainText,
        domain: DomainText,
        is_beyond: bool,
    ) -> Result<Request, Refusal>
        requires { Tells is_beyond (IsBeyond (Line.VarIn name universe domain)) }
        ensures { Admission self.now.state (Line.VarIn name universe domain) result }
    {
        if self.book().has_variable(&name) || self.book().has_constraint(&name) {
            return Err(Refusal::E3);
        }
        if is_beyond || self.is_full_of_variables() || self.is_full() {
            return Err(Refusal::E7);
        }
        Ok(Request::DeclareIn {
            name,
            universe,
            domain,
        })
    }

    /// `add`, of which it is known whether it goes beyond a limit by itself.
    fn admit_add(
        &self,
        name: Name,
        shape: Shape,
        is_beyond: bool,
    ) -> Result<Result<Request, Refusal>, NoMemory>
        requires { Tells is_beyond (IsBeyond (Line.Add name shape)) }
        ensures { IfOk result (Admission self.now.state (Line.Add name shape)) }
    {
        if self.book().has_constraint(&name) {
            return Ok(Err(Refusal::E3));
        }
        let con = match self.book().resolve(self.alloc(), shape) {
            Ok(con) => con,
            Err(Unresolved::UnknownName) => return Ok(Err(Refusal::E4)),
            Err(Unresolved::TooLarge) => return Ok(Err(Refusal::E7)),
            Err(Unresolved::NoMemory) => return Err(NoMemory),
        };
        if is_beyond {
            return Ok(Err(Refusal::E7));
        }
        if self.is_full() {
            return Ok(Err(Refusal::E7));
        }
        Ok(Ok(Request::Add { name, con }))
    }

    /// Whether there is no room for one more variable.
    fn is_full_of_variables(&self) -> bool
        ensures { Tells result (IsFullOfVariables self.now.state) }
    {
        self.book().variables() as usize >= most_variables(self.mode())
    }

    /// Whether there is no room for one more constraint, or no number.
    fn is_full(&self) -> bool
        ensures { Tells result (IsFullOfConstraints self.now.state) }
    {
        self.book().constraints() >= most_constraints(self.mode()) || self.accepted() >= MOST_ADDED
    }

    /// `relax`: there is a constraint with the name, and it is active.
    fn admit_relax(&self, name: &Name) -> Result<Request, Refusal>
        requires { IsHeld self.now.state }
        ensures { Admission self.now.state (Line.Relax name.now) result }
    {
        let Some(place) = self.book().constraint_named(name) else {
            return Err(Refusal::E5);
        };
        if !self.book().constraint(place).active {
            return Err(Refusal::E10);
        }
        Ok(Request::Relax(place))
    }

    /// `enforce`: there is a constraint with the name, and it is relaxed.
    fn admit_enforce(&self, name: &Name) -> Result<Request, Refusal>
        requires { IsHeld self.now.state }
        ensures { Admission self.now.state (Line.Enforce name.now) result }
    {
        let Some(place) = self.book().constraint_named(name) else {
            return Err(Refusal::E5);
        };
        if self.book().constraint(place).active {
            return Err(Refusal::E10);
        }
        Ok(Request::Enforce(place))
    }

    /// `retract`: there is a constraint with the name.
    fn admit_retract(&self, name: &Name) -> Result<Request, Refusal>
        ensures { Admission self.now.state (Line.Retract name.now) result }
    {
        match self.book().constraint_named(name) {
            Some(place) => Ok(Request::Retract(place)),
            None => Err(Refusal::E5),
        }
    }

    /// `prefer`: there is a constraint with the name.
    fn admit_prefer(&self, name: &Name, weight: u32) -> Result<Request, Refusal>
        ensures { Admission self.now.state (Line.Prefer name.now weight) result }
    {
        match self.book().constraint_named(name) {
            Some(place) => Ok(Request::Prefer {
                place,
                weight: Some(weight),
            }),
            None => Err(Refusal::E5),
        }
    }

    /// `prefer` with `none`: there is a constraint with the name.
    fn admit_prefer_none(&self, name: &Name) -> Result<Request, Refusal>
        ensures { Admission self.now.state (Line.PreferNone name.now) result }
    {
        match self.book().constraint_named(name) {
            Some(place) => Ok(Request::Prefer {
                place,
                weight: None,
            }),
            None => Err(Refusal::E5),
        }
    }

    /// `domain`: there is a variable with the name.
    fn admit_domain(&self, name: &Name) -> Result<Request, Refusal>
        ensures { Admission self.now.state (Line.Domain name.now) result }
    {
        match self.book().variable_named(name) {
            Some(var) => Ok(Request::Ask(Question::Domain(var))),
            None => Err(Refusal::E4),
        }
    }

    /// `minimize`: there is a variable with the name.
    fn admit_minimize(&self, name: &Name, budget: u64) -> Result<Request, Refusal>
        ensures { Admission self.now.state (Line.Minimize name.now budget) result }
    {
        match self.book().variable_named(name) {
            Some(target) => Ok(Request::Solve(Procedure::Least { target, budget })),
            None => Err(Refusal::E4),
        }
    }

    /// The pair that a name and a value stand for: there is a variable with the name, declared with the value.
    fn declared_pair(&self, name: &Name, value: Value) -> Result<Pair, Refusal>
        requires { IsHeld self.now.state }
        ensures { FindsPair self.now.state name.now value result }
    {
        let Some(var) = self.book().variable_named(name) else {
            return Err(Refusal::E4);
        };
        if !self.engine().store().declared(Pair { var, value }) {
            return Err(Refusal::E12);
        }
        Ok(Pair { var, value })
    }

    /// `why`: the pair is declared.
    fn admit_why(&self, name: &Name, value: Value) -> Result<Request, Refusal>
        requires { IsHeld self.now.state }
        ensures { Admission self.now.state (Line.Why name.now value) result }
    {
        match self.declared_pair(name, value) {
            Ok(pair) => Ok(Request::Ask(Question::Why(pair))),
            Err(refusal) => Err(refusal),
        }
    }

    /// `minimal`: the pair is declared.
    fn admit_minimal(&self, name: &Name, value: Value) -> Result<Request, Refusal>
        requires { IsHeld self.now.state }
        ensures { Admission self.now.state (Line.Minimal name.now value) result }
    {
        match self.declared_pair(name, value) {
            Ok(pair) => Ok(Request::Ask(Question::Minimal(pair))),
            Err(refusal) => Err(refusal),
        }
    }

    /// `cert`: the pair is declared.
    fn admit_cert(&self, name: &Name, value: Value) -> Result<Request, Refusal>
        requires { IsHeld self.now.state }
        ensures { Admission self.now.state (Line.Cert name.now value) result }
    {
        match self.declared_pair(name, value) {
            Ok(pair) => Ok(Request::Ask(Question::Cert(pair))),
            Err(refusal) => Err(refusal),
        }
    }

    /// `pause`: filtering does not wait yet.
    fn admit_pause(&self) -> Result<Request, Refusal>
        ensures { Admission self.now.state Line.Pause result }
    {
        if self.is_paused() {
            return Err(Refusal::E10);
        }
        Ok(Request::Pause)
    }

    /// `resume`: filtering waits.
    fn admit_resume(&self) -> Result<Request, Refusal>
        ensures { Admission self.now.state Line.Resume result }
    {
        if !self.is_paused() {
            return Err(Refusal::E10);
        }
        Ok(Request::Resume)
    }

    /// `step`: filtering waits.
    fn admit_step(&self, count: u64) -> Result<Request, Refusal>
        ensures { Admission self.now.state (Line.Step count) result }
    {
        if !self.is_paused() {
            return Err(Refusal::E10);
        }
        Ok(Request::Step(count))
    }

    /// `guide`: there is a guide with the number.
    fn admit_guide(&self, number: u32) -> Result<Request, Refusal>
        ensures { Admission self.now.state (Line.Guide number) result }
    {
        if !self.has_guide(number) {
            return Err(Refusal::E11);
        }
        Ok(Request::ChooseGuide(Some(number)))
    }

    /// `order`: there is an order with the number.
    fn admit_order(&self, number: u32) -> Result<Request, Refusal>
        ensures { Admission self.now.state (Line.Order number) result }
    {
        if !self.has_order(number) {
            return Err(Refusal::E11);
        }
        Ok(Request::ChooseOrder(Some(number)))
    }

    /// `drop guide`: there is a guide with the number.
    fn admit_drop_guide(&self, number: u32) -> Result<Request, Refusal>
        ensures { Admission self.now.state (Line.DropGuide number) result }
    {
        if !self.has_guide(number) {
            return Err(Refusal::E11);
        }
        Ok(Request::DropGuide(number))
    }

    /// `drop order`: there is an order with the number.
    fn admit_drop_order(&self, number: u32) -> Result<Request, Refusal>
        ensures { Admission self.now.state (Line.DropOrder number) result }
    {
        if !self.has_order(number) {
            return Err(Refusal::E11);
        }
        Ok(Request::DropOrder(number))
    }
}
