//! Variables in place of names.
ghost use Rattle.std.specs.Prelude.{◌≡◌, ◌<◌, [], ◌∷◌, ◌++◌, All, Any, IfOk, IsErrOf, length, map};
ghost use Rattle.palm_model.specs.Count.{target_scope};
ghost use Rattle.palm_read.specs.Count.{line_target_names};
ghost use Rattle.palm_read.specs.Domain.{IsLarge};
ghost use Rattle.palm_read.specs.Limits.{HasManyRows, names_of};
ghost use Rattle.palm_book.specs.Book.{name_of};
ghost use Rattle.palm_book.specs.Named.{named_target, named_term, IsUnknownName, Resolves};
ghost use Rattle.palm_book.specs.declared.resolve.Unresolved.TheVariants as Unresolved;
ghost use Rattle.palm_read.specs.declared.line.Shape.TheVariants as Shape;

use crate::book::Book;
use crate::domains::written_out;
use palm_base::{NoMemory, Value, ValueList, Var, VarList};
use palm_model::{Con, Op, RowList, Target, Term, TermList};
use palm_read::{DomainText, Name, NameList, NameTarget, NameTerm, NameTermList, Shape, is_large};
use std::alloc::Global;
use thiserror::Error;

/// Why no constraint stands for a shape.
#[derive(Clone, Copy, Debug, PartialEq, Eq, Error)]
pub enum Unresolved {
    /// A name in it names no variable.
    #[error("unknown variable")]
    UnknownName,
    /// Its names are known, and its domain has more values than it may have.
    #[error("too many values")]
    TooLarge,
    /// No memory for the constraint.
    #[error("out of memory")]
    NoMemory,
}

impl From<NoMemory> for Unresolved {
    ghost from_gives = { λ _ e. e ≡ Unresolved.NoMemory };

    fn from(_error: NoMemory) -> Unresolved {
        Unresolved::NoMemory
    }
}

impl Book {
    /// The constraint that a shape says of the variables, or that one of its names is unknown, or else that its domain has
    /// too many values. Each name is looked up once, and a domain that is too large is not written out.
    pub fn resolve(&self, alloc: Global, shape: Shape) -> Result<Con, Unresolved>
        ensures says { IfOk result (Resolves self.now.variables shape) }
        ensures unknown { IsErrOf result Unresolved.UnknownName → Any (IsUnknownName self.now.variables) (names_of shape) }
        ensures large { IsErrOf result Unresolved.TooLarge → HasManyRows shape × (Any (IsUnknownName self.now.variables) (names_of shape) → ⊥) }
    {
        match shape {
            Shape::CompareVar {
                left,
                op,
                right,
                offset,
            } => self.compare_var(&left, op, &right, &offset),
            Shape::CompareConst { left, op, value } => self.compare_const(&left, op, value),
            Shape::Linear { terms, op, bound } => self.linear(alloc, &terms, op, &bound),
            Shape::Table { vars, rows } => self.table(alloc, &vars, rows),
            Shape::Element {
                outcome,
                index,
                entries,
            } => self.element(&outcome, &index, entries),
            Shape::Count {
                value,
                vars,
                op,
                target,
            } => self.count(alloc, value, &vars, op, &target),
            Shape::Differ { vars } => self.differ(alloc, &vars),
            Shape::Within { var, domain } => self.within(alloc, &var, domain),
        }
    }

    fn compare_var(
        &self,
        left: &Name,
        op: Op,
        right: &Name,
        offset: &i32,
    ) -> Result<Con, Unresolved>
        ensures says { IfOk result (Resolves self.now.variables (Shape.CompareVar left.now op right.now offset.now)) }
        ensures unknown { IsErrOf result Unresolved.UnknownName → Any (IsUnknownName self.now.variables) (left.now ∷ right.now ∷ []) }
        ensures small { IsErrOf result Unresolved.TooLarge → ⊥ }
    {
        Ok(Con::CompareVar {
            left: self.var_of(left)?,
            op,
            right: self.var_of(right)?,
            offset: *offset,
        })
    }

    fn compare_const(&self, left: &Name, op: Op, value: Value) -> Result<Con, Unresolved>
        ensures says { IfOk result (Resolves self.now.variables (Shape.CompareConst left.now op value)) }
        ensures unknown { IsErrOf result Unresolved.UnknownName → Any (IsUnknownName self.now.variables) (left.now ∷ []) }
        ensures small { IsErrOf result Unresolved.TooLarge → ⊥ }
    {
        Ok(Con::CompareConst {
            left: self.var_of(left)?,
            op,
            value,
        })
    }

    fn linear(
        &self,
        alloc: Global,
        terms: &NameTermList,
        op: Op,
        bound: &i64,
    ) -> Result<Con, Unresolved>
        ensures says { IfOk result (Resolves self.now.variables (Shape.Linear terms.now op bound.now)) }
        ensures unknown { IsErrOf result Unresolved.UnknownName → Any (λ t. IsUnknownName self.now.variables t.name) terms.now }
        ensures small { IsErrOf result Unresolved.TooLarge → ⊥ }
    {
        Ok(Con::Linear {
            terms: self.terms_of(alloc, terms.as_slice())?,
            op,
            bound: *bound,
        })
    }

    fn table(&self, alloc: Global, vars: &NameList, rows: RowList) -> Result<Con, Unresolved>
        ensures says { IfOk result (Resolves self.now.variables (Shape.Table vars.now rows)) }
        ensures unknown { IsErrOf result Unresolved.UnknownName → Any (IsUnknownName self.now.variables) vars.now }
        ensures small { IsErrOf result Unresolved.TooLarge → ⊥ }
    {
        Ok(Con::Table {
            vars: self.vars_of(alloc, vars.as_slice())?,
            rows,
        })
    }

    fn element(&self, outcome: &Name, index: &Name, entries: ValueList) -> Result<Con, Unresolved>
        ensures says { IfOk result (Resolves self.now.variables (Shape.Element outcome.now index.now entries)) }
        ensures unknown { IsErrOf result Unresolved.UnknownName → Any (IsUnknownName self.now.variables) (outcome.now ∷ index.now ∷ []) }
        ensures small { IsErrOf result Unresolved.TooLarge → ⊥ }
    {
        Ok(Con::Element {
            outcome: self.var_of(outcome)?,
            index: self.var_of(index)?,
            entries,
        })
    }

    fn count(
        &self,
        alloc: Global,
        value: Value,
        vars: &NameList,
        op: Op,
        target: &NameTarget,
    ) -> Result<Con, Unresolved>
        ensures says { IfOk result (Resolves self.now.variables (Shape.Count value vars.now op target.now)) }
        ensures unknown { IsErrOf result Unresolved.UnknownName → Any (IsUnknownName self.now.variables) (vars.now ++ line_target_names target.now) }
        ensures small { IsErrOf result Unresolved.TooLarge → ⊥ }
    {
        Ok(Con::Count {
            value,
            vars: self.vars_of(alloc, vars.as_slice())?,
            op,
            target: self.target_of(target)?,
        })
    }

    fn differ(&self, alloc: Global, vars: &NameList) -> Result<Con, Unresolved>
        ensures says { IfOk result (Resolves self.now.variables (Shape.Differ vars.now)) }
        ensures unknown { IsErrOf result Unresolved.UnknownName → Any (IsUnknownName self.now.variables) vars.now }
        ensures small { IsErrOf result Unresolved.TooLarge → ⊥ }
    {
        Ok(Con::Differ {
            vars: self.vars_of(alloc, vars.as_slice())?,
        })
    }

    fn within(&self, alloc: Global, var: &Name, domain: DomainText) -> Result<Con, Unresolved>
        ensures says { IfOk result (Resolves self.now.variables (Shape.Within var.now domain)) }
        ensures unknown { IsErrOf result Unresolved.UnknownName → Any (IsUnknownName self.now.variables) (var.now ∷ []) }
        ensures large { IsErrOf result Unresolved.TooLarge → IsLarge domain × (Any (IsUnknownName self.now.variables) (var.now ∷ []) → ⊥) }
    {
        let var = self.var_of(var)?;
        if is_large(&domain) {
            return Err(Unresolved::TooLarge);
        }
        let values = written_out(alloc, domain)?;
        Ok(Con::Within { var, values })
    }

    /// The variable with the name.
    fn var_of(&self, name: &Name) -> Result<Var, Unresolved>
        ensures declared { IfOk result (λ x. x < length self.now.variables) }
        ensures named { IfOk result (λ x. name_of self.now.variables x ≡ name.now) }
        ensures unknown { IsErrOf result Unresolved.UnknownName → IsUnknownName self.now.variables name.now }
        ensures small { IsErrOf result Unresolved.TooLarge → ⊥ }
    {
        match self.variable_named(name) {
            Some(var) => Ok(var),
            None => Err(Unresolved::UnknownName),
        }
    }

    /// The variables with the names.
    fn vars_of(&self, alloc: Global, names: &[Name]) -> Result<VarList, Unresolved>
        ensures declared { IfOk result (All (λ x. x < length self.now.variables)) }
        ensures named { IfOk result (λ vars. map (name_of self.now.variables) vars ≡ names.now) }
        ensures unknown { IsErrOf result Unresolved.UnknownName → Any (IsUnknownName self.now.variables) names.now }
        ensures small { IsErrOf result Unresolved.TooLarge → ⊥ }
    {
        let mut vars = VarList::new(alloc);
        for name in names {
            vars.push(self.var_of(name)?)?;
        }
        Ok(vars)
    }

    /// The terms with variables in place of names.
    fn terms_of(&self, alloc: Global, terms: &[NameTerm]) -> Result<TermList, Unresolved>
        ensures declared { IfOk result (All (λ t. t.var < length self.now.variables)) }
        ensures named { IfOk result (λ list. map (named_term self.now.variables) list ≡ terms.now) }
        ensures unknown { IsErrOf result Unresolved.UnknownName → Any (λ t. IsUnknownName self.now.variables t.name) terms.now }
        ensures small { IsErrOf result Unresolved.TooLarge → ⊥ }
    {
        let mut list = TermList::new(alloc);
        for term in terms {
            list.push(Term {
                factor: term.factor,
                var: self.var_of(&term.name)?,
            })?;
        }
        Ok(list)
    }

    /// The target with a variable in place of a name.
    fn target_of(&self, target: &NameTarget) -> Result<Target, Unresolved>
        ensures declared { IfOk result (λ chosen. All (λ x. x < length self.now.variables) (target_scope chosen)) }
        ensures named { IfOk result (λ chosen. named_target self.now.variables chosen ≡ target.now) }
        ensures unknown { IsErrOf result Unresolved.UnknownName → Any (IsUnknownName self.now.variables) (line_target_names target.now) }
        ensures small { IsErrOf result Unresolved.TooLarge → ⊥ }
    {
        Ok(match target {
            NameTarget::Const(value) => Target::Const(*value),
            NameTarget::Variable(name) => Target::Variable(self.var_of(name)?),
        })
    }
}
