//! The filter of variables that differ.
ghost use Rattle.std.specs.Prelude.{◌≡◌, ◌++◌, ◌<◌, ℕ, List, length, All, IfOk, OnOk};
ghost use Rattle.palm_filter.specs.Rules.{written};
ghost use Rattle.palm_filter.specs.declared.rule.Interval.{Interval};
ghost use Rattle.palm_model.specs.declared.constraint.Con.{Con};
ghost use Rattle.palm_model.specs.Differ.{IsDiffer, differ_reason};
ghost use Rattle.palm_domain.specs.Rows.{initial_of, present_of};
ghost use Rattle.palm_model.specs.Constraint.{IsWellFormed};

use crate::others::{first_lone, leave_room};
use palm_base::{NoMemory, Pair, Value, Var, VarList};
use palm_domain::DomainStore;
use palm_filter::{
    Filter, Heed, Intervals, Known, Reasons, Rule, Shape, Shift, push_removed, whole_or_none,
};
use palm_model::Con;
use std::alloc::Global;
use std::marker::Model;

/// Filters variables that differ. It asks for support in one pass over the other variables, by how many values each has
/// and by its only one.
#[derive(Debug, Drop)]
pub struct DifferFilter {
    vars: VarList,
}

impl Model for DifferFilter {
    ghost use Rattle.std.specs.Prelude.{ℕ};
    ghost use Rattle.palm_model.specs.Constraint.{IsWellFormed};
    ghost use Rattle.palm_model.specs.declared.constraint.Con.{Con};

    ghost Value = { Con };

    ghost view = { λ f. Con.Differ f.vars };

    ghost invariant = { λ f. (variables : ℕ) × IsWellFormed variables (Con.Differ f.vars) };
}

/// Appends the removed pairs of the first other variable whose only present value is the pair's.
fn push_reason(
    store: &DomainStore,
    vars: &[Var],
    pair: &Pair,
    out: &mut Reasons,
) -> Result<(), NoMemory>
    requires { All (λ x. x < length store.now) vars.now }
    ensures { OnOk result (out.new.items ≡ out.old.items ++ differ_reason (initial_of store.now) (present_of store.now) vars.now pair.now.var pair.now.value) }
{
    match first_lone(store, vars, pair) {
        Some(var) => push_removed(store, var, out),
        None => Ok(()),
    }
}

/// The rule of the pair: each declared value but its own of the first other variable whose only present value is its own.
fn rule_of(store: &DomainStore, vars: &[Var], pair: &Pair) -> Rule
    requires { All (λ x. x < length store.now) vars.now }
    ensures { (c : Con) (intervals : List Interval)
        → written (initial_of store.now) c result intervals pair.now.var pair.now.value ≡ differ_reason (initial_of store.now) (present_of store.now) vars.now pair.now.var pair.now.value }
{
    match first_lone(store, vars, pair) {
        Some(var) => Rule::Other(Shift { var, by: 0 }),
        None => Rule::Empty,
    }
}

impl DifferFilter {
    /// The filter of variables that differ.
    pub fn new(alloc: Global, con: &Con) -> Result<DifferFilter, NoMemory>
        requires formed { (variables : ℕ) × IsWellFormed variables con.now }
        requires kind { IsDiffer con.now }
        ensures { IfOk result (λ filter. filter ≡ con.now) }
    {
        match con {
            Con::Differ { vars } => Ok(DifferFilter {
                vars: VarList::from_slice(alloc, vars.as_slice())?,
            }),
            _ => unreachable!(),
        }
    }
}

impl Filter for DifferFilter {
    ghost meaning = { λ con. con };

    fn scope(&self) -> &VarList {
        &self.vars
    }

    fn shape(&self, _place: usize) -> Shape {
        // What the filter means is told by its field alone.
        let _ = &self.vars;
        Shape::Apart(0)
    }

    fn heed(&self, _place: usize) -> Heed {
        // What the filter means is told by its field alone.
        let _ = &self.vars;
        Heed::Alone
    }

    fn supported(&self, store: &DomainStore, pair: Pair) -> bool {
        leave_room(store, self.vars.as_slice(), &pair)
    }

    fn rule(
        &self,
        store: &DomainStore,
        pair: &Pair,
        _out: &mut Intervals,
    ) -> Result<Option<Known>, NoMemory> {
        Ok(Some(Known {
            rule: rule_of(store, self.vars.as_slice(), pair),
            last: pair.value,
        }))
    }

    fn reason(&self, store: &DomainStore, pair: Pair, out: &mut Reasons) -> Result<(), NoMemory> {
        out.clear();
        // The store tells here that present values ascend: so an only value is one without any other.
        let _ = store.variables();
        let written = push_reason(store, self.vars.as_slice(), &pair, out);
        whole_or_none(written, out)
    }
}
