//! The filter of a comparison.
ghost use Rattle.std.specs.Prelude.{◌≡◌, ℕ, IfOk};
ghost use Rattle.palm_model.specs.Comparison.{IsComparison};
ghost use Rattle.filter_compare.specs.Comparison.{comparison_of, demand_of};
ghost use Rattle.palm_filter.specs.Heeds.{FitsHeed};
ghost use Rattle.palm_filter.specs.Rules.{FitsAlways};
ghost use Rattle.palm_filter.specs.Shapes.{FitsShape};
ghost use Rattle.palm_model.specs.Constraint.{IsWellFormed};

use crate::demand::{Demand, flipped};
use crate::rule::rule_of;
use palm_base::{NoMemory, Pair, Var, VarList};
use palm_domain::DomainStore;
use palm_filter::{Filter, Heed, Intervals, Known, Reasons, Rule, Shape, whole_or_none};
use palm_model::{Con, Op, number_of};
use std::alloc::Global;
use std::marker::Model;

/// `left op right + offset`
#[derive(Debug, Drop)]
pub struct VarComparison {
    pub left: Var,
    pub op: Op,
    pub right: Var,
    pub offset: i32,
}

/// What is compared.
#[derive(Debug, Drop)]
pub enum Comparison {
    /// Two variables.
    Variables(VarComparison),
    /// A variable and a value.
    Constant(Demand),
}

/// Filters a comparison. It asks for support by the ends of the other variable's domain or by one membership, and
/// never walks a domain.
#[derive(Debug, Drop)]
pub struct CompareFilter {
    vars: VarList,
    comparison: Comparison,
}

impl Model for CompareFilter {
    ghost use Rattle.std.specs.Prelude.{◌≡◌, ℕ};
    ghost use Rattle.filter_compare.specs.Comparison.{comparison_of};
    ghost use Rattle.palm_model.specs.Constraint.{IsWellFormed, scope};
    ghost use Rattle.palm_model.specs.declared.constraint.Con.{Con};

    ghost Value = { Con };

    ghost view = { λ f. comparison_of f.comparison };

    ghost invariant = { λ f. (f.vars ≡ scope (comparison_of f.comparison)) × ((variables : ℕ) × IsWellFormed variables (comparison_of f.comparison)) };
}

impl VarComparison {
    /// What the comparison asks of the other variable, where the variable of the pair has its value.
    pub(crate) fn demand(&self, pair: &Pair) -> Demand
        ensures { result ≡ demand_of self.now pair.now.var pair.now.value }
    {
        let value = number_of(&pair.value);
        if pair.var == self.left {
            Demand {
                var: self.right,
                op: flipped(self.op),
                bound: value - i64::from(self.offset),
            }
        } else {
            Demand {
                var: self.left,
                op: self.op,
                bound: value + i64::from(self.offset),
            }
        }
    }
}

impl VarComparison {
    /// What is known of the support of the variable at a place: those of an order lie together, and of two variables that
    /// differ one rules out a value of the other where it has no other.
    pub(crate) fn shape(&self, place: usize) -> Shape
        requires formed { (variables : ℕ) × IsWellFormed variables (comparison_of (Comparison.Variables self.now)) }
        ensures { FitsShape (comparison_of (Comparison.Variables self.now)) place result }
    {
        match self.op {
            Op::Eq => Shape::Any,
            Op::Ne if place == 0 => Shape::Apart(self.offset),
            Op::Ne => Shape::Apart(-self.offset),
            Op::Lt | Op::Le | Op::Gt | Op::Ge => Shape::Convex,
        }
    }

    /// Which losses of the variable at a place the other one is to heed: of equal variables each, by the one value that it was
    /// equal to, of two that differ one that leaves one value, and in an order that of the end that the other one is compared
    /// with.
    pub(crate) fn heed(&self, place: usize) -> Heed
        requires formed { (variables : ℕ) × IsWellFormed variables (comparison_of (Comparison.Variables self.now)) }
        ensures { FitsHeed (comparison_of (Comparison.Variables self.now)) place result }
    {
        match self.op {
            Op::Eq if place == 0 => Heed::Shifted(-self.offset),
            Op::Eq => Heed::Shifted(self.offset),
            Op::Ne => Heed::Alone,
            Op::Lt | Op::Le if place == 0 => Heed::Least,
            Op::Lt | Op::Le => Heed::Greatest,
            Op::Gt | Op::Ge if place == 0 => Heed::Greatest,
            Op::Gt | Op::Ge => Heed::Least,
        }
    }

    /// The reasons of the values of the pair's variable: the declared values of the other one that would fit.
    pub(crate) fn rule(&self, pair: &Pair) -> Rule
        requires formed { (variables : ℕ) × IsWellFormed variables (comparison_of (Comparison.Variables self.now)) }
        ensures { FitsAlways (comparison_of (Comparison.Variables self.now)) pair.now.var result }
    {
        if pair.var == self.left {
            rule_of(self.right, flipped(self.op), -self.offset)
        } else {
            rule_of(self.left, self.op, self.offset)
        }
    }
}

impl CompareFilter {
    /// The filter of a comparison.
    pub fn new(alloc: Global, con: &Con) -> Result<CompareFilter, NoMemory>
        requires formed { (variables : ℕ) × IsWellFormed variables con.now }
        requires kind { IsComparison con.now }
        ensures { IfOk result (λ filter. filter ≡ con.now) }
    {
        match con {
            Con::CompareVar {
                left,
                op,
                right,
                offset,
            } => Ok(CompareFilter {
                vars: VarList::from_slice(alloc, &[*left, *right])?,
                comparison: Comparison::Variables(VarComparison {
                    left: *left,
                    op: *op,
                    right: *right,
                    offset: *offset,
                }),
            }),
            Con::CompareConst { left, op, value } => Ok(CompareFilter {
                vars: VarList::from_slice(alloc, &[*left])?,
                comparison: Comparison::Constant(Demand {
                    var: *left,
                    op: *op,
                    bound: number_of(value),
                }),
            }),
            _ => unreachable!(),
        }
    }
}

impl Filter for CompareFilter {
    ghost meaning = { λ con. con };

    fn scope(&self) -> &VarList {
        &self.vars
    }

    fn shape(&self, place: usize) -> Shape {
        match &self.comparison {
            Comparison::Variables(comparison) => comparison.shape(place),
            Comparison::Constant(demand) => demand.shape(),
        }
    }

    fn heed(&self, place: usize) -> Heed {
        match &self.comparison {
            Comparison::Variables(comparison) => comparison.heed(place),
            // There is no other variable.
            Comparison::Constant(_) => Heed::Each,
        }
    }

    fn supported(&self, store: &DomainStore, pair: Pair) -> bool {
        match &self.comparison {
            Comparison::Variables(comparison) => comparison.demand(&pair).is_met(store),
            Comparison::Constant(demand) => demand.is_met_by(&pair.value),
        }
    }

    fn rule(
        &self,
        _store: &DomainStore,
        pair: &Pair,
        _out: &mut Intervals,
    ) -> Result<Option<Known>, NoMemory> {
        match &self.comparison {
            Comparison::Variables(comparison) => Ok(Some(Known::always(comparison.rule(pair)))),
            Comparison::Constant(_) => Ok(Some(Known::always(Rule::Empty))),
        }
    }

    fn reason(&self, store: &DomainStore, pair: Pair, out: &mut Reasons) -> Result<(), NoMemory> {
        out.clear();
        // The store tells here what it holds of its values: a reason is right where they ascend.
        let _ = store.variables();
        match &self.comparison {
            Comparison::Variables(comparison) => {
                let written = comparison.demand(&pair).push_declared(store, out);
                whole_or_none(written, out)
            }
            Comparison::Constant(_) => Ok(()),
        }
    }
}
