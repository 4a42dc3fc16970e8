//! The filter of a sum.
ghost use Rattle.std.specs.Prelude.{◌≡◌, ℕ, IfOk};
ghost use Rattle.palm_model.specs.Linear.{IsLinear, term_vars};
ghost use Rattle.palm_model.specs.Constraint.{IsWellFormed};

use crate::reasons::{list_rule, push_reason};
use crate::rule::LinearRule;
use palm_base::{NoMemory, Pair, VarList};
use palm_domain::DomainStore;
use palm_filter::{Filter, Heed, Intervals, Known, Reasons, Shape, whole_or_none};
use palm_model::{Con, Op, TermList};
use std::alloc::Global;
use std::marker::Model;

/// Filters a sum. It asks for support by one pass over the terms, by the ends of the other variables' domains, and
/// never walks a domain.
#[derive(Debug, Drop)]
pub struct LinearFilter {
    vars: VarList,
    rule: LinearRule,
}

impl Model for LinearFilter {
    ghost use Rattle.std.specs.Prelude.{◌≡◌, ℕ};
    ghost use Rattle.filter_linear.specs.Linear.{linear_of};
    ghost use Rattle.palm_model.specs.Constraint.{IsWellFormed};
    ghost use Rattle.palm_model.specs.Linear.{term_vars};
    ghost use Rattle.palm_model.specs.declared.constraint.Con.{Con};

    ghost Value = { Con };

    ghost view = { λ f. linear_of f.rule };

    ghost invariant = { λ f. (f.vars ≡ term_vars f.rule.terms) × ((variables : ℕ) × IsWellFormed variables (linear_of f.rule)) };
}

impl LinearFilter {
    /// The filter of a sum.
    pub fn new(alloc: Global, con: &Con) -> Result<LinearFilter, NoMemory>
        requires formed { (variables : ℕ) × IsWellFormed variables con.now }
        requires kind { IsLinear con.now }
        ensures { IfOk result (λ filter. filter ≡ con.now) }
    {
        match con {
            Con::Linear { terms, op, bound } => Ok(LinearFilter {
                vars: variables_of(alloc, terms)?,
                rule: LinearRule {
                    terms: terms.copy()?,
                    op: *op,
                    bound: *bound,
                },
            }),
            _ => unreachable!(),
        }
    }
}

/// The variables of the terms, in their order.
fn variables_of(alloc: Global, terms: &TermList) -> Result<VarList, NoMemory>
    ensures { IfOk result (λ vars. vars ≡ term_vars terms.now) }
{
    let mut vars = VarList::new(alloc);
    for term in terms.as_slice() {
        vars.push(term.var)?;
    }
    Ok(vars)
}

impl Filter for LinearFilter {
    ghost meaning = { λ con. con };

    fn scope(&self) -> &VarList {
        &self.vars
    }

    fn shape(&self, _place: usize) -> Shape {
        match self.rule.op {
            Op::Ne if self.vars.len() > 1 => Shape::Guarded,
            Op::Ne => Shape::Any,
            Op::Eq | Op::Lt | Op::Le | Op::Gt | Op::Ge => Shape::Convex,
        }
    }

    fn heed(&self, place: usize) -> Heed {
        self.rule.heed(&self.rule.terms.as_slice()[place])
    }

    fn supported(&self, store: &DomainStore, pair: Pair) -> bool {
        self.rule.is_met(store, &pair)
    }

    fn rule(
        &self,
        store: &DomainStore,
        pair: &Pair,
        out: &mut Intervals,
    ) -> Result<Option<Known>, NoMemory> {
        list_rule(&self.rule, store, pair, out)
    }

    fn reason(&self, store: &DomainStore, pair: Pair, out: &mut Reasons) -> Result<(), NoMemory> {
        out.clear();
        // The store tells here what it holds of its values: a reason is right where they ascend.
        let _ = store.variables();
        let written = push_reason(&self.rule, store, &pair, out);
        whole_or_none(written, out)
    }
}
