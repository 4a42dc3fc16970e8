//! The filter of an element of a list.
ghost use Rattle.std.specs.Prelude.{◌≡◌, ℕ, IfOk};
ghost use Rattle.palm_model.specs.Element.{IsElement};
ghost use Rattle.palm_model.specs.Constraint.{IsWellFormed};

use crate::rule::ElementRule;
use palm_base::{NoMemory, Pair, VarList};
use palm_domain::DomainStore;
use palm_filter::{Filter, Reasons, ValueIndex, whole_or_none};
use palm_model::Con;
use std::alloc::Global;
use std::marker::Model;

/// Filters an element of a list. It finds the places of an outcome, and the entry at an index, without walking the
/// other entries.
#[derive(Debug, Drop)]
pub struct ElementFilter {
    vars: VarList,
    rule: ElementRule,
}

impl Model for ElementFilter {
    ghost use Rattle.std.specs.Prelude.{◌≡◌, ℕ};
    ghost use Rattle.filter_element.specs.Element.{element_of};
    ghost use Rattle.palm_model.specs.Constraint.{IsWellFormed, scope};
    ghost use Rattle.palm_model.specs.declared.constraint.Con.{Con};

    ghost Value = { Con };

    ghost view = { λ f. element_of f.rule };

    ghost invariant = { λ f. (f.vars ≡ scope (element_of f.rule)) × ((variables : ℕ) × IsWellFormed variables (element_of f.rule)) };
}

impl ElementFilter {
    /// The filter of an element of a list.
    pub fn new(alloc: Global, con: &Con) -> Result<ElementFilter, NoMemory>
        requires formed { (variables : ℕ) × IsWellFormed variables con.now }
        requires kind { IsElement con.now }
        ensures { IfOk result (λ filter. filter ≡ con.now) }
    {
        match con {
            Con::Element {
                outcome,
                index,
                entries,
            } => Ok(ElementFilter {
                vars: VarList::from_slice(alloc, &[*outcome, *index])?,
                rule: ElementRule {
                    outcome: *outcome,
                    index: *index,
                    entries: ValueIndex::new(alloc, entries.as_slice())?,
                },
            }),
            _ => unreachable!(),
        }
    }
}

impl Filter for ElementFilter {
    ghost meaning = { λ con. con };

    fn scope(&self) -> &VarList {
        &self.vars
    }

    fn supported(&self, store: &DomainStore, pair: Pair) -> bool {
        if pair.var == self.rule.outcome {
            self.rule.is_entry_reached(store, &pair.value)
        } else {
            self.rule.is_entry_open(store, &pair.value)
        }
    }

    fn reason(&self, store: &DomainStore, pair: Pair, out: &mut Reasons) -> Result<(), NoMemory> {
        out.clear();
        // The store tells here what it holds of its values: a reason is right where they ascend.
        let _ = store.variables();
        let written = self.rule.push_reason(store, &pair, out);
        whole_or_none(written, out)
    }
}
