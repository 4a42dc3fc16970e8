//! The filter of a count.
ghost use Rattle.std.specs.Prelude.{◌≡◌, ◌++◌, ℕ, IfOk};
ghost use Rattle.palm_model.specs.Count.{IsCount, target_scope};
ghost use Rattle.palm_model.specs.Constraint.{IsWellFormed};

use crate::rule::CountRule;
use palm_base::{NoMemory, Pair, VarList};
use palm_domain::DomainStore;
use palm_filter::{Filter, Heed, Reasons, Shape, whole_or_none};
use palm_model::{Con, Target, copy_of};
use std::alloc::Global;
use std::marker::Model;

/// Filters a count. It counts once for each question, and looks at the target by the ends of its
/// domain or by one next value.
#[derive(Debug, Drop)]
pub struct OccurFilter {
    vars: VarList,
    rule: CountRule,
}

impl Model for OccurFilter {
    ghost use Rattle.std.specs.Prelude.{◌≡◌, ℕ};
    ghost use Rattle.filter_occur.specs.Count.{count_of};
    ghost use Rattle.palm_model.specs.Constraint.{IsWellFormed, scope};
    ghost use Rattle.palm_model.specs.declared.constraint.Con.{Con};

    ghost Value = { Con };

    ghost view = { λ f. count_of f.rule };

    ghost invariant = { λ f. (f.vars ≡ scope (count_of f.rule)) × ((variables : ℕ) × IsWellFormed variables (count_of f.rule)) };
}

/// The variables of a count: the counted ones, then the target's.
fn scope_of(alloc: Global, vars: &VarList, target: &Target) -> Result<VarList, NoMemory>
    ensures { IfOk result (λ scope. scope ≡ vars.now ++ target_scope target.now) }
{
    let mut scope = VarList::from_slice(alloc, vars.as_slice())?;
    if let Target::Variable(var) = target {
        scope.push(*var)?;
    }
    Ok(scope)
}

impl OccurFilter {
    /// The filter of a count.
    pub fn new(alloc: Global, con: &Con) -> Result<OccurFilter, NoMemory>
        requires formed { (variables : ℕ) × IsWellFormed variables con.now }
        requires kind { IsCount con.now }
        ensures { IfOk result (λ filter. filter ≡ con.now) }
    {
        match copy_of(alloc, con)? {
            Con::Count {
                value,
                vars,
                op,
                target,
            } => Ok(OccurFilter {
                vars: scope_of(alloc, &vars, &target)?,
                rule: CountRule {
                    value,
                    vars,
                    op,
                    target,
                },
            }),
            _ => unreachable!(),
        }
    }
}

impl Filter for OccurFilter {
    ghost meaning = { λ con. con };

    fn scope(&self) -> &VarList {
        &self.vars
    }

    fn shape(&self, place: usize) -> Shape {
        if place < self.rule.vars.len() {
            Shape::AlikeBut(self.rule.value)
        } else {
            self.rule.target_shape()
        }
    }

    fn heed(&self, place: usize) -> Heed {
        // A loss of another value than the counted one could be left alone, too. But then each removal has to look at each count
        // over its variable again, which costs more than the questions.
        if place < self.rule.vars.len() {
            Heed::Each
        } else {
            self.rule.target_heed()
        }
    }

    fn supported(&self, store: &DomainStore, pair: Pair) -> bool {
        // A store's values ascend, as `variables` tells.
        prove!(store.variables() > 0);
        self.rule.is_reachable(store, &pair)
    }

    fn reason(&self, store: &DomainStore, pair: Pair, out: &mut Reasons) -> Result<(), NoMemory> {
        // A store's values ascend, as `variables` tells.
        prove!(store.variables() > 0);
        out.clear();
        let written = self.rule.push_reason(store, &pair, out);
        whole_or_none(written, out)
    }
}
