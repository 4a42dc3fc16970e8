//! The filter of a constraint that the value of a variable is one of some values.
ghost use Rattle.std.specs.Prelude.{◌≡◌, ℕ, Contains, IfOk};
ghost use Rattle.palm_base.specs.Tells.{Tells};
ghost use Rattle.palm_model.specs.Constraint.{IsWellFormed};
ghost use Rattle.palm_model.specs.Within.{IsWithinCon};

use palm_base::{NoMemory, Pair, Value, Var, VarList};
use palm_domain::DomainStore;
use palm_filter::{Filter, Intervals, Known, Reasons, Rule, ValueIndex};
use palm_model::Con;
use std::alloc::Global;
use std::marker::Model;

/// The values that a variable may have.
#[derive(Debug, Drop)]
pub struct Membership {
    pub var: Var,
    pub values: ValueIndex,
}

/// Filters by whether a value is listed, without walking the list. It looks at no domain.
#[derive(Debug, Drop)]
pub struct WithinFilter {
    vars: VarList,
    membership: Membership,
}

impl Model for WithinFilter {
    ghost use Rattle.std.specs.Prelude.{◌≡◌, ℕ};
    ghost use Rattle.filter_compare.specs.Within.{within_of};
    ghost use Rattle.palm_model.specs.Constraint.{IsWellFormed, scope};
    ghost use Rattle.palm_model.specs.declared.constraint.Con.{Con};

    ghost Value = { Con };

    ghost view = { λ f. within_of f.membership };

    ghost invariant = { λ f. (f.vars ≡ scope (within_of f.membership)) × ((variables : ℕ) × IsWellFormed variables (within_of f.membership)) };
}

impl Membership {
    /// Whether the variable may have the value.
    fn has(&self, value: &Value) -> bool
        ensures { Tells result (Contains self.now.values value.now) }
    {
        self.values.places(value).len() > 0
    }
}

impl WithinFilter {
    /// The filter of a constraint that the value of a variable is one of some values.
    pub fn new(alloc: Global, con: &Con) -> Result<WithinFilter, NoMemory>
        requires formed { (variables : ℕ) × IsWellFormed variables con.now }
        requires kind { IsWithinCon con.now }
        ensures { IfOk result (λ filter. filter ≡ con.now) }
    {
        match con {
            Con::Within { var, values } => Ok(WithinFilter {
                vars: VarList::from_slice(alloc, &[*var])?,
                membership: Membership {
                    var: *var,
                    values: ValueIndex::new(alloc, values.as_slice())?,
                },
            }),
            _ => unreachable!(),
        }
    }
}

impl Filter for WithinFilter {
    ghost meaning = { λ con. con };

    fn scope(&self) -> &VarList {
        &self.vars
    }

    fn supported(&self, _store: &DomainStore, pair: Pair) -> bool {
        self.membership.has(&pair.value)
    }

    fn rule(
        &self,
        _store: &DomainStore,
        _pair: &Pair,
        _out: &mut Intervals,
    ) -> Result<Option<Known>, NoMemory> {
        // What the filter means is told by its fields alone.
        let _ = &self.membership;
        Ok(Some(Known::always(Rule::Empty)))
    }

    fn reason(&self, store: &DomainStore, _pair: Pair, out: &mut Reasons) -> Result<(), NoMemory> {
        out.clear();
        // The store tells here what it holds of its values: a reason is right where they ascend.
        let _ = store.variables();
        // What the filter means is told by its fields alone.
        let _ = &self.membership;
        Ok(())
    }
}
