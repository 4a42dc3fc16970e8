//! The rule of a table of two columns: the intervals of the values that stand beside a value.
ghost use Rattle.std.specs.Prelude.{◌≡◌, ◌++◌, ◌<◌, ℤ, Bool, length, filter, All, Contains, IfOk, IfSome, OnOk};
ghost use Rattle.filter_table.specs.Beside.{HasBit};
ghost use Rattle.filter_table.specs.Table.{IsIndexed, table_of};
ghost use Rattle.palm_base.specs.Tells.{Tells};
ghost use Rattle.palm_domain.specs.Rows.{initial_of, present_of};
ghost use Rattle.palm_filter.specs.Rules.{FitsRule, listed_pairs};
ghost use Rattle.palm_model.specs.Domains.{Domains, values_of};
ghost use Rattle.palm_model.specs.Removed.{pairs_of};

use crate::beside::Beside;
use crate::indexed::{IndexedTable, column_of_two};
use palm_base::{NoMemory, Pair, Value, Var};
use palm_domain::DomainStore;
use palm_filter::{Intervals, Known, Rule, push_interval};

impl Beside {
    /// Appends the intervals of those of the variable's declared values that stand beside the value: a run of them goes on
    /// to the next one that does not.
    fn push_intervals(
        &self,
        own: Value,
        var: &Var,
        declared: &[Value],
        out: &mut Intervals,
    ) -> Result<(), NoMemory>
        ensures { (d : Domains) (test : ℤ → Bool) → values_of d var.now ≡ declared.now
            → ((w : ℤ) → Tells (test w) (HasBit self.now own w))
            → OnOk result (listed_pairs d out.new.items ≡ listed_pairs d out.old.items ++ pairs_of var.now (filter test declared.now)) }
    {
        let mut first = 0;
        for place in 0..declared.len() {
            if !self.has(own, declared[place]) {
                push_interval(var, first, place, out)?;
                first = place + 1;
            }
        }
        push_interval(var, first, declared.len(), out)
    }
}

impl IndexedTable {
    /// The rule of the reasons of the pair's value, by bits: the values of the other one of two columns that stand beside it, as
    /// a list, which replaces what `out` has. None is told where the values of a column do not lie close together.
    pub(crate) fn rule(
        &self,
        store: &DomainStore,
        pair: &Pair,
        out: &mut Intervals,
    ) -> Result<Option<Known>, NoMemory>
        requires indexed { IsIndexed self.now }
        requires declared { All (λ x. x < length store.now) self.now.vars }
        requires over { Contains self.now.vars pair.now.var }
        ensures { IfOk result (λ told. IfSome told (λ known.
            FitsRule (initial_of store.now) (present_of store.now) (table_of self.now) pair.now.var pair.now.value known out.new.items)) }
    {
        if self.vars.len() != 2 {
            return Ok(None);
        }
        let own = column_of_two(self.vars.as_slice(), &pair.var);
        let Some(beside) = self.besides.get(own) else {
            return Ok(None);
        };
        let partner = self.vars.as_slice()[1 - own];
        out.clear();
        beside.push_intervals(pair.value, &partner, store.initial_values(partner), out)?;
        Ok(Some(Known {
            rule: Rule::Listed,
            last: pair.value,
        }))
    }
}
