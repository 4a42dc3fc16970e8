//! The filter of a table.
ghost use Rattle.std.specs.Prelude.{◌≡◌, ℕ, IfOk};
ghost use Rattle.palm_model.specs.Table.{IsTable};
ghost use Rattle.palm_model.specs.Constraint.{IsWellFormed};

use crate::indexed::IndexedTable;
use palm_base::{NoMemory, Pair, VarList};
use palm_domain::DomainStore;
use palm_filter::{Filter, Intervals, Known, Reasons, whole_or_none};
use palm_model::{Con, copy_of};
use std::alloc::Global;
use std::marker::Model;

/// Filters a table. It looks only at the rows that have the value in question in its column.
#[derive(Debug, Drop)]
pub struct TableFilter {
    table: IndexedTable,
}

impl Model for TableFilter {
    ghost use Rattle.std.specs.Prelude.{ℕ};
    ghost use Rattle.filter_table.specs.Table.{IsIndexed, table_of};
    ghost use Rattle.palm_model.specs.Constraint.{IsWellFormed};
    ghost use Rattle.palm_model.specs.declared.constraint.Con.{Con};

    ghost Value = { Con };

    ghost view = { λ f. table_of f.table };

    ghost invariant = { λ f. IsIndexed f.table × ((variables : ℕ) × IsWellFormed variables (table_of f.table)) };
}

impl TableFilter {
    /// The filter of a table.
    pub fn new(alloc: Global, con: &Con) -> Result<TableFilter, NoMemory>
        requires formed { (variables : ℕ) × IsWellFormed variables con.now }
        requires kind { IsTable con.now }
        ensures { IfOk result (λ filter. filter ≡ con.now) }
    {
        match copy_of(alloc, con)? {
            Con::Table { vars, rows } => Ok(TableFilter {
                table: IndexedTable::new(alloc, vars, rows)?,
            }),
            _ => unreachable!(),
        }
    }
}

impl Filter for TableFilter {
    ghost meaning = { λ con. con };

    fn scope(&self) -> &VarList {
        &self.table.vars
    }

    fn supported(&self, store: &DomainStore, pair: Pair) -> bool {
        self.table.is_given(store, pair)
    }

    fn rule(
        &self,
        store: &DomainStore,
        pair: &Pair,
        out: &mut Intervals,
    ) -> Result<Option<Known>, NoMemory> {
        self.table.rule(store, pair, out)
    }

    fn reason(&self, store: &DomainStore, pair: Pair, out: &mut Reasons) -> Result<(), NoMemory> {
        out.clear();
        // The store tells here what it holds of its values: a reason is right where they ascend.
        let _ = store.variables();
        let written = self.table.push_reason(store, &pair, out);
        whole_or_none(written, out)
    }
}
