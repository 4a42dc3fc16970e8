//! A table with an index of each of its columns.
ghost use Rattle.std.specs.Prelude.{◌≡◌, ◌++◌, ℕ, ◌<◌, length, true, All, Contains, IfOk, IfSome, OnOk, MatchOption, Some, slice_get};
ghost use Rattle.std.specs.List.{list_any};
ghost use Rattle.filter_table.specs.Table.{AreBesides, AreColumns, IsIndexed, column_values, is_support_row, row_at, table_of};
ghost use Rattle.palm_domain.specs.Rows.{initial_of, present_of};
ghost use Rattle.palm_model.specs.Constraint.{Distinct};
ghost use Rattle.palm_model.specs.declared.constraint.Con.{Con};
ghost use Rattle.palm_model.specs.Domains.{AllAscend, Has, is_among};
ghost use Rattle.palm_model.specs.Table.{blocking_values, row_pairs, table_reason};
ghost use Rattle.palm_model.specs.Removed.{others, pairs_of};

use crate::beside::{Beside, near};
use crate::ordered::put_pair;
use palm_base::{NoMemory, Pair, Value, ValueList, Var, VarList};
use palm_domain::DomainStore;
use palm_filter::{Reasons, ValueIndex};
use palm_model::RowList;
use std::alloc::Global;

/// A table with an index of each of its columns, in which the rows with a value are found. One of two columns whose
/// values lie close together keeps what stands beside each value too.
#[derive(Debug, Drop)]
pub(crate) struct IndexedTable {
    pub(crate) vars: VarList,
    rows: RowList,
    pub(crate) columns: Vec<ValueIndex>,
    pub(crate) besides: Vec<Beside>,
}

/// The index of a column.
fn column_index(alloc: Global, rows: &[ValueList], column: usize) -> Result<ValueIndex, NoMemory>
    requires { All (λ row. column < length row) rows.now }
    ensures { IfOk result (λ index. index ≡ column_values rows.now column) }
{
    let mut values = Vec::with_capacity(alloc, rows.len())?;
    for row in rows {
        values.push(row.as_slice()[column])?;
    }
    ValueIndex::new(alloc, &values)
}

/// The indexes of the first `count` columns.
fn column_indexes(
    alloc: Global,
    rows: &[ValueList],
    count: usize,
) -> Result<Vec<ValueIndex>, NoMemory>
    requires { All (λ row. length row ≡ count) rows.now }
    ensures { IfOk result (λ columns. AreColumns rows.now count columns.items) }
{
    let mut columns = Vec::with_capacity(alloc, count)?;
    for column in 0..count {
        columns.push(column_index(alloc, rows, column)?)?;
    }
    Ok(columns)
}

/// What stands beside the values of the first columns of two, as far as they lie close together.
fn besides_of(alloc: Global, columns: &[ValueIndex]) -> Result<Vec<Beside>, NoMemory>
    ensures { IfOk result (λ besides. AreBesides columns.now besides.items) }
{
    let mut besides = Vec::new(alloc);
    if columns.len() != 2 {
        return Ok(besides);
    }
    for own in 0..2 {
        let Some(beside) = Beside::of(columns[own].values(), columns[1 - own].values()) else {
            return Ok(besides);
        };
        besides.push(beside)?;
    }
    Ok(besides)
}

/// The place of the variable among the variables.
fn column_of(vars: &[Var], var: &Var) -> Option<usize>
    ensures { MatchOption result (Contains vars.now var.now → ⊥) (λ c. slice_get vars.now c ≡ Some var.now) }
{
    vars.iter().position(|other| other == var)
}

/// The place of the variable, which is one of the two.
#[inline(always)]
pub(crate) fn column_of_two(vars: &[Var], var: &Var) -> usize
    requires two { length vars.now ≡ 2 }
    requires over { Contains vars.now var.now }
    ensures { slice_get vars.now result ≡ Some var.now }
{
    if vars[0] == *var { 0 } else { 1 }
}

impl IndexedTable {
    /// The table, with an index of each of its columns.
    pub(crate) fn new(alloc: Global, vars: VarList, rows: RowList) -> Result<IndexedTable, NoMemory>
        requires distinct { Distinct vars }
        requires long { All (λ row. length row ≡ length vars) rows }
        ensures table { IfOk result (λ table. table_of table ≡ Con.Table vars rows) }
        ensures indexed { IfOk result (λ table. IsIndexed table) }
    {
        let columns = column_indexes(alloc, rows.as_slice(), vars.len())?;
        let besides = besides_of(alloc, &columns)?;
        Ok(IndexedTable {
            vars,
            rows,
            columns,
            besides,
        })
    }

    /// The places of the rows that have the value of the pair in its column.
    fn places(&self, column: usize, pair: &Pair) -> &[usize]
        requires indexed { IsIndexed self.now }
        requires column { slice_get self.now.vars column ≡ Some pair.now.var }
        ensures within { All (λ k. k < length self.now.rows) result.now }
        ensures stands { All (λ k. is_among (row_pairs self.now.vars (row_at self.now.rows k)) pair.now.var pair.now.value ≡ true) result.now }
        ensures every { (k : ℕ) → k < length self.now.rows → is_among (row_pairs self.now.vars (row_at self.now.rows k)) pair.now.var pair.now.value ≡ true → Contains result.now k }
    {
        self.columns[column].places(&pair.value)
    }

    /// Whether some row has the value of the pair in its column, and only present entries.
    pub(crate) fn is_given(&self, store: &DomainStore, pair: Pair) -> bool
        requires indexed { IsIndexed self.now }
        requires declared { All (λ x. x < length store.now) self.now.vars }
        requires over { Contains self.now.vars pair.var }
        requires present { Has (present_of store.now) pair.var pair.value }
        ensures { result ≡ list_any (is_support_row (present_of store.now) self.now.vars pair.var pair.value) self.now.rows }
    {
        if self.vars.len() != 2 {
            return self.is_given_by_many(store, pair);
        }
        let own = column_of_two(self.vars.as_slice(), &pair.var);
        if let Some(given) = self.is_beside(store, own, &pair) {
            return given;
        }
        self.is_given_by_two(store, own, pair)
    }

    /// The same of a table of two columns, by bits: whether a number that stands beside the value is present. There is
    /// no answer where the values of a column, or those of the other variable, do not lie close together.
    #[inline(always)]
    fn is_beside(&self, store: &DomainStore, own: usize, pair: &Pair) -> Option<bool>
        requires indexed { IsIndexed self.now }
        requires declared { All (λ x. x < length store.now) self.now.vars }
        requires present { Has (present_of store.now) pair.now.var pair.now.value }
        requires own { slice_get self.now.vars own ≡ Some pair.now.var }
        requires two { length self.now.vars ≡ 2 }
        ensures { IfSome result (λ given. given ≡ list_any (is_support_row (present_of store.now) self.now.vars pair.now.var pair.now.value) self.now.rows) }
    {
        let beside = self.besides.get(own)?;
        let window = store.window(self.vars.as_slice()[1 - own], beside.other_least)?;
        match near(beside.own_least, pair.value) {
            Some(word) => Some(beside.words[word] & window != 0),
            None => Some(false),
        }
    }

    /// The same of a table of two columns, by its rows: whether some row has the value, and a present entry beside it.
    #[inline(never)]
    fn is_given_by_two(&self, store: &DomainStore, own: usize, pair: Pair) -> bool
        requires indexed { IsIndexed self.now }
        requires declared { All (λ x. x < length store.now) self.now.vars }
        requires present { Has (present_of store.now) pair.var pair.value }
        requires own { slice_get self.now.vars own ≡ Some pair.var }
        requires two { length self.now.vars ≡ 2 }
        ensures { result ≡ list_any (is_support_row (present_of store.now) self.now.vars pair.var pair.value) self.now.rows }
    {
        let var = self.vars.as_slice()[1 - own];
        let entries = self.columns[1 - own].values();
        for place in self.places(own, &pair) {
            if store.contains(Pair {
                var,
                value: entries[*place],
            }) {
                return true;
            }
        }
        false
    }

    /// The same of a table of any number of columns.
    #[inline(never)]
    fn is_given_by_many(&self, store: &DomainStore, pair: Pair) -> bool
        requires indexed { IsIndexed self.now }
        requires declared { All (λ x. x < length store.now) self.now.vars }
        requires over { Contains self.now.vars pair.var }
        requires present { Has (present_of store.now) pair.var pair.value }
        ensures { result ≡ list_any (is_support_row (present_of store.now) self.now.vars pair.var pair.value) self.now.rows }
    {
        let Some(own) = column_of(self.vars.as_slice(), &pair.var) else {
            unreachable!();
        };
        for place in self.places(own, &pair) {
            if self.are_present(store, own, *place) {
                return true;
            }
        }
        false
    }

    /// Appends every removed pair of the variable, in the column `end`, that blocks a row with the value of `pair`. It looks
    /// at no other rows.
    fn push_blocking(
        &self,
        store: &DomainStore,
        own: usize,
        pair: &Pair,
        end: usize,
        var: &Var,
        out: &mut Reasons,
    ) -> Result<(), NoMemory>
        requires indexed { IsIndexed self.now }
        requires declared { All (λ x. x < length store.now) self.now.vars }
        requires own { slice_get self.now.vars own ≡ Some pair.now.var }
        requires given { Has (initial_of store.now) pair.now.var pair.now.value }
        requires present { Has (present_of store.now) pair.now.var pair.now.value }
        requires end { slice_get self.now.vars end ≡ Some var.now }
        requires ascend { AllAscend (initial_of store.now) }
        ensures { OnOk result (out.new.items ≡ out.old.items ++ pairs_of var.now (blocking_values (initial_of store.now) (present_of store.now) self.now.vars self.now.rows pair.now.var pair.now.value var.now)) }
    {
        let from = out.len();
        for place in self.places(own, pair) {
            if self.is_blocked_at(store, own, end, *place) {
                put_pair(out, from, self.pair_at(end, *place))?;
            }
        }
        Ok(())
    }

    /// Appends the reason of the pair: for each row that could have given its value, the first removed entry.
    pub(crate) fn push_reason(
        &self,
        store: &DomainStore,
        pair: &Pair,
        out: &mut Reasons,
    ) -> Result<(), NoMemory>
        requires indexed { IsIndexed self.now }
        requires declared { All (λ x. x < length store.now) self.now.vars }
        requires given { Has (initial_of store.now) pair.now.var pair.now.value }
        requires present { Has (present_of store.now) pair.now.var pair.now.value }
        requires over { Contains self.now.vars pair.now.var }
        requires ascend { AllAscend (initial_of store.now) }
        ensures { OnOk result (out.new.items ≡ out.old.items ++ table_reason (initial_of store.now) (present_of store.now) self.now.vars self.now.rows pair.now.var pair.now.value) }
    {
        let Some(own) = column_of(self.vars.as_slice(), &pair.var) else {
            unreachable!();
        };
        for (end, var) in self.vars.as_slice().iter().enumerate() {
            if *var != pair.var {
                self.push_blocking(store, own, pair, end, var, out)?;
            }
        }
        Ok(())
    }
}
