//! One row of a table, against the values of a store.
ghost use Rattle.std.specs.Prelude.{◌≡◌, ◌<◌, pos, length, true, All, slice_get, slice_index_or, Some};
ghost use Rattle.filter_table.specs.Table.{HasEntry, IsIndexed, entry_at, row_at};
ghost use Rattle.palm_domain.specs.Rows.{initial_of, present_of};
ghost use Rattle.palm_model.specs.Domains.{Has, is_among};
ghost use Rattle.palm_model.specs.Table.{are_there, first_missing, is_blocked_at, row_pairs};

use crate::indexed::IndexedTable;
use palm_base::{Pair, Value};
use palm_domain::DomainStore;

impl IndexedTable {
    /// The entry of the row at the place in a column.
    #[inline(always)]
    fn entry(&self, column: usize, place: usize) -> Value
        requires indexed { IsIndexed self.now }
        requires column { column < length self.now.vars }
        requires place { place < length self.now.rows }
        ensures { result ≡ slice_index_or (row_at self.now.rows place) column (pos 0) }
    {
        self.columns[column].values()[place]
    }

    /// The entry with the variable of its column.
    #[inline(always)]
    pub(crate) fn pair_at(&self, column: usize, place: usize) -> Pair
        requires indexed { IsIndexed self.now }
        requires column { column < length self.now.vars }
        requires place { place < length self.now.rows }
        ensures { result ≡ entry_at self.now.vars (row_at self.now.rows place) column }
    {
        Pair {
            var: self.vars.as_slice()[column],
            value: self.entry(column, place),
        }
    }

    /// Whether every entry of the row is present, where that in the column `own` is.
    pub(crate) fn are_present(&self, store: &DomainStore, own: usize, place: usize) -> bool
        requires indexed { IsIndexed self.now }
        requires declared { All (λ x. x < length store.now) self.now.vars }
        requires place { place < length self.now.rows }
        requires own { HasEntry (present_of store.now) self.now.vars (row_at self.now.rows place) own }
        ensures { result ≡ are_there (present_of store.now) (row_pairs self.now.vars (row_at self.now.rows place)) }
    {
        for column in 0..self.vars.len() {
            if column != own && !store.contains(self.pair_at(column, place)) {
                return false;
            }
        }
        true
    }

    /// Whether every entry of the row is declared, where that in the column `own` is.
    #[inline(never)]
    fn are_declared(&self, store: &DomainStore, own: usize, place: usize) -> bool
        requires indexed { IsIndexed self.now }
        requires declared { All (λ x. x < length store.now) self.now.vars }
        requires place { place < length self.now.rows }
        requires own { HasEntry (initial_of store.now) self.now.vars (row_at self.now.rows place) own }
        ensures { result ≡ are_there (initial_of store.now) (row_pairs self.now.vars (row_at self.now.rows place)) }
    {
        for column in 0..self.vars.len() {
            if column != own && !store.declared(self.pair_at(column, place)) {
                return false;
            }
        }
        true
    }

    /// Whether the entry in the column `end` is the first of the row that is not present, where it is not present and
    /// that in the column `own` is.
    #[inline(never)]
    fn are_present_before(&self, store: &DomainStore, own: usize, end: usize, place: usize) -> bool
        requires indexed { IsIndexed self.now }
        requires declared { All (λ x. x < length store.now) self.now.vars }
        requires place { place < length self.now.rows }
        requires own { HasEntry (present_of store.now) self.now.vars (row_at self.now.rows place) own }
        requires end { end < length self.now.vars }
        requires missing { HasEntry (present_of store.now) self.now.vars (row_at self.now.rows place) end → ⊥ }
        ensures { result ≡ is_among (first_missing (present_of store.now) (row_pairs self.now.vars (row_at self.now.rows place)))
            (slice_index_or self.now.vars end 0) (slice_index_or (row_at self.now.rows place) end (pos 0)) }
    {
        for column in 0..end {
            if column != own && !store.contains(self.pair_at(column, place)) {
                return false;
            }
        }
        true
    }

    /// Whether the row, which could have given its value in the column `own`, is blocked in the column `end`: each of its
    /// entries is declared, and the first one that is removed stands there.
    pub(crate) fn is_blocked_at(
        &self,
        store: &DomainStore,
        own: usize,
        end: usize,
        place: usize,
    ) -> bool
        requires indexed { IsIndexed self.now }
        requires declared { All (λ x. x < length store.now) self.now.vars }
        requires place { place < length self.now.rows }
        requires own { own < length self.now.vars }
        requires given { HasEntry (initial_of store.now) self.now.vars (row_at self.now.rows place) own }
        requires present { HasEntry (present_of store.now) self.now.vars (row_at self.now.rows place) own }
        requires end { end < length self.now.vars }
        ensures { result ≡ is_blocked_at (initial_of store.now) (present_of store.now) self.now.vars
            (slice_index_or self.now.vars own 0) (slice_index_or (row_at self.now.rows place) own (pos 0))
            (slice_index_or self.now.vars end 0) (slice_index_or (row_at self.now.rows place) end (pos 0))
            (row_at self.now.rows place) }
    {
        if store.contains(self.pair_at(end, place)) {
            return false;
        }
        self.are_declared(store, own, place) && self.are_present_before(store, own, end, place)
    }
}
