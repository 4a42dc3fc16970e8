//! Which removals a withdrawal loses: those of its constraint, and all that rest on a lost one. A reason is removed before what it is a
//! reason for, so that one pass up the log finds them.
ghost use Rattle.std.specs.Prelude.{◌≡◌, ◌↔◌, ℕ, ℤ, ◌<◌, ◌≤◌, ◌≤ℤ◌, false, List, [], Some, length, map, set, slice_get, take, All, Contains, MatchOption, vec_capacity};
ghost use Rattle.palm_base.specs.Tells.{Tells};
ghost use Rattle.palm_base.specs.declared.terms.Pair.{Pair as PairTerm};
ghost use Rattle.palm_domain.specs.Rows.{Ascends, IsPresent, initial_of, present_of};
ghost use Rattle.palm_model.specs.Constraint.{Distinct};
ghost use Rattle.palm_model.specs.Event.{vars_of};
ghost use Rattle.palm_explain.specs.Entries.{AreEntered, AreUnmarked, pairs_of};
ghost use Rattle.palm_explain.specs.Explanations.{AreEnds, IsSpanned, LacksExactly, restored_vars};
ghost use Rattle.palm_explain.specs.Losing.{AreMarkedBy, AreToldBefore, FallsWith, HasBack, HasEnd, HasLost, IsToldOf, marked_pairs, unmarked};
ghost use Rattle.palm_explain.specs.Restored.{AreSlotted, KeepsNumbers};
ghost use Rattle.palm_explain.specs.Rows.{AreFormedRows, IsFormedRow, span_in};
ghost use Rattle.palm_explain.specs.declared.entry.Entry.{Entry as EntryTerm};
ghost use Rattle.palm_explain.specs.declared.restored.Restored.{Restored as RestoredTerm};

use crate::entry::Entry;
use crate::restored::Restored;
use crate::rows::{Row, row_of, slot_of};
use crate::spans::Span;
use crate::withdrawing::put_back;
use palm_base::{Cid, Pair, Var};
use palm_domain::DomainStore;

/// What is told of the values of a variable that have come back, where some have.
#[inline(always)]
fn told_of(rows: &[Row], restored: &[Restored], var: Var) -> Option<Restored>
    requires { AreSlotted rows.now restored.now }
    ensures { MatchOption result
        ((r : RestoredTerm) → Contains restored.now r → r.var ≡ var → ⊥)
        (IsToldOf restored.now var) }
{
    match restored.get(slot_of(rows, var)) {
        Some(told) if told.var.0 == var.0 => Some(*told),
        _ => None,
    }
}

/// Whether one of the two ends stands in the span.
#[inline(always)]
fn has_end(told: &Restored, span: &Span) -> bool
    ensures { Tells result (HasEnd told.now span.now) }
{
    (span.low.0 <= told.low.0 && told.low.0 <= span.high.0)
        || (span.low.0 <= told.high.0 && told.high.0 <= span.high.0)
}

/// Whether the values from one end to the other and those of the span overlap.
#[inline(always)]
fn overlaps(told: &Restored, span: &Span) -> bool
    ensures { Tells result ((told.now.low ≤ℤ span.now.high) × (span.now.low ≤ℤ told.now.high)) }
{
    told.low.0 <= span.high.0 && span.low.0 <= told.high.0
}

/// Whether a value of the span that was removed before the number is present.
fn has_present(row: &Row, span: &Span, number: usize, store: &DomainStore) -> bool
    requires formed { IsFormedRow row.now }
    requires known { span.now.var < length store.now }
    ensures { Tells result ((v : ℤ) × Contains (span_in row.now number span.now.low span.now.high) v × IsPresent store.now span.now.var v) }
{
    let mut place = row.first_from(span.low);
    while let Some(next) = row.next_before(place, span.high, number) {
        let pair = Pair {
            var: span.var,
            value: row.numbered(next).0,
        };
        if store.contains(pair) {
            return true;
        }
        place = next + 1;
    }
    false
}

/// Whether a reason of the span is lost. The ends of what has come back tell it of most spans, and else the store does.
fn has_lost(
    rows: &[Row],
    restored: &[Restored],
    span: &Span,
    number: usize,
    store: &DomainStore,
) -> bool
    requires formed { AreFormedRows rows.now }
    requires slots { AreSlotted rows.now restored.now }
    requires told { (pairs : List PairTerm) × AreToldBefore rows.now restored.now store.now number pairs }
    ensures { (pairs : List PairTerm) → AreToldBefore rows.now restored.now store.now number pairs → Tells result (HasLost rows.now number pairs span.now) }
{
    match told_of(rows, restored, span.var) {
        Some(told) if overlaps(&told, span) => {
            has_end(&told, span) || has_present(row_of(rows, span.var), span, number, store)
        }
        _ => false,
    }
}

/// Whether the constraint made the removal, or a reason of it is lost.
fn is_lost(
    rows: &[Row],
    restored: &[Restored],
    entry: &Entry,
    cid: &Cid,
    store: &DomainStore,
) -> bool
    requires formed { AreFormedRows rows.now }
    requires slots { AreSlotted rows.now restored.now }
    requires told { (pairs : List PairTerm) × AreToldBefore rows.now restored.now store.now entry.now.number pairs }
    ensures { (pairs : List PairTerm) → AreToldBefore rows.now restored.now store.now entry.now.number pairs → Tells result (FallsWith rows.now cid.now pairs entry.now) }
{
    if entry.by.is_same(cid) {
        return true;
    }
    for span in entry.spans.as_slice() {
        if has_lost(rows, restored, span, entry.number, store) {
            return true;
        }
    }
    false
}

/// Marks a removal.
pub(crate) fn set_mark(log: &mut Vec<Entry>, place: usize, mark: bool)
    requires { place < length log.old.items }
    ensures { (e : EntryTerm) → slice_get log.old.items place ≡ Some e → log.new.items ≡ set log.old.items place (record e { mark = mark }) }
{
    log[place].mark = mark;
}

/// Marks the removals from a place on that are lost, and puts the pair of each back.
pub(crate) fn lose_each(
    log: &mut Vec<Entry>,
    start: usize,
    cid: &Cid,
    rows: &mut Vec<Row>,
    restored: &mut Vec<Restored>,
    store: &mut DomainStore,
)
    requires entered { (next : ℕ) × AreEntered log.old.items rows.old.items next }
    requires unmarked { AreUnmarked log.old.items }
    requires within { start ≤ length log.old.items }
    requires begun { (e : EntryTerm) → Contains (take start log.old.items) e → e.by ≡ cid.now → ⊥ }
    requires lacks { LacksExactly store.old (pairs_of log.old.items) }
    requires none { restored.old.items ≡ [] }
    requires room { length log.old.items ≤ vec_capacity restored.old }
    ensures same { map unmarked log.new.items ≡ log.old.items }
    ensures marked { AreMarkedBy rows.old.items cid.now log.new.items }
    ensures before { (e : EntryTerm) → Contains (take start log.new.items) e → e.mark ≡ false }
    ensures numbers { KeepsNumbers rows.old.items rows.new.items }
    ensures back { HasBack store.old store.new (marked_pairs log.new.items) }
    ensures ascend { All Ascends (present_of store.new) × All Ascends (initial_of store.new) }
    ensures once { Distinct (restored_vars restored.new.items) }
    ensures noted { (x : ℕ) → Contains (restored_vars restored.new.items) x ↔ Contains (vars_of (marked_pairs log.new.items)) x }
    ensures spanned { (p : PairTerm) → Contains (marked_pairs log.new.items) p → IsSpanned restored.new.items p }
    ensures ends { AreEnds restored.new.items (marked_pairs log.new.items) }
    ensures room { vec_capacity restored.new ≡ vec_capacity restored.old }
{
    for place in start..log.len() {
        if is_lost(rows, restored, &log[place], cid, store) {
            put_back(log[place].pair, rows, restored, store);
            set_mark(log, place, true);
        }
    }
    let _ = store.variables();
}
