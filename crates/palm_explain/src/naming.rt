//! Whether an explanation holds a constraint, without memory: the pass of a withdrawal, by marks alone.
ghost use Rattle.std.specs.Prelude.{◌≡◌, ℕ, ◌<◌, Some, length, map, slice_get, AllPairs, Contains};
ghost use Rattle.palm_base.specs.Tells.{Tells};
ghost use Rattle.palm_base.specs.declared.terms.Pair.{Pair as PairTerm};
ghost use Rattle.palm_model.specs.Log.{Names};
ghost use Rattle.palm_explain.specs.Entries.{AreEntered, AreUnmarked, log_of, removal_of, span_pairs};
ghost use Rattle.palm_explain.specs.Losing.{AreMarkedBy, FallsWith, marked_pairs, unmarked};
ghost use Rattle.palm_explain.specs.declared.entry.Entry.{Entry as EntryTerm};

use crate::entry::{Entry, place_of};
use crate::losing::set_mark;
use crate::rows::{Row, row_at};
use crate::spans::Span;
use palm_base::{Cid, Var};

/// Whether the removal with the number has a mark.
#[inline(always)]
fn is_marked(log: &[Entry], number: usize) -> bool
    requires rises { AllPairs (λ a b. a.number < b.number) log.now }
    requires there { (e : EntryTerm) × Contains log.now e × (e.number ≡ number) }
    ensures { (e : EntryTerm) → Contains log.now e → e.number ≡ number → result ≡ e.mark }
{
    log[place_of(log, number)].mark
}

/// Whether a reason of the span has a mark.
fn has_mark(log: &[Entry], rows: &[Row], span: &Span, number: usize) -> bool
    requires entered { (next : ℕ) × AreEntered log.now rows.now next }
    ensures { Tells result ((p : PairTerm) × Contains (span_pairs rows.now number span.now) p × Contains (marked_pairs log.now) p) }
{
    let Some(row) = row_at(rows, span.var) else {
        return false;
    };
    let mut place = row.first_from(span.low);
    while let Some(next) = row.next_before(place, span.high, number) {
        if is_marked(log, row.numbered(next).1) {
            return true;
        }
        place = next + 1;
    }
    false
}

/// Whether the constraint made the removal, or a reason of it has a mark.
fn is_named(log: &[Entry], rows: &[Row], entry: &Entry, cid: &Cid) -> bool
    requires entered { (next : ℕ) × AreEntered log.now rows.now next }
    ensures { Tells result (FallsWith rows.now cid.now (marked_pairs log.now) entry.now) }
{
    if entry.by.is_same(cid) {
        return true;
    }
    for span in entry.spans.as_slice() {
        if has_mark(log, rows, span, entry.number) {
            return true;
        }
    }
    false
}

/// Marks the removals whose explanations hold the constraint.
fn mark_each(log: &mut Vec<Entry>, rows: &[Row], cid: &Cid)
    requires entered { (next : ℕ) × AreEntered log.old.items rows.now next }
    requires unmarked { AreUnmarked log.old.items }
    ensures same { map unmarked log.new.items ≡ log.old.items }
    ensures marked { AreMarkedBy rows.now cid.now log.new.items }
{
    for place in 0..log.len() {
        let mark = is_named(log, rows, &log[place], cid);
        set_mark(log, place, mark);
    }
}

/// Takes all marks off.
fn unmark_each(log: &mut Vec<Entry>)
    ensures { log.new.items ≡ map unmarked log.old.items }
{
    for place in 0..log.len() {
        set_mark(log, place, false);
    }
}

/// Whether the explanation of the removal at a place holds the constraint.
pub(crate) fn names_at(log: &mut Vec<Entry>, rows: &[Row], place: usize, cid: &Cid) -> bool
    requires entered { (next : ℕ) × AreEntered log.old.items rows.now next }
    requires unmarked { AreUnmarked log.old.items }
    requires within { place < length log.old.items }
    ensures same { log.new.items ≡ log.old.items }
    ensures tells { (e : EntryTerm) → slice_get log.old.items place ≡ Some e → Tells result (Names (log_of rows.now log.old.items) cid.now (removal_of rows.now e)) }
{
    mark_each(log, rows, cid);
    let named = log[place].mark;
    unmark_each(log);
    named
}
