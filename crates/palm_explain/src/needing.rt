//! Which removals the removals of values rest on: a walk down the log from one needed removal to the next. What no needed removal has
//! among its reasons is not looked at, however many such removals stand between. A reason is removed before what it is a reason
//! for, so that none comes up behind the walk.
ghost use Rattle.std.specs.Prelude.{◌≡◌, ◌↔◌, ℕ, ◌<◌, [], Some, Contains, length, slice_get, IfOk, OnErr, OnOk};
ghost use Rattle.palm_base.specs.declared.terms.Cid.{Cid as CidTerm};
ghost use Rattle.palm_explain.specs.CidSets.{Adds, AddsSome, IsMember};
ghost use Rattle.palm_explain.specs.Entries.{AreEntered, log_of, pairs_with, row_span, span_pairs, written};
ghost use Rattle.palm_explain.specs.Explanations.{NamesOfSome};
ghost use Rattle.palm_explain.specs.Needed.{AreNotedSpans, Falls, HasNoted, IsNeededAt, IsNotedSpan};
ghost use Rattle.palm_explain.specs.Rows.{AreFormedRows};

use crate::cid_set::CidSet;
use crate::entry::{Entry, place_near};
use crate::noted::{NotedSpan, NotedSpans, empty_spans, noted_of, set_noted, wider};
use crate::places::Places;
use crate::rows::{NO_NUMBER, Row, number_near, row_at};
use crate::spans::Span;
use palm_base::{Cid, NoMemory, Pair, Value, Var};
use std::alloc::{AllocError, Global};

/// Notes the numbers of those of these values that are removed.
fn note_values(rows: &[Row], var: Var, values: &[Value], noted: &mut Places) -> Result<(), NoMemory>
    requires { AreFormedRows rows.now }
    ensures { OnOk result (HasNoted rows.now noted.old noted.new (pairs_with var values.now)) }
{
    let mut near = 0;
    for value in values {
        let pair = Pair { var, value: *value };
        if let Some(number) = number_near(rows, &pair, &mut near) {
            if number != NO_NUMBER {
                noted.add(number)?;
            }
        }
    }
    Ok(())
}

/// Notes the numbers of those values of a variable from `low` to `high` that were removed before the number.
fn note_between(
    rows: &[Row],
    var: Var,
    low: Value,
    high: Value,
    number: usize,
    noted: &mut Places,
) -> Result<(), NoMemory>
    requires { AreFormedRows rows.now }
    ensures { OnOk result (HasNoted rows.now noted.old noted.new (pairs_with var (row_span (slice_get rows.now var) number low high))) }
{
    if high.0 < low.0 {
        return Ok(());
    }
    let Some(row) = row_at(rows, var) else {
        return Ok(());
    };
    let mut place = row.first_from(low);
    while let Some(next) = row.next_before(place, high, number) {
        noted.add(row.numbered(next).1)?;
        place = next + 1;
    }
    Ok(())
}

/// Notes the numbers of the reasons of a span, but for those that a known span of its variable holds. What is known then is the
/// result.
fn note_rest(
    rows: &[Row],
    span: &Span,
    number: usize,
    known: NotedSpan,
    noted: &mut Places,
) -> Result<NotedSpan, NoMemory>
    requires formed { AreFormedRows rows.now }
    requires known { IsNotedSpan rows.now span.now.var known number noted.old }
    ensures noted { OnOk result (HasNoted rows.now noted.old noted.new (span_pairs rows.now number span.now)) }
    ensures known { IfOk result (λ more. IsNotedSpan rows.now span.now.var more number noted.new) }
{
    let Span { var, low, high, .. } = *span;
    if !known.meets(low, high) {
        note_between(rows, var, low, high, number, noted)?;
        return Ok(wider(known, NotedSpan { low, high }));
    }
    note_between(rows, var, low, known.below(), number, noted)?;
    note_between(rows, var, known.behind(), high, number, noted)?;
    Ok(known.widened(low, high))
}

/// Notes the numbers of the reasons of a span, but for those that the known spans hold.
fn note_span(
    rows: &[Row],
    span: &Span,
    number: usize,
    known: &mut Vec<NotedSpans>,
    noted: &mut Places,
) -> Result<(), NoMemory>
    requires formed { AreFormedRows rows.now }
    requires known { AreNotedSpans rows.now known.old.items number noted.old }
    ensures noted { OnOk result (HasNoted rows.now noted.old noted.new (span_pairs rows.now number span.now)) }
    ensures known { OnOk result (AreNotedSpans rows.now known.new.items number noted.new) }
{
    let own = noted_of(known, span.var);
    if own.has_all(span.low, span.high) {
        return Ok(());
    }
    let spans = own.turned(span.low, span.high);
    let first = note_rest(rows, span, number, spans.first, noted)?;
    let second = spans.second;
    set_noted(known, span.var, NotedSpans { first, second });
    Ok(())
}

/// Notes the numbers of the reasons of a removal, but for those that the known spans hold.
fn note_reasons(
    rows: &[Row],
    entry: &Entry,
    known: &mut Vec<NotedSpans>,
    noted: &mut Places,
) -> Result<(), NoMemory>
    requires formed { AreFormedRows rows.now }
    requires known { AreNotedSpans rows.now known.old.items entry.now.number noted.old }
    ensures noted { OnOk result (HasNoted rows.now noted.old noted.new (written rows.now entry.now.number entry.now.spans.items)) }
    ensures known { OnOk result (AreNotedSpans rows.now known.new.items entry.now.number noted.new) }
{
    for span in entry.spans.as_slice() {
        note_span(rows, span, entry.number, known, noted)?;
    }
    Ok(())
}

/// The entry at a place.
#[inline(always)]
fn entry_at(log: &[Entry], place: usize) -> &Entry
    requires { place < length log.now }
    ensures { slice_get log.now place ≡ Some result.now }
{
    &log[place]
}

/// Adds the places of the removals on which those of these values rest, where they are removed, to none: themselves, and the reasons
/// of each. They fall.
pub(crate) fn add_needed(
    log: &[Entry],
    rows: &[Row],
    var: Var,
    values: &[Value],
    visited: &mut Vec<usize>,
) -> Result<(), NoMemory>
    requires entered { (next : ℕ) × AreEntered log.now rows.now next }
    requires none { visited.old.items ≡ [] }
    ensures falls { OnOk result (Falls visited.new.items) }
    ensures each { OnOk result ((place : ℕ) → Contains visited.new.items place ↔ IsNeededAt (log_of rows.now log.now) (pairs_with var values.now) place) }
{
    let mut noted = Places::new(*visited.allocator());
    note_values(rows, var, values, &mut noted)?;
    let mut known = empty_spans(*visited.allocator(), rows.len())?;
    let mut end = NO_NUMBER;
    let mut word = 0;
    let mut near = 0;
    while let Some(number) = noted.last_below(end, &mut word) {
        let place = place_near(log, number, &mut near);
        visited.push(place)?;
        note_reasons(rows, entry_at(log, place), &mut known, &mut noted)?;
        end = number;
    }
    Ok(())
}

/// Adds an id to a set, unless it was added last. A constraint mostly makes several removals in a row.
#[inline(always)]
fn add_next(cids: &mut CidSet, cid: &Cid, last: &mut Option<Cid>) -> Result<(), NoMemory>
    requires { (c : CidTerm) → last.old ≡ Some c → IsMember cids.old c }
    ensures added { OnOk result (Adds cids.old (λ c. c ≡ cid.now) cids.new) }
    ensures err { OnErr result (AddsSome cids.old (λ c. c ≡ cid.now) cids.new) }
    ensures last { OnOk result ((c : CidTerm) → last.new ≡ Some c → IsMember cids.new c) }
{
    if let Some(own) = last {
        if own.is_same(cid) {
            return Ok(());
        }
    }
    cids.add(cid)?;
    *last = Some(*cid);
    Ok(())
}

/// Adds the ids of all constraints on which the removals of these values rest, where they are removed.
pub(crate) fn add_cids(
    alloc: Global,
    log: &[Entry],
    rows: &[Row],
    var: Var,
    values: &[Value],
    cids: &mut CidSet,
) -> Result<(), NoMemory>
    requires entered { (next : ℕ) × AreEntered log.now rows.now next }
    ensures ok { OnOk result (Adds cids.old (NamesOfSome (log_of rows.now log.now) var values.now) cids.new) }
    ensures err { OnErr result (AddsSome cids.old (NamesOfSome (log_of rows.now log.now) var values.now) cids.new) }
{
    let mut noted = Places::new(alloc);
    note_values(rows, var, values, &mut noted)?;
    let mut known = empty_spans(alloc, rows.len())?;
    let mut last = None;
    let mut end = NO_NUMBER;
    let mut word = 0;
    let mut near = 0;
    while let Some(number) = noted.last_below(end, &mut word) {
        let entry = entry_at(log, place_near(log, number, &mut near));
        add_next(cids, &entry.by, &mut last)?;
        note_reasons(rows, entry, &mut known, &mut noted)?;
        end = number;
    }
    Ok(())
}
