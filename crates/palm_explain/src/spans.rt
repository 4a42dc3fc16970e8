//! The reasons of a removal by spans of values, and how a list of reasons is put into spans.
ghost use Rattle.std.specs.Prelude.{◌≡◌, ℕ, ℤ, ◌+◌, ◌-◌, ◌^◌, ◌<◌, ◌≤◌, true, Some, length, drop, take, slice_get, ◌++◌, Contains, IfErr, IfOk, MatchOption, OnOk};
ghost use Rattle.palm_base.specs.declared.terms.Pair.{Pair as PairTerm};
ghost use Rattle.palm_explain.specs.Entries.{pairs_with, row_span, span_pairs, written};
ghost use Rattle.palm_explain.specs.Moving.{lost_at};
ghost use Rattle.palm_explain.specs.Rows.{AreFormedRows, IsFormedRow, IsNext, WereRemoved, number_at, number_in, span_in};

use crate::rows::{Row, row_at, row_of};
use palm_base::{NoMemory, Pair, Value, Var};
use smallvec::SmallVec;
use std::alloc::{AllocError, Global};

/// Reasons that follow one another: the removals of the variable's values from `low` to `high` that were made before the
/// removal whose reasons they are, by rising value.
#[derive(Clone, Copy, Debug, Default)]
pub struct Span {
    pub var: Var,
    pub low: Value,
    pub high: Value,
}

/// Whether the next one of the reasons is of the variable, and stands at the place of its row.
#[inline(always)]
fn follows(row: &Row, var: Var, reasons: &[Pair], next: usize, place: usize) -> bool
    ensures { result ≡ true → IsNext row.now var reasons.now next place }
{
    match reasons.get(next) {
        Some(reason) => reason.var.0 == var.0 && row.has_at(place, reason.value),
        None => false,
    }
}

/// How many of the reasons from one on follow one another: they are of its variable, and stand side by side in its row.
#[inline(never)]
fn run_length(row: &Row, var: Var, reasons: &[Pair], start: usize) -> usize
    requires formed { IsFormedRow row.now }
    requires within { start < length reasons.now }
    requires there { (p : PairTerm) → slice_get reasons.now start ≡ Some p → (p.var ≡ var) × ((k : ℕ) × (number_in row.now.values.items row.now.numbers.items p.value ≡ Some k)) }
    ensures some { 0 < result }
    ensures within { start + result ≤ length reasons.now }
    ensures run { (n : ℕ) (p q : PairTerm) → slice_get reasons.now start ≡ Some p → slice_get reasons.now (start + result - 1) ≡ Some q
        → ((r : PairTerm) → Contains reasons.now r → var ≡ r.var → (k : ℕ) × (number_in row.now.values.items row.now.numbers.items r.value ≡ Some k) × (k < n))
        → pairs_with var (span_in row.now n p.value q.value) ≡ take result (drop start reasons.now) }
{
    let mut place = row.place_near(reasons[start].value, 0) + 1;
    let mut count = 1;
    while follows(row, var, reasons, start + count, place) {
        place += 1;
        count += 1;
    }
    count
}

/// The reason at a place.
#[inline(always)]
fn reason_at(reasons: &[Pair], place: usize) -> Pair
    requires { place < length reasons.now }
    ensures { slice_get reasons.now place ≡ Some result }
{
    reasons[place]
}

/// The span of the reasons from one on that follow one another, and how many these are.
fn span_at(rows: &[Row], reasons: &[Pair], start: usize) -> (Span, usize)
    requires formed { AreFormedRows rows.now }
    requires removed { (p : PairTerm) → Contains reasons.now p → (k : ℕ) × (number_at rows.now p ≡ Some k) }
    requires within { start < length reasons.now }
    ensures some { 0 < result.1 }
    ensures within { start + result.1 ≤ length reasons.now }
    ensures pairs { (n : ℕ) → WereRemoved rows.now n reasons.now → span_pairs rows.now n result.0 ≡ take result.1 (drop start reasons.now) }
{
    let first = reason_at(reasons, start);
    let row = row_of(rows, first.var);
    let count = run_length(row, first.var, reasons, start);
    let span = Span {
        var: first.var,
        low: first.value,
        high: reason_at(reasons, start + count - 1).value,
    };
    (span, count)
}

/// The spans of a list of reasons, all of which are removed.
pub(crate) fn spans_of(
    alloc: Global,
    rows: &[Row],
    reasons: &[Pair],
) -> Result<SmallVec<Span, 2>, NoMemory>
    requires formed { AreFormedRows rows.now }
    requires removed { (p : PairTerm) → Contains reasons.now p → (k : ℕ) × (number_at rows.now p ≡ Some k) }
    ensures { IfOk result (λ spans. (n : ℕ) → WereRemoved rows.now n reasons.now → written rows.now n spans.items ≡ reasons.now) }
{
    let mut spans = SmallVec::new(alloc);
    let mut start = 0;
    while start < reasons.len() {
        let (span, count) = span_at(rows, reasons, start);
        spans.push(span)?;
        start += count;
    }
    Ok(spans)
}

/// A copy of the spans. One alone, as mostly, has room without an allocation.
#[inline(always)]
pub(crate) fn copy_of(alloc: Global, spans: &[Span]) -> Result<SmallVec<Span, 2>, NoMemory>
    ensures { IfOk result (λ copy. copy.items ≡ spans.now) }
{
    if spans.len() == 1 {
        let mut copy = SmallVec::new(alloc);
        copy.push_reserved(spans[0]);
        return Ok(copy);
    }
    Ok(SmallVec::from_slice(alloc, spans)?)
}

/// How many values the variable lost at some time.
#[inline(always)]
pub(crate) fn lost_by(rows: &[Row], var: Var) -> usize
    ensures most { (n : ℕ) (low high : ℤ) → length (row_span (slice_get rows.now var) n low high) ≤ result }
    ensures exact { result ≡ lost_at rows.now var }
{
    match row_at(rows, var) {
        Some(row) => row.len(),
        None => 0,
    }
}

/// Whether it is known that a `usize` can tell how many reasons the spans stand for. It is of one span, as mostly.
#[inline(always)]
pub(crate) fn are_countable(rows: &[Row], spans: &[Span]) -> bool
    ensures { result ≡ true → (n : ℕ) → length (written rows.now n spans.now) < 2 ^ 64 }
{
    if spans.len() == 1 {
        prove!(lost_by(rows, spans[0].var) <= usize::MAX);
        return true;
    }
    let mut most: usize = 0;
    for span in spans {
        let Some(more) = most.checked_add(lost_by(rows, span.var)) else {
            return false;
        };
        most = more;
    }
    true
}

/// How many reasons the span stands for.
fn count_in(rows: &[Row], span: &Span, number: usize) -> usize
    requires { AreFormedRows rows.now }
    ensures { result ≡ length (span_pairs rows.now number span.now) }
{
    let Some(row) = row_at(rows, span.var) else {
        return 0;
    };
    let mut count = 0;
    let mut place = row.first_from(span.low);
    while let Some(next) = row.next_before(place, span.high, number) {
        count += 1;
        place = next + 1;
    }
    count
}

/// How many reasons the spans stand for.
pub(crate) fn count_of(rows: &[Row], spans: &[Span], number: usize) -> usize
    requires formed { AreFormedRows rows.now }
    requires fits { length (written rows.now number spans.now) < 2 ^ 64 }
    ensures { result ≡ length (written rows.now number spans.now) }
{
    let mut count = 0;
    for span in spans {
        count += count_in(rows, span, number);
    }
    count
}

/// The reason at an index among those of a span, or how many of the others the index lies behind them.
fn reason_of(rows: &[Row], span: &Span, number: usize, index: usize) -> Result<Pair, usize>
    requires { AreFormedRows rows.now }
    ensures ok { IfOk result (λ reason. slice_get (span_pairs rows.now number span.now) index ≡ Some reason) }
    ensures err { IfErr result (λ left. index ≡ length (span_pairs rows.now number span.now) + left) }
{
    let Some(row) = row_at(rows, span.var) else {
        return Err(index);
    };
    let mut left = index;
    let mut place = row.first_from(span.low);
    while let Some(next) = row.next_before(place, span.high, number) {
        if left == 0 {
            return Ok(Pair {
                var: span.var,
                value: row.numbered(next).0,
            });
        }
        left -= 1;
        place = next + 1;
    }
    Err(left)
}

/// The reason at an index among those of the spans, if there are so many.
pub(crate) fn reason_in(rows: &[Row], spans: &[Span], number: usize, index: usize) -> Option<Pair>
    requires { AreFormedRows rows.now }
    ensures { MatchOption result
        (length (written rows.now number spans.now) ≤ index)
        (λ reason. slice_get (written rows.now number spans.now) index ≡ Some reason) }
{
    let mut left = index;
    for span in spans {
        match reason_of(rows, span, number, left) {
            Ok(reason) => return Some(reason),
            Err(more) => left = more,
        }
    }
    None
}

/// Appends the reasons of a span.
fn push_span(rows: &[Row], span: &Span, number: usize, out: &mut Vec<Pair>) -> Result<(), NoMemory>
    requires { AreFormedRows rows.now }
    ensures { OnOk result (out.new.items ≡ out.old.items ++ span_pairs rows.now number span.now) }
{
    let Some(row) = row_at(rows, span.var) else {
        return Ok(());
    };
    let mut place = row.first_from(span.low);
    while let Some(next) = row.next_before(place, span.high, number) {
        out.push(Pair {
            var: span.var,
            value: row.numbered(next).0,
        })?;
        place = next + 1;
    }
    Ok(())
}

/// Appends the reasons of the spans, one span after another.
pub(crate) fn push_spans(
    rows: &[Row],
    spans: &[Span],
    number: usize,
    out: &mut Vec<Pair>,
) -> Result<(), NoMemory>
    requires { AreFormedRows rows.now }
    ensures { OnOk result (out.new.items ≡ out.old.items ++ written rows.now number spans.now) }
{
    for span in spans {
        push_span(rows, span, number, out)?;
    }
    Ok(())
}
