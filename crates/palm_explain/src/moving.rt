//! Spans of reasons that move with the value that they are reasons of.
ghost use Rattle.std.specs.Prelude.{◌≡◌, ℕ, ℤ, ◌+◌, ◌^◌, ◌<◌, ◌≤◌, ◌++◌, List, true, length, Contains, IfOk, OnErr, OnOk, vec_capacity, vec_len};
ghost use Rattle.palm_explain.specs.Moving.{AreCountable, AreFitting, FitsEnd, FitsSpan, HasEntered, end_at, span_at, spans_at};
ghost use Rattle.palm_explain.specs.declared.entry.Entry.{Entry as EntryTerm};
ghost use Rattle.palm_explain.specs.declared.moving.MovingSpan.{MovingSpan as MovingSpanTerm};

use crate::entry::Entry;
use crate::rows::Row;
use crate::spans::{Span, lost_by};
use palm_base::{Cid, NoMemory, Pair, Value, Var};
use smallvec::SmallVec;
use std::alloc::{AllocError, Global};

/// An end of a span of reasons of several values.
#[derive(Clone, Copy, Debug, PartialEq, Eq)]
pub enum End {
    /// The same value for each of them.
    At(Value),
    /// What is more than the value by this number.
    Shifted(i32),
}

/// A span of reasons of several values, whose ends may move with the value that they are reasons of.
#[derive(Clone, Copy, Debug, PartialEq, Eq)]
pub struct MovingSpan {
    pub var: Var,
    pub low: End,
    pub high: End,
}

impl End {
    /// The end for a value.
    #[inline(always)]
    fn at(self, value: Value) -> Value
        requires { FitsEnd self value }
        ensures { result ≡ end_at self value }
    {
        match self {
            End::At(end) => end,
            End::Shifted(by) => Value(value.0 + by),
        }
    }
}

impl MovingSpan {
    /// The span for a value.
    #[inline(always)]
    fn at(&self, value: Value) -> Span
        requires { FitsSpan self.now value }
        ensures { result ≡ span_at value self.now }
    {
        Span {
            var: self.var,
            low: self.low.at(value),
            high: self.high.at(value),
        }
    }
}

/// The spans for a value.
#[inline(always)]
fn spans_at(
    alloc: Global,
    spans: &[MovingSpan],
    value: Value,
) -> Result<SmallVec<Span, 2>, NoMemory>
    requires { (s : MovingSpanTerm) → Contains spans.now s → FitsSpan s value }
    ensures { IfOk result (λ own. own.items ≡ spans_at spans.now value) }
{
    let mut own = SmallVec::with_capacity(alloc, spans.len())?;
    for span in spans {
        own.push_reserved(span.at(value));
    }
    Ok(own)
}

/// Whether it is known that a `usize` can tell how many reasons the spans stand for, for any value.
pub(crate) fn are_all_countable(rows: &[Row], spans: &[MovingSpan]) -> bool
    ensures { result ≡ true → AreCountable rows.now spans.now }
{
    let mut most: usize = 0;
    for span in spans {
        let Some(more) = most.checked_add(lost_by(rows, span.var)) else {
            return false;
        };
        most = more;
    }
    true
}

/// Pushes an entry for each of the values, for which there is room. Without memory those of the first values are there.
fn push_each(
    log: &mut Vec<Entry>,
    first: usize,
    var: Var,
    values: &[Value],
    by: &Cid,
    spans: &[MovingSpan],
) -> Result<(), NoMemory>
    requires room { vec_len log.old + length values.now ≤ vec_capacity log.old }
    requires numbers { first + length values.now < 2 ^ 64 }
    requires fits { AreFitting spans.now values.now }
    ensures ok { OnOk result (HasEntered log.old.items var by.now spans.now first values.now log.new.items) }
    ensures err { OnErr result ((run : List EntryTerm) × (log.new.items ≡ log.old.items ++ run)) }
{
    let alloc = *log.allocator();
    let mut number = first;
    for value in values {
        let own = spans_at(alloc, spans, *value)?;
        log.push_reserved(Entry {
            number,
            pair: Pair { var, value: *value },
            by: *by,
            mark: false,
            spans: own,
        });
        number += 1;
    }
    Ok(())
}

/// Pushes an entry for each of the values, for which there is room. Without memory nothing changes.
pub(crate) fn push_run(
    log: &mut Vec<Entry>,
    first: usize,
    var: Var,
    values: &[Value],
    by: &Cid,
    spans: &[MovingSpan],
) -> Result<(), NoMemory>
    requires room { vec_len log.old + length values.now ≤ vec_capacity log.old }
    requires numbers { first + length values.now < 2 ^ 64 }
    requires fits { AreFitting spans.now values.now }
    ensures ok { OnOk result (HasEntered log.old.items var by.now spans.now first values.now log.new.items) }
    ensures err { OnErr result (log.new.items ≡ log.old.items) }
{
    let count = log.len();
    let pushed = push_each(log, first, var, values, by, spans);
    if pushed.is_err() {
        log.truncate(count);
    }
    pushed
}
