//! What a walk down the log has noted already: of each variable two spans of values, so that a reason is mostly noted once.
ghost use Rattle.std.specs.Prelude.{◌≡◌, ◌≢◌, ◌⊎◌, ℕ, ℤ, ◌-ℤ◌, ◌<ℤ◌, ◌≤ℤ◌, true, Some, slice_get, IfOk};
ghost use Rattle.palm_explain.specs.Needed.{AreBothEmpty, AreEmptySpans, HasAll, turned};
ghost use Rattle.palm_explain.specs.declared.noted.NotedSpans.{NotedSpans as NotedSpansTerm};

use palm_base::{NoMemory, Value, Var};
use std::alloc::{AllocError, Global};

/// The values of a variable from `low` to `high`, where all that were removed before what is visited now are noted. There is none
/// where `high` is less.
#[derive(Clone, Copy, Debug)]
pub(crate) struct NotedSpan {
    pub(crate) low: Value,
    pub(crate) high: Value,
}

impl NotedSpan {
    /// No value.
    fn empty() -> NotedSpan
        ensures { result.high <ℤ result.low }
    {
        NotedSpan {
            low: Value(i32::MAX),
            high: Value(i32::MIN),
        }
    }

    /// How much greater its high is than its low.
    fn width(&self) -> i64
        ensures { result ≡ self.now.high -ℤ self.now.low }
    {
        i64::from(self.high.0) - i64::from(self.low.0)
    }

    /// Whether the span has all values from `low` to `high`.
    #[inline(always)]
    pub(crate) fn has_all(&self, low: Value, high: Value) -> bool
        ensures { result ≡ true → HasAll self.now low high }
    {
        self.low.0 <= low.0 && high.0 <= self.high.0
    }

    /// Whether the span has a value from `low` to `high`, where it and they have one.
    #[inline(always)]
    pub(crate) fn meets(&self, low: Value, high: Value) -> bool
        ensures { result ≡ true → (self.now.low ≤ℤ high) × (low ≤ℤ self.now.high) }
    {
        self.low.0 <= high.0 && low.0 <= self.high.0
    }

    /// The value below its low, or that where there is none.
    #[inline(always)]
    pub(crate) fn below(&self) -> Value
        ensures { (result ≤ℤ self.now.low) × ((v : ℤ) → v <ℤ self.now.low → v ≤ℤ result) }
    {
        if self.low.0 == i32::MIN {
            self.low
        } else {
            Value(self.low.0 - 1)
        }
    }

    /// The value behind its high, or that where there is none.
    #[inline(always)]
    pub(crate) fn behind(&self) -> Value
        ensures { (self.now.high ≤ℤ result) × ((v : ℤ) → self.now.high <ℤ v → result ≤ℤ v) }
    {
        if self.high.0 == i32::MAX {
            self.high
        } else {
            Value(self.high.0 + 1)
        }
    }

    /// The span from the less of its low and `low` to the greater of its high and `high`.
    pub(crate) fn widened(&self, low: Value, high: Value) -> NotedSpan
        ensures low { (result.low ≤ℤ low) × ((low ≤ℤ result.low) ⊎ (self.now.low ≤ℤ result.low)) }
        ensures high { (high ≤ℤ result.high) × ((result.high ≤ℤ high) ⊎ (result.high ≤ℤ self.now.high)) }
    {
        NotedSpan {
            low: lesser(self.low, low),
            high: greater(self.high, high),
        }
    }
}

/// The wider of two spans. A walk keeps it where they do not meet.
pub(crate) fn wider(own: NotedSpan, other: NotedSpan) -> NotedSpan
    ensures { (result ≡ own) ⊎ (result ≡ other) }
{
    if own.width() < other.width() {
        other
    } else {
        own
    }
}

/// The lesser of two values.
#[inline(always)]
fn lesser(own: Value, other: Value) -> Value
    ensures { (result ≤ℤ other) × ((other ≤ℤ result) ⊎ (own ≤ℤ result)) }
{
    if own.0 < other.0 { own } else { other }
}

/// The greater of two values.
#[inline(always)]
fn greater(own: Value, other: Value) -> Value
    ensures { (other ≤ℤ result) × ((result ≤ℤ other) ⊎ (result ≤ℤ own)) }
{
    if own.0 > other.0 { own } else { other }
}

/// What is noted of a variable: two spans of it, as reasons mostly stand at both ends of its values.
#[derive(Clone, Copy, Debug)]
pub(crate) struct NotedSpans {
    pub(crate) first: NotedSpan,
    pub(crate) second: NotedSpan,
}

impl NotedSpans {
    /// No value.
    fn empty() -> NotedSpans
        ensures { AreBothEmpty result }
    {
        NotedSpans {
            first: NotedSpan::empty(),
            second: NotedSpan::empty(),
        }
    }

    /// Whether one of the spans has all values from `low` to `high`.
    #[inline(always)]
    pub(crate) fn has_all(&self, low: Value, high: Value) -> bool
        ensures { result ≡ true → HasAll self.now.first low high ⊎ HasAll self.now.second low high }
    {
        self.first.has_all(low, high) || self.second.has_all(low, high)
    }

    /// Whether the second span takes the values from `low` to `high`: it meets them, or the first does not, and is the wider one.
    #[inline(always)]
    fn takes_second(&self, low: Value, high: Value) -> bool {
        self.second.meets(low, high)
            || (!self.first.meets(low, high) && self.second.width() < self.first.width())
    }

    /// The spans, with that first that takes the values from `low` to `high`.
    pub(crate) fn turned(&self, low: Value, high: Value) -> NotedSpans
        ensures { (result ≡ self.now) ⊎ (result ≡ turned self.now) }
    {
        if self.takes_second(low, high) {
            NotedSpans {
                first: self.second,
                second: self.first,
            }
        } else {
            *self
        }
    }
}

/// Spans of no value for each of so many variables.
pub(crate) fn empty_spans(alloc: Global, variables: usize) -> Result<Vec<NotedSpans>, NoMemory>
    ensures { IfOk result (λ spans. AreEmptySpans spans.items) }
{
    let spans = vec![in alloc; NotedSpans::empty(); variables]?;
    Ok(spans)
}

/// The spans of a variable. They are of no value if the variable has none.
#[inline(always)]
pub(crate) fn noted_of(spans: &[NotedSpans], var: Var) -> NotedSpans
    ensures { (slice_get spans.now var ≡ Some result) ⊎ AreBothEmpty result }
{
    match spans.get(var.0 as usize) {
        Some(span) => *span,
        None => NotedSpans::empty(),
    }
}

/// Keeps the spans for a variable, if it has some.
pub(crate) fn set_noted(spans: &mut Vec<NotedSpans>, var: Var, own: NotedSpans)
    ensures own { (s : NotedSpansTerm) → slice_get spans.new.items var ≡ Some s → s ≡ own }
    ensures others { (x : ℕ) → x ≢ var → slice_get spans.new.items x ≡ slice_get spans.old.items x }
{
    let place = var.0 as usize;
    if place < spans.len() {
        spans[place] = own;
    }
}
