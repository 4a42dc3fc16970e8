//! Where the places of each number start, among places in the order of their values.
ghost use Rattle.std.specs.Prelude.{◌≡◌, ℕ, pos, ◌+ℤ◌, ◌+◌, ◌^◌, ◌<◌, ◌≤◌, ◌<ℤ◌, ◌≤ℤ◌, length, IfOk, IfNone, IfSome, slice_index_or};
ghost use Rattle.palm_base.specs.Tells.{Tells};
ghost use Rattle.palm_filter.specs.Index.{AreStarts, AreStartsFrom, IsGreatest, IsIndex, IsLeast, IsStart, value_at};

use palm_base::{NoMemory, Value};
use std::alloc::Global;

/// The most numbers that the values of a list with starts may span for each of them.
const NUMBERS_PER_VALUE: usize = 4;

/// The most numbers that they may span besides.
const NUMBERS_BESIDES: usize = 16;

/// Where the places of each number start, from the least value on up to the greatest, and where those of the greatest
/// end. There are none where the values lie too far apart.
#[derive(Debug, Drop)]
pub(crate) struct Starts {
    pub(crate) least: Value,
    pub(crate) list: Vec<usize>,
}

impl Starts {
    /// The starts of the values, whose places are in their order.
    pub(crate) fn new(alloc: Global, values: &[Value], places: &[usize]) -> Result<Starts, NoMemory>
        requires { IsIndex values.now places.now }
        ensures { IfOk result (λ starts. AreStarts values.now places.now starts.least starts.list.items) }
    {
        let least = least_of(values, places);
        let span = distance_between(&least, &greatest_of(values, places));
        let list = if are_close(span, values.len()) {
            starts_from(alloc, values, places, &least, span + 2)?
        } else {
            Vec::new(alloc)
        };
        Ok(Starts { least, list })
    }

    /// Whether there are none.
    pub(crate) fn is_empty(&self) -> bool
        ensures { Tells result (length self.now.list.items ≡ 0) }
    {
        self.list.is_empty()
    }

    /// How far the value lies above the least one, where it lies between that and the greatest.
    pub(crate) fn distance_of(&self, value: &Value) -> Option<usize>
        ensures distance { IfSome result (λ distance. value.now ≡ self.now.least +ℤ pos distance) }
        ensures within { IfSome result (λ distance. distance + 1 < length self.now.list.items) }
        ensures beyond { IfNone result (self.now.least ≤ℤ value.now → (self.now.least +ℤ pos (length self.now.list.items)) ≤ℤ (value.now +ℤ pos 1)) }
    {
        if *value < self.least {
            return None;
        }
        let distance = distance_between(&self.least, value);
        if distance + 1 < self.list.len() {
            Some(distance)
        } else {
            None
        }
    }
}

/// The value at the place, and 0 where there is none.
pub(crate) fn value_at(values: &[Value], place: usize) -> Value
    ensures { result ≡ value_at values.now place }
{
    values.get(place).copied().unwrap_or_default()
}

/// The least value, and 0 where there is none.
fn least_of(values: &[Value], places: &[usize]) -> Value
    requires { IsIndex values.now places.now }
    ensures { IsLeast values.now result }
{
    value_at(values, places.first().copied().unwrap_or_default())
}

/// The greatest value, and 0 where there is none.
fn greatest_of(values: &[Value], places: &[usize]) -> Value
    requires { IsIndex values.now places.now }
    ensures { IsGreatest values.now result }
{
    value_at(values, places.last().copied().unwrap_or_default())
}

/// How far the value lies above the least one.
#[inline(always)]
fn distance_between(least: &Value, value: &Value) -> usize
    ensures distance { least.now ≤ℤ value.now → value.now ≡ least.now +ℤ pos result }
    ensures small { result < 2 ^ 32 }
{
    value.0.abs_diff(least.0) as usize
}

/// Whether so many values that span so many numbers lie close together.
fn are_close(span: usize, count: usize) -> bool {
    span.saturating_sub(NUMBERS_BESIDES) / NUMBERS_PER_VALUE <= count
}

/// Where the places of each of `count` numbers from the least value on start.
fn starts_from(
    alloc: Global,
    values: &[Value],
    places: &[usize],
    least: &Value,
    count: usize,
) -> Result<Vec<usize>, NoMemory>
    requires index { IsIndex values.now places.now }
    requires least { IsLeast values.now least.now }
    ensures count { IfOk result (λ starts. length starts.items ≡ count) }
    ensures each { IfOk result (λ starts. AreStartsFrom values.now places.now least.now starts.items) }
{
    let mut starts = Vec::with_capacity(alloc, count)?;
    let mut start = 0;
    for distance in 0..count {
        start = start_from(values, places, least, distance, start);
        starts.push(start)?;
    }
    Ok(starts)
}

/// Where the places of the number at the distance above the least value start, which is not before `from`.
fn start_from(
    values: &[Value],
    places: &[usize],
    least: &Value,
    distance: usize,
    from: usize,
) -> usize
    requires index { IsIndex values.now places.now }
    requires least { IsLeast values.now least.now }
    requires within { from ≤ length places.now }
    requires before { (i d : ℕ) → i < from → value_at values.now (slice_index_or places.now i d) <ℤ (least.now +ℤ pos distance) }
    ensures { IsStart values.now places.now (least.now +ℤ pos distance) result }
{
    for next in from..places.len() {
        if distance_between(least, &value_at(values, places[next])) >= distance {
            return next;
        }
    }
    places.len()
}
