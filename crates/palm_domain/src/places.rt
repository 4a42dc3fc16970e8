//! The place of a value in an ascending list.
ghost use Rattle.std.specs.Prelude.{◌≡◌, ℕ, ℤ, pos, ◌+ℤ◌, ◌<◌, ◌≤◌, ◌≤ℤ◌, int_lt, length, slice_index_or, slice_get, IfSome, MatchOption, Contains};
ghost use Rattle.std.specs.Int.{int_gap};
ghost use Rattle.palm_domain.specs.Places.{IsPlaceFrom};
ghost use Rattle.palm_base.specs.Order.{IsPartedAt};
ghost use Rattle.palm_base.specs.Tells.{Tells};
ghost use Rattle.palm_domain.specs.Rows.{Ascends, HasRun, IsGapless};

use palm_base::Value;

/// The place of the first value that is at least `value`, and the list's length where there is none.
pub(crate) fn place_from(values: &[Value], value: Value) -> usize
    requires { Ascends values.now }
    ensures { IsPlaceFrom values.now value result }
{
    match gapless_place(values, value) {
        Some(place) => place,
        None => sparse_place_from(values, value),
    }
}

/// The place of the first value above `value`, and the list's length where there is none.
pub(crate) fn place_after(values: &[Value], value: Value) -> usize
    requires { Ascends values.now }
    ensures { IsPlaceFrom values.now (value +ℤ pos 1) result }
{
    match gapless_place(values, value) {
        Some(place) => place + 1,
        None => sparse_place_after(values, value),
    }
}

/// How many of the values are less than the number. One beyond them is answered at once.
pub(crate) fn count_below(values: &[Value], number: i64) -> usize
    requires ascend { Ascends values.now }
    requires filled { 0 < length values.now }
    ensures { IsPartedAt (λ v. int_lt v number) values.now result }
{
    let least = values[0];
    let greatest = values[values.len() - 1];
    if number <= i64::from(least.0) {
        0
    } else if i64::from(greatest.0) < number {
        values.len()
    } else {
        place_from(values, Value(number as i32))
    }
}

/// The place of the value, if the list has it.
pub(crate) fn place_of(values: &[Value], value: Value) -> Option<usize>
    requires { Ascends values.now }
    ensures { MatchOption result
        (Contains values.now value → ⊥)
        (λ place. slice_get values.now place ≡ Some value) }
{
    match gapless_place(values, value) {
        Some(place) => Some(place),
        None => sparse_place_of(values, value),
    }
}

/// The place of the value, where the list has all numbers from its first to it. The difference of a value below the
/// first wraps, to a place behind any list's end.
#[inline(always)]
fn gapless_place(values: &[Value], value: Value) -> Option<usize>
    ensures { IfSome result (λ place. slice_get values.now place ≡ Some value) }
{
    let first = values.first()?;
    let place = value.0.wrapping_sub(first.0).cast_unsigned() as usize;
    if place < values.len() && values[place] == value {
        Some(place)
    } else {
        None
    }
}

/// Whether the list leaves out no number between its first and its last value.
pub(crate) fn is_gapless(values: &[Value]) -> bool
    requires ascend { Ascends values.now }
    requires filled { 0 < length values.now }
    ensures { Tells result (IsGapless values.now) }
{
    let last = values.len() - 1;
    gap(values[0], values[last]) == last
}

/// The place of the value, if the list has it, which leaves out no number between its first and its last value.
#[inline(always)]
pub(crate) fn place_in_run(values: &[Value], value: Value) -> Option<usize>
    requires ascend { Ascends values.now }
    requires filled { 0 < length values.now }
    requires gapless { IsGapless values.now }
    ensures { MatchOption result (Contains values.now value → ⊥) (HasRun values.now value) }
{
    let least = values[0];
    if value < least {
        return None;
    }
    let place = gap(least, value);
    if place < values.len() {
        Some(place)
    } else {
        None
    }
}

/// The place of the first value that is at least `value`, whatever numbers the list leaves out.
#[inline(never)]
fn sparse_place_from(values: &[Value], value: Value) -> usize
    requires { Ascends values.now }
    ensures { IsPlaceFrom values.now value result }
{
    let end = end_of_lower(values, value);
    if end == 0 || values[end - 1] < value {
        return end;
    }
    search(values, value, end)
}

/// The place of the first value above `value`, whatever numbers the list leaves out.
#[inline(never)]
fn sparse_place_after(values: &[Value], value: Value) -> usize
    requires { Ascends values.now }
    ensures { IsPlaceFrom values.now (value +ℤ pos 1) result }
{
    let place = sparse_place_from(values, value);
    if place < values.len() && values[place] == value {
        place + 1
    } else {
        place
    }
}

/// The place of the value, whatever numbers the list leaves out.
#[inline(never)]
fn sparse_place_of(values: &[Value], value: Value) -> Option<usize>
    requires { Ascends values.now }
    ensures { MatchOption result
        (Contains values.now value → ⊥)
        (λ place. slice_get values.now place ≡ Some value) }
{
    let place = sparse_place_from(values, value);
    if place < values.len() && values[place] == value {
        Some(place)
    } else {
        None
    }
}

/// A place from which on no value is below `value`: a list of different numbers reaches it by then.
fn end_of_lower(values: &[Value], value: Value) -> usize
    requires { Ascends values.now }
    ensures within { result ≤ length values.now }
    ensures above { (k : ℕ) (d : ℤ) →
        result ≤ k → k < length values.now → value ≤ℤ slice_index_or values.now k d }
{
    match values.first() {
        Some(least) => values.len().min(gap(*least, value)),
        None => 0,
    }
}

/// How far `high` is above `low`, and 0 where it is not.
fn gap(low: Value, high: Value) -> usize
    ensures { result ≡ int_gap low high }
{
    if high <= low {
        0
    } else {
        high.0.abs_diff(low.0) as usize
    }
}

/// The place of the first value that is at least `value`, by halves of the values below place `end`.
fn search(values: &[Value], value: Value, end: usize) -> usize
    requires ascend { Ascends values.now }
    requires within { end ≤ length values.now }
    requires above { (k : ℕ) (d : ℤ) →
        end ≤ k → k < length values.now → value ≤ℤ slice_index_or values.now k d }
    ensures { IsPlaceFrom values.now value result }
{
    let mut low = 0;
    let mut high = end;
    while low < high {
        let middle = low + (high - low) / 2;
        if values[middle] < value {
            low = middle + 1;
        } else {
            high = middle;
        }
    }
    low
}
