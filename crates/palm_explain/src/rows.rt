//! The numbers of removed pairs, in a row for each variable, so that none is looked up by hashing.
ghost use Rattle.std.specs.Prelude.{◌≡◌, ◌≢◌, ◌⊎◌, ℕ, ℤ, ◌+◌, ◌-◌, ◌^◌, ◌<◌, ◌≤◌, true, None, Some, [], ◌∷◌, length, Contains, IfOk, slice_get, slice_index_or, IfNone, IfSome, MatchOption, OnErr, OnOk};
ghost use Rattle.palm_base.specs.Ascending.{Ascends};
ghost use Rattle.palm_base.specs.declared.terms.Pair.{Pair as PairTerm};
ghost use Rattle.palm_explain.specs.Moving.{NumbersEach};
ghost use Rattle.palm_explain.specs.Restored.{KeepsNumbers, slot_at};
ghost use Rattle.palm_explain.specs.Rows.{AreFormedRows, IsFormedRow, KeepsRemovals, StandsAt, number_at, rest_in, span_in, value_number};

use palm_base::{NoMemory, Pair, Value, Var};
use std::alloc::{AllocError, AllocFailed, Global};

/// The number of a value that is not removed.
pub(crate) const NO_NUMBER: usize = usize::MAX;

/// The values that a variable lost at some time, ascending, and beside each the number of its removal, if it is removed.
#[derive(Debug, Drop)]
pub(crate) struct Row {
    values: Vec<Value>,
    numbers: Vec<usize>,
    /// Where the variable stands in the list of those of which the last withdrawal put values back, if it is there.
    slot: usize,
}

impl Row {
    fn new(alloc: Global) -> Row
        ensures formed { IsFormedRow result }
        ensures none { (v : ℤ) → value_number result v ≡ None }
    {
        Row {
            values: Vec::new(alloc),
            numbers: Vec::new(alloc),
            slot: 0,
        }
    }

    /// Whether the value stands at the place.
    #[inline(always)]
    pub(crate) fn has_at(&self, place: usize, value: Value) -> bool
        ensures { result ≡ true → StandsAt self.now value place }
    {
        place < self.values.len() && self.values[place] == value
    }

    /// The place of the value, where the row has all numbers from its first to it. The difference of a value below the
    /// first wraps, to a place behind any row's end.
    #[inline(always)]
    fn gapless_place(&self, value: Value) -> Option<usize>
        ensures { IfSome result (StandsAt self.now value) }
    {
        let first = self.values.first()?;
        let place = value.0.wrapping_sub(first.0).cast_unsigned() as usize;
        if self.has_at(place, value) {
            Some(place)
        } else {
            None
        }
    }

    /// The place of a value. (Out of line, so that its caller is small where it goes without.)
    #[inline(never)]
    fn place_of(&self, value: Value) -> Option<usize>
        requires { IsFormedRow self.now }
        ensures { MatchOption result (value_number self.now value ≡ None) (StandsAt self.now value) }
    {
        if let Some(place) = self.gapless_place(value) {
            return Some(place);
        }
        match self.values.binary_search(&value) {
            Ok(place) => Some(place),
            Err(_) => None,
        }
    }

    /// The place of a value that has one. It is looked for first at a place.
    #[inline(always)]
    pub(crate) fn place_near(&self, value: Value, near: usize) -> usize
        requires formed { IsFormedRow self.now }
        requires there { (k : ℕ) × (value_number self.now value ≡ Some k) }
        ensures { slice_get self.now.values.items result ≡ Some value }
    {
        if self.has_at(near, value) {
            return near;
        }
        self.place_of(value).unwrap()
    }

    /// The number of a value, which is looked for first near a place.
    #[inline(always)]
    pub(crate) fn number_near(&self, value: Value, near: &mut usize) -> Option<usize>
        requires { IsFormedRow self.now }
        ensures { result ≡ value_number self.now value }
    {
        let place = *near;
        if self.has_at(place, value) {
            *near = place.wrapping_add(1);
            return Some(self.numbers[place]);
        }
        match self.place_of(value) {
            Some(place) => {
                *near = place.wrapping_add(1);
                Some(self.numbers[place])
            }
            None => None,
        }
    }

    /// How many of the values are less.
    pub(crate) fn first_from(&self, low: Value) -> usize
        requires { IsFormedRow self.now }
        ensures { (n : ℕ) (high : ℤ) → rest_in self.now n high result ≡ span_in self.now n low high }
    {
        if let Some(place) = self.gapless_place(low) {
            return place;
        }
        self.values.partition_point(|value| *value < low)
    }

    /// How many values there are.
    #[inline(always)]
    pub(crate) fn len(&self) -> usize
        ensures { result ≡ length self.now.values.items }
    {
        self.values.len()
    }

    /// The first place from this one on whose value is at most `high`, and was removed before the number.
    #[inline(always)]
    pub(crate) fn next_before(&self, place: usize, high: Value, number: usize) -> Option<usize>
        requires { IsFormedRow self.now }
        ensures some { IfSome result (λ next. (next < length self.now.values.items)
            × ((d : ℤ) → rest_in self.now number high place ≡ slice_index_or self.now.values.items next d ∷ rest_in self.now number high (next + 1))) }
        ensures none { IfNone result (rest_in self.now number high place ≡ []) }
    {
        let mut next = place;
        while next < self.values.len() && self.values[next].0 <= high.0 {
            if self.numbers[next] < number {
                return Some(next);
            }
            next += 1;
        }
        None
    }

    /// The value at a place, and its number.
    #[inline(always)]
    pub(crate) fn numbered(&self, place: usize) -> (Value, usize)
        requires formed { IsFormedRow self.now }
        requires within { place < length self.now.values.items }
        ensures value { slice_get self.now.values.items place ≡ Some result.0 }
        ensures number { value_number self.now result.0 ≡ Some result.1 }
    {
        (self.values[place], self.numbers[place])
    }

    /// Sets the number of a value that has one.
    fn set(&mut self, value: Value, number: usize)
        requires formed { IsFormedRow self.old }
        requires there { (k : ℕ) × (value_number self.old value ≡ Some k) }
        ensures formed { IsFormedRow self.new }
        ensures there { value_number self.new value ≡ Some number }
        ensures others { (v : ℤ) → (v ≡ value → ⊥) → value_number self.new v ≡ value_number self.old v }
        ensures slot { self.new.slot ≡ self.old.slot }
    {
        let place = self.place_of(value).unwrap();
        self.numbers[place] = number;
    }

    /// The place of a value, which gets one where it has none: it is not removed there. It is looked for first at a place. Without
    /// memory nothing changes.
    #[inline(always)]
    fn place_for(&mut self, value: Value, near: usize) -> Result<usize, NoMemory>
        requires { IsFormedRow self.old }
        ensures formed { IsFormedRow self.new }
        ensures found { IfOk result (StandsAt self.new value) }
        ensures stay { (v : ℤ) (k : ℕ) → value_number self.old v ≡ Some k
            → value_number self.new v ≡ Some k }
        ensures only { (v : ℤ) (k : ℕ) → value_number self.new v ≡ Some k
            → (value_number self.old v ≡ Some k) ⊎ (k ≡ NO_NUMBER) }
        ensures others { (v : ℤ) → (v ≡ value → ⊥) → value_number self.new v ≡ value_number self.old v }
        ensures err { OnErr result ((v : ℤ) → value_number self.new v ≡ value_number self.old v) }
    {
        if self.has_at(near, value) {
            return Ok(near);
        }
        if let Some(place) = self.gapless_place(value) {
            return Ok(place);
        }
        match self.values.binary_search(&value) {
            Ok(place) => Ok(place),
            Err(place) => {
                self.numbers.reserve(1)?;
                self.values.insert(place, value)?;
                self.numbers.insert(place, NO_NUMBER).unwrap();
                Ok(place)
            }
        }
    }

    /// Sets the number of a value; without memory nothing changes.
    #[inline(always)]
    fn put(&mut self, value: Value, number: usize) -> Result<(), NoMemory>
        requires { IsFormedRow self.old }
        ensures formed { IsFormedRow self.new }
        ensures there { OnOk result (value_number self.new value ≡ Some number) }
        ensures err { OnErr result ((v : ℤ) → value_number self.new v ≡ value_number self.old v) }
        ensures others { (v : ℤ) → (v ≡ value → ⊥) → value_number self.new v ≡ value_number self.old v }
    {
        let place = self.place_for(value, 0)?;
        self.numbers[place] = number;
        Ok(())
    }

    /// Gives each of the values a place that has none: it is not removed there. Answers where the first of them is where all stand side
    /// by side. Without memory some of them have one.
    fn reach_each(&mut self, values: &[Value]) -> Result<usize, NoMemory>
        requires { IsFormedRow self.old }
        ensures formed { IsFormedRow self.new }
        ensures stay { (v : ℤ) (k : ℕ) → value_number self.old v ≡ Some k
            → value_number self.new v ≡ Some k }
        ensures only { (v : ℤ) (k : ℕ) → value_number self.new v ≡ Some k
            → (value_number self.old v ≡ Some k) ⊎ (k ≡ NO_NUMBER) }
        ensures there { OnOk result ((v : ℤ) → Contains values.now v → (k : ℕ) × (value_number self.new v ≡ Some k)) }
    {
        let mut near = 0;
        for value in values {
            near = self.place_for(*value, near)? + 1;
        }
        Ok(near.wrapping_sub(values.len()))
    }

    /// Gives the values, each of which has a number, the numbers from this one on. The first is looked for at a place.
    fn number_each(&mut self, values: &[Value], first: usize, place: usize)
        requires formed { IsFormedRow self.old }
        requires ascend { Ascends values.now }
        requires there { (v : ℤ) → Contains values.now v → (k : ℕ) × (value_number self.old v ≡ Some k) }
        requires numbers { first + length values.now < 2 ^ 64 }
        ensures formed { IsFormedRow self.new }
        ensures numbered { (i : ℕ) (v : ℤ) → slice_get values.now i ≡ Some v → value_number self.new v ≡ Some (first + i) }
        ensures others { (v : ℤ) → (Contains values.now v → ⊥) → value_number self.new v ≡ value_number self.old v }
        ensures lost { length self.new.values.items ≡ length self.old.values.items }
    {
        let mut near = place;
        let mut number = first;
        for value in values {
            let own = self.place_near(*value, near);
            self.numbers[own] = number;
            near = own + 1;
            number += 1;
        }
    }

    /// Takes the values, none of which is removed, if it has none yet. Without memory nothing changes.
    fn declare(&mut self, values: &[Value]) -> Result<(), NoMemory>
        requires formed { IsFormedRow self.old }
        requires ascend { Ascends values.now }
        ensures formed { IsFormedRow self.new }
        ensures stay { (v : ℤ) (k : ℕ) → value_number self.old v ≡ Some k
            → value_number self.new v ≡ Some k }
        ensures only { (v : ℤ) (k : ℕ) → value_number self.new v ≡ Some k
            → (value_number self.old v ≡ Some k) ⊎ (k ≡ NO_NUMBER) }
    {
        if !self.values.is_empty() {
            return Ok(());
        }
        let alloc = *self.values.allocator();
        let numbers = vec![in alloc; NO_NUMBER; values.len()]?;
        self.values = Vec::from_slice(alloc, values)?;
        self.numbers = numbers;
        Ok(())
    }
}

/// The number under which the pair was entered last. Its value is looked for first near a place of the row, and `near` is
/// then the place behind it: pairs of one variable mostly come with rising values.
#[inline(always)]
pub(crate) fn number_near(rows: &[Row], pair: &Pair, near: &mut usize) -> Option<usize>
    requires { AreFormedRows rows.now }
    ensures { result ≡ number_at rows.now pair.now }
{
    let row = row_at(rows, pair.var)?;
    row.number_near(pair.value, near)
}

/// The row of a variable, if it has one.
#[inline(always)]
pub(crate) fn row_at(rows: &[Row], var: Var) -> Option<&Row>
    ensures { MatchOption result (slice_get rows.now var ≡ None) (λ row. slice_get rows.now var ≡ Some row.now) }
{
    rows.get(var.0 as usize)
}

/// The row of a variable.
#[inline(always)]
pub(crate) fn row_of(rows: &[Row], var: Var) -> &Row
    requires { var < length rows.now }
    ensures { slice_get rows.now var ≡ Some result.now }
{
    &rows[var.0 as usize]
}

/// Makes a row for each of the first variables, so many of them; all numbers stay.
#[inline(always)]
fn reach(rows: &mut Vec<Row>, variables: usize) -> Result<(), NoMemory>
    requires { AreFormedRows rows.old.items }
    ensures formed { AreFormedRows rows.new.items }
    ensures same { (p : PairTerm) → number_at rows.new.items p ≡ number_at rows.old.items p }
    ensures reached { OnOk result (variables ≤ length rows.new.items) }
{
    while rows.len() < variables {
        let row = Row::new(*rows.allocator());
        rows.push(row)?;
    }
    Ok(())
}

/// Sets the number of a pair; without memory all numbers stay.
#[inline(always)]
pub(crate) fn put_number(rows: &mut Vec<Row>, pair: &Pair, number: usize) -> Result<(), NoMemory>
    requires { AreFormedRows rows.old.items }
    ensures formed { AreFormedRows rows.new.items }
    ensures there { OnOk result (number_at rows.new.items pair.now ≡ Some number) }
    ensures err { OnErr result ((p : PairTerm) → number_at rows.new.items p ≡ number_at rows.old.items p) }
    ensures others { (p : PairTerm) → (p ≡ pair.now → ⊥) → number_at rows.new.items p ≡ number_at rows.old.items p }
{
    let place = pair.var.0 as usize;
    reach(rows, place + 1)?;
    let row = &mut rows[place];
    row.put(pair.value, number)
}

/// Gives each of the values of a variable a number that has none: it is not removed. All removals stay. Answers where the first of
/// them is in its row where all stand side by side.
pub(crate) fn reach_values(
    rows: &mut Vec<Row>,
    var: Var,
    values: &[Value],
) -> Result<usize, NoMemory>
    requires formed { AreFormedRows rows.old.items }
    ensures formed { AreFormedRows rows.new.items }
    ensures removals { KeepsRemovals rows.old.items rows.new.items }
    ensures reached { OnOk result (var < length rows.new.items) }
    ensures there { OnOk result ((v : ℤ) → Contains values.now v
        → (k : ℕ) × (number_at rows.new.items (record { var = var; value = v }) ≡ Some k)) }
{
    let place = var.0 as usize;
    reach(rows, place + 1)?;
    let row = &mut rows[place];
    row.reach_each(values)
}

/// Gives the values of a variable, each of which has a number, the numbers from this one on. The first is looked for at a place of the
/// row.
pub(crate) fn number_each(
    rows: &mut Vec<Row>,
    var: Var,
    values: &[Value],
    first: usize,
    place: usize,
)
    requires formed { AreFormedRows rows.old.items }
    requires ascend { Ascends values.now }
    requires reached { var < length rows.old.items }
    requires there { (v : ℤ) → Contains values.now v
        → (k : ℕ) × (number_at rows.old.items (record { var = var; value = v }) ≡ Some k) }
    requires numbers { first + length values.now < 2 ^ 64 }
    ensures { NumbersEach rows.old.items var first values.now rows.new.items }
{
    let row = &mut rows[var.0 as usize];
    row.number_each(values, first, place);
}

/// Gives the row of a variable these values, none of which is removed, if it has none yet. All removals stay.
pub(crate) fn declare_values(
    rows: &mut Vec<Row>,
    var: Var,
    values: &[Value],
) -> Result<(), NoMemory>
    requires formed { AreFormedRows rows.old.items }
    requires ascend { Ascends values.now }
    ensures formed { AreFormedRows rows.new.items }
    ensures removals { KeepsRemovals rows.old.items rows.new.items }
{
    let place = var.0 as usize;
    reach(rows, place + 1)?;
    rows[place].declare(values)
}

/// Sets the number of a pair that has one.
pub(crate) fn set_number(rows: &mut Vec<Row>, pair: &Pair, number: usize)
    requires formed { AreFormedRows rows.old.items }
    requires there { (k : ℕ) × (number_at rows.old.items pair.now ≡ Some k) }
    ensures formed { AreFormedRows rows.new.items }
    ensures there { number_at rows.new.items pair.now ≡ Some number }
    ensures others { (p : PairTerm) → (p ≡ pair.now → ⊥) → number_at rows.new.items p ≡ number_at rows.old.items p }
    ensures long { length rows.new.items ≡ length rows.old.items }
    ensures slots { (x : ℕ) → slot_at rows.new.items x ≡ slot_at rows.old.items x }
{
    let row = &mut rows[pair.var.0 as usize];
    row.set(pair.value, number);
}

/// Where a variable stands in the list of restored ones, if it is there.
#[inline(always)]
pub(crate) fn slot_of(rows: &[Row], var: Var) -> usize
    ensures { result ≡ slot_at rows.now var }
{
    match rows.get(var.0 as usize) {
        Some(row) => row.slot,
        None => 0,
    }
}

/// Notes where a variable stands in the list of restored ones.
pub(crate) fn set_slot(rows: &mut Vec<Row>, var: Var, slot: usize)
    requires { var < length rows.old.items }
    ensures numbers { KeepsNumbers rows.old.items rows.new.items }
    ensures noted { slot_at rows.new.items var ≡ slot }
    ensures others { (x : ℕ) → x ≢ var → slot_at rows.new.items x ≡ slot_at rows.old.items x }
{
    rows[var.0 as usize].slot = slot;
}
