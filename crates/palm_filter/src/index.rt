//! The places of each value of a list.
ghost use Rattle.std.specs.Prelude.{◌≡◌, ℕ, pos, map, Contains, Some, IfOk, slice_get};
ghost use Rattle.palm_base.specs.Ascending.{Ascends};
ghost use Rattle.palm_filter.specs.Index.{IsIndex, value_at};
ghost use Rattle.palm_model.specs.Constraint.{Distinct};

use crate::starts::{Starts, value_at};
use palm_base::{NoMemory, Value};
use std::alloc::Global;
use std::marker::Model;

/// A list of values that finds the places of a value. It keeps the places in the order of their values, those of one value
/// ascending, and, where the values lie close together, where the places of each number start; else the places are found by
/// halves.
#[derive(Debug, Drop)]
pub struct ValueIndex {
    values: Vec<Value>,
    places: Vec<usize>,
    starts: Starts,
}

impl Model for ValueIndex {
    ghost use Rattle.std.specs.Prelude.{List, ℤ};
    ghost use Rattle.palm_filter.specs.Index.{IsStarted};

    ghost Value = { List ℤ };

    ghost view = { λ i. i.values.items };

    ghost invariant = { λ i. IsStarted i.values.items i.places.items i.starts.least i.starts.list.items };
}

/// The places of the values, in the order of the values; those of one value ascend.
fn sorted_places(alloc: Global, values: &[Value]) -> Result<Vec<usize>, NoMemory>
    ensures { IfOk result (λ places. IsIndex values.now places.items) }
{
    let mut places = Vec::with_capacity(alloc, values.len())?;
    for place in 0..values.len() {
        places.push(place)?;
    }
    places.sort_unstable_by_key(|place| (value_at(values, *place), *place));
    Ok(places)
}

/// Every place where the value stands, ascending, of places in the order of their values.
fn places_of<'a>(values: &[Value], places: &'a [usize], value: &Value) -> &'a [usize]
    requires { IsIndex values.now places.now }
    ensures stands { (k : ℕ) → Contains result.now k → slice_get values.now k ≡ Some value.now }
    ensures every { (k : ℕ) → slice_get values.now k ≡ Some value.now → Contains result.now k }
    ensures once { Distinct result.now }
    ensures ascending { Ascends (map pos result.now) }
{
    let from = places.partition_point(|place| value_at(values, *place) < *value);
    let end = places.partition_point(|place| value_at(values, *place) <= *value);
    &places[from..end]
}

impl ValueIndex {
    /// The index of a list of values.
    pub fn new(alloc: Global, values: &[Value]) -> Result<ValueIndex, NoMemory>
        ensures { IfOk result (λ index. index ≡ values.now) }
    {
        let places = sorted_places(alloc, values)?;
        let starts = Starts::new(alloc, values, &places)?;
        Ok(ValueIndex {
            values: Vec::from_slice(alloc, values)?,
            places,
            starts,
        })
    }

    /// The values.
    pub fn values(&self) -> &[Value]
        ensures { result.now ≡ self.now }
    {
        self.values.as_slice()
    }

    /// Every place where the value stands, once, ascending.
    pub fn places(&self, value: &Value) -> &[usize]
        ensures stands { (k : ℕ) → Contains result.now k → slice_get self.now k ≡ Some value.now }
        ensures every { (k : ℕ) → slice_get self.now k ≡ Some value.now → Contains result.now k }
        ensures once { Distinct result.now }
        ensures ascending { Ascends (map pos result.now) }
    {
        match self.starts.distance_of(value) {
            Some(distance) => {
                &self.places[self.starts.list[distance]..self.starts.list[distance + 1]]
            }
            None if self.starts.is_empty() => places_of(&self.values, &self.places, value),
            None => &[],
        }
    }
}
