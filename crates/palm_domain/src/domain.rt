//! The values of one variable.
ghost use Rattle.std.specs.Prelude.{◌≡◌, ℤ, pos, ◌+ℤ◌, ◌<◌, ◌≤◌, ◌<ℤ◌, ◌≤ℤ◌, int_lt, length, Contains, IfNone, IfOk, IfSome, MatchOption};
ghost use Rattle.palm_base.specs.Order.{IsPartedAt};
ghost use Rattle.palm_base.specs.Tells.{Tells};
ghost use Rattle.palm_domain.specs.Rows.{Ascends, IsFormed, IsGapless, IsGreatestOf, IsLastBefore, IsLeastOf, IsNextFrom, IsNextRemovedFrom, IsWindow, StandsIn, values_with, values_without};

use crate::limits::MOST_VALUES;
use crate::marks::Marks;
use crate::placed::Placed;
use crate::places::{count_below, is_gapless, place_after, place_from, place_in_run, place_of};
use palm_base::{NoMemory, Value};
use std::alloc::Global;
use std::marker::Model;

/// The declared values in their order, with a mark at the place of each that is present. How many marks there are,
/// the first of them and one past the last are kept, so that no reader walks the values, and whether the values leave out
/// no number between the first and the last of them.
#[derive(Debug, Drop)]
pub(crate) struct Domain {
    initial: Vec<Value>,
    marks: Marks,
    count: u16,
    first: u16,
    end: u16,
    gapless: bool,
}

impl Model for Domain {
    ghost use Rattle.palm_base.specs.Tells.{Tells};
    ghost use Rattle.palm_domain.specs.Rows.{IsGapless, Row};
    ghost use Rattle.palm_domain.specs.Marks.{AreMarks, is_marked, kept};

    ghost Value = { Row };

    ghost view = { λ d. record {
      initial = d.initial.items;
      present = kept (is_marked d.marks.words) 0 d.initial.items;
    } };

    ghost invariant = { λ d. AreMarks (is_marked d.marks.words) d.initial.items d.count d.first d.end
        × Tells d.gapless (IsGapless d.initial.items) };
}

impl Domain {
    /// Each of the values is present.
    pub(crate) fn new(alloc: Global, values: &[Value]) -> Result<Domain, NoMemory>
        requires ascend { Ascends values.now }
        requires filled { 0 < length values.now }
        requires small { length values.now ≤ MOST_VALUES }
        ensures { IfOk result (λ d. d ≡ record { initial = values.now; present = values.now }) }
    {
        let count = values.len();
        Ok(Domain {
            initial: Vec::from_slice(alloc, values)?,
            marks: Marks::of_first(count),
            count: count as u16,
            first: 0,
            end: count as u16,
            gapless: is_gapless(values),
        })
    }

    /// The declared values.
    pub(crate) fn initial(&self) -> &[Value]
        ensures values { result.now ≡ self.now.initial }
        ensures formed { IsFormed self.now }
    {
        self.initial.as_slice()
    }

    /// Whether the value was declared.
    pub(crate) fn declared(&self, value: Value) -> bool
        ensures tells { Tells result (Contains self.now.initial value) }
        ensures formed { IsFormed self.now }
    {
        place_of(&self.initial, value).is_some()
    }

    /// Whether the value is present.
    pub(crate) fn contains(&self, value: Value) -> bool
        ensures { Tells result (Contains self.now.present value) }
    {
        match place_of(&self.initial, value) {
            Some(place) => self.marks.has(place),
            None => false,
        }
    }

    /// A bit for each of the 64 numbers from a declared value on: one where the number is present. They are not told
    /// where the declared values leave out a number between the first and the last of them.
    #[inline(always)]
    pub(crate) fn window(&self, first: Value) -> Option<u64>
        ensures window { IfSome result (IsWindow self.now.present first) }
        ensures none { IfNone result (IsGapless self.now.initial → Contains self.now.initial first → ⊥) }
    {
        if !self.gapless {
            return None;
        }
        let place = place_in_run(&self.initial, first)?;
        Some(self.marks.window(place))
    }

    /// How many values were declared.
    pub(crate) fn initial_count(&self) -> u32
        ensures { result ≡ length self.now.initial }
    {
        self.initial.len() as u32
    }

    /// How many of the declared values are less than the number.
    pub(crate) fn declared_below(&self, number: i64) -> usize
        ensures { IsPartedAt (λ v. int_lt v number) self.now.initial result }
    {
        count_below(&self.initial, number)
    }

    /// How many values are present.
    pub(crate) fn count(&self) -> u32
        ensures { result ≡ length self.now.present }
    {
        u32::from(self.count)
    }

    /// The least present value.
    pub(crate) fn least(&self) -> Value
        requires { 0 < length self.now.present }
        ensures { IsLeastOf self.now.present result }
    {
        self.initial[usize::from(self.first)]
    }

    /// The greatest present value.
    pub(crate) fn greatest(&self) -> Value
        requires { 0 < length self.now.present }
        ensures { IsGreatestOf self.now.present result }
    {
        self.initial[usize::from(self.end) - 1]
    }

    /// The least present value that is at least `value`.
    pub(crate) fn next_from(&self, value: Value) -> Option<Value>
        ensures { MatchOption result
            ((w : ℤ) → Contains self.now.present w → w <ℤ value)
            (IsNextFrom self.now.present value) }
    {
        let from = place_from(&self.initial, value);
        let place = self.marks.next_set(from, usize::from(self.end))?;
        Some(self.initial[place])
    }

    /// The least present value above `value`.
    pub(crate) fn next_after(&self, value: Value) -> Option<Value>
        ensures { MatchOption result
            ((w : ℤ) → Contains self.now.present w → w <ℤ (value +ℤ pos 1))
            (IsNextFrom self.now.present (value +ℤ pos 1)) }
    {
        let from = place_after(&self.initial, value);
        let place = self.marks.next_set(from, usize::from(self.end))?;
        Some(self.initial[place])
    }

    /// The least present value, with its place.
    pub(crate) fn first_placed(&self) -> Placed
        requires { 0 < length self.now.present }
        ensures least { IsLeastOf self.now.present result.value }
        ensures placed { StandsIn self.now.initial result }
    {
        let place = usize::from(self.first);
        Placed {
            place,
            value: self.initial[place],
        }
    }

    /// The least present value that is at least `value`, with its place.
    pub(crate) fn placed_from(&self, value: Value) -> Option<Placed>
        ensures next { MatchOption result
            ((w : ℤ) → Contains self.now.present w → w <ℤ value)
            (λ p. IsNextFrom self.now.present value p.value) }
        ensures placed { IfSome result (λ p. StandsIn self.now.initial p) }
    {
        let from = place_from(&self.initial, value);
        let place = self.marks.next_set(from, usize::from(self.end))?;
        Some(Placed {
            place,
            value: self.initial[place],
        })
    }

    /// The least present value above the value at a place. Nothing is looked up.
    #[inline(always)]
    pub(crate) fn next_placed(&self, last: Placed) -> Option<Placed>
        requires { StandsIn self.now.initial last }
        ensures next { MatchOption result
            ((w : ℤ) → Contains self.now.present w → w <ℤ (last.value +ℤ pos 1))
            (λ p. IsNextFrom self.now.present (last.value +ℤ pos 1) p.value) }
        ensures placed { IfSome result (λ p. StandsIn self.now.initial p) }
    {
        let place = self.marks.next_set(last.place + 1, usize::from(self.end))?;
        Some(Placed {
            place,
            value: self.initial[place],
        })
    }

    /// The greatest present value below `value`.
    pub(crate) fn last_before(&self, value: Value) -> Option<Value>
        ensures { MatchOption result
            ((w : ℤ) → Contains self.now.present w → value ≤ℤ w)
            (IsLastBefore self.now.present value) }
    {
        let before = place_from(&self.initial, value);
        let end = self.marks.end_below(before);
        if end == 0 {
            None
        } else {
            Some(self.initial[end - 1])
        }
    }

    /// The least declared value that is not present and is at least `value`.
    pub(crate) fn next_removed_from(&self, value: Value) -> Option<Value>
        ensures { MatchOption result
            ((w : ℤ) → Contains self.now.initial w → value ≤ℤ w → Contains self.now.present w)
            (IsNextRemovedFrom self.now.initial self.now.present value) }
    {
        let from = place_from(&self.initial, value);
        let place = self.marks.flipped().next_set(from, self.initial.len())?;
        if place < self.initial.len() {
            Some(self.initial[place])
        } else {
            None
        }
    }

    /// The least declared value that is not present and is above `value`.
    pub(crate) fn next_removed_after(&self, value: Value) -> Option<Value>
        ensures { MatchOption result
            ((w : ℤ) → Contains self.now.initial w → (value +ℤ pos 1) ≤ℤ w → Contains self.now.present w)
            (IsNextRemovedFrom self.now.initial self.now.present (value +ℤ pos 1)) }
    {
        let from = place_after(&self.initial, value);
        let place = self.marks.flipped().next_set(from, self.initial.len())?;
        if place < self.initial.len() {
            Some(self.initial[place])
        } else {
            None
        }
    }

    /// Takes a present value out.
    pub(crate) fn take_out(&mut self, value: Value)
        requires { Contains self.old.present value }
        ensures { self.new
            ≡ record { initial = self.old.initial; present = values_without value self.old.present } }
    {
        let place = place_from(&self.initial, value);
        self.marks.clear(place);
        self.count -= 1;
        self.first = self
            .marks
            .next_set(usize::from(self.first), MOST_VALUES)
            .unwrap_or(MOST_VALUES) as u16;
        self.end = self.marks.end_below(usize::from(self.end)) as u16;
    }

    /// Puts a declared value back that is not present.
    pub(crate) fn put_back(&mut self, value: Value)
        requires declared { Contains self.old.initial value }
        requires removed { Contains self.old.present value → ⊥ }
        ensures { self.new
            ≡ record { initial = self.old.initial; present = values_with value self.old.present } }
    {
        let place = place_from(&self.initial, value);
        self.marks.set(place);
        self.count += 1;
        self.first = self.first.min(place as u16);
        self.end = self.end.max(place as u16 + 1);
    }
}
