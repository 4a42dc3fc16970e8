//! Settlings, each with an order object of its own.
ghost use Rattle.std.specs.Prelude.{◌≡◌, ◌<◌};

use palm_agenda::{LastOrder, Order, RotateOrder};
use palm_base::{Cid, NoMemory, Steps};
use palm_engine::{Engine, Settle};
use palm_filter::Filter;
use std::alloc::Global;
use std::marker::{Brand, Model};
use std::sync::ledger::{Blank, Ledger};

/// Which object chooses what is revised next.
#[derive(Clone, Copy, Debug)]
pub enum Choice {
    /// None.
    Least,
    /// One that answers the last index.
    Last,
    /// One that goes round.
    Rotate,
    /// One that answers 1 until it is told of a revision, and 0 from then on.
    SecondOnce,
    /// One that answers the number that it was told last, and 0 at first.
    LastNumber,
}

/// Answers 1 until it is told of a revision, and 0 from then on.
#[derive(Drop)]
struct SecondOnce {
    index: usize,
}

impl Model for SecondOnce {
    ghost use Rattle.std.specs.Prelude.{ℕ};

    ghost Value = { ℕ };

    ghost view = { λ order. order.index };
}

impl Order for SecondOnce {
    ghost use Rattle.std.specs.Prelude.{◌≡◌, [], ◌∷◌};

    ghost state = { λ index. index ∷ [] };

    ghost answers = { λ index pending answer after. (answer ≡ index) × (after ≡ index ∷ []) };

    ghost hears = { λ index cid removed after. after ≡ 0 ∷ [] };

    fn next(&mut self, _pending: &[Cid]) -> usize {
        self.index
    }

    fn ran(&mut self, _cid: Cid, _removed: u32) {
        self.index = 0;
    }
}

/// Answers the number that it was told last, and 0 at first.
#[derive(Drop)]
struct LastNumber {
    number: u32,
}

impl Model for LastNumber {
    ghost use Rattle.std.specs.Prelude.{ℕ};

    ghost Value = { ℕ };

    ghost view = { λ order. order.number };
}

impl Order for LastNumber {
    ghost use Rattle.std.specs.Prelude.{◌≡◌, [], ◌∷◌};

    ghost state = { λ number. number ∷ [] };

    ghost answers = { λ number pending answer after. (answer ≡ number) × (after ≡ number ∷ []) };

    ghost hears = { λ number cid removed after. after ≡ removed ∷ [] };

    fn next(&mut self, _pending: &[Cid]) -> usize {
        self.number as usize
    }

    fn ran(&mut self, _cid: Cid, removed: u32) {
        self.number = removed;
    }
}

/// The object that chooses.
fn order_of(alloc: Global, choice: &Choice) -> Result<Option<Box<dyn Order>>, NoMemory> {
    match choice {
        Choice::Least => Ok(None),
        Choice::Last => Ok(Some(Box::new(alloc, LastOrder::new())?)),
        Choice::Rotate => Ok(Some(Box::new(alloc, RotateOrder::new())?)),
        Choice::SecondOnce => Ok(Some(Box::new(alloc, SecondOnce { index: 1 })?)),
        Choice::LastNumber => Ok(Some(Box::new(alloc, LastNumber { number: 0 })?)),
    }
}

/// A settling that is counted from nothing.
fn settle_counted<F: Filter, L: Ledger>(
    engine: &mut Engine<F>,
    order: &mut Option<Box<dyn Order>>,
    limit: Option<u64>,
    blank: Blank,
) -> Result<Settle, NoMemory>
    requires named { blank.name ≡ L.name }
    requires parts { blank.parts ≡ L.parts }
    requires shared { 0 < L.parts }
{
    let mut steps = Steps::<L>::start(blank);
    engine.settle(order, limit, &mut steps)
}

/// A settling, with a counter and an order object of its own.
pub fn run_settling<F: Filter>(
    alloc: Global,
    engine: &mut Engine<F>,
    choice: &Choice,
    limit: Option<u64>,
) -> Result<Settle, NoMemory> {
    let mut order = order_of(alloc, choice)?;
    settle_counted::<F, Brand>(engine, &mut order, limit, Blank::new(1))
}
