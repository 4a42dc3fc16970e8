//! The weights of constraints.
ghost use Rattle.std.specs.Prelude.{◌≡◌, ◌==◌, not, IfOk, OnOk};
ghost use Rattle.palm_session.specs.Effects.{weighing, without_weight};

use palm_base::NoMemory;
use palm_prefer::{Weight, WeightList};
use std::alloc::Global;
use std::marker::Model;

/// The weights of constraints, by their numbers: the one that was given last stands last.
#[derive(Drop)]
pub(crate) struct Weights {
    items: Vec<Weight>,
}

impl Model for Weights {
    ghost use Rattle.std.specs.Prelude.{List};
    ghost use Rattle.palm_prefer.specs.declared.weights.Weight.{Weight as WeightTerm};

    ghost Value = { List WeightTerm };

    ghost view = { λ w. w.items.items };
}

impl Weights {
    ghost use Rattle.std.specs.Prelude.{[]};

    /// No weight.
    pub(crate) fn new(alloc: Global) -> Weights
        ensures { result ≡ [] }
    {
        Weights {
            items: Vec::new(alloc),
        }
    }

    /// A list of them.
    pub(crate) fn to_list(&self, alloc: Global) -> Result<WeightList, NoMemory>
        ensures { IfOk result (λ list. list ≡ self.now) }
    {
        WeightList::from_slice(alloc, &self.items)
    }

    /// Gives the constraint with the number this weight, or none.
    pub(crate) fn set(&mut self, number: u32, weight: Option<u32>) -> Result<(), NoMemory>
        ensures { OnOk result (self.new ≡ weighing number weight self.old) }
    {
        self.forget(number);
        if let Some(weight) = weight {
            self.items.push(Weight { number, weight })?;
        }
        Ok(())
    }

    /// Takes the weight of the constraint with the number away, if it has one.
    pub(crate) fn forget(&mut self, number: u32)
        ensures { self.new ≡ without_weight number self.old }
    {
        self.items.retain(
            |weight: &Weight| -> bool
                ensures { result ≡ not (weight.now.number == number) }
            { weight.number != number },
        );
    }
}
