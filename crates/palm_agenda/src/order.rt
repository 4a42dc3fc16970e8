//! Objects that choose which pending constraint is revised next.
ghost use Rattle.std.specs.Prelude.{◌≡◌};

use palm_base::Cid;
use std::marker::Model;

/// Chooses the next constraint among those that are pending.
pub trait Order: Drop {
    ghost use Rattle.std.specs.Prelude.{ℕ, List};
    ghost use Rattle.palm_base.specs.declared.terms.Cid.{Cid as CidTerm};

    /// Numbers that tell the object's state.
    ghost state: { Self → List ℕ };

    /// Asked with these pending ids, the object answers this index and is left in this state.
    ghost answers: { Self → List CidTerm → ℕ → List ℕ → Type 0 };

    /// Told of a revision of this constraint and how many values it took out, the object is left in this state.
    ghost hears: { Self → CidTerm → ℕ → List ℕ → Type 0 };

    /// The index of the constraint that is revised next. The ids rise. An index out of range stands for the first.
    fn next(&mut self, pending: &[Cid]) -> usize
        ensures { answers self.old pending.now result (state self.new) };

    /// Tells the object that the constraint was revised, and how many values that took out.
    fn ran(&mut self, cid: Cid, removed: u32)
        ensures { hears self.old cid removed (state self.new) };
}

/// A boxed order is asked and told as the object in the box.
impl Order for Box<dyn Order> {
    ghost state = { λ order. (Order-box order).state order.value };

    ghost answers = { λ order. (Order-box order).answers order.value };

    ghost hears = { λ order. (Order-box order).hears order.value };

    fn next(&mut self, pending: &[Cid]) -> usize {
        (**self).next(pending)
    }

    fn ran(&mut self, cid: Cid, removed: u32) {
        (**self).ran(cid, removed)
    }
}

/// Answers the last of the pending constraints.
#[derive(Debug, Drop)]
pub struct LastOrder;

impl LastOrder {
    /// It has no state.
    pub fn new() -> LastOrder {
        LastOrder
    }
}

impl Order for LastOrder {
    ghost use Rattle.std.specs.Prelude.{◌≡◌, [], length};
    ghost use Rattle.palm_agenda.specs.Orders.{last_index};

    ghost state = { λ order. [] };

    ghost answers = { λ order pending index after. (index ≡ last_index (length pending)) × (after ≡ []) };

    ghost hears = { λ order cid removed after. after ≡ [] };

    fn next(&mut self, pending: &[Cid]) -> usize {
        pending.len().saturating_sub(1)
    }

    fn ran(&mut self, _cid: Cid, _removed: u32) {}
}

/// Goes round the pending constraints: each revision turns it by one.
#[derive(Debug, Drop)]
pub struct RotateOrder {
    turn: u64,
}

impl Model for RotateOrder {
    ghost use Rattle.std.specs.Prelude.{ℕ};

    ghost Value = { ℕ };

    ghost view = { λ order. order.turn };
}

impl RotateOrder {
    /// It begins with turn 0.
    pub fn new() -> RotateOrder
        ensures { result ≡ 0 }
    {
        RotateOrder { turn: 0 }
    }
}

impl Order for RotateOrder {
    ghost use Rattle.std.specs.Prelude.{◌≡◌, [], ◌∷◌, length};
    ghost use Rattle.palm_agenda.specs.Orders.{next_turn, turned_index};

    ghost state = { λ turn. turn ∷ [] };

    ghost answers = { λ turn pending index after. (index ≡ turned_index turn (length pending)) × (after ≡ turn ∷ []) };

    ghost hears = { λ turn cid removed after. after ≡ next_turn turn ∷ [] };

    fn next(&mut self, pending: &[Cid]) -> usize {
        match pending.len() {
            0 => 0,
            count => (self.turn % count as u64) as usize,
        }
    }

    fn ran(&mut self, _cid: Cid, _removed: u32) {
        self.turn = self.turn.wrapping_add(1);
    }
}
