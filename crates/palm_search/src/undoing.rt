//! The undoing of mac-dbt.
ghost use Rattle.std.specs.Prelude.{◌≡◌, ◌⊎◌, ℕ, Contains, OnErr, OnOk, is_some};
ghost use Rattle.palm_base.specs.declared.terms.Cid.{Cid as CidTerm};
ghost use Rattle.palm_base.specs.declared.terms.Pair.{Pair as PairTerm};
ghost use Rattle.palm_search.specs.declared.turn.Turn.TheVariants.{Undo as TurnUndo};
ghost use Rattle.palm_search.specs.Calls.{TakesTurn};
ghost use Rattle.palm_search.specs.Machine.{KeepsDecisions, state_of};
ghost use Rattle.palm_search.specs.Turning.{Hears, IsBetween, IsCutUndoing};
ghost use Rattle.palm_search.specs.Turns.{HasFlatConflict, decided_vars};

use crate::conflict::{latest, rest_of, tell_decided};
use crate::machine::Machine;
use palm_agenda::Order;
use palm_base::{CidList, NoMemory};
use palm_filter::Filter;
use palm_guide::Guide;
use std::sync::ledger::Ledger;

impl<F: Filter, G: Guide, O: Order, L: Ledger> Machine<'_, '_, '_, '_, '_, F, G, O, L> {
    /// Tells the guide the variables of the flat conflict's decisions, undoes the latest decision of it, and forbids its pair
    /// for the rest of it. Where memory runs out, nothing was undone, and the guide may have been told; or the decision was,
    /// the guide was told, and the pair is not forbidden.
    pub fn undo_latest(&mut self, conflict: &CidList) -> Result<(), NoMemory>
        requires between { IsBetween (state_of self.old) }
        requires flat { HasFlatConflict self.old.engine.now.state conflict.now }
        requires held { (x : ℕ) × Contains conflict.now (CidTerm.Decide x) }
        ensures ok { OnOk result ((gone : PairTerm)
            × TakesTurn (is_some self.old.guide.now) (TurnUndo gone conflict.now)
            self.old.engine.now.state self.old.search.now
            self.new.engine.now.state self.new.search.now) }
        ensures told { OnOk result (Hears G.hears G.state (decided_vars conflict.now)
            self.old.guide.now self.new.guide.now) }
        ensures err { OnErr result (IsCutUndoing conflict.now
            self.old.engine.now.state self.old.search.now
            self.new.engine.now.state self.new.search.now) }
        ensures stopped { OnErr result (((self.new.guide.now ≡ self.old.guide.now)
            × (self.new.search.now ≡ self.old.search.now))
            ⊎ Hears G.hears G.state (decided_vars conflict.now) self.old.guide.now self.new.guide.now) }
        ensures keeps { KeepsDecisions self.old self.new }
    {
        let place = latest(self.search.decisions(), conflict.as_slice()).unwrap();
        let gone = self.search.decisions()[place];
        let rest = rest_of(self.alloc, conflict.as_slice(), &gone.var)?;
        tell_decided(self.alloc, self.guide, conflict.as_slice())?;
        self.search.undo(self.engine, place, conflict)?;
        self.engine.forbid(gone, rest.as_slice())
    }
}
