//! One turn of a repair: what is done after a settling.
ghost use Rattle.std.specs.Prelude.{◌≡◌, ℕ, ◌+◌, ◌<◌, ◌≤◌, length, Contains, IfOk, OnErr, OnOk, is_some};
ghost use Rattle.palm_base.specs.declared.limits.TheConstants.{LAST_COUNT};
ghost use Rattle.palm_base.specs.declared.terms.Cid.{Cid as CidTerm};
ghost use Rattle.palm_base.specs.declared.terms.Pair.{Pair as PairTerm};
ghost use Rattle.palm_search.specs.Following.{GuideFollows};
ghost use Rattle.palm_search.specs.Machine.{KeepsDecisions, state_of};
ghost use Rattle.palm_search.specs.Stopping.{GuideStops, GuideStopsAt};
ghost use Rattle.palm_search.specs.Turning.{Hears};
ghost use Rattle.palm_search.specs.Turns.{HasFlatConflict, decided_vars};
ghost use Rattle.palm_search.specs.declared.turn.Turn.TheVariants.{Undo as TurnUndo};
ghost use Rattle.palm_repair.specs.Machine.{repair_of};
ghost use Rattle.palm_repair.specs.Turning.{Advances, IsCutTurn, IsReady, TakesRepairTurn};

use crate::answer::{RepairAnswer, answer_of};
use crate::conflict::heaviest;
use crate::learned::Learned;
use crate::nogood::nogood_of;
use palm_agenda::Order;
use palm_base::{CidList, NoMemory};
use palm_filter::Filter;
use palm_guide::Guide;
use palm_search::{Machine, Next, decided_vars, tell};
use std::sync::ledger::Ledger;

/// Raises the weights of the variables in the flat conflict, tells the guide these variables, and undoes the heaviest
/// decision of the conflict; then the nogood of the conflict is listed, and negations are posted.
fn take_back<F: Filter, G: Guide, O: Order, L: Ledger>(
    machine: &mut Machine<F, G, O, L>,
    learned: &mut Learned,
    tabu: u32,
    conflict: &CidList,
) -> Result<(), NoMemory>
    requires ready { IsReady tabu (length machine.old.search.now.journal)
        (repair_of machine.old learned.old) }
    requires flat { HasFlatConflict machine.old.engine.now.state conflict.now }
    requires held { (x : ℕ) × Contains conflict.now (CidTerm.Decide x) }
    requires some { 0 < tabu }
    requires small { length machine.old.search.now.journal < LAST_COUNT }
    ensures ok { OnOk result ((gone : PairTerm)
        × TakesRepairTurn (is_some machine.old.guide.now) tabu (TurnUndo gone conflict.now)
        (repair_of machine.old learned.old) machine.old.search.now
        (repair_of machine.new learned.new) machine.new.search.now) }
    ensures told { OnOk result (Hears G.hears G.state (decided_vars conflict.now)
        machine.old.guide.now machine.new.guide.now) }
    ensures err { OnErr result (IsCutTurn (is_some machine.old.guide.now) tabu
        (repair_of machine.old learned.old) machine.old.search.now
        machine.new.engine.now.state machine.new.search.now) }
    ensures stopped { OnErr result (GuideStopsAt (GuideFollows G.answers G.hears G.state)
        (GuideStops G.answers G.hears G.state)
        machine.old.guide.now machine.new.guide.now (state_of machine.old)
        machine.old.search.now.journal machine.new.search.now.journal) }
    ensures within { length machine.new.search.now.journal
        ≤ length machine.old.search.now.journal + 1 }
    ensures keeps { KeepsDecisions machine.old machine.new }
{
    let vars = decided_vars(machine.alloc, conflict.as_slice())?;
    let nogood = nogood_of(
        machine.alloc,
        machine.search.decisions(),
        conflict.as_slice(),
    )?;
    learned.raise(vars.as_slice());
    tell(machine.guide, vars.as_slice());
    let decisions = machine.search.decisions();
    let place = heaviest(learned.weights(), decisions, conflict.as_slice()).unwrap();
    machine.undo(place, conflict)?;
    learned.learn(machine.alloc, machine.engine, machine.search, tabu, nogood)
}

/// Ends the run where it is over, and otherwise takes the next turn.
pub(crate) fn advance<F: Filter, G: Guide, O: Order, L: Ledger>(
    machine: &mut Machine<F, G, O, L>,
    learned: &mut Learned,
    tabu: u32,
    budget: u64,
) -> Result<Option<RepairAnswer>, NoMemory>
    requires ready { IsReady tabu (length machine.old.search.now.journal)
        (repair_of machine.old learned.old) }
    requires within { length machine.old.search.now.journal ≤ budget }
    requires some { 0 < tabu }
    ensures ok { IfOk result (Advances (GuideFollows G.answers G.hears G.state)
        machine.old.guide.now machine.new.guide.now (is_some machine.old.guide.now) tabu budget
        (repair_of machine.old learned.old) machine.old.search.now
        (repair_of machine.new learned.new) machine.new.search.now) }
    ensures err { OnErr result (IsCutTurn (is_some machine.old.guide.now) tabu
        (repair_of machine.old learned.old) machine.old.search.now
        machine.new.engine.now.state machine.new.search.now) }
    ensures stopped { OnErr result (GuideStopsAt (GuideFollows G.answers G.hears G.state)
        (GuideStops G.answers G.hears G.state)
        machine.old.guide.now machine.new.guide.now (state_of machine.old)
        machine.old.search.now.journal machine.new.search.now.journal) }
    ensures within { length machine.new.search.now.journal ≤ budget }
    ensures keeps { KeepsDecisions machine.old machine.new }
{
    match machine.next(budget)? {
        Next::Ended(end) => Ok(Some(answer_of(end, learned.dropped()))),
        Next::Decide => {
            machine.decide()?;
            learned.post(machine.alloc, machine.engine, machine.search)?;
            Ok(None)
        }
        Next::Undo(conflict) => {
            take_back(machine, learned, tabu, &conflict)?;
            Ok(None)
        }
    }
}
