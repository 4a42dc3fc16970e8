//! The whole repair.
ghost use Rattle.std.specs.Prelude.{◌≡◌, ◌<◌, [], IfOk, OnErr, is_some};
ghost use Rattle.palm_model.specs.State.{IsValid};
ghost use Rattle.palm_engine.specs.Following.{OrderAnswers, OrderFollows};
ghost use Rattle.palm_search.specs.Following.{GuideFollows};
ghost use Rattle.palm_search.specs.Kept.{HasDecisions, HasOnlyUsers};
ghost use Rattle.palm_search.specs.Leaves.{Counts, Leaves, Lent};
ghost use Rattle.palm_search.specs.Machine.{Begins, GivesBack, HasRunOn, state_of};
ghost use Rattle.palm_search.specs.Stopping.{GuideStops};
ghost use Rattle.palm_repair.specs.Answers.{IsTrueOf};
ghost use Rattle.palm_repair.specs.Following.{HasRepairedBy, HasRunBy};
ghost use Rattle.palm_repair.specs.Stopping.{BreaksOffBy, IsCutOffBy};
ghost use Rattle.palm_repair.specs.Turning.{BreaksOff, IsCutOff};

use crate::answer::RepairAnswer;
use crate::learned::Learned;
use crate::turns::advance;
use palm_agenda::Order;
use palm_base::{NoMemory, Steps};
use palm_engine::Engine;
use palm_filter::Filter;
use palm_guide::Guide;
use palm_search::{Machine, Search};
use std::alloc::Global;
use std::sync::ledger::Ledger;

/// Settles and takes turns until the run ends.
fn run<F: Filter, G: Guide, O: Order, L: Ledger>(
    machine: &mut Machine<F, G, O, L>,
    tabu: u32,
    budget: u64,
) -> Result<RepairAnswer, NoMemory>
    requires begins { Begins machine.old }
    requires some { 0 < tabu }
    ensures ok { IfOk result (HasRunBy (GuideFollows G.answers G.hears G.state)
        (OrderFollows O.answers O.hears O.state)
        machine.old.guide.now machine.new.guide.now machine.old.order.now machine.new.order.now
        tabu budget machine.old.engine.now.state machine.new.search.now.journal machine.new.engine.now.state) }
    ensures err { OnErr result (IsCutOff (is_some machine.old.guide.now) (is_some machine.old.order.now)
        tabu budget machine.old.engine.now.state machine.new.search.now.journal machine.new.engine.now.state) }
    ensures stopped { OnErr result (IsCutOffBy (GuideFollows G.answers G.hears G.state)
        (GuideStops G.answers G.hears G.state)
        (OrderFollows O.answers O.hears O.state) (OrderAnswers O.answers O.state)
        machine.old.guide.now machine.new.guide.now machine.old.order.now machine.new.order.now
        tabu budget machine.old.engine.now.state machine.new.search.now.journal machine.new.engine.now.state) }
    ensures ran { HasRunOn machine.old machine.new }
{
    // What holds of every engine is known once its store is read.
    let _store = machine.engine.store();
    machine.settle()?;
    let mut learned = Learned::new(machine.alloc, machine.engine.store().variables())?;
    loop {
        if let Some(answer) = advance(machine, &mut learned, tabu, budget)? {
            return Ok(answer);
        }
        machine.settle()?;
    }
}

/// Searches as [`repair`] does, with what the machine was lent.
pub fn repair_by<F: Filter, G: Guide, O: Order, L: Ledger>(
    machine: &mut Machine<F, G, O, L>,
    tabu: u32,
    budget: u64,
) -> Result<RepairAnswer, NoMemory>
    requires begins { Begins machine.old }
    requires some { 0 < tabu }
    ensures ok { IfOk result (HasRepairedBy (GuideFollows G.answers G.hears G.state)
        (OrderFollows O.answers O.hears O.state)
        machine.old.guide.now machine.new.guide.now machine.old.order.now machine.new.order.now
        tabu budget machine.old.engine.now.state machine.new.search.now.journal machine.new.engine.now.state) }
    ensures holds { IfOk result (IsTrueOf machine.old.engine.now.state budget) }
    ensures err { OnErr result (BreaksOff (is_some machine.old.guide.now) (is_some machine.old.order.now)
        tabu budget machine.old.engine.now.state machine.new.search.now.journal machine.new.engine.now.state) }
    ensures stopped { OnErr result (BreaksOffBy (GuideFollows G.answers G.hears G.state)
        (GuideStops G.answers G.hears G.state)
        (OrderFollows O.answers O.hears O.state) (OrderAnswers O.answers O.state)
        machine.old.guide.now machine.new.guide.now machine.old.order.now machine.new.order.now
        tabu budget machine.old.engine.now.state machine.new.search.now.journal machine.new.engine.now.state) }
    ensures gives { GivesBack machine.old machine.new result }
{
    let answer = run(machine, tabu, budget);
    machine.close();
    let answer = answer?;
    machine.settle()?;
    Ok(answer)
}

/// Searches for values that satisfy all constraints, within so many turns: it settles, decides, and at a conflict undoes
/// the decision of it whose variable has the greatest weight, the latest one of several; each conflict raises the weights
/// of its variables by one. The conflicts are listed as nogoods, no more than `tabu` of them, the oldest of which makes
/// room for a new one; where a nogood leaves one pair undecided, the negation of that pair is posted. The repair ends when
/// each variable has one value, a conflict holds no decision, or the budget is spent. Then all decisions and negations are
/// withdrawn, and the engine settles once more. The journal holds the turns. The guide is asked once at each decision and
/// told once of each undoing, and the order is asked and told in all settlings, and neither at any other moment. After want
/// of memory the decisions and negations are withdrawn too, the journal holds the turns so far, and constraints may be
/// pending; the guide and the order were asked and told along these turns, and for the step that broke off as far as it came.
/// (Jussien and Lhomme 2002)
pub fn repair<F: Filter, G: Guide, O: Order, L: Ledger>(
    alloc: Global,
    engine: &mut Engine<F>,
    search: &mut Search,
    guide: &mut Option<G>,
    order: &mut Option<O>,
    tabu: u32,
    budget: u64,
    steps: &mut Steps<L>,
) -> Result<RepairAnswer, NoMemory>
    requires fresh { search.old ≡ record { decisions = []; journal = [] } }
    requires users { HasOnlyUsers engine.old.state }
    requires some { 0 < tabu }
    ensures ok { IfOk result (HasRepairedBy (GuideFollows G.answers G.hears G.state) (OrderFollows O.answers O.hears O.state) guide.old guide.new order.old order.new
        tabu budget engine.old.state search.new.journal engine.new.state) }
    ensures holds { IfOk result (IsTrueOf engine.old.state budget) }
    ensures err { OnErr result (BreaksOff (is_some guide.old) (is_some order.old) tabu budget engine.old.state search.new.journal engine.new.state) }
    ensures stopped { OnErr result (BreaksOffBy (GuideFollows G.answers G.hears G.state) (GuideStops G.answers G.hears G.state) (OrderFollows O.answers O.hears O.state) (OrderAnswers O.answers O.state)
        guide.old guide.new order.old order.new tabu budget engine.old.state search.new.journal engine.new.state) }
    ensures leaves { Leaves engine.old.state engine.new.state search.new result }
    ensures counts { Counts engine.old engine.new steps.old steps.new }
    ensures lent { Lent guide.old guide.new order.old order.new }
{
    let mut machine = Machine {
        alloc,
        engine,
        search,
        guide,
        order,
        steps,
    };
    repair_by(&mut machine, tabu, budget)
}
