//! The whole search.
ghost use Rattle.std.specs.Prelude.{◌≡◌, [], IfOk, OnErr, is_some};
ghost use Rattle.palm_model.specs.State.{IsValid};
ghost use Rattle.palm_engine.specs.Following.{OrderAnswers, OrderFollows};
ghost use Rattle.palm_search.specs.Breaking.{BreaksOff, IsCutOff};
ghost use Rattle.palm_search.specs.Following.{GuideFollows, SearchRunBy, SearchesBy};
ghost use Rattle.palm_search.specs.Kept.{HasDecisions, HasOnlyUsers};
ghost use Rattle.palm_search.specs.Leaves.{Counts, Leaves, Lent};
ghost use Rattle.palm_search.specs.Machine.{Begins, GivesBack, HasRunOn, state_of};
ghost use Rattle.palm_search.specs.Stopping.{BreaksOffBy, GuideStops, IsCutOffBy};
ghost use Rattle.palm_dbt.specs.Answers.{IsTrueOf};

use palm_agenda::Order;
use palm_base::{NoMemory, Steps};
use palm_engine::Engine;
use palm_filter::Filter;
use palm_guide::Guide;
use palm_search::{Machine, Next, Search, SearchEnd};
use std::alloc::Global;
use std::sync::ledger::Ledger;

/// Settles and takes turns until the run ends.
fn run<F: Filter, G: Guide, O: Order, L: Ledger>(
    machine: &mut Machine<F, G, O, L>,
    budget: u64,
) -> Result<SearchEnd, NoMemory>
    requires begins { Begins machine.old }
    ensures ok { IfOk result (λ answer. SearchRunBy (GuideFollows G.answers G.hears G.state)
        (OrderFollows O.answers O.hears O.state)
        machine.old.guide.now machine.new.guide.now machine.old.order.now machine.new.order.now
        budget machine.old.engine.now.state machine.new.search.now.journal answer (state_of machine.new)) }
    ensures err { OnErr result (IsCutOff (is_some machine.old.guide.now) (is_some machine.old.order.now)
        budget machine.old.engine.now.state machine.new.search.now.journal machine.new.engine.now.state) }
    ensures stopped { OnErr result (IsCutOffBy (GuideFollows G.answers G.hears G.state)
        (GuideStops G.answers G.hears G.state)
        (OrderFollows O.answers O.hears O.state) (OrderAnswers O.answers O.state)
        machine.old.guide.now machine.new.guide.now machine.old.order.now machine.new.order.now
        budget machine.old.engine.now.state machine.new.search.now.journal machine.new.engine.now.state) }
    ensures ran { HasRunOn machine.old machine.new }
{
    // What holds of every engine is known once its store is read.
    let _store = machine.engine.store();
    machine.settle()?;
    loop {
        match machine.next(budget)? {
            Next::Ended(end) => return Ok(end),
            Next::Decide => {
                machine.decide()?;
            }
            Next::Undo(conflict) => machine.undo_latest(&conflict)?,
        }
        machine.settle()?;
    }
}

/// Searches as [`solve`] does, with what the machine was lent.
pub fn solve_by<F: Filter, G: Guide, O: Order, L: Ledger>(
    machine: &mut Machine<F, G, O, L>,
    budget: u64,
) -> Result<SearchEnd, NoMemory>
    requires begins { Begins machine.old }
    ensures ok { IfOk result (λ answer. SearchesBy (GuideFollows G.answers G.hears G.state)
        (OrderFollows O.answers O.hears O.state)
        machine.old.guide.now machine.new.guide.now machine.old.order.now machine.new.order.now
        budget machine.old.engine.now.state machine.new.search.now.journal answer machine.new.engine.now.state) }
    ensures holds { IfOk result (IsTrueOf machine.old.engine.now.state budget) }
    ensures err { OnErr result (BreaksOff (is_some machine.old.guide.now) (is_some machine.old.order.now)
        budget machine.old.engine.now.state machine.new.search.now.journal machine.new.engine.now.state) }
    ensures stopped { OnErr result (BreaksOffBy (GuideFollows G.answers G.hears G.state)
        (GuideStops G.answers G.hears G.state)
        (OrderFollows O.answers O.hears O.state) (OrderAnswers O.answers O.state)
        machine.old.guide.now machine.new.guide.now machine.old.order.now machine.new.order.now
        budget machine.old.engine.now.state machine.new.search.now.journal machine.new.engine.now.state) }
    ensures gives { GivesBack machine.old machine.new result }
{
    let end = run(machine, budget);
    machine.close();
    let end = end?;
    machine.settle()?;
    Ok(end)
}

/// Searches for values that satisfy all constraints, within so many turns: it settles, decides, and at a conflict undoes
/// the latest decision of it, until each variable has one value, a conflict holds no decision, or the budget is spent.
/// Then all decisions and negations are withdrawn, and the engine settles once more. The journal holds the turns. The guide
/// is asked once at each decision and told once of each undoing, and the order is asked and told in all settlings, and
/// neither at any other moment. After want of memory the decisions and negations are withdrawn too, the journal holds the
/// turns so far, and constraints may be pending; the guide and the order were asked and told along these turns, and for the
/// step that broke off as far as it came. (Jussien, Debruyne and Boizumault 2000)
pub fn solve<F: Filter, G: Guide, O: Order, L: Ledger>(
    alloc: Global,
    engine: &mut Engine<F>,
    search: &mut Search,
    guide: &mut Option<G>,
    order: &mut Option<O>,
    budget: u64,
    steps: &mut Steps<L>,
) -> Result<SearchEnd, NoMemory>
    requires fresh { search.old ≡ record { decisions = []; journal = [] } }
    requires users { HasOnlyUsers engine.old.state }
    ensures ok { IfOk result (λ answer. SearchesBy (GuideFollows G.answers G.hears G.state) (OrderFollows O.answers O.hears O.state) guide.old guide.new order.old order.new
        budget engine.old.state search.new.journal answer engine.new.state) }
    ensures holds { IfOk result (IsTrueOf engine.old.state budget) }
    ensures err { OnErr result (BreaksOff (is_some guide.old) (is_some order.old) budget engine.old.state search.new.journal engine.new.state) }
    ensures stopped { OnErr result (BreaksOffBy (GuideFollows G.answers G.hears G.state) (GuideStops G.answers G.hears G.state) (OrderFollows O.answers O.hears O.state) (OrderAnswers O.answers O.state)
        guide.old guide.new order.old order.new budget engine.old.state search.new.journal engine.new.state) }
    ensures leaves { Leaves engine.old.state engine.new.state search.new result }
    ensures counts { Counts engine.old engine.new steps.old steps.new }
    ensures lent { Lent guide.old guide.new order.old order.new }
{
    let mut machine = Machine {
        alloc,
        engine,
        search,
        guide,
        order,
        steps,
    };
    solve_by(&mut machine, budget)
}
