//! The whole minimization.
ghost use Rattle.std.specs.Prelude.{◌≡◌, ℤ, ◌<◌, ◌≤◌, [], length, IfOk, OnErr, is_some};
ghost use Rattle.palm_model.specs.Domains.{Has};
ghost use Rattle.palm_model.specs.Event.{WithdrawsAll};
ghost use Rattle.palm_model.specs.Limits.{IsValue};
ghost use Rattle.palm_model.specs.State.{IsValid};
ghost use Rattle.palm_engine.specs.Following.{OrderAnswers, OrderFollows};
ghost use Rattle.palm_search.specs.Following.{GuideFollows};
ghost use Rattle.palm_search.specs.Kept.{HasDecisions, HasNone};
ghost use Rattle.palm_search.specs.Leaves.{Counts, Leaves, Lent};
ghost use Rattle.palm_search.specs.Machine.{GivesBack, HasRunOn, KeepsOrder, state_of};
ghost use Rattle.palm_search.specs.Search.{own_cids};
ghost use Rattle.palm_search.specs.Stopping.{GuideStops};
ghost use Rattle.palm_best.specs.Answers.{IsTrueOf};
ghost use Rattle.palm_best.specs.Breaking.{BreaksOff, IsCutOff};
ghost use Rattle.palm_best.specs.Cuts.{is_own};
ghost use Rattle.palm_best.specs.Following.{HasRunBy, MinimizesBy};
ghost use Rattle.palm_best.specs.Improving.{HasCuts, Proves};
ghost use Rattle.palm_best.specs.Stopping.{BreaksOffBy, IsCutOffBy};

use crate::best::Best;
use crate::cuts::{improve, withdraw_cuts, without_cuts};
use crate::incumbent::Incumbent;
use crate::limits::MOST_CUTS;
use palm_agenda::Order;
use palm_base::{CidList, NoMemory, Steps, Var};
use palm_engine::Engine;
use palm_guide::Guide;
use palm_kind::Kind;
use palm_search::{Machine, Next, Search, SearchEnd};
use std::alloc::Global;
use std::sync::ledger::Ledger;

/// The answer at a conflict without decisions, of which these are the users. The incumbent is taken.
fn proved(alloc: Global, incumbent: &mut Incumbent, users: CidList) -> Result<Best, NoMemory>
    ensures ok { IfOk result (Proves incumbent.old.values users) }
    ensures cuts { incumbent.new.cuts ≡ incumbent.old.cuts }
{
    match incumbent.values.take() {
        None => Ok(Best::NoSolution(users)),
        Some(values) => {
            let users = without_cuts(alloc, users.as_slice())?;
            Ok(Best::Least { values, users })
        }
    }
}

/// Settles, takes turns, and cuts below all values that are found, until the run ends.
fn run<G: Guide, O: Order, L: Ledger>(
    machine: &mut Machine<Kind, G, O, L>,
    target: Var,
    budget: u64,
    incumbent: &mut Incumbent,
) -> Result<Best, NoMemory>
    requires fresh { machine.old.search.now ≡ record { decisions = []; journal = [] } }
    requires none { HasNone is_own machine.old.engine.now.state }
    requires target { target < length machine.old.engine.now.state.initial }
    requires values { (v : ℤ) → Has machine.old.engine.now.state.initial target v → IsValue v }
    requires opened { incumbent.old ≡ record { values = None; cuts = 0 } }
    ensures ok { IfOk result (λ best. HasRunBy (GuideFollows G.answers G.hears G.state)
        (OrderFollows O.answers O.hears O.state)
        machine.old.guide.now machine.new.guide.now machine.old.order.now machine.new.order.now
        target budget machine.old.engine.now.state machine.new.search.now.journal best (state_of machine.new)) }
    ensures err { OnErr result (IsCutOff (is_some machine.old.guide.now) (is_some machine.old.order.now)
        target budget machine.old.engine.now.state machine.new.search.now.journal machine.new.engine.now.state) }
    ensures stopped { OnErr result (IsCutOffBy (GuideFollows G.answers G.hears G.state)
        (GuideStops G.answers G.hears G.state)
        (OrderFollows O.answers O.hears O.state) (OrderAnswers O.answers O.state)
        machine.old.guide.now machine.new.guide.now machine.old.order.now machine.new.order.now
        target budget machine.old.engine.now.state machine.new.search.now.journal machine.new.engine.now.state) }
    ensures cuts { HasCuts incumbent.new.cuts machine.new.engine.now.state }
    ensures few { incumbent.new.cuts ≤ MOST_CUTS }
    ensures ran { HasRunOn machine.old machine.new }
{
    // What holds of every engine is known once its store is read.
    let _store = machine.engine.store();
    machine.settle()?;
    loop {
        match machine.next(budget)? {
            Next::Ended(SearchEnd::Found(values)) => {
                improve(machine.alloc, machine.engine, target, incumbent, values)?;
            }
            Next::Ended(SearchEnd::NoSolution(users)) => {
                return proved(machine.alloc, incumbent, users);
            }
            Next::Ended(SearchEnd::Spent(turns)) => {
                return Ok(Best::Spent {
                    turns,
                    best: incumbent.values.take(),
                });
            }
            Next::Decide => {
                machine.decide()?;
            }
            Next::Undo(conflict) => machine.undo_latest(&conflict)?,
        }
        machine.settle()?;
    }
}

/// Withdraws all decisions and negations, and so many cuts; the journal stays. It takes no memory.
fn withdraw_all<G: Guide, O: Order, L: Ledger>(machine: &mut Machine<Kind, G, O, L>, cuts: u32)
    requires decisions { HasDecisions (state_of machine.old) }
    requires few { cuts ≤ MOST_CUTS }
    requires active { HasCuts cuts machine.old.engine.now.state }
    ensures withdraws { WithdrawsAll machine.old.engine.now.state
        (own_cids is_own machine.old.engine.now.state.active) machine.new.engine.now.state }
    ensures decisions { machine.new.search.now.decisions ≡ [] }
    ensures journal { machine.new.search.now.journal ≡ machine.old.search.now.journal }
    ensures guide { machine.new.guide.now ≡ machine.old.guide.now }
    ensures keeps { KeepsOrder machine.old machine.new }
    ensures valid { IsValid machine.new.engine.now.state }
{
    // What holds of every engine is known once its store is read.
    let _store = machine.engine.store();
    machine.close();
    withdraw_cuts(machine.engine, cuts);
}

/// Searches as [`minimize`] does, with what the machine was lent.
pub fn minimize_by<G: Guide, O: Order, L: Ledger>(
    machine: &mut Machine<Kind, G, O, L>,
    target: Var,
    budget: u64,
) -> Result<Best, NoMemory>
    requires fresh { machine.old.search.now ≡ record { decisions = []; journal = [] } }
    requires none { HasNone is_own machine.old.engine.now.state }
    requires target { target < length machine.old.engine.now.state.initial }
    requires values { (v : ℤ) → Has machine.old.engine.now.state.initial target v → IsValue v }
    ensures ok { IfOk result (λ best. MinimizesBy (GuideFollows G.answers G.hears G.state)
        (OrderFollows O.answers O.hears O.state)
        machine.old.guide.now machine.new.guide.now machine.old.order.now machine.new.order.now
        target budget machine.old.engine.now.state machine.new.search.now.journal best machine.new.engine.now.state) }
    ensures holds { IfOk result (IsTrueOf machine.old.engine.now.state target budget) }
    ensures err { OnErr result (BreaksOff (is_some machine.old.guide.now) (is_some machine.old.order.now)
        target budget machine.old.engine.now.state machine.new.search.now.journal machine.new.engine.now.state) }
    ensures stopped { OnErr result (BreaksOffBy (GuideFollows G.answers G.hears G.state)
        (GuideStops G.answers G.hears G.state)
        (OrderFollows O.answers O.hears O.state) (OrderAnswers O.answers O.state)
        machine.old.guide.now machine.new.guide.now machine.old.order.now machine.new.order.now
        target budget machine.old.engine.now.state machine.new.search.now.journal machine.new.engine.now.state) }
    ensures gives { GivesBack machine.old machine.new result }
{
    let mut incumbent = Incumbent {
        values: None,
        cuts: 0,
    };
    let best = run(machine, target, budget, &mut incumbent);
    withdraw_all(machine, incumbent.cuts);
    let best = best?;
    machine.settle()?;
    Ok(best)
}

/// Searches for values that satisfy all constraints and give the target the least value, within so many turns. It searches as
/// [`palm_dbt::solve`] does, and wherever each variable has one value, it keeps these values and posts a cut, the constraint
/// that the target is less than it is there, until a conflict holds no decision or the budget is spent; a cut is no turn. Then
/// all decisions, negations and cuts are withdrawn, and the engine settles once more. The journal holds the turns. The guide
/// and the order are asked and told as in `solve`, and the settlings after cuts go through the order, too. After want of
/// memory the decisions, negations and cuts are withdrawn too, the journal holds the turns so far, and constraints may be
/// pending; the guide and the order were asked and told along the moves so far, and for the step that broke off as far as it
/// came. (Branch and bound over the search of Jussien, Debruyne and Boizumault 2000)
pub fn minimize<G: Guide, O: Order, L: Ledger>(
    alloc: Global,
    engine: &mut Engine<Kind>,
    search: &mut Search,
    target: Var,
    guide: &mut Option<G>,
    order: &mut Option<O>,
    budget: u64,
    steps: &mut Steps<L>,
) -> Result<Best, NoMemory>
    requires fresh { search.old ≡ record { decisions = []; journal = [] } }
    requires none { HasNone is_own engine.old.state }
    requires target { target < length engine.old.state.initial }
    requires values { (v : ℤ) → Has engine.old.state.initial target v → IsValue v }
    ensures ok { IfOk result (λ best. MinimizesBy (GuideFollows G.answers G.hears G.state) (OrderFollows O.answers O.hears O.state) guide.old guide.new order.old order.new
        target budget engine.old.state search.new.journal best engine.new.state) }
    ensures holds { IfOk result (IsTrueOf engine.old.state target budget) }
    ensures err { OnErr result (BreaksOff (is_some guide.old) (is_some order.old) target budget engine.old.state search.new.journal engine.new.state) }
    ensures stopped { OnErr result (BreaksOffBy (GuideFollows G.answers G.hears G.state) (GuideStops G.answers G.hears G.state) (OrderFollows O.answers O.hears O.state) (OrderAnswers O.answers O.state)
        guide.old guide.new order.old order.new target budget engine.old.state search.new.journal engine.new.state) }
    ensures leaves { Leaves engine.old.state engine.new.state search.new result }
    ensures counts { Counts engine.old engine.new steps.old steps.new }
    ensures lent { Lent guide.old guide.new order.old order.new }
{
    let mut machine = Machine {
        alloc,
        engine,
        search,
        guide,
        order,
        steps,
    };
    minimize_by(&mut machine, target, budget)
}
