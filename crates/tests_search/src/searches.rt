//! Whole searches, each of an engine of its own.
ghost use Rattle.std.specs.Prelude.{◌≡◌, ◌<◌, [], OnOk};
ghost use Rattle.palm_search.specs.Kept.{HasOnlyUsers};

use crate::journal::{put_answer, put_repair_answer, put_turns};
use crate::problems::{Problem, pose};
use palm_agenda::{LastOrder, Order};
use palm_base::{NoMemory, Steps, Var};
use palm_dbt::{Answer, solve};
use palm_domain::DomainStore;
use palm_engine::{Engine, Settle};
use palm_filter::Filter;
use palm_guide::{Guide, MostConflicts};
use palm_kind::Kind;
use palm_repair::{RepairAnswer, repair};
use palm_search::Search;
use std::alloc::Global;
use std::marker::Brand;
use std::sync::ledger::{Blank, Ledger};

/// A settling without an order, counted from nothing.
fn settle_counted<F: Filter, L: Ledger>(
    engine: &mut Engine<F>,
    blank: Blank,
) -> Result<Settle, NoMemory>
    requires named { blank.name ≡ L.name }
    requires parts { blank.parts ≡ L.parts }
    requires shared { 0 < L.parts }
    requires users { HasOnlyUsers engine.old.state }
    ensures { OnOk result (HasOnlyUsers engine.new.state) }
{
    let mut steps = Steps::<L>::start(blank);
    let mut order: Option<LastOrder> = None;
    engine.settle(&mut order, None, &mut steps)
}

/// A search, counted from nothing.
fn solve_counted<F: Filter, G: Guide, O: Order, L: Ledger>(
    alloc: Global,
    engine: &mut Engine<F>,
    search: &mut Search,
    guide: &mut Option<G>,
    order: &mut Option<O>,
    budget: u64,
    blank: Blank,
) -> Result<Answer, NoMemory>
    requires named { blank.name ≡ L.name }
    requires parts { blank.parts ≡ L.parts }
    requires shared { 0 < L.parts }
    requires fresh { search.old ≡ record { decisions = []; journal = [] } }
    requires users { HasOnlyUsers engine.old.state }
{
    let mut steps = Steps::<L>::start(blank);
    solve(alloc, engine, search, guide, order, budget, &mut steps)
}

/// A repair, counted from nothing.
fn repair_counted<F: Filter, G: Guide, O: Order, L: Ledger>(
    alloc: Global,
    engine: &mut Engine<F>,
    search: &mut Search,
    guide: &mut Option<G>,
    order: &mut Option<O>,
    tabu: u32,
    budget: u64,
    blank: Blank,
) -> Result<RepairAnswer, NoMemory>
    requires named { blank.name ≡ L.name }
    requires parts { blank.parts ≡ L.parts }
    requires shared { 0 < L.parts }
    requires fresh { search.old ≡ record { decisions = []; journal = [] } }
    requires users { HasOnlyUsers engine.old.state }
    requires some { 0 < tabu }
{
    let mut steps = Steps::<L>::start(blank);
    repair(
        alloc, engine, search, guide, order, tabu, budget, &mut steps,
    )
}

/// How many values each variable has.
fn counts_of(alloc: Global, store: &DomainStore) -> Result<String, NoMemory> {
    let mut counts = String::new(alloc);
    for var in 0..store.variables() {
        write!(counts, " {}", store.count(Var(var)))?;
    }
    Ok(counts)
}

/// A way of searching.
#[derive(Clone, Copy, Debug)]
pub enum Way {
    /// mac-dbt.
    Dbt,
    /// decision-repair, with this tabu length.
    Repair(u32),
}

/// What is searched, how, and within how many turns.
#[derive(Clone, Copy, Debug)]
pub struct Case {
    pub problem: Problem,
    pub way: Way,
    pub budget: u64,
}

/// Searches the engine in this way, and appends the answer.
fn answer_in<G: Guide, O: Order>(
    alloc: Global,
    engine: &mut Engine<Kind>,
    search: &mut Search,
    guide: &mut Option<G>,
    order: &mut Option<O>,
    case: &Case,
    text: &mut String,
) -> Result<(), NoMemory>
    requires fresh { search.old ≡ record { decisions = []; journal = [] } }
    requires users { HasOnlyUsers engine.old.state }
{
    let blank = Blank::new(1);
    let budget = case.budget;
    match case.way {
        Way::Dbt => {
            let answer = solve_counted::<Kind, G, O, Brand>(
                alloc, engine, search, guide, order, budget, blank,
            )?;
            put_answer(text, &answer)
        }
        Way::Repair(tabu) if tabu > 0 => {
            let answer = repair_counted::<Kind, G, O, Brand>(
                alloc, engine, search, guide, order, tabu, budget, blank,
            )?;
            put_repair_answer(text, &answer)
        }
        Way::Repair(_) => Ok(text.push_str("no tabu length")?),
    }
}

/// Appends what the search left behind, and it is to leave nothing: a decision, a negation, or variables with other numbers of
/// values than these.
fn put_left(
    alloc: Global,
    engine: &Engine<Kind>,
    search: &Search,
    before: &str,
    text: &mut String,
) -> Result<(), NoMemory> {
    if let Some(pair) = search.decisions().first() {
        write!(text, " leaves x{} = {}", pair.var.0, pair.value.0)?;
    }
    if let Some(pair) = engine.first_negation() {
        write!(text, " leaves x{} != {}", pair.var.0, pair.value.0)?;
    }
    let after = counts_of(alloc, engine.store())?;
    if after.as_str() != before {
        write!(text, " leaves{after} values of{before}")?;
    }
    Ok(())
}

/// Searches the problem in a new engine, and appends the answer, with what is left behind, and the turns.
fn search_in<G: Guide, O: Order>(
    alloc: Global,
    engine: &mut Engine<Kind>,
    search: &mut Search,
    guide: &mut Option<G>,
    order: &mut Option<O>,
    case: &Case,
    text: &mut String,
) -> Result<(), NoMemory>
    requires fresh { search.old ≡ record { decisions = []; journal = [] } }
    requires users { HasOnlyUsers engine.old.state }
{
    pose(alloc, engine, &case.problem)?;
    settle_counted::<Kind, Brand>(engine, Blank::new(1))?;
    let before = counts_of(alloc, engine.store())?;
    answer_in(alloc, engine, search, guide, order, case, text)?;
    put_left(alloc, engine, search, before.as_str(), text)?;
    put_turns(text, search.journal())
}

/// The text of a search of an engine of its own: the answer in the first line, and a line for each turn. The engine is given
/// up in one place, since each place costs its proof.
pub fn ordered<G: Guide, O: Order>(
    alloc: Global,
    case: &Case,
    guide: &mut Option<G>,
    order: &mut Option<O>,
) -> Result<String, NoMemory> {
    let mut engine = Engine::new(alloc);
    let mut search = Search::begin(alloc);
    let mut text = String::new(alloc);
    search_in(
        alloc,
        &mut engine,
        &mut search,
        guide,
        order,
        case,
        &mut text,
    )?;
    Ok(text)
}

/// The text of a search without an order.
pub fn guided<G: Guide>(
    alloc: Global,
    case: &Case,
    guide: &mut Option<G>,
) -> Result<String, NoMemory> {
    let mut order: Option<LastOrder> = None;
    ordered(alloc, case, guide, &mut order)
}

/// The text of a search without a guide.
pub fn plain(alloc: Global, case: &Case) -> Result<String, NoMemory> {
    let mut guide: Option<MostConflicts> = None;
    guided(alloc, case, &mut guide)
}
