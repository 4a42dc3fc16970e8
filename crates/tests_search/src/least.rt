//! The least value of a variable, by the one call: an engine with one variable and no constraint.
ghost use Rattle.std.specs.Prelude.{◌≡◌, ℤ, ◌<◌, [], length, OnOk};
ghost use Rattle.palm_best.specs.Cuts.{is_own};
ghost use Rattle.palm_model.specs.Domains.{Has};
ghost use Rattle.palm_model.specs.Limits.{IsValue};
ghost use Rattle.palm_search.specs.Kept.{HasNone};

use crate::guides::Fixed;
use crate::journal::{pair, put_best, put_turns, text_of};
use palm_agenda::{LastOrder, Order};
use palm_base::{Cid, CidList, NoMemory, Steps, Value, Var};
use palm_best::{Best, minimize};
use palm_engine::Engine;
use palm_guide::{FirstGuide, Guide};
use palm_kind::Kind;
use palm_search::Search;
use std::alloc::Global;
use std::marker::Brand;
use std::sync::ledger::{Blank, Ledger};
use std::test::Fail;
use tests_compare::first_difference;

/// A minimization of the first variable, counted from nothing.
fn minimize_counted<G: Guide, O: Order, L: Ledger>(
    alloc: Global,
    engine: &mut Engine<Kind>,
    search: &mut Search,
    guide: &mut Option<G>,
    order: &mut Option<O>,
    budget: u64,
    blank: Blank,
) -> Result<Best, NoMemory>
    requires named { blank.name ≡ L.name }
    requires parts { blank.parts ≡ L.parts }
    requires shared { 0 < L.parts }
    requires fresh { search.old ≡ record { decisions = []; journal = [] } }
    requires none { HasNone is_own engine.old.state }
    requires target { 0 < length engine.old.state.initial }
    requires values { (v : ℤ) → Has engine.old.state.initial 0 v → IsValue v }
{
    let mut steps = Steps::<L>::start(blank);
    minimize(
        alloc,
        engine,
        search,
        Var(0),
        guide,
        order,
        budget,
        &mut steps,
    )
}

/// Appends a variable with the values -1 and 2 to an engine without variables.
fn add_variable(engine: &mut Engine<Kind>) -> Result<(), NoMemory>
    requires empty { engine.old.state.initial ≡ [] }
    requires none { engine.old.state.active ≡ [] }
    ensures none { OnOk result (HasNone is_own engine.new.state) }
    ensures target { OnOk result (0 < length engine.new.state.initial) }
    ensures values { OnOk result ((v : ℤ) → Has engine.new.state.initial 0 v → IsValue v) }
{
    engine.add_variable(&[Value(-1), Value(2)])?;
    Ok(())
}

/// The text of a minimization of that variable within so many turns: the answer in the first line, and a line for each turn.
fn minimized_by<G: Guide, O: Order>(
    alloc: Global,
    guide: &mut Option<G>,
    order: &mut Option<O>,
    budget: u64,
) -> Result<String, NoMemory> {
    let mut engine = Engine::<Kind>::new(alloc);
    let mut search = Search::begin(alloc);
    let mut text = String::new(alloc);
    add_variable(&mut engine)?;
    let best = minimize_counted::<G, O, Brand>(
        alloc,
        &mut engine,
        &mut search,
        guide,
        order,
        budget,
        Blank::new(1),
    )?;
    put_best(&mut text, &best)?;
    put_turns(&mut text, search.journal())?;
    Ok(text)
}

/// The same without a guide and without an order.
fn minimized(alloc: Global, budget: u64) -> Result<String, NoMemory> {
    let mut guide: Option<FirstGuide> = None;
    let mut order: Option<LastOrder> = None;
    minimized_by(alloc, &mut guide, &mut order, budget)
}

// The cut below -1 leaves no value, and no constraint of a user proves it.
#[test]
fn the_least_value_is_proved_by_the_cut_alone(rt: HostRuntime) -> Result<(), Fail> {
    let alloc = rt.alloc();
    let turns = ["x0 = -1", "not x0 = -1 by x0 c65536"];
    let wanted = text_of(alloc, "least -1 by", &turns)?;
    let got = minimized(alloc, 2)?;
    assert_eq!(rt; first_difference(wanted.as_bytes(), got.as_bytes()), None);
    Ok(())
}

#[test]
fn the_best_so_far_is_told(rt: HostRuntime) -> Result<(), Fail> {
    let alloc = rt.alloc();
    let wanted = text_of(alloc, "spent 1 best -1", &["x0 = -1"])?;
    let got = minimized(alloc, 1)?;
    assert_eq!(rt; first_difference(wanted.as_bytes(), got.as_bytes()), None);
    Ok(())
}

/// Answers 0, and keeps the ids that it is shown, one list after the other, as long as there is memory.
#[derive(Drop)]
struct Witness {
    shown: CidList,
    is_whole: bool,
}

impl Order for Witness {
    ghost use Rattle.std.specs.Prelude.{◌≡◌, []};

    ghost state = { λ witness. [] };

    ghost answers = { λ witness pending index after. index ≡ 0 };

    ghost hears = { λ witness cid removed after. after ≡ [] };

    fn next(&mut self, pending: &[Cid]) -> usize {
        for cid in pending {
            self.is_whole = self.is_whole && self.shown.push(*cid).is_ok();
        }
        0
    }

    fn ran(&mut self, _cid: Cid, _removed: u32) {}
}

/// The ids that the order was shown; none if memory was wanting.
fn all_shown(order: &Option<Witness>) -> &[Cid] {
    match order {
        Some(witness) if witness.is_whole => witness.shown.as_slice(),
        _ => &[],
    }
}

// Worked out by hand: the decision takes -1 out and rests, and 2 is found. The first cut takes 2 out, so the decision is undone;
// then its negation and the cut rest, and -1 is found, which the second cut takes out. Each constraint of a user has a number
// below the first cut's.
#[test]
fn an_order_sees_the_first_cut(rt: HostRuntime) -> Result<(), Fail> {
    let alloc = rt.alloc();
    let mut guide = Some(Fixed {
        pick: Some(pair(0, 2)),
    });
    let mut order = Some(Witness {
        shown: CidList::new(alloc),
        is_whole: true,
    });
    let turns = ["x0 = 2 after x0 = 2", "not x0 = 2 by x0 c65536"];
    let wanted = text_of(alloc, "least -1 by", &turns)?;
    let got = minimized_by(alloc, &mut guide, &mut order, 2)?;
    assert_eq!(rt; first_difference(wanted.as_bytes(), got.as_bytes()), None);
    let seen = [
        Cid::Decide(Var(0)),
        Cid::Decide(Var(0)),
        Cid::User(65_536),
        Cid::Not(pair(0, 2)),
        Cid::User(65_536),
        Cid::User(65_536),
        Cid::User(65_537),
    ];
    assert_eq!(rt; all_shown(&order), seen.as_slice());
    Ok(())
}
