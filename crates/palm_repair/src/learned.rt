//! What a repair keeps beside the search: its nogoods, where the negations come from, and the weights.
ghost use Rattle.std.specs.Prelude.{◌≡◌, ℕ, ℤ, ◌+◌, ◌<◌, ◌≤◌, ◌++◌, ◌∷◌, [], List, Contains, IfOk, OnErr, OnOk, Some, length, map, remove, replicate, slice_get, slice_set};
ghost use Rattle.palm_base.specs.declared.limits.TheConstants.{LAST_COUNT};
ghost use Rattle.palm_base.specs.declared.terms.Cid.{Cid as CidTerm};
ghost use Rattle.palm_base.specs.declared.terms.Pair.{Pair as PairTerm};
ghost use Rattle.palm_engine.specs.Engine.{KeepsCounts};
ghost use Rattle.palm_model.specs.Constraint.{Distinct};
ghost use Rattle.palm_model.specs.Event.{WithdrawsAll};
ghost use Rattle.palm_model.specs.Log.{IsActive, cids_of, is_named};
ghost use Rattle.palm_model.specs.State.{IsValid};
ghost use Rattle.palm_search.specs.Calls.{search_state};
ghost use Rattle.palm_search.specs.Kept.{HasDecisions};
ghost use Rattle.palm_repair.specs.Posting.{Origin as OriginTerm, PostsAll, PostsSome, active_origins};
ghost use Rattle.palm_repair.specs.Repair.{MakesRoom, forced_by, raised, weight_of};
ghost use Rattle.palm_repair.specs.Kept.{IsNogood, IsRepairing};
ghost use Rattle.palm_repair.specs.Learned.{repair_state};
ghost use Rattle.palm_repair.specs.Turning.{Learns, LearnsSome, filtered};

use crate::nogood::{Nogood, decided_values, force};
use palm_base::{Cid, NoMemory, Pair, Var};
use palm_engine::Engine;
use palm_filter::Filter;
use palm_search::Search;
use std::alloc::Global;
use std::marker::Model;

/// The nogood from which the present posting of a negation came, by its number; nogoods are numbered from 0 in the order
/// in which they were appended.
#[derive(Drop)]
struct Origin {
    pair: Pair,
    nogood: u64,
}

impl Model for Origin {
    ghost use Rattle.palm_repair.specs.Posting.{Origin};

    ghost Value = { Origin };

    ghost view = { λ o. record { pair = o.pair; nogood = o.nogood } };
}

/// The listed nogoods with the oldest first, where the active negations come from, a weight for each variable, and how
/// many nogoods were dropped.
#[derive(Drop)]
pub(crate) struct Learned {
    nogoods: Vec<Nogood>,
    origins: Vec<Origin>,
    weights: Vec<u64>,
    dropped: u64,
}

impl Model for Learned {
    ghost use Rattle.palm_repair.specs.Learned.{LearnedView};

    ghost Value = { LearnedView };

    ghost view = { λ l. record { nogoods = l.nogoods.items; origins = l.origins.items; weights = l.weights.items; dropped = l.dropped } };
}

impl Learned {
    /// Nothing is listed, no weight has risen, and nothing was dropped.
    pub(crate) fn new(alloc: Global, variables: u32) -> Result<Learned, NoMemory>
        ensures { IfOk result (λ learned. (d : List (List ℤ)) → length d ≡ variables
            → learned ≡ record { nogoods = []; origins = []; weights = map (λ vs. 0) d; dropped = 0 }) }
    {
        let weights = zeros(alloc, variables)?;
        Ok(Learned {
            nogoods: Vec::new(alloc),
            origins: Vec::new(alloc),
            weights,
            dropped: 0,
        })
    }

    /// The weight of each variable.
    pub(crate) fn weights(&self) -> &[u64]
        ensures { result.now ≡ self.now.weights }
    {
        self.weights.as_slice()
    }

    /// How many nogoods are listed.
    fn listed(&self) -> usize
        ensures { result ≡ length self.now.nogoods }
    {
        self.nogoods.len()
    }

    /// The nogood at the place.
    fn nogood(&self, index: usize) -> &Nogood
        requires { index < length self.now.nogoods }
        ensures { slice_get self.now.nogoods index ≡ Some result.now }
    {
        &self.nogoods[index]
    }

    /// Where the active negations come from.
    fn origins(&self) -> &[Origin]
        ensures { result.now ≡ self.now.origins }
    {
        self.origins.as_slice()
    }

    /// How many nogoods were dropped.
    pub(crate) fn dropped(&self) -> u64
        ensures { result ≡ self.now.dropped }
    {
        self.dropped
    }

    /// Raises the weight of each of the variables by one.
    pub(crate) fn raise(&mut self, vars: &[Var])
        requires distinct { Distinct vars.now }
        requires within { (x : ℕ) → Contains vars.now x → x < length self.old.weights }
        requires small { (w : ℕ) → Contains self.old.weights w → w < LAST_COUNT }
        ensures { self.new ≡ record self.old { weights = raised self.old.weights vars.now } }
    {
        raise_each(&mut self.weights, vars);
    }

    /// Takes the negations out of the origins that are not active.
    fn keep_active<F: Filter>(&mut self, engine: &Engine<F>)
        ensures { self.new ≡ record self.old { origins = active_origins engine.now.state.active self.old.origins } }
    {
        self.origins.retain(
            |origin: &Origin| -> bool
                ensures { result ≡ is_named (cids_of engine.entry.now.state.active) (CidTerm.Not origin.now.pair) }
            { engine.is_active(Cid::Not(origin.pair)) },
        );
    }

    /// Where the list has the tabu length, the oldest nogood goes, and the active negations that came from it.
    fn make_room<F: Filter>(&mut self, engine: &mut Engine<F>, tabu: u32)
        requires some { 0 < tabu }
        requires few { length self.old.nogoods ≤ tabu }
        requires active { (o : OriginTerm) → Contains self.old.origins o → IsActive engine.old.state.active (CidTerm.Not o.pair) }
        requires small { self.old.dropped < LAST_COUNT }
        ensures ok { (decisions : List PairTerm) → MakesRoom tabu (repair_state engine.old.state decisions self.old) (repair_state engine.new.state decisions self.new) }
        ensures counts { KeepsCounts engine.old engine.new }
        ensures valid { IsValid engine.new.state }
    {
        // What holds of every engine is known once its store is read.
        let _store = engine.store();
        if self.listed() == tabu as usize {
            withdraw_forced(engine, self.origins(), self.dropped());
            self.keep_active(engine);
            self.forget();
        }
    }

    /// Takes the oldest nogood out.
    fn forget(&mut self)
        requires some { 0 < length self.old.nogoods }
        requires small { self.old.dropped < LAST_COUNT }
        ensures { self.new ≡ record self.old { nogoods = remove self.old.nogoods 0; dropped = self.old.dropped + 1 } }
    {
        self.nogoods.remove(0);
        self.dropped += 1;
    }

    /// Makes room for the nogood of a flat conflict, appends it, and posts negations; it comes after a withdrawal.
    pub(crate) fn learn<F: Filter>(
        &mut self,
        alloc: Global,
        engine: &mut Engine<F>,
        search: &Search,
        tabu: u32,
        nogood: Nogood,
    ) -> Result<(), NoMemory>
        requires repairing { IsRepairing (filtered (repair_state engine.old.state search.now.decisions self.old)) }
        requires nogood { IsNogood engine.old.state nogood }
        requires some { 0 < tabu }
        requires few { length self.old.nogoods ≤ tabu }
        requires small { self.old.dropped + length self.old.nogoods < LAST_COUNT }
        ensures ok { OnOk result (Learns tabu nogood (filtered (repair_state engine.old.state search.now.decisions self.old)) (repair_state engine.new.state search.now.decisions self.new)) }
        ensures err { OnErr result (LearnsSome tabu nogood (filtered (repair_state engine.old.state search.now.decisions self.old)) engine.new.state) }
        ensures decisions { HasDecisions (search_state engine.new.state search.now) }
        ensures counts { KeepsCounts engine.old engine.new }
    {
        self.keep_active(engine);
        self.make_room(engine, tabu);
        self.append(nogood)?;
        self.post(alloc, engine, search)
    }

    /// Appends a nogood. Without memory nothing changes.
    fn append(&mut self, nogood: Nogood) -> Result<(), NoMemory>
        ensures ok { OnOk result (self.new ≡ record self.old { nogoods = self.old.nogoods ++ nogood ∷ [] }) }
        ensures err { OnErr result (self.new ≡ self.old) }
    {
        self.nogoods.push(nogood)?;
        Ok(())
    }

    /// Notes that the negation of the pair came from the nogood of this number. Without memory nothing changes.
    fn note(&mut self, pair: Pair, number: u64) -> Result<(), NoMemory>
        ensures ok { OnOk result (self.new ≡ record self.old { origins = record { pair = pair; nogood = number } ∷ self.old.origins }) }
        ensures err { OnErr result (self.new ≡ self.old) }
    {
        self.origins.insert(
            0,
            Origin {
                pair,
                nogood: number,
            },
        )?;
        Ok(())
    }

    /// Walks the listed nogoods from the oldest on, and posts the negations that they force.
    pub(crate) fn post<F: Filter>(
        &mut self,
        alloc: Global,
        engine: &mut Engine<F>,
        search: &Search,
    ) -> Result<(), NoMemory>
        requires repairing { IsRepairing (repair_state engine.old.state search.now.decisions self.old) }
        requires few { self.old.dropped + length self.old.nogoods ≤ LAST_COUNT }
        ensures ok { OnOk result (PostsAll (repair_state engine.old.state search.now.decisions self.old) (repair_state engine.new.state search.now.decisions self.new)) }
        ensures err { OnErr result (PostsSome (repair_state engine.old.state search.now.decisions self.old) engine.new.state) }
        ensures decisions { HasDecisions (search_state engine.new.state search.now) }
        ensures counts { KeepsCounts engine.old engine.new }
    {
        let values = decided_values(alloc, engine.store().variables(), search.decisions())?;
        for index in 0..self.listed() {
            let posted = force(alloc, engine, self.nogood(index), &values)?;
            if let Some(pair) = posted {
                self.note(pair, self.dropped + index as u64)?;
            }
        }
        Ok(())
    }
}

/// So many weights that have not risen.
fn zeros(alloc: Global, variables: u32) -> Result<Vec<u64>, NoMemory>
    ensures { IfOk result (λ weights. weights.items ≡ replicate variables 0) }
{
    let mut weights = Vec::new(alloc);
    weights.resize(variables as usize, 0)?;
    Ok(weights)
}

/// Raises the weight of the variable by one.
fn raise_one(weights: &mut Vec<u64>, var: &Var)
    requires within { var.now < length weights.old.items }
    requires small { weight_of weights.old.items var.now < LAST_COUNT }
    ensures { weights.new.items ≡ slice_set weights.old.items var.now (weight_of weights.old.items var.now + 1) }
{
    weights[var.0 as usize] += 1;
}

/// Raises the weight of each of the variables by one.
fn raise_each(weights: &mut Vec<u64>, vars: &[Var])
    requires distinct { Distinct vars.now }
    requires within { (x : ℕ) → Contains vars.now x → x < length weights.old.items }
    requires small { (w : ℕ) → Contains weights.old.items w → w < LAST_COUNT }
    ensures { weights.new.items ≡ raised weights.old.items vars.now }
{
    for var in vars {
        raise_one(weights, var);
    }
}

/// Withdraws the negations whose present posting came from the nogood of this number.
fn withdraw_forced<F: Filter>(engine: &mut Engine<F>, origins: &[Origin], number: u64)
    requires active { (o : OriginTerm) → Contains origins.now o → IsActive engine.old.state.active (CidTerm.Not o.pair) }
    ensures withdraws { WithdrawsAll engine.old.state (forced_by engine.old.state number origins.now) engine.new.state }
    ensures counts { KeepsCounts engine.old engine.new }
    ensures valid { IsValid engine.new.state }
{
    // What holds of every engine is known once its store is read.
    let _store = engine.store();
    for origin in origins {
        if origin.nogood == number && engine.is_active(Cid::Not(origin.pair)) {
            engine.withdraw(Cid::Not(origin.pair));
        }
    }
}
