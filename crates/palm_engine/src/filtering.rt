//! The domains, the log and the agenda of an engine, and what changes them together.
ghost use Rattle.std.specs.Prelude.{◌≡◌, ◌↔◌, ◌⊎◌, ℕ, ℤ, ◌<◌, List, [], map, length, Contains, None, Some, OnErr, OnOk, IfOk};
ghost use Rattle.palm_base.specs.declared.terms.Cid.{Cid as CidTerm};
ghost use Rattle.palm_base.specs.declared.terms.Pair.{Pair as PairTerm};
ghost use Rattle.palm_domain.specs.Rows.{Ascends, IsPresent, present_of};
ghost use Rattle.palm_model.specs.Log.{Removal, log_pairs};
ghost use Rattle.palm_explain.specs.Explanations.{AreSpanned, IsRunOf, LacksExactly, restored_vars};
ghost use Rattle.palm_explain.specs.Moving.{AreFitting, FitsSpan, spans_at};
ghost use Rattle.palm_explain.specs.declared.moving.MovingSpan.{MovingSpan as MovingSpanTerm};
ghost use Rattle.palm_agenda.specs.Agenda.{IsConnected, IsFormed, IsOver};
ghost use Rattle.palm_engine.specs.Changed.{HasLost, HasLostEach, HasRoomFor, NotesGain, NotesLoss, PutsBack, TakesOut, TellsLoss, widened_by, with_run, with_variable};

use palm_agenda::{Agenda, Loss};
use palm_base::{Cid, NoMemory, Pair, Value, Var};
use palm_domain::DomainStore;
use palm_explain::{ExplainStore, MovingSpan, Restored};
use std::alloc::Global;
use std::array;

/// The present values, why the others are gone, and which constraints wait.
#[derive(Drop)]
pub(crate) struct Filtering {
    pub(crate) store: DomainStore,
    pub(crate) log: ExplainStore,
    pub(crate) agenda: Agenda,
    /// The variable that has no value left.
    pub(crate) empty: Option<Var>,
    /// How often support was asked for.
    pub(crate) checks: u64,
}

/// The empty variable after a value of `var` was taken out.
fn after_loss(empty: &Option<Var>, store: &DomainStore, var: Var) -> Option<Var>
    requires { var < length store.now }
    ensures { NotesLoss empty.now result (present_of store.now) var }
{
    if store.count(var) == 0 {
        Some(var)
    } else {
        *empty
    }
}

/// What is left of the variable after a value of it was taken out.
#[inline(always)]
fn loss_of(store: &DomainStore, pair: Pair) -> Loss
    requires { pair.var < length store.now }
    ensures { TellsLoss (present_of store.now) pair result }
{
    // A store's values ascend, as `variables` tells, so that two of them differ.
    prove!(store.variables() > 0);
    let Pair { var, value } = pair;
    let count = store.count(var);
    Loss {
        value,
        below: count > 0 && store.least(var) < value,
        above: count > 0 && value < store.greatest(var),
        several: count > 1,
    }
}

/// The empty variable after values were put back.
fn after_gain(empty: &Option<Var>, store: &DomainStore) -> Option<Var>
    requires { (x : ℕ) → empty.now ≡ Some x → x < length store.now }
    ensures { NotesGain empty.now result (present_of store.now) }
{
    let var = (*empty)?;
    if store.count(var) == 0 {
        Some(var)
    } else {
        None
    }
}

/// Makes the constraints over the variables of these pending, and marks their places for the restored values.
fn wake_restored(agenda: &mut Agenda, entries: &[Restored])
    requires { IsFormed agenda.old }
    ensures formed { IsFormed agenda.new }
    ensures connected { agenda.new.connected ≡ map (widened_by entries.now) agenda.old.connected }
    ensures pending { (c : CidTerm) → Contains agenda.new.pending c
        ↔ (Contains agenda.old.pending c ⊎ ((x : ℕ) × Contains (restored_vars entries.now) x × IsOver agenda.old.connected x c)) }
{
    for entry in entries {
        agenda.wake_restored(entry.var, entry.low, entry.high);
    }
}

impl Filtering {
    /// No variable and no constraint.
    pub(crate) fn new(alloc: Global) -> Filtering
        ensures store { result.store ≡ [] }
        ensures log { result.log ≡ record { log = []; restored = [] } }
        ensures agenda { result.agenda ≡ record { connected = []; pending = [] } }
        ensures empty { result.empty ≡ None }
        ensures checks { result.checks ≡ 0 }
    {
        Filtering {
            store: DomainStore::new(alloc),
            log: ExplainStore::new(alloc),
            agenda: Agenda::new(alloc),
            empty: None,
            checks: 0,
        }
    }

    /// Appends a variable with these values, of which the log is told. Without memory nothing changes.
    pub(crate) fn add_variable(&mut self, values: &[Value]) -> Result<Var, NoMemory>
        requires { HasRoomFor self.old.store values.now }
        ensures var { IfOk result (λ x. x ≡ length self.old.store) }
        ensures ok { OnOk result (self.new ≡ record self.old { store = with_variable self.old.store values.now }) }
        ensures err { OnErr result (self.new ≡ self.old) }
    {
        let var = Var(self.store.variables());
        self.log.declare(var, values)?;
        self.store.add_variable(values)
    }

    /// Takes present values of a variable out by this constraint, each for the removals that the spans stand for at it. Without memory
    /// nothing changes.
    pub(crate) fn remove_run(
        &mut self,
        var: Var,
        values: &[Value],
        by: Cid,
        spans: &[MovingSpan],
    ) -> Result<(), NoMemory>
        requires removed { LacksExactly self.old.store (log_pairs self.old.log.log) }
        requires ascend { Ascends values.now }
        requires present { (v : ℤ) → Contains values.now v → IsPresent self.old.store var v }
        requires fits { AreFitting spans.now values.now }
        ensures lost { OnOk result
            (HasLostEach (record self.old { log = self.new.log }) var values.now self.new) }
        ensures logged { (run : List Removal) → IsRunOf var by spans.now self.old.log.log values.now run
            → OnOk result (self.new.log ≡ with_run self.old.log run) }
        ensures err { OnErr result (self.new ≡ self.old) }
    {
        self.log.enter_run(var, values, by, spans)?;
        self.lose_each(var, values);
        Ok(())
    }

    /// Takes a present value out by this constraint and for the removals that the spans stand for at it. Without memory nothing
    /// changes.
    pub(crate) fn remove_for_spans(
        &mut self,
        pair: Pair,
        by: Cid,
        spans: &[MovingSpan],
    ) -> Result<(), NoMemory>
        requires removed { LacksExactly self.old.store (log_pairs self.old.log.log) }
        requires present { IsPresent self.old.store pair.var pair.value }
        requires fits { (s : MovingSpanTerm) → Contains spans.now s → FitsSpan s pair.value }
        ensures ok { (reasons : List PairTerm)
            → AreSpanned (log_pairs self.old.log.log) (spans_at spans.now pair.value) reasons
            → OnOk result (TakesOut self.old pair by reasons self.new) }
        ensures err { OnErr result (self.new ≡ self.old) }
    {
        let Pair { var, value } = pair;
        self.remove_run(var, array::from_ref(&value), by, spans)
    }

    /// Takes present values of a variable out of its domain, one after another, and tells the agenda.
    fn lose_each(&mut self, var: Var, values: &[Value])
        requires ascend { Ascends values.now }
        requires present { (v : ℤ) → Contains values.now v → IsPresent self.old.store var v }
        ensures { HasLostEach self.old var values.now self.new }
    {
        for value in values {
            self.lose(Pair { var, value: *value });
        }
    }

    /// Takes a present value out of its domain, and tells the agenda.
    #[inline(always)]
    fn lose(&mut self, pair: Pair)
        requires { IsPresent self.old.store pair.var pair.value }
        ensures { HasLost self.old pair self.new }
    {
        let Pair { var, value } = pair;
        self.store.take_out(Pair { var, value });
        let loss = loss_of(&self.store, Pair { var, value });
        self.agenda.wake(var, loss);
        self.empty = after_loss(&self.empty, &self.store, var);
    }

    /// Takes a present value out by this constraint and for these removed pairs. Without memory nothing changes.
    pub(crate) fn remove(&mut self, pair: Pair, by: Cid, reasons: &[Pair]) -> Result<(), NoMemory>
        requires removed { LacksExactly self.old.store (log_pairs self.old.log.log) }
        requires present { IsPresent self.old.store pair.var pair.value }
        requires earlier { (p : PairTerm) → Contains reasons.now p → Contains (log_pairs self.old.log.log) p }
        ensures ok { OnOk result (TakesOut self.old pair by reasons.now self.new) }
        ensures err { OnErr result (self.new ≡ self.old) }
    {
        let Pair { var, value } = pair;
        self.log.enter(Pair { var, value }, by, reasons)?;
        self.lose(Pair { var, value });
        Ok(())
    }

    /// Takes the constraint out with all removals that rest on it. It takes no memory.
    pub(crate) fn withdraw(&mut self, cid: &Cid)
        requires removed { LacksExactly self.old.store (log_pairs self.old.log.log) }
        requires formed { IsFormed self.old.agenda }
        requires connected { IsConnected self.old.agenda.connected cid.now }
        requires empty { (x : ℕ) → self.old.empty ≡ Some x → x < length self.old.store }
        ensures { PutsBack self.old cid.now self.new }
    {
        self.agenda.disconnect(*cid);
        self.log.withdraw(*cid, &mut self.store);
        wake_restored(&mut self.agenda, self.log.restored());
        self.empty = after_gain(&self.empty, &self.store);
    }
}
