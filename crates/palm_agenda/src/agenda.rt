//! The connected constraints, and those of them that wait to be revised.
ghost use Rattle.std.specs.Prelude.{◌≡◌, ℕ, ◌<◌, ◌≤◌, ◌↔◌, ◌⊎◌, [], ◌∷◌, ◌++◌, length, map, true, false, All, Contains, MatchOption, IfSome, IfNone, IsSomeAnd, Some, OnOk, OnErr, is_some, slice_get, vec_capacity};
ghost use Rattle.std.specs.List.{AllWithin};
ghost use Rattle.palm_base.specs.Tells.{Tells};
ghost use Rattle.palm_base.specs.declared.terms.Cid.{Cid as CidTerm};
ghost use Rattle.palm_base.specs.Order.{Rises, cid_before, IsPartedAt};
ghost use Rattle.palm_model.specs.State.{without_cid};
ghost use Rattle.palm_agenda.specs.Agenda.{Connected, HasPlace, IsConnected, IsFormed, IsOver, IsRun, IsStanding, Takes, TakesClear, changed_among, changed_at, index_within, marked_whole, mark_others, mark_own, connected_cids, unmarked, with_connected, without_connected};
ghost use Rattle.palm_agenda.specs.declared.mark.Mark.TheVariants.{Clear};
ghost use Rattle.palm_agenda.specs.declared.loss.Loss.{Loss as LossTerm};
ghost use Rattle.palm_agenda.specs.Heard.{IsHearing};
ghost use Rattle.palm_agenda.specs.Losses.{heed_of};
ghost use Rattle.palm_agenda.specs.Open.{Covers, is_open};
ghost use Rattle.palm_agenda.specs.declared.agenda.Woken.{Woken as WokenTerm};
ghost use Rattle.palm_agenda.specs.Flags.{count_raised, flagged};
ghost use Rattle.palm_agenda.specs.Cids.{HasSpace, cids_at};
ghost use Rattle.palm_agenda.specs.Kept.{IsShown, IsSought, Raises, WakesOthers};
ghost use Rattle.palm_agenda.specs.Places.{mark_places};

use crate::cids::Cids;
use crate::connection::{Connection, Places};
use crate::connections::Connections;
use crate::flags::{Flags, raised_from};
use crate::heard::Heard;
use crate::heedful::{is_heedful, note_heeds};
use crate::loss::Loss;
use crate::mark::Mark;
use crate::open::Open;
use crate::order::Order;
use crate::over::{cids_over, insert_over, make_room, remove_over};
use crate::taken::Taken;
use palm_base::{Cid, HasCid, NoMemory, Value, Var};
use palm_filter::Heed;
use std::alloc::Global;
use std::marker::Model;

/// A variable of which a loss woke the constraints over it, and which losses of it may mark something more.
#[derive(Clone, Copy, Debug)]
struct Woken {
    var: Var,
    still: Open,
}

/// The connected constraints by rising id, a flag for each of them that is raised where it is pending, and the ids of
/// the constraints over each variable. A variable is noted as heedful before one of them heeds losses of it that leave several
/// values. There is room for every id among those that an order is shown; where it is noted so they are those that are pending. The variable of which a loss woke constraints last is known while nothing was taken or
/// unmarked since, and which losses of it may mark something more: another one changes nothing. The lag is how far behind
/// its number the user's constraint stands that was looked for last; it wraps around.
#[derive(Debug, Drop)]
pub struct Agenda {
    connections: Connections,
    pending: Flags,
    over: Vec<Cids>,
    heedful: Vec<bool>,
    shown: Vec<Cid>,
    is_shown: bool,
    woken: Option<Woken>,
    lag: usize,
}

impl Model for Agenda {
    ghost use Rattle.std.specs.Prelude.{vec_capacity};
    ghost use Rattle.palm_agenda.specs.Agenda.{Waiting, connected_cids};
    ghost use Rattle.palm_agenda.specs.Flags.{flagged};
    ghost use Rattle.palm_agenda.specs.Kept.{IsAgenda, IsHeedful, IsShown, IsWoken};

    ghost Value = { Waiting };

    ghost view = { λ a. record { connected = a.connections; pending = flagged (connected_cids a.connections) a.pending.flags } };

    ghost invariant = { λ a. IsAgenda a.connections a.over.items a.pending.flags (vec_capacity a.shown)
        × IsShown a.is_shown a.shown.items (flagged (connected_cids a.connections) a.pending.flags)
        × IsWoken a.woken a.connections (flagged (connected_cids a.connections) a.pending.flags)
        × IsHeedful a.heedful.items a.connections };
}

/// The place of a connected constraint. That of a user is counted, where the numbers of users leave none out. Else it is
/// looked for first where it stands if it lags behind its number as the last one did. Where it does not, its own lag is known
/// from then on.
#[inline(always)]
fn place_near(connections: &Connections, run: &Option<usize>, lag: &mut usize, cid: &Cid) -> usize
    requires { IsSought connections.now run.now cid.now }
    ensures { IsPartedAt (λ d. cid_before d.cid cid.now) connections.now result }
{
    let Cid::User(number) = cid else {
        return connections.place_of(cid);
    };
    if let Some(run) = run {
        return run.wrapping_add(*number as usize);
    }
    let guess = lag.wrapping_add(*number as usize);
    if connections.stands_at(guess, cid) {
        return guess;
    }
    let place = connections.place_of(cid);
    *lag = place.wrapping_sub(*number as usize);
    place
}

/// Makes the constraint pending, and marks these places of it, as seen from the variable. It is heard how it heeds losses
/// of the variable.
#[inline(always)]
fn wake_named(
    connections: &mut Connections,
    pending: &mut Flags,
    run: &Option<usize>,
    lag: &mut usize,
    heard: &mut Heard,
    cid: &Cid,
    places: &Places,
    var: &Var,
)
    requires rising { Rises (connected_cids connections.old) }
    requires flags { length pending.old.flags ≡ length connections.old }
    requires run { IfSome run.now (IsRun connections.old) }
    requires over { IsOver connections.old var.now cid.now }
    requires hearing { IsHearing heard.old places.now }
    ensures marks { connections.new ≡ map (changed_at cid.now (mark_places places.now var.now)) connections.old }
    ensures pending { (c : CidTerm) → Contains (flagged (connected_cids connections.new) pending.new.flags) c
        ↔ (Contains (flagged (connected_cids connections.old) pending.old.flags) c ⊎ (c ≡ cid.now)) }
    ensures flags { length pending.new.flags ≡ length pending.old.flags }
    ensures hearing { IsHearing heard.new places.now }
    ensures covers { (d : Connected) → Contains connections.old d → d.cid ≡ cid.now
        → Covers heard.new.still places.now (heed_of var.now d.scope d.heeds) }
    ensures more { (l : LossTerm) → is_open heard.new.still l ≡ false
        → is_open heard.old.still l ≡ false }
{
    let place = place_near(connections, run, lag, cid);
    let heed = connections.at(place).heed_for(places, var);
    heard.hear(heed, places);
    connections.mark(place, places, var, &heard.change);
    pending.raise(place);
}

/// Whether a waking is noted of the variable, after which the loss marks nothing more.
#[inline(always)]
fn is_noted(woken: &Option<Woken>, var: &Var, loss: &Loss) -> bool
    ensures { result ≡ true → (w : WokenTerm) × (woken.now ≡ Some w) × (w.var ≡ var.now) × (is_open w.still loss.now ≡ false) }
{
    match woken {
        Some(noted) => noted.var == *var && !noted.still.lets(loss),
        None => false,
    }
}

/// Makes each of the constraints pending, and marks these places of it, as seen from the variable. Answers which
/// losses of the variable may mark something more.
#[inline(always)]
fn wake_each(
    connections: &mut Connections,
    pending: &mut Flags,
    known: &mut usize,
    cids: &[Cid],
    places: &Places,
    var: &Var,
) -> Open
    requires rising { Rises (connected_cids connections.old) }
    requires flags { length pending.old.flags ≡ length connections.old }
    requires over { (c : CidTerm) → Contains cids.now c → IsOver connections.old var.now c }
    ensures marks { connections.new ≡ map (changed_among cids.now (mark_places places.now var.now)) connections.old }
    ensures pending { (c : CidTerm) → Contains (flagged (connected_cids connections.new) pending.new.flags) c
        ↔ (Contains (flagged (connected_cids connections.old) pending.old.flags) c ⊎ Contains cids.now c) }
    ensures flags { length pending.new.flags ≡ length pending.old.flags }
    ensures covers { (d : Connected) → Contains connections.old d → Contains cids.now d.cid → Covers result places.now (heed_of var.now d.scope d.heeds) }
{
    let run = connections.run();
    let mut lag = *known;
    let mut heard = Heard::new(places);
    for cid in cids {
        wake_named(
            connections,
            pending,
            &run,
            &mut lag,
            &mut heard,
            cid,
            places,
            var,
        );
    }
    *known = lag;
    heard.still
}

/// Makes each of the constraints pending.
#[inline(always)]
fn raise_each(connections: &Connections, pending: &mut Flags, known: &mut usize, cids: &[Cid])
    requires rising { Rises (connected_cids connections.now) }
    requires flags { length pending.old.flags ≡ length connections.now }
    requires there { (c : CidTerm) → Contains cids.now c → IsConnected connections.now c }
    ensures { Raises connections.now cids.now pending.old.flags pending.new.flags }
{
    let run = connections.run();
    let mut lag = *known;
    for cid in cids {
        let place = place_near(connections, &run, &mut lag, cid);
        pending.raise(place);
    }
    *known = lag;
}

/// Takes a mark of the constraint away.
fn unmark_taken(connections: &mut Connections, taken: &Taken, place: usize)
    requires rising { Rises (connected_cids connections.old) }
    requires standing { IsStanding connections.old taken.now }
    requires within { HasPlace connections.old taken.now.cid place }
    ensures { connections.new ≡ map (changed_at taken.now.cid (unmarked place)) connections.old }
{
    connections.unmark(taken.at, place);
}

/// Makes room for one more constraint over the scope: for its id over each variable, for its flag, and for so many ids
/// among those that an order is shown.
fn make_room_for(
    over: &mut Vec<Cids>,
    pending: &mut Flags,
    shown: &mut Vec<Cid>,
    scope: &[Var],
    count: usize,
) -> Result<(), NoMemory>
    ensures cids { (x : ℕ) → cids_at over.new.items x ≡ cids_at over.old.items x }
    ensures flags { pending.new.flags ≡ pending.old.flags }
    ensures grows { vec_capacity shown.old ≤ vec_capacity shown.new }
    ensures space { OnOk result ((x : ℕ) → Contains scope.now x → HasSpace over.new.items x) }
    ensures room { OnOk result (length pending.new.flags < pending.new.room) }
    ensures shown { OnOk result (count ≤ vec_capacity shown.new) }
{
    make_room(over, scope)?;
    pending.reserve()?;
    shown.clear();
    shown.reserve(count)?;
    Ok(())
}

/// Writes one more id, where there is room.
fn show_one(shown: &mut Vec<Cid>, cid: &Cid)
    requires { length shown.old.items < vec_capacity shown.old }
    ensures cids { shown.new.items ≡ shown.old.items ++ cid.now ∷ [] }
    ensures room { vec_capacity shown.old ≤ vec_capacity shown.new }
{
    let pushed = shown.push(cid.copy());
    prove!(pushed.is_ok());
}

/// Writes the ids of the constraints whose flags are raised: so many, and none below the lowest place. It ends with the
/// last of them, and does not look at the flags behind it. Where they are written already it does nothing.
fn show(
    is_shown: bool,
    shown: &mut Vec<Cid>,
    connections: &Connections,
    flags: &[bool],
    lowest: usize,
    raised: usize,
)
    requires room { length connections.now ≤ vec_capacity shown.old }
    requires flags { length flags.now ≡ length connections.now }
    requires below { AllWithin (λ b. b ≡ false) flags.now 0 lowest }
    requires many { raised ≡ count_raised flags.now }
    requires already { IsShown is_shown shown.old.items (flagged (connected_cids connections.now) flags.now) }
    ensures cids { shown.new.items ≡ flagged (connected_cids connections.now) flags.now }
    ensures room { vec_capacity shown.old ≤ vec_capacity shown.new }
{
    if is_shown {
        return;
    }
    shown.clear();
    let mut place = lowest;
    while shown.len() < raised {
        place = raised_from(flags, place);
        show_one(shown, &cid_at(connections, place));
        place += 1;
    }
}

/// The id of the constraint at the place.
#[inline(always)]
fn cid_at(connections: &Connections, place: usize) -> Cid
    requires { place < length connections.now }
    ensures { slice_get (connected_cids connections.now) place ≡ Some result }
{
    connections.at(place).cid()
}

/// Whether each of the marks is clear.
#[inline(always)]
fn are_clear(marks: &[Mark]) -> bool
    ensures { Tells result (All (λ mark. mark ≡ Clear) marks.now) }
{
    for mark in marks {
        if *mark != Mark::Clear {
            return false;
        }
    }
    true
}

/// The answered index, and 0 where it is out of range.
fn index_of(shown: &[Cid], answer: usize) -> usize
    ensures { result ≡ index_within answer (length shown.now) }
{
    if answer < shown.len() { answer } else { 0 }
}

/// Takes the id at the answered index out, and the first one where it is out of range.
fn take_chosen(shown: &mut Vec<Cid>, answer: usize) -> Cid
    requires rising { Rises shown.old.items }
    requires some { shown.old.items ≡ [] → ⊥ }
    ensures chosen { slice_get shown.old.items (index_within answer (length shown.old.items)) ≡ Some result }
    ensures left { shown.new.items ≡ without_cid result shown.old.items }
    ensures room { vec_capacity shown.old ≤ vec_capacity shown.new }
{
    let index = index_of(shown, answer);
    shown.remove(index)
}

impl Agenda {
    /// No constraint is connected.
    pub fn new(alloc: Global) -> Agenda
        ensures { result ≡ record { connected = []; pending = [] } }
    {
        Agenda {
            connections: Connections::new(alloc),
            pending: Flags::new(alloc),
            over: Vec::new(alloc),
            heedful: Vec::new(alloc),
            shown: Vec::new(alloc),
            is_shown: false,
            woken: None,
            lag: 0,
        }
    }

    /// Connects a constraint, pending and marked whole. For each place of its scope it is told which losses of the variable are
    /// heeded: those that may take support from values of the others, and each where nothing is told. Without memory nothing changes.
    pub fn connect(&mut self, cid: Cid, scope: &[Var], heeds: Vec<Heed>) -> Result<(), NoMemory>
        requires new { IsConnected self.old.connected cid → ⊥ }
        ensures connected { OnOk result (self.new.connected ≡ with_connected (marked_whole cid scope.now heeds.items) self.old.connected) }
        ensures pending { OnOk result ((c : CidTerm) → Contains self.new.pending c ↔ (Contains self.old.pending c ⊎ (c ≡ cid))) }
        ensures formed { IsFormed self.new }
        ensures err { OnErr result (self.new ≡ self.old) }
    {
        self.is_shown = false;
        self.woken = None;
        let count = self.connections.len() + 1;
        make_room_for(
            &mut self.over,
            &mut self.pending,
            &mut self.shown,
            scope,
            count,
        )?;
        let alloc = *self.over.allocator();
        let connection = Connection::new(alloc, cid.copy(), scope, heeds)?;
        note_heeds(&mut self.heedful, &connection)?;
        let place = self.connections.place_of(&cid);
        self.connections.insert(place, connection)?;
        self.pending.insert(place);
        insert_over(&mut self.over, scope, &cid);
        Ok(())
    }

    /// Takes a constraint out, which is pending no longer.
    pub fn disconnect(&mut self, cid: Cid)
        requires { IsConnected self.old.connected cid }
        ensures connected { self.new.connected ≡ without_connected cid self.old.connected }
        ensures pending { self.new.pending ≡ without_cid cid self.old.pending }
    {
        self.is_shown = false;
        self.woken = None;
        let place = self.connections.place_of(&cid);
        let connection = self.connections.remove(place);
        self.pending.remove(place);
        remove_over(&mut self.over, connection.scope(), &cid);
    }

    /// A value of the variable was taken out: each constraint over it is pending, and its places of other variables are marked as
    /// it heeds the loss.
    #[inline(always)]
    pub fn wake(&mut self, var: Var, loss: Loss)
        ensures connected { self.new.connected ≡ map (mark_others var loss) self.old.connected }
        ensures pending { (c : CidTerm) → Contains self.new.pending c ↔ (Contains self.old.pending c ⊎ IsOver self.old.connected var c) }
        ensures formed { IsFormed self.new }
    {
        if is_noted(&self.woken, &var, &loss) {
            return;
        }
        self.wake_others(var, loss);
    }

    /// The same, whether it is noted that this changes nothing or not.
    #[inline(never)]
    fn wake_others(&mut self, var: Var, loss: Loss)
        ensures { WakesOthers var loss self.old self.new }
    {
        self.is_shown = false;
        self.woken = None;
        let cids = cids_over(&self.over, &var);
        if loss.several && !is_heedful(&self.heedful, &var) {
            raise_each(&self.connections, &mut self.pending, &mut self.lag, cids);
            let still = Open::of_alone();
            self.woken = Some(Woken { var, still });
            return;
        }
        let still = wake_each(
            &mut self.connections,
            &mut self.pending,
            &mut self.lag,
            cids,
            &Places::Others(loss),
            &var,
        );
        self.woken = Some(Woken { var, still });
    }

    /// Values of the variable were put back, none below the one and none above the other: each constraint over it is
    /// pending, and its places of the variable are marked from the one to the other besides.
    pub fn wake_restored(&mut self, var: Var, low: Value, high: Value)
        ensures connected { self.new.connected ≡ map (mark_own var low high) self.old.connected }
        ensures pending { (c : CidTerm) → Contains self.new.pending c ↔ (Contains self.old.pending c ⊎ IsOver self.old.connected var c) }
        ensures formed { IsFormed self.new }
    {
        self.is_shown = false;
        self.woken = None;
        let cids = cids_over(&self.over, &var);
        wake_each(
            &mut self.connections,
            &mut self.pending,
            &mut self.lag,
            cids,
            &Places::Own { low, high },
            &var,
        );
    }

    /// Makes a constraint pending that was taken.
    pub fn wake_taken(&mut self, taken: &Taken)
        requires { IsStanding self.old.connected taken.now }
        ensures connected { self.new.connected ≡ self.old.connected }
        ensures pending { (c : CidTerm) → Contains self.new.pending c ↔ (Contains self.old.pending c ⊎ (c ≡ taken.now.cid)) }
        ensures formed { IsFormed self.new }
    {
        self.is_shown = false;
        self.woken = None;
        self.pending.raise(taken.at);
    }

    /// A mark for each place of the constraint's scope: which values of the place's variable may lack support.
    pub fn marks(&self, taken: &Taken) -> &[Mark]
        requires { IsStanding self.now.connected taken.now }
        ensures marks { (d : Connected) → Contains self.now.connected d → d.cid ≡ taken.now.cid → result.now ≡ d.marks }
        ensures whole { (d : Connected) → Contains self.now.connected d → d.cid ≡ taken.now.cid → length result.now ≡ length d.scope }
    {
        self.connections.at(taken.at).marks()
    }

    /// The mark of a place of the constraint's scope.
    pub fn mark(&self, taken: &Taken, place: usize) -> Mark
        requires standing { IsStanding self.now.connected taken.now }
        requires within { HasPlace self.now.connected taken.now.cid place }
        ensures { (d : Connected) → Contains self.now.connected d → d.cid ≡ taken.now.cid → slice_get d.marks place ≡ Some result }
    {
        self.marks(taken)[place]
    }

    /// Takes the mark of a place away.
    pub fn unmark(&mut self, taken: &Taken, place: usize)
        requires standing { IsStanding self.old.connected taken.now }
        requires within { HasPlace self.old.connected taken.now.cid place }
        ensures connected { self.new.connected ≡ map (changed_at taken.now.cid (unmarked place)) self.old.connected }
        ensures pending { self.new.pending ≡ self.old.pending }
    {
        self.woken = None;
        unmark_taken(&mut self.connections, taken, place);
    }

    /// Whether no constraint is pending. What it ensures besides holds of every agenda.
    pub fn is_empty(&self) -> bool
        ensures tells { Tells result (self.now.pending ≡ []) }
        ensures formed { IsFormed self.now }
    {
        self.pending.is_empty()
    }

    /// The constraint that is revised next, which is pending no longer: the first one without an order, and with one
    /// the one that it answers when it is asked once. It is not asked where none is pending.
    #[inline(always)]
    pub fn take<O: Order>(&mut self, order: &mut Option<O>) -> Option<Taken>
        ensures none { IfNone result ((self.old.pending ≡ []) × (self.new ≡ self.old) × (order.new ≡ order.old)) }
        ensures standing { IfSome result (IsStanding self.old.connected) }
        ensures some { IfSome result (λ taken. (answer : ℕ) × Takes self.old.pending self.new.pending answer taken.cid
            × MatchOption order.old (answer ≡ 0) (λ before. IsSomeAnd order.new (λ after. O.answers before self.old.pending answer (O.state after)))) }
        ensures connected { self.new.connected ≡ self.old.connected }
        ensures stays { is_some order.new ≡ is_some order.old }
    {
        if self.is_empty() {
            return None;
        }
        match order {
            None => self.take_first(),
            Some(order) => self.take_answered(order),
        }
    }

    /// Takes pending constraints, at most so many, that come first and have no mark: no value lacks support in them. Answers how many.
    pub fn take_clear(&mut self, most: u64) -> u64
        ensures { TakesClear self.old self.new most result }
    {
        let mut taken = 0;
        while taken < most && self.take_first_clear() {
            taken += 1;
        }
        taken
    }

    /// Takes the first pending constraint, where one is pending and has no mark.
    #[inline(always)]
    fn take_first_clear(&mut self) -> bool
        ensures taken { result ≡ true → TakesClear self.old self.new 1 1 }
        ensures none { result ≡ false → self.new ≡ self.old }
    {
        match self.pending.first() {
            Some(place) if are_clear(self.connections.at(place).marks()) => {
                self.pending.lower(place);
                self.is_shown = false;
                self.woken = None;
                true
            }
            _ => false,
        }
    }

    /// The first pending constraint, which is pending no longer.
    #[inline(always)]
    fn take_first(&mut self) -> Option<Taken>
        ensures none { IfNone result ((self.old.pending ≡ []) × (self.new ≡ self.old)) }
        ensures standing { IfSome result (IsStanding self.old.connected) }
        ensures some { IfSome result (λ taken. Takes self.old.pending self.new.pending 0 taken.cid) }
        ensures connected { self.new.connected ≡ self.old.connected }
    {
        let place = self.pending.lower_first()?;
        self.is_shown = false;
        self.woken = None;
        let cid = cid_at(&self.connections, place);
        Some(Taken { cid, at: place })
    }

    /// The pending constraint that the order answers when it is asked once, which is pending no longer. The order is not
    /// asked where none is pending.
    #[inline(never)]
    fn take_answered<O: Order>(&mut self, order: &mut O) -> Option<Taken>
        ensures none { IfNone result ((self.old.pending ≡ []) × (self.new ≡ self.old) × (order.new ≡ order.old)) }
        ensures standing { IfSome result (IsStanding self.old.connected) }
        ensures some { IfSome result (λ taken. (answer : ℕ) × Takes self.old.pending self.new.pending answer taken.cid × O.answers order.old self.old.pending answer (O.state order.new)) }
        ensures connected { self.new.connected ≡ self.old.connected }
    {
        if self.pending.is_empty() {
            return None;
        }
        let lowest = self.pending.lowest();
        let raised = self.pending.raised();
        show(
            self.is_shown,
            &mut self.shown,
            &self.connections,
            self.pending.as_slice(),
            lowest,
            raised,
        );
        let answer = order.next(&self.shown);
        let cid = take_chosen(&mut self.shown, answer);
        let place = self.connections.place_of(&cid);
        self.pending.lower(place);
        self.is_shown = true;
        self.woken = None;
        Some(Taken { cid, at: place })
    }
}
