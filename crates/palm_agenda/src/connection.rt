//! One constraint of an agenda.
ghost use Rattle.std.specs.Prelude.{◌≡◌, ◌<◌, length, true, All, Contains, IfOk, slice_index_or, slice_set};
ghost use Rattle.palm_filter.specs.declared.heed.Heed.TheVariants.{Alone};
ghost use Rattle.palm_agenda.specs.declared.mark.Mark.TheVariants.{Clear};
ghost use Rattle.palm_agenda.specs.Agenda.{HasMarks, HeedsAlone, changed_where, marked_whole, unmarked};
ghost use Rattle.palm_agenda.specs.Heard.{ChangesAt, HasHeard};
ghost use Rattle.palm_agenda.specs.declared.heard.Heard.{Heard as HeardTerm};
ghost use Rattle.palm_agenda.specs.Losses.{heed_of};
ghost use Rattle.palm_agenda.specs.Marks.{changed};
ghost use Rattle.palm_agenda.specs.Places.{is_place, mark_places};

use crate::loss::Loss;
use crate::mark::{Change, Mark};
use palm_base::{Cid, HasCid, NoMemory, Value, Var, VarList};
use palm_filter::Heed;
use std::alloc::Global;
use std::marker::Model;

/// Places of a scope, as seen from a variable, and how they are marked.
#[derive(Clone, Copy, Debug, PartialEq, Eq)]
pub(crate) enum Places {
    /// Those of the variable, from the one value to the other besides.
    Own { low: Value, high: Value },
    /// Those of other variables, as the loss is heeded.
    Others(Loss),
}

/// A constraint with its scope, and for each place of it a mark, and, as far as it is told, how losses are heeded.
#[derive(Debug, Drop)]
pub(crate) struct Connection {
    cid: Cid,
    scope: VarList,
    heeds: Vec<Heed>,
    marks: Vec<Mark>,
}

impl Model for Connection {
    ghost use Rattle.std.specs.Prelude.{◌≡◌, length};
    ghost use Rattle.palm_agenda.specs.Agenda.{Connected};

    ghost Value = { Connected };

    ghost view = { λ d. record { cid = d.cid; scope = d.scope; heeds = d.heeds.items; marks = d.marks.items } };

    ghost invariant = { λ d. length d.marks.items ≡ length d.scope };
}

impl HasCid for Connection {
    ghost id = { λ d. d.cid };

    #[inline(always)]
    fn cid(&self) -> Cid
        ensures { result ≡ self.now.cid }
    {
        self.cid.copy()
    }
}

/// Whether a place with the variable `at` is one of the places, as seen from the variable `var`.
#[inline(always)]
fn is_place(places: &Places, var: &Var, at: &Var) -> bool
    ensures { result ≡ is_place places.now var.now at.now }
{
    match places {
        Places::Own { .. } => at == var,
        Places::Others(_) => at != var,
    }
}

/// What is done to the mark of one of the places, where losses are heeded so.
#[inline(always)]
pub(crate) fn change_at(places: &Places, heed: Heed) -> Change
    ensures { ChangesAt result places.now heed }
{
    match places {
        Places::Own { low, high } => Change::Widens {
            low: *low,
            high: *high,
        },
        Places::Others(loss) => loss.change(heed),
    }
}

/// Changes the mark of a place.
#[inline(always)]
fn mark_one(marks: &mut Vec<Mark>, place: usize, change: &Change)
    requires { place < length marks.old.items }
    ensures { marks.new.items ≡ slice_set marks.old.items place (changed change.now (slice_index_or marks.old.items place Clear)) }
{
    let mark = change.after(marks[place]);
    marks[place] = mark;
}

/// Writes that a place is clear.
fn clear_one(marks: &mut Vec<Mark>, place: usize)
    requires { place < length marks.old.items }
    ensures { marks.new.items ≡ slice_set marks.old.items place Clear }
{
    marks[place] = Mark::Clear;
}

/// Whether each of the losses is heeded where one value is left alone.
fn are_alone(heeds: &[Heed]) -> bool
    ensures { result ≡ true → All (λ heed. heed ≡ Alone) heeds.now }
{
    for heed in heeds {
        let Heed::Alone = heed else {
            return false;
        };
    }
    true
}

impl Connection {
    /// A constraint that is marked whole.
    pub(crate) fn new(
        alloc: Global,
        cid: Cid,
        scope: &[Var],
        heeds: Vec<Heed>,
    ) -> Result<Connection, NoMemory>
        ensures { IfOk result (λ d. d ≡ marked_whole cid scope.now heeds.items) }
    {
        let mut marks = Vec::new(alloc);
        marks.resize(scope.len(), Mark::Whole)?;
        Ok(Connection {
            cid,
            scope: VarList::from_slice(alloc, scope)?,
            heeds,
            marks,
        })
    }

    /// The variables of the constraint.
    pub(crate) fn scope(&self) -> &[Var]
        ensures { result.now ≡ self.now.scope }
    {
        self.scope.as_slice()
    }

    /// A mark for each place.
    pub(crate) fn marks(&self) -> &[Mark]
        ensures marks { result.now ≡ self.now.marks }
        ensures whole { HasMarks self.now }
    {
        self.marks.as_slice()
    }

    /// How losses of the variable are heeded.
    #[inline(always)]
    fn heed_of(&self, var: &Var) -> Heed
        ensures { result ≡ heed_of var.now self.now.scope self.now.heeds }
    {
        for place in 0..self.scope.len() {
            if self.scope.as_slice()[place] == *var {
                return self.heeds.get(place).copied().unwrap_or(Heed::Each);
            }
        }
        Heed::Each
    }

    /// How losses of the variable are heeded, where that tells how these places are marked.
    #[inline(always)]
    pub(crate) fn heed_for(&self, places: &Places, var: &Var) -> Heed
        ensures { (heard : HeardTerm) → HasHeard heard places.now result
            → HasHeard heard places.now (heed_of var.now self.now.scope self.now.heeds) }
    {
        match places {
            Places::Own { .. } => Heed::Each,
            Places::Others(_) => self.heed_of(var),
        }
    }

    /// Whether no loss that leaves several values marks it, as far as this shows at once.
    pub(crate) fn heeds_alone(&self) -> bool
        ensures { result ≡ true → HeedsAlone self.now }
    {
        let places = self.scope.len();
        places <= 1 || places <= self.heeds.len() && are_alone(&self.heeds)
    }

    /// Marks each of these places, as seen from the variable, over which the constraint is. The change is that of a
    /// constraint that heeds losses of the variable as this one does.
    #[inline(always)]
    pub(crate) fn mark(&mut self, places: &Places, var: &Var, change: &Change)
        requires over { Contains self.old.scope var.now }
        requires changes { ChangesAt change.now places.now (heed_of var.now self.old.scope self.old.heeds) }
        ensures { self.new ≡ mark_places places.now var.now self.old }
    {
        match change {
            Change::Keeps => {}
            Change::Widens { .. } | Change::Fills => self.mark_each(places, var, change),
        }
    }

    /// Changes the mark of each of these places, as seen from the variable.
    #[inline(always)]
    fn mark_each(&mut self, places: &Places, var: &Var, change: &Change)
        ensures { self.new ≡ changed_where (is_place places.now var.now) (changed change.now) self.old }
    {
        for place in 0..self.scope.len() {
            if is_place(places, var, &self.scope.as_slice()[place]) {
                mark_one(&mut self.marks, place, change);
            }
        }
    }

    /// Takes the mark of a place away.
    pub(crate) fn unmark(&mut self, place: usize)
        requires { place < length self.old.scope }
        ensures { self.new ≡ unmarked place self.old }
    {
        clear_one(&mut self.marks, place);
    }
}
