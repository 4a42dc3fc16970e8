//! Which of the connected constraints are pending.
ghost use Rattle.std.specs.Prelude.{◌≡◌, ◌+◌, ◌<◌, ◌≤◌, [], true, false, length, MatchOption, OnOk, Some, slice_get, slice_set, vec_capacity};
ghost use Rattle.std.specs.List.{AllWithin, insert, remove};
ghost use Rattle.palm_base.specs.Tells.{Tells};
ghost use Rattle.palm_agenda.specs.Flags.{IsFirst, count_raised};

use palm_base::NoMemory;
use std::alloc::Global;
use std::marker::Model;

/// A flag for each place, how many are raised, and a place below which none is.
#[derive(Debug, Drop)]
pub(crate) struct Flags {
    flags: Vec<bool>,
    raised: usize,
    lowest: usize,
}

impl Model for Flags {
    ghost use Rattle.std.specs.Prelude.{vec_capacity};
    ghost use Rattle.palm_agenda.specs.Flags.{FlagRow, IsCounted};

    ghost Value = { FlagRow };

    ghost view = { λ f. record { flags = f.flags.items; room = vec_capacity f.flags } };

    ghost invariant = { λ f. IsCounted f.flags.items f.raised f.lowest };
}

/// Writes a flag.
fn set_flag(flags: &mut Vec<bool>, place: usize, flag: bool)
    requires { place < length flags.old.items }
    ensures items { flags.new.items ≡ slice_set flags.old.items place flag }
{
    flags[place] = flag;
}

/// Puts a raised flag in at the place, where there is room.
fn put_flag(flags: &mut Vec<bool>, place: usize)
    requires within { place ≤ length flags.old.items }
    requires room { length flags.old.items < vec_capacity flags.old }
    ensures items { flags.new.items ≡ insert flags.old.items place true }
{
    let inserted = flags.insert(place, true);
    prove!(inserted.is_ok());
}

/// The first place from this one on whose flag is raised, and where there is none the end, or this one if it lies beyond.
pub(crate) fn raised_from(flags: &[bool], from: usize) -> usize
    ensures from { from ≤ result }
    ensures between { AllWithin (λ b. b ≡ false) flags.now from result }
    ensures raised { result < length flags.now → slice_get flags.now result ≡ Some true }
{
    let mut place = from;
    while place < flags.len() && !flags[place] {
        place += 1;
    }
    place
}

impl Flags {
    /// No flag, and no room.
    pub(crate) fn new(alloc: Global) -> Flags
        ensures { result ≡ record { flags = []; room = 0 } }
    {
        Flags {
            flags: Vec::new(alloc),
            raised: 0,
            lowest: 0,
        }
    }

    /// The flag of each place.
    pub(crate) fn as_slice(&self) -> &[bool]
        ensures { result.now ≡ self.now.flags }
    {
        self.flags.as_slice()
    }

    /// Whether no flag is raised.
    pub(crate) fn is_empty(&self) -> bool
        ensures { Tells result (count_raised self.now.flags ≡ 0) }
    {
        self.raised == 0
    }

    /// How many flags are raised.
    pub(crate) fn raised(&self) -> usize
        ensures { result ≡ count_raised self.now.flags }
    {
        self.raised
    }

    /// A place below which no flag is raised. It is the first raised one where one is raised, and is looked for once.
    pub(crate) fn lowest(&mut self) -> usize
        ensures same { self.new ≡ self.old }
        ensures below { AllWithin (λ b. b ≡ false) self.old.flags 0 result }
    {
        self.lowest = raised_from(&self.flags, self.lowest);
        self.lowest
    }

    /// Makes room for one more flag.
    pub(crate) fn reserve(&mut self) -> Result<(), NoMemory>
        ensures flags { self.new.flags ≡ self.old.flags }
        ensures ok { OnOk result (length self.new.flags < self.new.room) }
    {
        self.flags.reserve(1)?;
        Ok(())
    }

    /// Puts a raised flag in at the place.
    pub(crate) fn insert(&mut self, place: usize)
        requires within { place ≤ length self.old.flags }
        requires room { length self.old.flags < self.old.room }
        ensures { self.new.flags ≡ insert self.old.flags place true }
    {
        put_flag(&mut self.flags, place);
        self.raised += 1;
        self.lowest = self.lowest.min(place);
    }

    /// Takes the flag at the place out.
    pub(crate) fn remove(&mut self, place: usize)
        requires { place < length self.old.flags }
        ensures { self.new.flags ≡ remove self.old.flags place }
    {
        self.lower(place);
        self.flags.remove(place);
        self.lowest = self.lowest.saturating_sub(1);
    }

    /// Raises the flag at the place.
    pub(crate) fn raise(&mut self, place: usize)
        requires { place < length self.old.flags }
        ensures { self.new.flags ≡ slice_set self.old.flags place true }
    {
        if !self.flags[place] {
            set_flag(&mut self.flags, place, true);
            self.raised += 1;
            self.lowest = self.lowest.min(place);
        }
    }

    /// Lowers the flag at the place.
    pub(crate) fn lower(&mut self, place: usize)
        requires { place < length self.old.flags }
        ensures { self.new.flags ≡ slice_set self.old.flags place false }
    {
        if self.flags[place] {
            set_flag(&mut self.flags, place, false);
            self.raised -= 1;
        }
    }

    /// The place of the first flag that is raised. It is looked for once.
    #[inline(always)]
    pub(crate) fn first(&mut self) -> Option<usize>
        ensures stays { self.new ≡ self.old }
        ensures first { MatchOption result
            (count_raised self.old.flags ≡ 0) (IsFirst self.old.flags) }
    {
        if self.raised == 0 {
            return None;
        }
        let place = raised_from(&self.flags, self.lowest);
        if place >= self.flags.len() {
            return None;
        }
        self.lowest = place;
        Some(place)
    }

    /// Lowers the first flag that is raised, and tells its place.
    #[inline(always)]
    pub(crate) fn lower_first(&mut self) -> Option<usize>
        ensures { MatchOption result
            ((count_raised self.old.flags ≡ 0) × (self.new ≡ self.old))
            (λ place. IsFirst self.old.flags place × (self.new.flags ≡ slice_set self.old.flags place false)) }
    {
        let place = self.first()?;
        self.lower(place);
        Some(place)
    }
}
