//! The entries of the log: what is kept of each removal.

ghost use Rattle.std.specs.Prelude.{◌≡◌, ◌<◌, true, nat_lt, slice_get, IsSomeAnd, AllPairs};
ghost use Rattle.palm_base.specs.Order.{IsPartedAt};

use crate::spans::Span;
use palm_base::{Cid, Pair};
use smallvec::SmallVec;

/// A removal: its pair, the constraint that made it, and what it rests on.
#[derive(Debug, Drop)]
pub(crate) struct Entry {
    /// Rises along the log. No two removals of a store have the same number, also where one was withdrawn.
    pub(crate) number: usize,
    pub(crate) pair: Pair,
    pub(crate) by: Cid,
    /// Stands while a walk is on its way. No mark stands between calls.
    pub(crate) mark: bool,
    /// The reasons, in their order.
    pub(crate) spans: SmallVec<Span, 2>,
}

/// Whether the entry at a place has the number.
#[inline(always)]
fn has_number(log: &[Entry], place: usize, number: usize) -> bool
    ensures { result ≡ true → IsSomeAnd (slice_get log.now place) (λ e. e.number ≡ number) }
{
    match log.get(place) {
        Some(entry) => entry.number == number,
        None => false,
    }
}

/// Where the number stands if no removal was withdrawn behind it.
#[inline(always)]
fn place_from_end(log: &[Entry], number: usize) -> usize {
    match log.last() {
        Some(last) => (log.len() - 1).wrapping_sub(last.number.wrapping_sub(number)),
        None => 0,
    }
}

/// Where the number stands if no removal was withdrawn before it.
#[inline(always)]
fn place_from_start(log: &[Entry], number: usize) -> usize {
    match log.first() {
        Some(first) => number.wrapping_sub(first.number),
        None => 0,
    }
}

/// How many of the entries have less numbers. Where nothing was withdrawn behind a number, or before it, the number itself tells, and else
/// they are found by halves.
pub(crate) fn place_of(log: &[Entry], number: usize) -> usize
    requires { AllPairs (λ a b. a.number < b.number) log.now }
    ensures { IsPartedAt (λ e. nat_lt e.number number) log.now result }
{
    let place = place_from_end(log, number);
    if has_number(log, place, number) {
        return place;
    }
    let place = place_from_start(log, number);
    if has_number(log, place, number) {
        return place;
    }
    log.partition_point(|entry| entry.number < number)
}

/// How many of the entries have less numbers. Mostly the number stands before that which was looked for last, at `near`.
#[inline(always)]
pub(crate) fn place_near(log: &[Entry], number: usize, near: &mut usize) -> usize
    requires { AllPairs (λ a b. a.number < b.number) log.now }
    ensures { IsPartedAt (λ e. nat_lt e.number number) log.now result }
{
    let mut place = near.wrapping_sub(1);
    if !has_number(log, place, number) {
        place = place_of(log, number);
    }
    *near = place;
    place
}
