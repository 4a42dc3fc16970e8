//! Logs as lists of removals.
ghost use Rattle.std.specs.Prelude.{◌≡◌, ◌<◌, length, true, Contains};
ghost use Rattle.palm_model.specs.Log.{log_pairs};

use palm_base::{Cid, CidList, NoMemory, Pair};
use palm_explain::ExplainStore;
use std::alloc::Global;

/// The pairs for which a pair was taken out.
#[derive(Clone, Copy, Debug, PartialEq)]
pub enum Because {
    Nothing,
    One(Pair),
    Two(Pair, Pair),
    Three(Pair, Pair, Pair),
    /// More than three, which no test expects.
    More,
}

/// A pair that was taken out, the constraint that did it, and the pairs for which it did.
#[derive(Clone, Copy, Debug, PartialEq)]
pub struct Removal {
    pub pair: Pair,
    pub by: Cid,
    pub because: Because,
}

/// The removal of the pair by the user's constraint of this number.
pub fn removed(pair: Pair, by: u32, because: Because) -> Removal {
    Removal {
        pair,
        by: Cid::User(by),
        because,
    }
}

/// Whether the pair is removed.
pub fn is_removed(log: &ExplainStore, pair: &Pair) -> bool
    ensures { result ≡ true → Contains (log_pairs log.now.log) pair.now }
{
    log.place_of(*pair).is_some()
}

/// The pairs for which the removal at the place was made.
fn because_at(log: &ExplainStore, place: usize) -> Because
    requires { place < length log.now.log }
{
    match log.reasons_at(place) {
        0 => Because::Nothing,
        1 => Because::One(log.reason_at(place, 0)),
        2 => Because::Two(log.reason_at(place, 0), log.reason_at(place, 1)),
        3 => Because::Three(
            log.reason_at(place, 0),
            log.reason_at(place, 1),
            log.reason_at(place, 2),
        ),
        _ => Because::More,
    }
}

/// The removals of the log, in their order.
pub fn removals_of(alloc: Global, log: &ExplainStore) -> Result<Vec<Removal>, NoMemory> {
    let mut removals = Vec::new(alloc);
    for place in 0..log.removals() {
        removals.push(Removal {
            pair: log.pair_at(place),
            by: log.by_at(place),
            because: because_at(log, place),
        })?;
    }
    Ok(removals)
}

/// The constraints that explain the pair, where it is removed.
pub fn explanation_of(
    alloc: Global,
    log: &ExplainStore,
    pair: &Pair,
) -> Result<Option<CidList>, NoMemory> {
    if !is_removed(log, pair) {
        return Ok(None);
    }
    let mut out = CidList::new(alloc);
    log.explanation(*pair, &mut out)?;
    Ok(Some(out))
}
