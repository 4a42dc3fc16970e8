//! Lists by rising id: where the item under an id stands.
ghost use Rattle.std.specs.Prelude.{◌≡◌, IfSome, MatchResult, map};
ghost use Rattle.palm_base.specs.Order.{BelongsAt, IsPartedAt, Rises, StandsAt, StandsBehind, StandsInFront, cid_before};
ghost use Rattle.palm_base.specs.Tells.{Tells};

use crate::terms::{Cid, Var};

/// What stands under an id.
pub trait HasCid {
    ghost use Rattle.palm_base.specs.declared.terms.Cid.{Cid as CidTerm};

    /// The id.
    ghost id: { Self → CidTerm };

    /// The id.
    fn cid(&self) -> Cid
        ensures { result ≡ id self.now };
}

/// An id stands under itself.
impl HasCid for Cid {
    ghost id = { λ c. c };

    #[inline(always)]
    fn cid(&self) -> Cid {
        self.copy()
    }
}

/// Whether the item at the place has the id.
#[inline(always)]
pub fn stands_at<T: HasCid>(items: &[T], place: usize, cid: &Cid) -> bool
    ensures { Tells result (StandsAt T.id items.now place cid.now) }
{
    match items.get(place) {
        Some(item) => item.cid().is_same(cid),
        None => false,
    }
}

/// How many places behind the one id the other one stands, where each number between the two is taken. It wraps around.
fn places_between(known: Cid, cid: &Cid) -> Option<usize> {
    match (known, cid) {
        (Cid::User(known), Cid::User(number)) => Some(
            (*number as usize).wrapping_sub(known as usize),
        ),
        (Cid::Decide(Var(known)), Cid::Decide(Var(number))) => Some(
            (*number as usize).wrapping_sub(known as usize),
        ),
        _ => None,
    }
}

/// Where the id stands, counted from the item at a place.
fn place_behind<T: HasCid>(items: &[T], place: usize, cid: &Cid) -> Option<usize> {
    let between = places_between(items.get(place)?.cid(), cid)?;
    Some(place.wrapping_add(between))
}

/// Where the id stands, counted from the item at `near`, or else from the first one.
fn likely_place<T: HasCid>(items: &[T], near: usize, cid: &Cid) -> Option<usize> {
    place_behind(items, near, cid).or_else(|| place_behind(items, 0, cid))
}

/// Whether the item before the place has an id that comes before this one, or the place is the first.
fn is_behind<T: HasCid>(items: &[T], place: usize, cid: &Cid) -> bool
    ensures { Tells result (StandsBehind T.id items.now place cid.now) }
{
    match place.checked_sub(1) {
        None => true,
        Some(before) => items
            .get(before)
            .is_some_and(|item| item.cid().is_before(cid)),
    }
}

/// Whether the item at the place, if there is one, has an id that does not come before this one.
fn is_in_front<T: HasCid>(items: &[T], place: usize, cid: &Cid) -> bool
    ensures { Tells result (StandsInFront T.id items.now place cid.now) }
{
    items
        .get(place)
        .is_none_or(|item| !item.cid().is_before(cid))
}

/// How many of the items have ids that come before this one, where the numbers leave none out between it and the one at
/// `near`, or the first one.
fn counted_place<T: HasCid>(items: &[T], near: usize, cid: &Cid) -> Option<usize>
    requires { Rises (map T.id items.now) }
    ensures { IfSome result (λ place. IsPartedAt (λ x. cid_before (T.id x) cid.now) items.now place) }
{
    let place = likely_place(items, near, cid)?;
    if stands_at(items, place, cid)
        || is_behind(items, place, cid) && is_in_front(items, place, cid)
    {
        Some(place)
    } else {
        None
    }
}

/// How many of the items have ids that come before this one, found by halves.
#[inline(never)]
fn place_by_halves<T: HasCid>(items: &[T], cid: &Cid) -> usize
    requires { Rises (map T.id items.now) }
    ensures { IsPartedAt (λ x. cid_before (T.id x) cid.now) items.now result }
{
    items.partition_point(|item| item.cid().is_before(cid))
}

/// How many of the items have ids that come before this one, counted from the one at `near` or the first one, and else
/// found by halves.
/// The item under the id stands behind these.
#[inline(always)]
pub fn place_from<T: HasCid>(items: &[T], near: usize, cid: &Cid) -> usize
    requires { Rises (map T.id items.now) }
    ensures { IsPartedAt (λ x. cid_before (T.id x) cid.now) items.now result }
{
    match counted_place(items, near, cid) {
        Some(place) => place,
        None => place_by_halves(items, cid),
    }
}

/// How many of the items have ids that come before this one, counted from the last one, and else found by halves.
pub fn place_of<T: HasCid>(items: &[T], cid: &Cid) -> usize
    requires { Rises (map T.id items.now) }
    ensures { IsPartedAt (λ x. cid_before (T.id x) cid.now) items.now result }
{
    place_from(items, items.len().wrapping_sub(1), cid)
}

/// The place of the item under the id, and where there is none the place at which one belongs. It is counted from the
/// one at `near`, and else found by halves.
pub fn place_for<T: HasCid>(items: &[T], near: usize, cid: &Cid) -> Result<usize, usize>
    requires { Rises (map T.id items.now) }
    ensures { MatchResult result
        (λ place. StandsAt T.id items.now place cid.now)
        (λ place. BelongsAt T.id items.now place cid.now) }
{
    let place = place_from(items, near, cid);
    if stands_at(items, place, cid) {
        Ok(place)
    } else {
        Err(place)
    }
}
