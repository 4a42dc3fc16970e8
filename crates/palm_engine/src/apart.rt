//! The walk where a value lacks support only where the only value of another variable rules it out.
ghost use Rattle.std.specs.Prelude.{◌≡◌, ◌≢◌, ℕ, ℤ, pos, ◌+ℤ◌, ◌-ℤ◌, ◌<ℤ◌, ◌≤ℤ◌, ◌<◌, List, length, All, Contains, OnErr, OnOk, IfNone, IfSome, true};
ghost use Rattle.palm_domain.specs.Rows.{initial_of, present_of};
ghost use Rattle.palm_agenda.specs.Marks.{MayLack};
ghost use Rattle.palm_filter.specs.Shapes.{HasOther, HasTwo, IsApart, IsShaped, LeavesFree};
ghost use Rattle.palm_model.specs.Constraint.{scope};
ghost use Rattle.palm_model.specs.Domains.{Has, values_of};
ghost use Rattle.palm_model.specs.Log.{Active};
ghost use Rattle.palm_model.specs.Removed.{pairs_of};
ghost use Rattle.palm_model.specs.State.{AllFilled};
ghost use Rattle.palm_model.specs.Support.{IsSupported};
ghost use Rattle.palm_engine.specs.Advancing.{HaveValues, IsNextHit, lesser_of};
ghost use Rattle.palm_engine.specs.Posted.{active_of};
ghost use Rattle.palm_engine.specs.Revising.{AreSupportedAt, HasCounted, IsRevising, Walked, WalkedPart};

use crate::filtering::Filtering;
use crate::posted::Posted;
use crate::reasons::ReasonRoom;
use crate::values::examine;
use palm_agenda::Mark;
use palm_base::{NoMemory, Pair, Steps, Value, Var};
use palm_domain::DomainStore;
use palm_filter::{Filter, Shape};
use palm_model::number_of;
use std::sync::ledger::Ledger;

/// Whether the variable has two values.
fn has_two(store: &DomainStore, var: &Var) -> bool
    requires { var.now < length store.now }
    ensures { result ≡ true → HasTwo (present_of store.now) var.now }
{
    // A store's values ascend, as `variables` tells, so that two of them differ.
    prove!(store.variables() > 0);
    store.count(*var) > 1
}

/// Whether each of the variables but one has two values.
fn have_two(store: &DomainStore, vars: &[Var], var: Var) -> bool
    requires { All (λ y. y < length store.now) vars.now }
    ensures { result ≡ true → (y : ℕ) → Contains vars.now y → y ≢ var → HasTwo (present_of store.now) y }
{
    for other in vars {
        if *other != var && !has_two(store, other) {
            return false;
        }
    }
    true
}

/// The number that is more than the value by this one.
fn raised(value: &Value, by: i32) -> i64
    ensures { result ≡ value.now +ℤ by }
{
    number_of(value) + i64::from(by)
}

/// The value of this number, where it is from the one value to the other.
fn value_between(number: i64, low: &Value, high: &Value) -> Option<Value>
    ensures none { IfNone result (low.now ≤ℤ number → number ≤ℤ high.now → ⊥) }
    ensures some { IfSome result (λ value. (value ≡ number) × (low.now ≤ℤ number)) }
{
    if number_of(low) <= number && number <= number_of(high) {
        Some(Value(number as i32))
    } else {
        None
    }
}

/// The present value of the variable, from the one to the other, that the only value of another one rules out: it is more by this
/// number.
#[inline(always)]
fn hit_at(
    store: &DomainStore,
    other: Var,
    var: Var,
    by: i32,
    low: &Value,
    high: &Value,
) -> Option<Value>
    requires declared { other < length store.now }
    requires over { var < length store.now }
    requires filled { 0 < length (values_of (present_of store.now) other) }
    ensures none { IfNone result ((v : ℤ) → Has (present_of store.now) var v → low.now ≤ℤ v
        → v ≤ℤ high.now → HasOther (present_of store.now) other (v -ℤ by)) }
    ensures some { IfSome result (λ hit. Has (present_of store.now) var hit × (low.now ≤ℤ hit)
        × ((v : ℤ) → v ≢ hit → HasOther (present_of store.now) other (v -ℤ by))) }
{
    let value = value_between(raised(&store.least(other), by), low, high)?;
    if store.contains(Pair { var, value }) {
        Some(value)
    } else {
        None
    }
}

/// Whether each of the variables but one leaves its values from the one to the other free.
#[inline(always)]
fn leave_free(
    store: &DomainStore,
    vars: &[Var],
    var: Var,
    by: i32,
    low: &Value,
    high: &Value,
) -> bool
    requires values { HaveValues store.now vars.now var }
    ensures { result ≡ true → (v : ℤ) → Has (present_of store.now) var v → low.now ≤ℤ v
        → v ≤ℤ high.now → LeavesFree (present_of store.now) vars.now var by v }
{
    for other in vars {
        if *other != var
            && !has_two(store, other)
            && hit_at(store, *other, var, by, low, high).is_some()
        {
            return false;
        }
    }
    true
}

/// Bounds of the present values of the variable that the mark does not leave out.
#[inline(always)]
fn ends_of(store: &DomainStore, var: Var, mark: &Mark) -> (Value, Value)
    requires some { 0 < length (values_of (present_of store.now) var) }
    ensures { (v : ℤ) → Has (present_of store.now) var v → MayLack mark.now v
        → (result.0 ≤ℤ v) × (v ≤ℤ result.1) }
{
    match mark {
        Mark::Between { low, high } => (*low, *high),
        Mark::Clear | Mark::Whole => (store.least(var), store.greatest(var)),
    }
}

/// Whether a law of the constraint tells that those values of a variable have support that the mark does not leave out.
#[inline(always)]
pub(crate) fn are_known<F: Filter>(
    store: &DomainStore,
    constraint: &Posted<F>,
    var: Var,
    shape: &Shape,
    mark: &Mark,
) -> bool
    requires stored { All (λ y. y < length store.now)
        (scope (active_of F.meaning constraint.now).con) }
    requires filled { AllFilled (present_of store.now) }
    requires over { Contains (scope (active_of F.meaning constraint.now).con) var }
    requires shaped { IsShaped (active_of F.meaning constraint.now).con var shape.now }
    ensures { result ≡ true → (v : ℤ) → Has (present_of store.now) var v → MayLack mark.now v
        → IsSupported (present_of store.now) (active_of F.meaning constraint.now).con var v }
{
    match shape {
        Shape::Apart(by) => {
            let (low, high) = ends_of(store, var, mark);
            leave_free(store, constraint.scope(), var, *by, &low, &high)
        }
        Shape::Guarded => have_two(store, constraint.scope(), var),
        Shape::Any | Shape::Convex | Shape::AlikeBut(_) => false,
    }
}

/// The lesser of two values that may be there.
fn lesser(first: Option<Value>, second: Option<Value>) -> Option<Value>
    ensures { result ≡ lesser_of first second }
{
    match (first, second) {
        (Some(first), Some(second)) => Some(first.min(second)),
        (first, None) => first,
        (None, second) => second,
    }
}

/// The least present value from `from` on that the only value of one of the other variables rules out.
fn next_hit(store: &DomainStore, vars: &[Var], var: Var, by: i32, from: Value) -> Option<Value>
    requires values { HaveValues store.now vars.now var }
    requires some { 0 < length (values_of (present_of store.now) var) }
    ensures none { IfNone result ((v : ℤ) → Has (present_of store.now) var v → from ≤ℤ v → LeavesFree (present_of store.now) vars.now var by v) }
    ensures some { IfSome result (IsNextHit (present_of store.now) vars.now var by from) }
{
    let greatest = store.greatest(var);
    let mut next = None;
    for other in vars {
        if *other != var && !has_two(store, other) {
            next = lesser(next, hit_at(store, *other, var, by, &from, &greatest));
        }
    }
    next
}

/// The least present value above this one that the only value of one of the other variables rules out.
#[inline(never)]
fn hit_after(store: &DomainStore, vars: &[Var], var: Var, by: i32, value: Value) -> Option<Value>
    requires values { HaveValues store.now vars.now var }
    ensures none { IfNone result ((v : ℤ) → Has (present_of store.now) var v → value <ℤ v → LeavesFree (present_of store.now) vars.now var by v) }
    ensures some { IfSome result (IsNextHit (present_of store.now) vars.now var by (value +ℤ pos 1)) }
{
    let from = store.next_after(var, value)?;
    next_hit(store, vars, var, by, from)
}

/// Takes the values of the variable out that lack support, where only those can that another variable's only value rules
/// out.
pub(crate) fn revise_apart<F: Filter, L: Ledger>(
    filtering: &mut Filtering,
    constraint: &Posted<F>,
    var: Var,
    by: i32,
    room: &mut ReasonRoom,
    steps: &mut Steps<L>,
) -> Result<(), NoMemory>
    requires revising { (active : List Active) × IsRevising filtering.old active (active_of F.meaning constraint.now) }
    requires filled { AllFilled (present_of filtering.old.store) }
    requires over { Contains (scope (active_of F.meaning constraint.now).con) var }
    requires apart { IsApart (active_of F.meaning constraint.now).con var by }
    ensures walked { (active : List Active) → IsRevising filtering.old active (active_of F.meaning constraint.now)
        → OnOk result (Walked active (active_of F.meaning constraint.now) (pairs_of var (values_of (initial_of filtering.old.store) var)) filtering.old filtering.new) }
    ensures part { (active : List Active) → IsRevising filtering.old active (active_of F.meaning constraint.now)
        → OnErr result (WalkedPart active (active_of F.meaning constraint.now) (pairs_of var (values_of (initial_of filtering.old.store) var)) filtering.old filtering.new) }
    ensures revising { (active : List Active) → IsRevising filtering.old active (active_of F.meaning constraint.now)
        → IsRevising filtering.new active (active_of F.meaning constraint.now) }
    ensures supported { OnOk result (AreSupportedAt filtering.new (active_of F.meaning constraint.now) var) }
    ensures counted { HasCounted (length (values_of (initial_of filtering.old.store) var)) filtering.old filtering.new steps.old steps.new }
{
    let least = filtering.store.least(var);
    let mut next = next_hit(&filtering.store, constraint.scope(), var, by, least);
    while let Some(value) = next {
        examine(filtering, constraint, Pair { var, value }, room, steps)?;
        next = hit_after(&filtering.store, constraint.scope(), var, by, value);
    }
    Ok(())
}
