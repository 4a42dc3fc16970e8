//! The walk where the values with support lie together: support is asked for from both ends alone.
ghost use Rattle.std.specs.Prelude.{◌≡◌, ◌+◌, ◌≤◌, ℤ, pos, ◌+ℤ◌, ◌≤ℤ◌, List, length, Contains, None, OnErr, OnOk, IfOk, IfSome, MatchOption, ◌<◌, ◌<ℤ◌};
ghost use Rattle.palm_domain.specs.Rows.{IsNextFrom, IsPlaced, IsPresent, initial_of, present_of, present_values};
ghost use Rattle.palm_filter.specs.Shapes.{IsConvex};
ghost use Rattle.palm_model.specs.Constraint.{scope};
ghost use Rattle.palm_model.specs.Domains.{Has, values_of};
ghost use Rattle.palm_model.specs.Log.{Active};
ghost use Rattle.palm_model.specs.Removed.{pairs_of};
ghost use Rattle.palm_model.specs.State.{AllFilled};
ghost use Rattle.palm_model.specs.Support.{IsSupported};
ghost use Rattle.palm_engine.specs.Advancing.{Advanced, LacksAbove, values_below, values_from};
ghost use Rattle.palm_engine.specs.Posted.{active_of};
ghost use Rattle.palm_engine.specs.Revising.{AreSupportedAt, HasCounted, IsRevising, Walked, WalkedPart};
ghost use Rattle.palm_engine.specs.Work.{asks_of};
ghost use Rattle.palm_engine.specs.declared.filtering.Filtering.{Filtering as FilteringTerm};

use crate::filtering::Filtering;
use crate::posted::Posted;
use crate::reasons::ReasonRoom;
use crate::runs::take_out_from;
use crate::values::take_out;
use palm_base::{NoMemory, Pair, Steps, Value, Var};
use palm_domain::{DomainStore, Placed};
use palm_filter::Filter;
use std::sync::ledger::Ledger;

/// Asks for the present values of the variable from the least on, and takes those out that lack support, up to the first
/// that has it, which is answered.
fn rise<F: Filter, L: Ledger>(
    filtering: &mut Filtering,
    constraint: &Posted<F>,
    var: Var,
    room: &mut ReasonRoom,
    steps: &mut Steps<L>,
) -> Result<Option<Value>, NoMemory>
    requires revising { (active : List Active) × IsRevising filtering.old active (active_of F.meaning constraint.now) }
    requires filled { AllFilled (present_of filtering.old.store) }
    requires over { Contains (scope (active_of F.meaning constraint.now).con) var }
    ensures advanced { (active : List Active) → IsRevising filtering.old active (active_of F.meaning constraint.now)
        → IfOk result (λ first. Advanced active (active_of F.meaning constraint.now) var first filtering.old filtering.new) }
    ensures part { (active : List Active) → IsRevising filtering.old active (active_of F.meaning constraint.now)
        → OnErr result (WalkedPart active (active_of F.meaning constraint.now) (pairs_of var (values_of (initial_of filtering.old.store) var)) filtering.old filtering.new) }
    ensures revising { (active : List Active) → IsRevising filtering.old active (active_of F.meaning constraint.now)
        → IsRevising filtering.new active (active_of F.meaning constraint.now) }
    ensures supported { IfOk result (λ first. IfSome first (IsSupported (present_of filtering.new.store) (active_of F.meaning constraint.now).con var)) }
    ensures counted { HasCounted (length (values_of (initial_of filtering.old.store) var)) filtering.old filtering.new steps.old steps.new }
    ensures first { IfOk result (λ first. IfSome first (λ value.
        HasCounted (length (values_below (value +ℤ pos 1) (values_of (initial_of filtering.old.store) var))) filtering.old filtering.new steps.old steps.new)) }
    ensures asked { IfOk result (λ first. IfSome first (λ value. steps.old + asks_of (active_of F.meaning constraint.now) ≤ steps.new)) }
{
    room.known = None;
    let mut next = Some(filtering.store.first_placed(var));
    while let Some(placed) = next {
        let value = placed.value;
        if constraint.is_supported(
            &filtering.store,
            Pair { var, value },
            &mut filtering.checks,
            steps,
        ) {
            return Ok(Some(value));
        }
        take_out(filtering, constraint, Pair { var, value }, room)?;
        next = filtering.store.next_placed(var, placed);
    }
    Ok(None)
}

/// The greatest value with support, which is sought from the greatest value down to one that is known to have it.
fn last_supported<F: Filter, L: Ledger>(
    filtering: &mut Filtering,
    constraint: &Posted<F>,
    var: Var,
    known: Value,
    steps: &mut Steps<L>,
) -> Value
    requires revising { (active : List Active) × IsRevising filtering.old active (active_of F.meaning constraint.now) }
    requires over { Contains (scope (active_of F.meaning constraint.now).con) var }
    requires present { Has (present_of filtering.old.store) var known }
    requires supported { IsSupported (present_of filtering.old.store) (active_of F.meaning constraint.now).con var known }
    ensures present { Has (present_of filtering.old.store) var result }
    ensures above { known ≤ℤ result }
    ensures supported { IsSupported (present_of filtering.old.store) (active_of F.meaning constraint.now).con var result }
    ensures lacking { LacksAbove filtering.old (active_of F.meaning constraint.now) var result }
    ensures same { filtering.new ≡ record filtering.old { checks = filtering.new.checks } }
    ensures counted { HasCounted (length (values_from (known +ℤ pos 1) (values_of (initial_of filtering.old.store) var))) filtering.old filtering.new steps.old steps.new }
{
    let mut value = filtering.store.greatest(var);
    while known < value {
        if constraint.is_supported(
            &filtering.store,
            Pair { var, value },
            &mut filtering.checks,
            steps,
        ) {
            return value;
        }
        value = filtering.store.last_before(var, value).unwrap_or(known);
    }
    value
}

/// The least present value above this one, with its place.
fn placed_after(store: &DomainStore, var: Var, value: Value) -> Option<Placed>
    requires declared { var < length store.now }
    requires filled { 0 < length (present_values store.now var) }
    ensures next { MatchOption result
        ((w : ℤ) → IsPresent store.now var w → w <ℤ (value +ℤ pos 1))
        (λ p. IsNextFrom (present_values store.now var) (value +ℤ pos 1) p.value) }
    ensures placed { IfSome result (IsPlaced store.now var) }
{
    if store.greatest(var) <= value {
        return None;
    }
    let placed = store.placed_from(var, value)?;
    if value < placed.value {
        Some(placed)
    } else {
        store.next_placed(var, placed)
    }
}

/// Takes the values of the variable out that lack support, where those that have it lie together.
pub(crate) fn revise_between<F: Filter, L: Ledger>(
    filtering: &mut Filtering,
    constraint: &Posted<F>,
    var: Var,
    room: &mut ReasonRoom,
    steps: &mut Steps<L>,
) -> Result<(), NoMemory>
    requires revising { (active : List Active) × IsRevising filtering.old active (active_of F.meaning constraint.now) }
    requires filled { AllFilled (present_of filtering.old.store) }
    requires over { Contains (scope (active_of F.meaning constraint.now).con) var }
    requires convex { IsConvex (active_of F.meaning constraint.now).con var }
    ensures walked { (active : List Active) → IsRevising filtering.old active (active_of F.meaning constraint.now)
        → OnOk result (Walked active (active_of F.meaning constraint.now) (pairs_of var (values_of (initial_of filtering.old.store) var)) filtering.old filtering.new) }
    ensures part { (active : List Active) → IsRevising filtering.old active (active_of F.meaning constraint.now)
        → OnErr result (WalkedPart active (active_of F.meaning constraint.now) (pairs_of var (values_of (initial_of filtering.old.store) var)) filtering.old filtering.new) }
    ensures revising { (active : List Active) → IsRevising filtering.old active (active_of F.meaning constraint.now)
        → IsRevising filtering.new active (active_of F.meaning constraint.now) }
    ensures supported { OnOk result (AreSupportedAt filtering.new (active_of F.meaning constraint.now) var) }
    ensures counted { HasCounted (length (values_of (initial_of filtering.old.store) var)) filtering.old filtering.new steps.old steps.new }
{
    let Some(first) = rise(filtering, constraint, var, room, steps)? else {
        return Ok(());
    };
    let last = last_supported(filtering, constraint, var, first, steps);
    let above = placed_after(&filtering.store, var, last);
    take_out_from(filtering, constraint, var, above, room)
}
