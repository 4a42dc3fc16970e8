//! Values of a variable that are known to lack support, taken out together as far as the spans of their reasons are known.
ghost use Rattle.std.specs.Prelude.{◌≡◌, ◌<◌, List, length, Contains, None, Some, IfOk, IfSome, OnErr, OnOk};
ghost use Rattle.palm_base.specs.Tells.{Tells};
ghost use Rattle.palm_domain.specs.Rows.{IsPlaced, initial_of, present_values};
ghost use Rattle.palm_model.specs.Constraint.{scope};
ghost use Rattle.palm_model.specs.Domains.{values_of};
ghost use Rattle.palm_model.specs.Log.{Active};
ghost use Rattle.palm_model.specs.Removed.{pairs_of};
ghost use Rattle.palm_engine.specs.Advancing.{Advanced, HasGathered, IsBefore, IsLater, LacksFrom, TakenFrom, placed_value};
ghost use Rattle.palm_engine.specs.Posted.{active_of};
ghost use Rattle.palm_engine.specs.Revising.{IsRevising, WalkedPart};
ghost use Rattle.palm_engine.specs.declared.filtering.Filtering.{Filtering as FilteringTerm};

use crate::filtering::Filtering;
use crate::posted::Posted;
use crate::reasons::ReasonRoom;
use crate::values::take_out_listed;
use palm_base::{HasCid, NoMemory, Pair, Value, Var};
use palm_domain::{DomainStore, Placed};
use palm_filter::Filter;

/// Whether a value is before another one, where there is one.
#[inline(always)]
pub(crate) fn is_before(until: &Option<Value>, value: &Value) -> bool
    ensures { Tells result (IsBefore until.now value.now) }
{
    match until {
        Some(end) => *value < *end,
        None => true,
    }
}

/// Gathers the present value at a place, and those behind it before `until` for whose reasons the room's spans are known to stand.
/// Answers the next one, with its place.
fn gather(
    store: &DomainStore,
    var: Var,
    first: Placed,
    until: &Option<Value>,
    room: &mut ReasonRoom,
) -> Result<Option<Placed>, NoMemory>
    requires declared { var < length store.now }
    requires placed { IsPlaced store.now var first }
    requires before { IsBefore until.now first.value }
    ensures gathered { IfOk result (λ next. HasGathered (present_values store.now var) first.value
        (placed_value next) until.now room.new) }
    ensures placed { IfOk result (λ next. IfSome next (IsPlaced store.now var)) }
    ensures known { room.new.known ≡ room.old.known }
    ensures spans { room.new.spans.items ≡ room.old.spans.items }
{
    room.values.clear();
    room.values.push(first.value)?;
    let mut next = store.next_placed(var, first);
    while let Some(placed) = next {
        if !room.covers(&placed.value) || !is_before(until, &placed.value) {
            return Ok(Some(placed));
        }
        room.values.push(placed.value)?;
        next = store.next_placed(var, placed);
    }
    Ok(None)
}

/// Takes the present value at a place out, which lacks support, and those behind it before `until` for whose reasons the same spans are
/// known to stand. Answers the next one, with its place.
fn take_out_some<F: Filter>(
    filtering: &mut Filtering,
    constraint: &Posted<F>,
    var: Var,
    first: Placed,
    until: &Option<Value>,
    room: &mut ReasonRoom,
) -> Result<Option<Placed>, NoMemory>
    requires advanced { (active : List Active) × (before : FilteringTerm) ×
        Advanced active (active_of F.meaning constraint.now) var (Some first.value) before filtering.old }
    requires over { Contains (scope (active_of F.meaning constraint.now).con) var }
    requires placed { IsPlaced filtering.old.store var first }
    requires before { IsBefore until.now first.value }
    requires lacking { LacksFrom filtering.old
        (active_of F.meaning constraint.now) var until.now (Some first.value) }
    ensures taken { IfOk result (λ next. TakenFrom (active_of F.meaning constraint.now) var
        until.now (Some first.value) (placed_value next) filtering.old filtering.new) }
    ensures placed { IfOk result (λ next. IfSome next (IsPlaced filtering.new.store var)) }
    ensures later { IfOk result (λ next. IsLater first.value (placed_value next)) }
    ensures err { OnErr result (filtering.new ≡ filtering.old) }
{
    let value = first.value;
    room.known = None;
    if !constraint.tells_spans(&filtering.store, &Pair { var, value }, room)? {
        take_out_listed(filtering, constraint, Pair { var, value }, &mut room.pairs)?;
        return Ok(filtering.store.next_placed(var, first));
    }
    let next = gather(&filtering.store, var, first, until, room)?;
    filtering.remove_run(
        var,
        room.values.as_slice(),
        constraint.cid(),
        room.spans.as_slice(),
    )?;
    Ok(next)
}

/// Takes the present values from this one on out, which are known to lack support.
pub(crate) fn take_out_from<F: Filter>(
    filtering: &mut Filtering,
    constraint: &Posted<F>,
    var: Var,
    from: Option<Placed>,
    room: &mut ReasonRoom,
) -> Result<(), NoMemory>
    requires advanced { (active : List Active) × (before : FilteringTerm) ×
        Advanced active (active_of F.meaning constraint.now) var (placed_value from) before filtering.old }
    requires over { Contains (scope (active_of F.meaning constraint.now).con) var }
    requires placed { IfSome from (IsPlaced filtering.old.store var) }
    requires lacking { LacksFrom filtering.old
        (active_of F.meaning constraint.now) var None (placed_value from) }
    ensures advanced { (active : List Active) (before : FilteringTerm) → Advanced active
        (active_of F.meaning constraint.now) var (placed_value from) before filtering.old
        → OnOk result (Advanced active (active_of F.meaning constraint.now) var None before filtering.new) }
    ensures part { (active : List Active) (before : FilteringTerm) → Advanced active
        (active_of F.meaning constraint.now) var (placed_value from) before filtering.old
        → OnErr result (WalkedPart active (active_of F.meaning constraint.now) (pairs_of var (values_of (initial_of before.store) var)) before filtering.new) }
    ensures revising { (active : List Active) → IsRevising filtering.old active (active_of F.meaning constraint.now)
        → IsRevising filtering.new active (active_of F.meaning constraint.now) }
    ensures checks { filtering.new.checks ≡ filtering.old.checks }
{
    let mut next = from;
    while let Some(placed) = next {
        next = take_out_some(filtering, constraint, var, placed, &None, room)?;
    }
    Ok(())
}
