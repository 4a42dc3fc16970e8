//! Walks over the values of a variable of a constraint: the values that lack support are taken out.
ghost use Rattle.std.specs.Prelude.{◌≡◌, [], ◌∷◌, List, length, Contains, OnErr, OnOk};
ghost use Rattle.palm_domain.specs.Rows.{LosesPair, initial_of, present_of};
ghost use Rattle.palm_filter.specs.Shapes.{IsShaped};
ghost use Rattle.palm_model.specs.Constraint.{scope};
ghost use Rattle.palm_model.specs.Domains.{Has, values_of};
ghost use Rattle.palm_model.specs.Log.{Active};
ghost use Rattle.palm_model.specs.Removed.{pairs_of};
ghost use Rattle.palm_model.specs.State.{AllFilled};
ghost use Rattle.palm_model.specs.Support.{IsSupported, LacksSupport};
ghost use Rattle.palm_engine.specs.Advancing.{AreSupportedBeyond, AreSupportedUnless};
ghost use Rattle.palm_engine.specs.Changed.{TakesOut};
ghost use Rattle.palm_engine.specs.Posted.{active_of};
ghost use Rattle.palm_engine.specs.Reasons.{Knows, reason_in};
ghost use Rattle.palm_engine.specs.Revising.{AreSupportedAt, HasCounted, IsRevising, Walked, WalkedPart};
ghost use Rattle.palm_engine.specs.Settling.{IsDue};

use crate::alike::revise_alike;
use crate::apart::revise_apart;
use crate::between::revise_between;
use crate::filtering::Filtering;
use crate::posted::Posted;
use crate::reasons::ReasonRoom;
use palm_agenda::Mark;
use palm_base::{HasCid, NoMemory, Pair, Steps, Value, Var};
use palm_filter::{Filter, Reasons, Shape};
use std::sync::ledger::Ledger;

/// Takes a present value out that lacks support, for its reasons as a list. Without memory it stays.
pub(crate) fn take_out_listed<F: Filter>(
    filtering: &mut Filtering,
    constraint: &Posted<F>,
    pair: Pair,
    pairs: &mut Reasons,
) -> Result<(), NoMemory>
    requires revising { (active : List Active) × IsRevising filtering.old active (active_of F.meaning constraint.now) }
    requires filled { AllFilled (present_of filtering.old.store) }
    requires present { Has (present_of filtering.old.store) pair.var pair.value }
    requires lacking { LacksSupport (present_of filtering.old.store) (active_of F.meaning constraint.now).con pair.var pair.value }
    ensures taken { OnOk result (TakesOut filtering.old pair (active_of F.meaning constraint.now).cid
        (reason_in filtering.old.store (active_of F.meaning constraint.now).con pair) filtering.new) }
    ensures err { OnErr result (filtering.new ≡ filtering.old) }
{
    let Pair { var, value } = pair;
    constraint.reason(&filtering.store, Pair { var, value }, pairs)?;
    filtering.remove(Pair { var, value }, constraint.cid(), pairs.as_slice())
}

/// Takes a present value out that lacks support, in a walk over the values of its variable from which the room has a rule of
/// their reasons, if there is one. Without memory it stays.
#[inline(always)]
pub(crate) fn take_out<F: Filter>(
    filtering: &mut Filtering,
    constraint: &Posted<F>,
    pair: Pair,
    room: &mut ReasonRoom,
) -> Result<(), NoMemory>
    requires revising { (active : List Active) × IsRevising filtering.old active (active_of F.meaning constraint.now) }
    requires filled { AllFilled (present_of filtering.old.store) }
    requires over { Contains (scope (active_of F.meaning constraint.now).con) pair.var }
    requires present { Has (present_of filtering.old.store) pair.var pair.value }
    requires lacking { LacksSupport (present_of filtering.old.store) (active_of F.meaning constraint.now).con pair.var pair.value }
    requires knows { Knows filtering.old.store (active_of F.meaning constraint.now).con
        pair.var pair.value room.old }
    ensures walked { (active : List Active) → IsRevising filtering.old active (active_of F.meaning constraint.now)
        → OnOk result (Walked active (active_of F.meaning constraint.now) (pair ∷ []) filtering.old filtering.new) }
    ensures revising { (active : List Active) → IsRevising filtering.old active (active_of F.meaning constraint.now)
        → IsRevising filtering.new active (active_of F.meaning constraint.now) }
    ensures gone { OnOk result (LosesPair filtering.old.store filtering.new.store pair.var pair.value) }
    ensures knows { OnOk result (Knows filtering.new.store
        (active_of F.meaning constraint.now).con pair.var pair.value room.new) }
    ensures err { OnErr result (filtering.new ≡ filtering.old) }
    ensures checks { filtering.new.checks ≡ filtering.old.checks }
{
    let Pair { var, value } = pair;
    if constraint.tells_spans(&filtering.store, &Pair { var, value }, room)? {
        return filtering.remove_for_spans(
            Pair { var, value },
            constraint.cid(),
            room.spans.as_slice(),
        );
    }
    take_out_listed(filtering, constraint, Pair { var, value }, &mut room.pairs)
}

/// Asks for a present value of the constraint's variable, and takes it out where it lacks support. Without memory
/// the value stays.
#[inline(always)]
pub(crate) fn examine<F: Filter, L: Ledger>(
    filtering: &mut Filtering,
    constraint: &Posted<F>,
    pair: Pair,
    room: &mut ReasonRoom,
    steps: &mut Steps<L>,
) -> Result<(), NoMemory>
    requires revising { (active : List Active) × IsRevising filtering.old active (active_of F.meaning constraint.now) }
    requires filled { AllFilled (present_of filtering.old.store) }
    requires over { Contains (scope (active_of F.meaning constraint.now).con) pair.var }
    requires present { Has (present_of filtering.old.store) pair.var pair.value }
    ensures walked { (active : List Active) → IsRevising filtering.old active (active_of F.meaning constraint.now)
        → OnOk result (Walked active (active_of F.meaning constraint.now) (pair ∷ []) filtering.old filtering.new) }
    ensures revising { (active : List Active) → IsRevising filtering.old active (active_of F.meaning constraint.now)
        → IsRevising filtering.new active (active_of F.meaning constraint.now) }
    ensures supported { OnOk result (Has (present_of filtering.new.store) pair.var pair.value
        → IsSupported (present_of filtering.new.store) (active_of F.meaning constraint.now).con pair.var pair.value) }
    ensures err { OnErr result (filtering.new ≡ record filtering.old { checks = filtering.new.checks }) }
    ensures due { OnErr result (IsDue (present_of filtering.old.store) (active_of F.meaning constraint.now).con pair) }
    ensures counted { HasCounted 1 filtering.old filtering.new steps.old steps.new }
{
    let Pair { var, value } = pair;
    if constraint.is_supported(
        &filtering.store,
        Pair { var, value },
        &mut filtering.checks,
        steps,
    ) {
        return Ok(());
    }
    room.known = None;
    take_out(filtering, constraint, Pair { var, value }, room)
}

/// Asks for each present value of the variable, from the least on.
fn revise_each<F: Filter, L: Ledger>(
    filtering: &mut Filtering,
    constraint: &Posted<F>,
    var: Var,
    room: &mut ReasonRoom,
    steps: &mut Steps<L>,
) -> Result<(), NoMemory>
    requires revising { (active : List Active) × IsRevising filtering.old active (active_of F.meaning constraint.now) }
    requires filled { AllFilled (present_of filtering.old.store) }
    requires over { Contains (scope (active_of F.meaning constraint.now).con) var }
    ensures walked { (active : List Active) → IsRevising filtering.old active (active_of F.meaning constraint.now)
        → OnOk result (Walked active (active_of F.meaning constraint.now) (pairs_of var (values_of (initial_of filtering.old.store) var)) filtering.old filtering.new) }
    ensures part { (active : List Active) → IsRevising filtering.old active (active_of F.meaning constraint.now)
        → OnErr result (WalkedPart active (active_of F.meaning constraint.now) (pairs_of var (values_of (initial_of filtering.old.store) var)) filtering.old filtering.new) }
    ensures revising { (active : List Active) → IsRevising filtering.old active (active_of F.meaning constraint.now)
        → IsRevising filtering.new active (active_of F.meaning constraint.now) }
    ensures supported { OnOk result (AreSupportedAt filtering.new (active_of F.meaning constraint.now) var) }
    ensures counted { HasCounted (length (values_of (initial_of filtering.old.store) var)) filtering.old filtering.new steps.old steps.new }
{
    let mut next = Some(filtering.store.first_placed(var));
    while let Some(placed) = next {
        examine(
            filtering,
            constraint,
            Pair {
                var,
                value: placed.value,
            },
            room,
            steps,
        )?;
        next = filtering.store.next_placed(var, placed);
    }
    Ok(())
}

/// Asks for each present value of the variable from the one bound to the other. Those beyond them have support.
fn revise_within<F: Filter, L: Ledger>(
    filtering: &mut Filtering,
    constraint: &Posted<F>,
    var: Var,
    low: Value,
    high: Value,
    room: &mut ReasonRoom,
    steps: &mut Steps<L>,
) -> Result<(), NoMemory>
    requires revising { (active : List Active) × IsRevising filtering.old active (active_of F.meaning constraint.now) }
    requires filled { AllFilled (present_of filtering.old.store) }
    requires over { Contains (scope (active_of F.meaning constraint.now).con) var }
    requires known { AreSupportedBeyond filtering.old (active_of F.meaning constraint.now) var low high }
    ensures walked { (active : List Active) → IsRevising filtering.old active (active_of F.meaning constraint.now)
        → OnOk result (Walked active (active_of F.meaning constraint.now) (pairs_of var (values_of (initial_of filtering.old.store) var)) filtering.old filtering.new) }
    ensures part { (active : List Active) → IsRevising filtering.old active (active_of F.meaning constraint.now)
        → OnErr result (WalkedPart active (active_of F.meaning constraint.now) (pairs_of var (values_of (initial_of filtering.old.store) var)) filtering.old filtering.new) }
    ensures revising { (active : List Active) → IsRevising filtering.old active (active_of F.meaning constraint.now)
        → IsRevising filtering.new active (active_of F.meaning constraint.now) }
    ensures supported { OnOk result (AreSupportedAt filtering.new (active_of F.meaning constraint.now) var) }
    ensures counted { HasCounted (length (values_of (initial_of filtering.old.store) var)) filtering.old filtering.new steps.old steps.new }
{
    let mut next = filtering.store.placed_from(var, low);
    while let Some(placed) = next {
        if high < placed.value {
            return Ok(());
        }
        examine(
            filtering,
            constraint,
            Pair {
                var,
                value: placed.value,
            },
            room,
            steps,
        )?;
        next = filtering.store.next_placed(var, placed);
    }
    Ok(())
}

/// Asks for each present value of the variable that the mark does not leave out. Those that it leaves out have support.
fn revise_marked<F: Filter, L: Ledger>(
    filtering: &mut Filtering,
    constraint: &Posted<F>,
    var: Var,
    mark: Mark,
    room: &mut ReasonRoom,
    steps: &mut Steps<L>,
) -> Result<(), NoMemory>
    requires revising { (active : List Active) × IsRevising filtering.old active (active_of F.meaning constraint.now) }
    requires filled { AllFilled (present_of filtering.old.store) }
    requires over { Contains (scope (active_of F.meaning constraint.now).con) var }
    requires known { AreSupportedUnless mark filtering.old (active_of F.meaning constraint.now) var }
    ensures walked { (active : List Active) → IsRevising filtering.old active (active_of F.meaning constraint.now)
        → OnOk result (Walked active (active_of F.meaning constraint.now) (pairs_of var (values_of (initial_of filtering.old.store) var)) filtering.old filtering.new) }
    ensures part { (active : List Active) → IsRevising filtering.old active (active_of F.meaning constraint.now)
        → OnErr result (WalkedPart active (active_of F.meaning constraint.now) (pairs_of var (values_of (initial_of filtering.old.store) var)) filtering.old filtering.new) }
    ensures revising { (active : List Active) → IsRevising filtering.old active (active_of F.meaning constraint.now)
        → IsRevising filtering.new active (active_of F.meaning constraint.now) }
    ensures supported { OnOk result (AreSupportedAt filtering.new (active_of F.meaning constraint.now) var) }
    ensures counted { HasCounted (length (values_of (initial_of filtering.old.store) var)) filtering.old filtering.new steps.old steps.new }
{
    match mark {
        Mark::Clear => Ok(()),
        Mark::Between { low, high } => {
            revise_within(filtering, constraint, var, low, high, room, steps)
        }
        Mark::Whole => revise_each(filtering, constraint, var, room, steps),
    }
}

/// Takes the values of the variable out that lack support. Those that the mark leaves out have it. Where a law of the constraint tells
/// of a value that it has support, or lacks it, that is not asked for.
#[inline(never)]
pub(crate) fn revise_values<F: Filter, L: Ledger>(
    filtering: &mut Filtering,
    constraint: &Posted<F>,
    var: Var,
    shape: Shape,
    mark: Mark,
    room: &mut ReasonRoom,
    steps: &mut Steps<L>,
) -> Result<(), NoMemory>
    requires revising { (active : List Active) × IsRevising filtering.old active (active_of F.meaning constraint.now) }
    requires filled { AllFilled (present_of filtering.old.store) }
    requires over { Contains (scope (active_of F.meaning constraint.now).con) var }
    requires shaped { IsShaped (active_of F.meaning constraint.now).con var shape }
    requires known { AreSupportedUnless mark filtering.old (active_of F.meaning constraint.now) var }
    ensures walked { (active : List Active) → IsRevising filtering.old active (active_of F.meaning constraint.now)
        → OnOk result (Walked active (active_of F.meaning constraint.now) (pairs_of var (values_of (initial_of filtering.old.store) var)) filtering.old filtering.new) }
    ensures part { (active : List Active) → IsRevising filtering.old active (active_of F.meaning constraint.now)
        → OnErr result (WalkedPart active (active_of F.meaning constraint.now) (pairs_of var (values_of (initial_of filtering.old.store) var)) filtering.old filtering.new) }
    ensures revising { (active : List Active) → IsRevising filtering.old active (active_of F.meaning constraint.now)
        → IsRevising filtering.new active (active_of F.meaning constraint.now) }
    ensures supported { OnOk result (AreSupportedAt filtering.new (active_of F.meaning constraint.now) var) }
    ensures counted { HasCounted (length (values_of (initial_of filtering.old.store) var)) filtering.old filtering.new steps.old steps.new }
{
    match shape {
        Shape::Convex => revise_between(filtering, constraint, var, room, steps),
        Shape::AlikeBut(value) => revise_alike(filtering, constraint, var, value, room, steps),
        Shape::Apart(by) => revise_apart(filtering, constraint, var, by, room, steps),
        Shape::Guarded | Shape::Any => {
            revise_marked(filtering, constraint, var, mark, room, steps)
        }
    }
}
