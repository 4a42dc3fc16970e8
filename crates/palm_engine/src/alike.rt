//! The walk where all values but one have support alike: one of them is asked for, and that one.
ghost use Rattle.std.specs.Prelude.{◌≡◌, ◌≢◌, ◌+◌, ◌<◌, [], ◌∷◌, ℤ, false, List, length, Contains, OnErr, OnOk, IfNone, IfSome, true};
ghost use Rattle.palm_domain.specs.Rows.{initial_of, present_of};
ghost use Rattle.palm_filter.specs.Shapes.{AreAlikeBut};
ghost use Rattle.palm_model.specs.Constraint.{scope};
ghost use Rattle.palm_model.specs.Domains.{Has, values_of};
ghost use Rattle.palm_model.specs.Log.{Active};
ghost use Rattle.palm_model.specs.Removed.{pairs_of};
ghost use Rattle.palm_model.specs.State.{AllFilled};
ghost use Rattle.palm_model.specs.Support.{IsSupported, LacksSupport};
ghost use Rattle.palm_engine.specs.Advancing.{AreSupportedBut, LackBut, asked_but, asked_of};
ghost use Rattle.palm_engine.specs.Posted.{active_of};
ghost use Rattle.palm_engine.specs.Revising.{AreSupportedAt, HasCounted, HasTicked, IsRevising, Walked, WalkedPart};
ghost use Rattle.palm_engine.specs.Settling.{IsDue};
ghost use Rattle.palm_engine.specs.Work.{asks_of};

use crate::filtering::Filtering;
use crate::posted::Posted;
use crate::reasons::ReasonRoom;
use crate::values::{examine, take_out};
use palm_base::{NoMemory, Pair, Steps, Value, Var};
use palm_domain::DomainStore;
use palm_filter::Filter;
use std::sync::ledger::Ledger;

/// The least present value but this one.
fn other_value(store: &DomainStore, var: Var, but: Value) -> Option<Value>
    requires { 0 < length (values_of (present_of store.now) var) }
    ensures none { IfNone result ((v : ℤ) → Has (present_of store.now) var v → v ≡ but) }
    ensures some { IfSome result (λ other. Has (present_of store.now) var other × (other ≢ but)) }
{
    let least = store.first_placed(var);
    if least.value != but {
        Some(least.value)
    } else {
        let next = store.next_placed(var, least)?;
        Some(next.value)
    }
}

/// Whether the present values but this one have support, for which one of them is asked.
fn others_supported<F: Filter, L: Ledger>(
    filtering: &mut Filtering,
    constraint: &Posted<F>,
    var: Var,
    but: Value,
    steps: &mut Steps<L>,
) -> bool
    requires revising { (active : List Active) × IsRevising filtering.old active (active_of F.meaning constraint.now) }
    requires filled { AllFilled (present_of filtering.old.store) }
    requires over { Contains (scope (active_of F.meaning constraint.now).con) var }
    requires alike { AreAlikeBut (active_of F.meaning constraint.now).con var but }
    ensures supported { result ≡ true → AreSupportedBut filtering.old (active_of F.meaning constraint.now) var but }
    ensures lacking { result ≡ false → LackBut filtering.old (active_of F.meaning constraint.now) var but }
    ensures same { filtering.new ≡ record filtering.old { checks = filtering.new.checks } }
    ensures counted { HasCounted (asked_but but (values_of (initial_of filtering.old.store) var)) filtering.old filtering.new steps.old steps.new }
    ensures asked { result ≡ false → steps.new ≡ steps.old + asks_of (active_of F.meaning constraint.now) }
{
    let Some(value) = other_value(&filtering.store, var, but) else {
        return true;
    };
    constraint.is_supported(
        &filtering.store,
        Pair { var, value },
        &mut filtering.checks,
        steps,
    )
}

/// Asks for this value, where it is present, and takes it out where it lacks support. The others are known to have it.
fn revise_one<F: Filter, L: Ledger>(
    filtering: &mut Filtering,
    constraint: &Posted<F>,
    var: Var,
    value: Value,
    room: &mut ReasonRoom,
    steps: &mut Steps<L>,
) -> Result<(), NoMemory>
    requires revising { (active : List Active) × IsRevising filtering.old active (active_of F.meaning constraint.now) }
    requires filled { AllFilled (present_of filtering.old.store) }
    requires over { Contains (scope (active_of F.meaning constraint.now).con) var }
    requires known { AreSupportedBut filtering.old (active_of F.meaning constraint.now) var value }
    ensures walked { (active : List Active) → IsRevising filtering.old active (active_of F.meaning constraint.now)
        → OnOk result (Walked active (active_of F.meaning constraint.now) (pairs_of var (values_of (initial_of filtering.old.store) var)) filtering.old filtering.new) }
    ensures part { (active : List Active) → IsRevising filtering.old active (active_of F.meaning constraint.now)
        → OnErr result (WalkedPart active (active_of F.meaning constraint.now) (pairs_of var (values_of (initial_of filtering.old.store) var)) filtering.old filtering.new) }
    ensures revising { (active : List Active) → IsRevising filtering.old active (active_of F.meaning constraint.now)
        → IsRevising filtering.new active (active_of F.meaning constraint.now) }
    ensures supported { OnOk result (AreSupportedAt filtering.new (active_of F.meaning constraint.now) var) }
    ensures counted { HasCounted (asked_of value (values_of (initial_of filtering.old.store) var)) filtering.old filtering.new steps.old steps.new }
{
    if !filtering.store.contains(Pair { var, value }) {
        return Ok(());
    }
    examine(filtering, constraint, Pair { var, value }, room, steps)
}

/// Takes the value out, which is known to lack support unless it is the one that is asked for.
fn take_out_unless<F: Filter, L: Ledger>(
    filtering: &mut Filtering,
    constraint: &Posted<F>,
    pair: Pair,
    but: Value,
    room: &mut ReasonRoom,
    steps: &mut Steps<L>,
) -> Result<(), NoMemory>
    requires revising { (active : List Active) × IsRevising filtering.old active (active_of F.meaning constraint.now) }
    requires filled { AllFilled (present_of filtering.old.store) }
    requires over { Contains (scope (active_of F.meaning constraint.now).con) pair.var }
    requires present { Has (present_of filtering.old.store) pair.var pair.value }
    requires lacking { pair.value ≢ but → LacksSupport (present_of filtering.old.store) (active_of F.meaning constraint.now).con pair.var pair.value }
    ensures walked { (active : List Active) → IsRevising filtering.old active (active_of F.meaning constraint.now)
        → OnOk result (Walked active (active_of F.meaning constraint.now) (pair ∷ []) filtering.old filtering.new) }
    ensures revising { (active : List Active) → IsRevising filtering.old active (active_of F.meaning constraint.now)
        → IsRevising filtering.new active (active_of F.meaning constraint.now) }
    ensures supported { OnOk result (Has (present_of filtering.new.store) pair.var pair.value
        → IsSupported (present_of filtering.new.store) (active_of F.meaning constraint.now).con pair.var pair.value) }
    ensures err { OnErr result (filtering.new ≡ record filtering.old { checks = filtering.new.checks }) }
    ensures due { OnErr result (IsDue (present_of filtering.old.store) (active_of F.meaning constraint.now).con pair) }
    ensures counted { HasTicked (asked_of but (pair.value ∷ [])) filtering.old filtering.new steps.old steps.new }
{
    if pair.value == but {
        examine(filtering, constraint, pair, room, steps)
    } else {
        room.known = None;
        take_out(filtering, constraint, pair, room)
    }
}

/// Takes the present values but this one out, which are known to lack support; this one is asked for.
fn take_others_out<F: Filter, L: Ledger>(
    filtering: &mut Filtering,
    constraint: &Posted<F>,
    var: Var,
    but: Value,
    room: &mut ReasonRoom,
    steps: &mut Steps<L>,
) -> Result<(), NoMemory>
    requires revising { (active : List Active) × IsRevising filtering.old active (active_of F.meaning constraint.now) }
    requires filled { AllFilled (present_of filtering.old.store) }
    requires over { Contains (scope (active_of F.meaning constraint.now).con) var }
    requires known { LackBut filtering.old (active_of F.meaning constraint.now) var but }
    ensures walked { (active : List Active) → IsRevising filtering.old active (active_of F.meaning constraint.now)
        → OnOk result (Walked active (active_of F.meaning constraint.now) (pairs_of var (values_of (initial_of filtering.old.store) var)) filtering.old filtering.new) }
    ensures part { (active : List Active) → IsRevising filtering.old active (active_of F.meaning constraint.now)
        → OnErr result (WalkedPart active (active_of F.meaning constraint.now) (pairs_of var (values_of (initial_of filtering.old.store) var)) filtering.old filtering.new) }
    ensures revising { (active : List Active) → IsRevising filtering.old active (active_of F.meaning constraint.now)
        → IsRevising filtering.new active (active_of F.meaning constraint.now) }
    ensures supported { OnOk result (AreSupportedAt filtering.new (active_of F.meaning constraint.now) var) }
    ensures counted { HasTicked (asked_of but (values_of (initial_of filtering.old.store) var)) filtering.old filtering.new steps.old steps.new }
{
    let mut next = Some(filtering.store.first_placed(var));
    while let Some(placed) = next {
        let pair = Pair {
            var,
            value: placed.value,
        };
        take_out_unless(filtering, constraint, pair, but, room, steps)?;
        next = filtering.store.next_placed(var, placed);
    }
    Ok(())
}

/// Takes the values of the variable out that lack support, where all but one have it alike.
pub(crate) fn revise_alike<F: Filter, L: Ledger>(
    filtering: &mut Filtering,
    constraint: &Posted<F>,
    var: Var,
    but: Value,
    room: &mut ReasonRoom,
    steps: &mut Steps<L>,
) -> Result<(), NoMemory>
    requires revising { (active : List Active) × IsRevising filtering.old active (active_of F.meaning constraint.now) }
    requires filled { AllFilled (present_of filtering.old.store) }
    requires over { Contains (scope (active_of F.meaning constraint.now).con) var }
    requires alike { AreAlikeBut (active_of F.meaning constraint.now).con var but }
    ensures walked { (active : List Active) → IsRevising filtering.old active (active_of F.meaning constraint.now)
        → OnOk result (Walked active (active_of F.meaning constraint.now) (pairs_of var (values_of (initial_of filtering.old.store) var)) filtering.old filtering.new) }
    ensures part { (active : List Active) → IsRevising filtering.old active (active_of F.meaning constraint.now)
        → OnErr result (WalkedPart active (active_of F.meaning constraint.now) (pairs_of var (values_of (initial_of filtering.old.store) var)) filtering.old filtering.new) }
    ensures revising { (active : List Active) → IsRevising filtering.old active (active_of F.meaning constraint.now)
        → IsRevising filtering.new active (active_of F.meaning constraint.now) }
    ensures supported { OnOk result (AreSupportedAt filtering.new (active_of F.meaning constraint.now) var) }
    ensures counted { HasCounted (length (values_of (initial_of filtering.old.store) var)) filtering.old filtering.new steps.old steps.new }
{
    if others_supported(filtering, constraint, var, but, steps) {
        revise_one(filtering, constraint, var, but, room, steps)
    } else {
        take_others_out(filtering, constraint, var, but, room, steps)
    }
}
