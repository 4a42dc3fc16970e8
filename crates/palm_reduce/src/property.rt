//! What the constraints of a minimal set have together.
ghost use Rattle.std.specs.Prelude.{◌≡◌, ◌<◌, false, true, length, IfOk, OnOk};
ghost use Rattle.palm_base.specs.Tells.{Tells};
ghost use Rattle.palm_events.specs.Along.{IsStill};
ghost use Rattle.palm_model.specs.Domains.{Has};
ghost use Rattle.palm_model.specs.State.{IsValid, present};
ghost use Rattle.palm_reduce.specs.Properties.{HasProperty, IsCore, MayBeAsked};

use crate::kinds::Lent;
use palm_agenda::LastOrder;
use palm_base::{CidList, NoMemory, Pair, Steps};
use palm_engine::Engine;
use std::sync::ledger::Ledger;

/// What constraints may have together. More constraints have it where fewer have it.
#[derive(Debug, Drop)]
pub enum Property {
    /// They are a conflict.
    Conflict,
    /// They explain the absence of the pair.
    Absence(Pair),
}

/// Whether the pair is absent.
fn is_absent(engine: &Engine<Lent<'_>>, pair: &Pair) -> bool
    requires { pair.now.var < length engine.now.state.initial }
    ensures { Tells result (Has (present engine.now.state) pair.now.var pair.now.value → ⊥) }
{
    let Pair { var, value } = *pair;
    !engine.store().contains(Pair { var, value })
}

/// Whether the constraints of an engine have the property, after a settling without a limit.
fn is_met(property: &Property, engine: &Engine<Lent<'_>>) -> bool
    requires valid { IsValid engine.now.state }
    requires still { IsStill engine.now.state }
    requires allowed { MayBeAsked property.now engine.now.state.initial engine.now.state.active }
    ensures { Tells result (HasProperty property.now engine.now.state.initial engine.now.state.active) }
{
    match property {
        Property::Conflict => engine.empty_variable().is_some(),
        Property::Absence(pair) => is_absent(engine, pair),
    }
}

/// Makes `core` the ids of constraints that have the property by themselves, as a settled engine keeps them.
fn tell_core(
    property: &Property,
    engine: &Engine<Lent<'_>>,
    core: &mut CidList,
) -> Result<(), NoMemory>
    requires valid { IsValid engine.now.state }
    requires still { IsStill engine.now.state }
    requires allowed { MayBeAsked property.now engine.now.state.initial engine.now.state.active }
    requires holds { HasProperty property.now engine.now.state.initial engine.now.state.active }
    ensures { OnOk result (IsCore property.now engine.now.state.initial engine.now.state.active core.new) }
{
    match property {
        Property::Conflict => engine.conflict(core),
        Property::Absence(pair) => engine.log().explanation(*pair, core),
    }
}

/// Settles an engine, and answers whether its constraints have the property. Where they have it, `core` becomes the
/// ids of some that have it by themselves.
pub fn has_property<L: Ledger>(
    property: &Property,
    engine: &mut Engine<Lent<'_>>,
    core: &mut CidList,
    steps: &mut Steps<L>,
) -> Result<bool, NoMemory>
    requires { MayBeAsked property.now engine.old.state.initial engine.old.state.active }
    ensures tells { IfOk result (λ has. Tells has (HasProperty property.now engine.old.state.initial engine.old.state.active)) }
    ensures core { IfOk result (λ has. has ≡ true → IsCore property.now engine.old.state.initial engine.old.state.active core.new) }
    ensures kept { IfOk result (λ has. has ≡ false → core.new ≡ core.old) }
    ensures initial { OnOk result (engine.new.state.initial ≡ engine.old.state.initial) }
    ensures active { OnOk result (engine.new.state.active ≡ engine.old.state.active) }
    ensures valid { IsValid engine.new.state }
{
    let mut order: Option<LastOrder> = None;
    engine.settle(&mut order, None, steps)?;
    if !is_met(property, engine) {
        return Ok(false);
    }
    tell_core(property, engine, core)?;
    Ok(true)
}
