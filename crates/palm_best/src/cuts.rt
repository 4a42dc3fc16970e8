//! Cuts below the values that are found, and their names among others.
ghost use Rattle.std.specs.Prelude.{◌≡◌, ◌+◌, ◌<◌, ◌≤◌, length, IfOk, OnErr, OnOk, filter, not};
ghost use Rattle.palm_model.specs.Event.{Posts};
ghost use Rattle.palm_model.specs.Limits.{IsValue};
ghost use Rattle.palm_model.specs.Log.{IsActive};
ghost use Rattle.palm_model.specs.State.{IsValid, user_of};
ghost use Rattle.palm_model.specs.Trial.{listed};
ghost use Rattle.palm_model.specs.declared.constraint.Con.TheVariants.{CompareConst};
ghost use Rattle.palm_model.specs.declared.constraint.Op.TheVariants.{Lt};
ghost use Rattle.palm_engine.specs.Engine.{KeepsCounts};
ghost use Rattle.palm_search.specs.Calls.{LetsGo};
ghost use Rattle.palm_best.specs.Cuts.{is_cut, is_own};
ghost use Rattle.palm_best.specs.Improving.{Cuts, HasCuts};

use crate::incumbent::Incumbent;
use crate::limits::{FIRST_CUT, MOST_CUTS};
use palm_base::{Cid, CidList, NoMemory, Value, ValueList, Var};
use palm_engine::Engine;
use palm_kind::Kind;
use palm_model::{Con, Op};
use std::alloc::Global;

/// Posts under the number that the target is less than the value. Without memory nothing changes.
fn post_cut(
    alloc: Global,
    engine: &mut Engine<Kind>,
    target: Var,
    bound: Value,
    number: u32,
) -> Result<(), NoMemory>
    requires target { target < length engine.old.state.initial }
    requires value { IsValue bound }
    requires inactive { IsActive engine.old.state.active (Cid.User number) → ⊥ }
    ensures ok { OnOk result (Posts engine.old.state (user_of number (CompareConst target Lt bound)) engine.new.state) }
    ensures err { OnErr result (engine.new ≡ engine.old) }
    ensures counts { KeepsCounts engine.old engine.new }
    ensures valid { IsValid engine.new.state }
{
    // What holds of every engine is known once its store is read.
    let _store = engine.store();
    let con = Con::CompareConst {
        left: target,
        op: Op::Lt,
        value: bound,
    };
    let kind = Kind::from_con(alloc, &con)?;
    engine.post(number, kind)
}

/// Posts the cut below the values, and makes them the incumbent. Without memory nothing changes.
pub(crate) fn improve(
    alloc: Global,
    engine: &mut Engine<Kind>,
    target: Var,
    incumbent: &mut Incumbent,
    values: ValueList,
) -> Result<(), NoMemory>
    requires target { target < length engine.old.state.initial }
    requires long { target < length values }
    requires value { IsValue (listed values target) }
    requires few { incumbent.old.cuts ≤ MOST_CUTS }
    requires free { IsActive engine.old.state.active (Cid.User (FIRST_CUT + incumbent.old.cuts)) → ⊥ }
    ensures ok { OnOk result (Cuts target engine.old.state incumbent.old values engine.new.state incumbent.new) }
    ensures err { OnErr result ((engine.new ≡ engine.old) × (incumbent.new ≡ incumbent.old)) }
    ensures counts { KeepsCounts engine.old engine.new }
    ensures valid { IsValid engine.new.state }
{
    let bound = values.as_slice()[target.0 as usize];
    post_cut(alloc, engine, target, bound, FIRST_CUT + incumbent.cuts)?;
    incumbent.cuts += 1;
    incumbent.values = Some(values);
    Ok(())
}

/// Withdraws so many cuts, the newest first.
pub(crate) fn withdraw_cuts(engine: &mut Engine<Kind>, cuts: u32)
    requires few { cuts ≤ MOST_CUTS }
    requires active { HasCuts cuts engine.old.state }
    ensures gone { LetsGo is_own engine.old.state engine.new.state }
    ensures none { HasCuts 0 engine.new.state }
    ensures counts { KeepsCounts engine.old engine.new }
    ensures valid { IsValid engine.new.state }
{
    // What holds of every engine is known once its store is read.
    let _store = engine.store();
    let mut left = cuts;
    while left > 0 {
        left -= 1;
        engine.withdraw(Cid::User(FIRST_CUT + left));
    }
}

// ---- ids

/// Whether the id is a cut's.
fn is_cut(cid: &Cid) -> bool
    ensures { result ≡ is_cut cid.now }
{
    match cid {
        Cid::User(number) => FIRST_CUT <= *number,
        Cid::Decide(_) | Cid::Not(_) => false,
    }
}

/// The ids that are no cuts.
pub(crate) fn without_cuts(alloc: Global, cids: &[Cid]) -> Result<CidList, NoMemory>
    ensures { IfOk result (λ users. users ≡ filter (λ c. not (is_cut c)) cids.now) }
{
    let mut users = CidList::new(alloc);
    for cid in cids {
        if !is_cut(cid) {
            users.push(*cid)?;
        }
    }
    Ok(users)
}
