//! A revision: a constraint asks for the values of its variables, and takes out those that lack support.
ghost use Rattle.std.specs.Prelude.{◌≡◌, List, length, Some, slice_get, OnErr, OnOk};
ghost use Rattle.palm_agenda.specs.Agenda.{IsStanding};
ghost use Rattle.palm_domain.specs.Rows.{initial_of, present_of};
ghost use Rattle.palm_model.specs.Constraint.{scope};
ghost use Rattle.palm_model.specs.Domains.{values_of};
ghost use Rattle.palm_model.specs.Log.{Active};
ghost use Rattle.palm_model.specs.Removed.{pairs_of};
ghost use Rattle.palm_model.specs.State.{AllFilled};
ghost use Rattle.palm_engine.specs.Posted.{active_of};
ghost use Rattle.palm_engine.specs.Revising.{HasCounted, IsRevising, Walked, WalkedPart};
ghost use Rattle.palm_engine.specs.Settling.{walk_order};
ghost use Rattle.palm_engine.specs.Work.{size_of};

use crate::apart::are_known;
use crate::filtering::Filtering;
use crate::posted::Posted;
use crate::reasons::ReasonRoom;
use crate::values::revise_values;
use palm_agenda::{Mark, Taken};
use palm_base::{NoMemory, Steps, Var};
use palm_filter::Filter;
use std::sync::ledger::Ledger;

/// Asks for the present values of the variable at a place of the scope that may lack support, as the place's mark tells,
/// and takes the mark away.
fn revise_place<F: Filter, L: Ledger>(
    filtering: &mut Filtering,
    constraint: &Posted<F>,
    taken: &Taken,
    place: usize,
    var: Var,
    room: &mut ReasonRoom,
    steps: &mut Steps<L>,
) -> Result<(), NoMemory>
    requires revising { (active : List Active) × IsRevising filtering.old active (active_of F.meaning constraint.now) }
    requires standing { IsStanding filtering.old.agenda.connected taken.now }
    requires named { (active_of F.meaning constraint.now).cid ≡ taken.now.cid }
    requires filled { AllFilled (present_of filtering.old.store) }
    requires at { slice_get (scope (active_of F.meaning constraint.now).con) place ≡ Some var }
    ensures walked { (active : List Active) → IsRevising filtering.old active (active_of F.meaning constraint.now)
        → OnOk result (Walked active (active_of F.meaning constraint.now) (pairs_of var (values_of (initial_of filtering.old.store) var)) filtering.old filtering.new) }
    ensures part { (active : List Active) → IsRevising filtering.old active (active_of F.meaning constraint.now)
        → OnErr result (WalkedPart active (active_of F.meaning constraint.now) (pairs_of var (values_of (initial_of filtering.old.store) var)) filtering.old filtering.new) }
    ensures revising { (active : List Active) → IsRevising filtering.old active (active_of F.meaning constraint.now)
        → IsRevising filtering.new active (active_of F.meaning constraint.now) }
    ensures counted { HasCounted (length (values_of (initial_of filtering.old.store) var)) filtering.old filtering.new steps.old steps.new }
{
    let mark = filtering.agenda.mark(taken, place);
    if let Mark::Clear = mark {
        return Ok(());
    }
    let shape = constraint.shape(place);
    if are_known(&filtering.store, constraint, var, &shape, &mark) {
        filtering.agenda.unmark(taken, place);
        return Ok(());
    }
    revise_values(filtering, constraint, var, shape, mark, room, steps)?;
    filtering.agenda.unmark(taken, place);
    Ok(())
}

/// Walks over the places of the constraint's scope, until there is none or a domain is empty. Where a place is not marked, each of its
/// values has support. Without memory the walk ends where it stands.
pub(crate) fn revise<F: Filter, L: Ledger>(
    filtering: &mut Filtering,
    constraint: &Posted<F>,
    taken: &Taken,
    room: &mut ReasonRoom,
    steps: &mut Steps<L>,
) -> Result<(), NoMemory>
    requires revising { (active : List Active) × IsRevising filtering.old active (active_of F.meaning constraint.now) }
    requires standing { IsStanding filtering.old.agenda.connected taken.now }
    requires named { (active_of F.meaning constraint.now).cid ≡ taken.now.cid }
    ensures walked { (active : List Active) → IsRevising filtering.old active (active_of F.meaning constraint.now)
        → OnOk result (Walked active (active_of F.meaning constraint.now) (walk_order (initial_of filtering.old.store) (active_of F.meaning constraint.now).con) filtering.old filtering.new) }
    ensures part { (active : List Active) → IsRevising filtering.old active (active_of F.meaning constraint.now)
        → OnErr result (WalkedPart active (active_of F.meaning constraint.now) (walk_order (initial_of filtering.old.store) (active_of F.meaning constraint.now).con) filtering.old filtering.new) }
    ensures revising { (active : List Active) → IsRevising filtering.old active (active_of F.meaning constraint.now)
        → IsRevising filtering.new active (active_of F.meaning constraint.now) }
    ensures counted { HasCounted (size_of (initial_of filtering.old.store) (active_of F.meaning constraint.now).con) filtering.old filtering.new steps.old steps.new }
{
    let scope = constraint.scope();
    for place in 0..scope.len() {
        if filtering.empty.is_some() {
            return Ok(());
        }
        let var = scope[place];
        revise_place(filtering, constraint, taken, place, var, room, steps)?;
    }
    Ok(())
}
