//! What a guide is shown of the domains.
ghost use Rattle.std.specs.Prelude.{◌<◌, length, OnOk};
ghost use Rattle.palm_domain.specs.Rows.{present_of, present_values};
ghost use Rattle.palm_model.specs.State.{AllFilled};
ghost use Rattle.palm_search.specs.Asked.{IsRow, IsView};

use palm_base::{NoMemory, Var};
use palm_domain::DomainStore;
use palm_guide::ViewRow;

/// The row of a variable that has a value.
fn row_of(store: &DomainStore, var: Var) -> ViewRow
    requires exists { var < length store.now }
    requires filled { 0 < length (present_values store.now var) }
    ensures { IsRow (present_of store.now) var result }
{
    ViewRow {
        var,
        count: store.count(var),
        least: store.least(var),
        greatest: store.greatest(var),
    }
}

/// Fills the view with a row for each variable, in the room that it has from earlier ones.
pub(crate) fn show(view: &mut Vec<ViewRow>, store: &DomainStore) -> Result<(), NoMemory>
    requires { AllFilled (present_of store.now) }
    ensures { OnOk result (IsView (present_of store.now) view.new.items) }
{
    view.clear();
    for var in 0..store.variables() {
        view.push(row_of(store, Var(var)))?;
    }
    Ok(())
}
