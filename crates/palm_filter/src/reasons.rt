//! How reasons are written: the pairs of a variable whose values pass a test, and those that are removed.
ghost use Rattle.std.specs.Fn.{FnReturnsAt};
ghost use Rattle.std.specs.Prelude.{◌≡◌, ◌++◌, ◌<◌, [], ℤ, Bool, not, length, filter, OnErr, OnOk};
ghost use Rattle.palm_domain.specs.Rows.{initial_of, present_of};
ghost use Rattle.palm_model.specs.Domains.{values_of};
ghost use Rattle.palm_model.specs.Removed.{is_listed, pairs_of, removed_values};

use crate::filter::Reasons;
use palm_base::{NoMemory, Pair, Value, Var};
use palm_domain::DomainStore;

/// Appends the pair of the variable with each of the values that passes the test, in their order.
pub fn push_passing<F: Fn(&Value) -> bool>(
    values: &[Value],
    var: Var,
    passes: F,
    out: &mut Reasons,
) -> Result<(), NoMemory>
    requires { F.IsAlwaysCallable passes }
    ensures { (test : ℤ → Bool)
        → ((v : ℤ) (passed : Bool) → FnReturnsAt F.Fn passes v passed → passed ≡ test v)
        → OnOk result (out.new.items ≡ out.old.items ++ pairs_of var (filter test values.now)) }
{
    out.reserve(values.len())?;
    for value in values {
        if passes(value) {
            out.push_reserved(Pair { var, value: *value });
        }
    }
    Ok(())
}

/// Whether the variable does not have the value.
pub fn is_missing(store: &DomainStore, var: Var, value: &Value) -> bool
    requires { var < length store.now }
    ensures { result ≡ not (is_listed (values_of (present_of store.now) var) value.now) }
{
    !store.contains(Pair { var, value: *value })
}

/// Appends every declared pair of the variable that is not present, by ascending values.
pub fn push_removed(store: &DomainStore, var: Var, out: &mut Reasons) -> Result<(), NoMemory>
    requires { var < length store.now }
    ensures { OnOk result (out.new.items ≡ out.old.items ++ pairs_of var (removed_values (initial_of store.now) (present_of store.now) var)) }
{
    push_passing(
        store.initial_values(var),
        var,
        |value| is_missing(store, var, value),
        out,
    )
}

/// What was written of a reason: the list as it stands, and an empty one where memory ran out.
pub fn whole_or_none(written: Result<(), NoMemory>, out: &mut Reasons) -> Result<(), NoMemory>
    ensures ok { OnOk written (OnOk result (out.new.items ≡ out.old.items)) }
    ensures answer { result ≡ written }
    ensures err { OnErr result (out.new.items ≡ []) }
{
    if written.is_err() {
        out.clear();
    }
    written
}
