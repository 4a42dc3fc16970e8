//! What the other variables leave for the value of a pair.
ghost use Rattle.std.specs.Prelude.{◌≡◌, ◌<◌, [], ◌∷◌, length, true, false, All, MatchOption};
ghost use Rattle.filter_differ.specs.Differ.{HasOther, LeavesRoom, TakesRoom, first_lone, is_lone};
ghost use Rattle.palm_base.specs.Tells.{Tells};
ghost use Rattle.palm_domain.specs.Rows.{present_of};
ghost use Rattle.palm_model.specs.Domains.{values_of};

use palm_base::{Pair, Value, Var};
use palm_domain::DomainStore;
use palm_filter::is_alone;

/// Whether the variable has another present value than this one.
fn has_other(store: &DomainStore, var: &Var, value: &Value) -> bool
    requires { var.now < length store.now }
    ensures { Tells result (HasOther (values_of (present_of store.now) var.now) value.now) }
{
    // A store's values ascend, as `variables` tells, so that two of them differ.
    prove!(store.variables() > 0);
    let count = store.count(*var);
    count > 1 || (count == 1 && store.least(*var) != *value)
}

/// Whether each of the variables but the pair's own has another present value than the pair's.
pub(crate) fn leave_room(store: &DomainStore, vars: &[Var], pair: &Pair) -> bool
    requires { All (λ x. x < length store.now) vars.now }
    ensures room { result ≡ true → All (LeavesRoom (present_of store.now) pair.now.var pair.now.value) vars.now }
    ensures none { result ≡ false → TakesRoom (present_of store.now) vars.now pair.now.var pair.now.value }
{
    for other in vars {
        if *other != pair.var && !has_other(store, other, &pair.value) {
            return false;
        }
    }
    true
}

/// Whether the variable is not the pair's own, and the pair's value is its only present one.
fn is_lone(store: &DomainStore, var: &Var, pair: &Pair) -> bool
    requires { var.now < length store.now }
    ensures { result ≡ is_lone (present_of store.now) pair.now.var pair.now.value var.now }
{
    *var != pair.var
        && is_alone(
            store,
            &Pair {
                var: *var,
                value: pair.value,
            },
        )
}

/// The first of the variables but the pair's own whose only present value is the pair's.
pub(crate) fn first_lone(store: &DomainStore, vars: &[Var], pair: &Pair) -> Option<Var>
    requires { All (λ x. x < length store.now) vars.now }
    ensures { MatchOption result
        (first_lone (present_of store.now) vars.now pair.now.var pair.now.value ≡ [])
        (λ y. first_lone (present_of store.now) vars.now pair.now.var pair.now.value ≡ y ∷ []) }
{
    for var in vars {
        if is_lone(store, var, pair) {
            return Some(*var);
        }
    }
    None
}
