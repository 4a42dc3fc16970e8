//! Which pair is decided.
ghost use Rattle.std.specs.Prelude.{◌≡◌, ℕ, ◌<◌, length, MatchOption, true, false};
ghost use Rattle.palm_base.specs.Tells.{Tells};
ghost use Rattle.palm_domain.specs.Rows.{present_of};
ghost use Rattle.palm_search.specs.Asked.{IsLowestOpen};
ghost use Rattle.palm_search.specs.Turns.{IsDecided, IsDefault, IsLawful, IsOpen, IsUnlawful};

use crate::turn::Pick;
use palm_base::{Pair, Var};
use palm_domain::DomainStore;

/// Whether the variable has at least two values.
fn is_open(store: &DomainStore, var: Var) -> bool
    requires { var < length store.now }
    ensures { Tells result (IsOpen (present_of store.now) var) }
{
    store.count(var) >= 2
}

/// The lowest variable with at least two values, and none exactly where no variable has two. It takes no memory.
pub fn open_variable(store: &DomainStore) -> Option<Var>
    ensures { MatchOption result
        ((x : ℕ) → IsOpen (present_of store.now) x → ⊥)
        (IsLowestOpen (present_of store.now)) }
{
    for var in 0..store.variables() {
        if is_open(store, Var(var)) {
            return Some(Var(var));
        }
    }
    None
}

/// The lowest variable with at least two values, and its least value.
fn default_pair(store: &DomainStore) -> Pair
    requires { (x : ℕ) × IsOpen (present_of store.now) x }
    ensures { IsDefault (present_of store.now) result }
{
    let var = open_variable(store).unwrap();
    Pair {
        var,
        value: store.least(var),
    }
}

/// Whether the pair is a value of a variable that has at least two.
fn is_lawful(store: &DomainStore, pair: &Pair) -> bool
    ensures lawful { result ≡ true → IsLawful (present_of store.now) pair.now }
    ensures unlawful { result ≡ false → IsUnlawful (present_of store.now) pair.now }
{
    pair.var.0 < store.variables() && is_open(store, pair.var) && store.contains(pair.copy())
}

/// The pair that is decided after the pick: the pick where it is lawful, and the default otherwise.
pub(crate) fn decided_pair(store: &DomainStore, pick: &Pick) -> Pair
    requires { (x : ℕ) × IsOpen (present_of store.now) x }
    ensures { IsDecided (present_of store.now) pick.now result }
{
    match pick {
        Pick::Asked(pair) if is_lawful(store, pair) => pair.copy(),
        _ => default_pair(store),
    }
}
