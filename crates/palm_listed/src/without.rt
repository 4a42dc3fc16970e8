//! Whether a pair lacks support, by the filter of a constraint within the declared values without some pairs.
ghost use Rattle.std.specs.Prelude.{◌≡◌, ◌<◌, [], ◌∷◌, length, All, Any};
ghost use Rattle.palm_base.specs.Tells.{Tells};
ghost use Rattle.palm_listed.specs.Store.{IsFull, PutsBack, TakesOut};
ghost use Rattle.palm_domain.specs.Rows.{IsDeclared, initial_of, present_of};
ghost use Rattle.palm_kind.specs.Kind.{con_of};
ghost use Rattle.palm_model.specs.Constraint.{IsWellFormed};
ghost use Rattle.palm_model.specs.Domains.{without};
ghost use Rattle.palm_model.specs.Support.{LacksSupport};

use palm_base::{Pair, Var};
use palm_domain::DomainStore;
use palm_filter::Filter;
use palm_kind::Kind;

/// Takes out the pairs, those of them that are present.
pub fn take_out_all(store: &mut DomainStore, pairs: &[Pair])
    requires { All (λ p. p.var < length store.old) pairs.now }
    ensures { TakesOut store.old store.new pairs.now }
{
    for pair in pairs {
        take_out(store, pair);
    }
}

/// Takes out a pair, where it is present.
fn take_out(store: &mut DomainStore, pair: &Pair)
    requires { pair.now.var < length store.old }
    ensures { TakesOut store.old store.new (pair.now ∷ []) }
{
    if store.contains(*pair) {
        store.take_out(*pair);
    }
}

/// Puts back the pairs, those of them that are not present.
pub fn put_back_all(store: &mut DomainStore, pairs: &[Pair])
    requires { All (λ p. IsDeclared store.old p.var p.value) pairs.now }
    ensures { PutsBack store.old store.new pairs.now }
{
    for pair in pairs {
        put_back(store, pair);
    }
}

/// Puts back a pair, where it is not present.
fn put_back(store: &mut DomainStore, pair: &Pair)
    requires { IsDeclared store.old pair.now.var pair.now.value }
    ensures { PutsBack store.old store.new (pair.now ∷ []) }
{
    if !store.contains(*pair) {
        store.put_back(*pair);
    }
}

/// Whether the variable is one of these.
fn is_among(vars: &[Var], var: Var) -> bool
    ensures { Tells result (Any (λ x. x ≡ var) vars.now) }
{
    vars.iter().any(|x| x.0 == var.0)
}

/// Whether the pair lacks support in the filter's constraint within the present values. A variable outside the scope is
/// in no part, and a pair that is not present has no support in any part over its variable.
fn lacks_support(store: &DomainStore, filter: &Kind, pair: &Pair) -> bool
    requires formed { IsWellFormed (length store.now) (con_of filter.now) }
    requires declared { pair.now.var < length store.now }
    ensures { Tells result (LacksSupport (present_of store.now) (con_of filter.now) pair.now.var pair.now.value) }
{
    if !is_among(filter.scope().as_slice(), pair.var) {
        return false;
    }
    if !store.contains(*pair) {
        return true;
    }
    !filter.supported(store, *pair)
}

/// Whether the pair lacks support in the filter's constraint within the declared values without these pairs.
/// All declared values are present, before and afterwards.
pub fn lacks_support_without(
    store: &mut DomainStore,
    filter: &Kind,
    pair: &Pair,
    removed: &[Pair],
) -> bool
    requires full { IsFull store.old }
    requires formed { IsWellFormed (length store.old) (con_of filter.now) }
    requires declared { pair.now.var < length store.old }
    requires removed { All (λ p. IsDeclared store.old p.var p.value) removed.now }
    ensures tells { Tells result (LacksSupport (without (initial_of store.old) removed.now) (con_of filter.now) pair.now.var pair.now.value) }
    ensures initial { initial_of store.new ≡ initial_of store.old }
    ensures full { IsFull store.new }
{
    let _ = store.variables();
    take_out_all(store, removed);
    let lacks = lacks_support(store, filter, pair);
    put_back_all(store, removed);
    lacks
}
