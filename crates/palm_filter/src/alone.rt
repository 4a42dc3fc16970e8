//! Whether a variable has one value alone.
ghost use Rattle.std.specs.Prelude.{◌≡◌, ◌<◌, length};
ghost use Rattle.palm_domain.specs.Rows.{present_of};
ghost use Rattle.palm_model.specs.Domains.{values_of};
ghost use Rattle.palm_model.specs.Removed.{is_alone};

use palm_base::Pair;
use palm_domain::DomainStore;

/// Whether the value of the pair is the only present one of its variable.
pub fn is_alone(store: &DomainStore, pair: &Pair) -> bool
    requires { pair.now.var < length store.now }
    ensures { result ≡ is_alone (values_of (present_of store.now) pair.now.var) pair.now.value }
{
    store.count(pair.var) == 1
        && store.contains(Pair {
            var: pair.var,
            value: pair.value,
        })
}
