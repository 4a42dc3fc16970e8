//! Laws about the plain types and where counts end, each the contract of a function with an empty body.
ghost use Rattle.std.specs.Prelude.{◌≡◌, ◌↔◌, true};
ghost use Rattle.palm_base.specs.Order.{cid_before};
ghost use Rattle.palm_base.specs.declared.limits.TheConstants.{LAST_COUNT};

use crate::terms::Cid;
use std::cmp::Ordering;

/// The order of ids is that of `cid_before`: decisions come before negations before the constraints of users.
pub fn ids_are_ordered()
    ensures { (a b : Cid) → (⟦<Cid as Ord>⟧.cmp a b ≡ Ordering.Less) ↔ (cid_before a b ≡ true) }
{}

/// The number at which counts end.
pub fn limits_are_these_numbers()
    ensures count { LAST_COUNT ≡ 18446744073709551615 }
{}
