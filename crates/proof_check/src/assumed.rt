//! The pairs that a lemma assumes, found by their variables: the value that is assumed for each variable, if any.
ghost use Rattle.std.specs.Prelude.{◌≡◌, ◌<◌, Some, length};
ghost use Rattle.palm_base.specs.Tells.{Tells};
ghost use Rattle.proof_check.specs.Kept.{IsOther, Puts, assumed_at};

use palm_base::{Pair, Value, Var};

/// The value that is assumed for a variable.
pub fn value_of(assumed: &[Option<Value>], var: Var) -> Option<Value>
    ensures { result ≡ assumed_at assumed.now var }
{
    *assumed.get(var.0 as usize)?
}

/// Whether the pair is assumed.
pub fn is_assumed(assumed: &[Option<Value>], pair: &Pair) -> bool
    ensures { Tells result (assumed_at assumed.now pair.now.var ≡ Some pair.now.value) }
{
    value_of(assumed, pair.var) == Some(pair.value)
}

/// Whether another value is assumed for the pair's variable.
pub fn is_other_assumed(assumed: &[Option<Value>], pair: &Pair) -> bool
    ensures { Tells result (IsOther assumed.now pair.now) }
{
    match value_of(assumed, pair.var) {
        Some(value) => value != pair.value,
        None => false,
    }
}

/// Assumes a value for a variable, or none.
pub fn put(assumed: &mut [Option<Value>], var: Var, value: Option<Value>)
    requires { var < length assumed.old }
    ensures { Puts assumed.old assumed.new var value }
{
    assumed[var.0 as usize] = value;
}
