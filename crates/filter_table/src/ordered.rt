//! The pairs of one variable at the end of a list, in the order of their values.
ghost use Rattle.std.specs.Prelude.{◌≡◌, ℕ, ℤ, ◌≤◌, ◌++◌, List, OnOk, length, int_lt};
ghost use Rattle.filter_table.specs.Ordered.{HasValueAt, with_value};
ghost use Rattle.palm_base.specs.Ascending.{Ascends};
ghost use Rattle.palm_base.specs.Order.{IsPartedAt};
ghost use Rattle.palm_base.specs.Tells.{Tells};
ghost use Rattle.palm_base.specs.declared.terms.Pair.{Pair};
ghost use Rattle.palm_model.specs.Removed.{pairs_of};

use palm_base::{NoMemory, Pair, Value};
use palm_filter::Reasons;

/// How many of the pairs, whose values ascend, have a lesser value.
fn count_below(pairs: &[Pair], value: &Value) -> usize
    ensures within { result ≤ length pairs.now }
    ensures parted { (var : ℕ) (values : List ℤ) → pairs.now ≡ pairs_of var values → Ascends values
        → IsPartedAt (λ w. int_lt w value.now) values result }
{
    pairs.partition_point(|pair| pair.value < *value)
}

/// Whether a pair with the value stands at the place.
fn has_value_at(pairs: &[Pair], place: usize, value: &Value) -> bool
    ensures { Tells result (HasValueAt pairs.now place value.now) }
{
    match pairs.get(place) {
        Some(pair) => pair.value == *value,
        None => false,
    }
}

/// Puts the pair among those from the place on, which are of its variable and whose values ascend, unless it is there.
pub(crate) fn put_pair(out: &mut Reasons, from: usize, pair: Pair) -> Result<(), NoMemory>
    requires { from ≤ length out.old.items }
    ensures { (before : List Pair) (values : List ℤ) → from ≡ length before
        → out.old.items ≡ before ++ pairs_of pair.var values → Ascends values
        → OnOk result (out.new.items ≡ before ++ pairs_of pair.var (with_value values pair.value)) }
{
    let place = from + count_below(&out[from..], &pair.value);
    if !has_value_at(out, place, &pair.value) {
        out.insert(place, pair)?;
    }
    Ok(())
}
