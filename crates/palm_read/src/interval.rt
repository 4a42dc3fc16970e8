//! Whether values are all whole numbers from the first to the last.
ghost use Rattle.std.specs.Prelude.{◌≡◌, ◌+ℤ◌, pos};
ghost use Rattle.palm_base.specs.Tells.{Tells};
ghost use Rattle.palm_read.specs.Interval.{is_interval};

use palm_base::Value;
use palm_model::number_of;

/// Whether the second value is one more than the first.
fn is_next(value: &Value, next: &Value) -> bool
    ensures { Tells result (next.now ≡ value.now +ℤ pos 1) }
{
    number_of(next) == number_of(value) + 1
}

/// Whether each value is one more than the one before it.
pub fn is_interval(values: &[Value]) -> bool
    ensures { result ≡ is_interval values.now }
{
    let mut rest = values;
    while let [value, others @ ..] = rest {
        if others.is_empty() {
            return true;
        }
        if !is_next(value, &others[0]) {
            return false;
        }
        rest = others;
    }
    false
}
