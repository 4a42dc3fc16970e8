//! Counts that end at a last number.
ghost use Rattle.std.specs.Prelude.{◌≡◌};
ghost use Rattle.palm_base.specs.Counts.{one_more};

use crate::limits::LAST_COUNT;

/// One more, up to `LAST_COUNT`.
pub fn next_count(count: u64) -> u64
    ensures { result ≡ one_more count }
{
    if count < LAST_COUNT {
        count + 1
    } else {
        LAST_COUNT
    }
}
