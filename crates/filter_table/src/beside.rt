//! The values that stand beside those of a column, as bits.
ghost use Rattle.std.specs.Prelude.{◌≡◌, ℕ, pos, ◌+ℤ◌, ◌<◌, length, IfSome, MatchOption};
ghost use Rattle.filter_table.specs.Beside.{AreBeside, HasBit, IsNear};
ghost use Rattle.palm_base.specs.Tells.{Tells};

use palm_base::Value;

/// How many numbers of a column have a word, and how many of the other column have a bit in it.
pub(crate) const MOST_NEAR: usize = 64;

/// For each number of a column, from a least one on, a word with a bit for each number of the other column, from a
/// least one on: it is one where some row has both.
#[derive(Debug, Drop)]
pub(crate) struct Beside {
    pub(crate) own_least: Value,
    pub(crate) other_least: Value,
    pub(crate) words: [u64; MOST_NEAR],
}

/// How far the value lies above the least one, where it has a word or a bit.
#[inline(always)]
pub(crate) fn near(least: Value, value: Value) -> Option<usize>
    ensures { MatchOption result
        ((k : ℕ) → IsNear least value k → ⊥)
        (IsNear least value) }
{
    if value < least {
        return None;
    }
    let distance = value.0.abs_diff(least.0) as usize;
    if distance < MOST_NEAR {
        Some(distance)
    } else {
        None
    }
}

/// A word for each number of a column from its least value on, with the bits of the rows. There is none where a value of
/// either column is not near the least one.
fn words_of(
    own: &[Value],
    own_least: Value,
    other: &[Value],
    other_least: Value,
) -> Option<[u64; MOST_NEAR]>
    ensures { IfSome result (λ words. AreBeside own.now other.now (length own.now) (record { own_least = own_least; other_least = other_least; words = words })) }
{
    let mut words = [0; MOST_NEAR];
    for place in 0..own.len().min(other.len()) {
        let word = near(own_least, own[place])?;
        let bit = near(other_least, other[place])?;
        words[word] |= 1 << bit;
    }
    Some(words)
}

impl Beside {
    /// What stands beside the values of a column, in rows of two. It is not told where the values of either column lie too
    /// far apart.
    pub(crate) fn of(own: &[Value], other: &[Value]) -> Option<Beside>
        ensures { IfSome result (AreBeside own.now other.now (length own.now)) }
    {
        let own_least = *own.iter().min()?;
        let other_least = *other.iter().min()?;
        Some(Beside {
            own_least,
            other_least,
            words: words_of(own, own_least, other, other_least)?,
        })
    }

    /// Whether some row has both values.
    #[inline(always)]
    pub(crate) fn has(&self, own: Value, other: Value) -> bool
        ensures { Tells result (HasBit self.now own other) }
    {
        let Some(word) = near(self.own_least, own) else {
            return false;
        };
        let Some(bit) = near(self.other_least, other) else {
            return false;
        };
        (self.words[word] >> bit) & 1 == 1
    }
}
