//! The ones of a word.
ghost use Rattle.std.specs.Prelude.{◌≡◌, ℕ, ◌-◌, ◌^◌, ◌<◌, ◌≤◌, IfNone, IfSome};
ghost use Rattle.std.specs.Int.{bit_at};

/// The place of the first one from `from` on.
pub(crate) fn first_one(word: u64, from: usize) -> Option<usize>
    requires { from < 64 }
    ensures from { IfSome result (λ one. from ≤ one) }
    ensures within { IfSome result (λ one. one < 64) }
    ensures one { IfSome result (λ one. bit_at word one ≡ 1) }
    ensures before { IfSome result (λ one. (k : ℕ) → from ≤ k → k < one → bit_at word k ≡ 0) }
    ensures none { IfNone result ((k : ℕ) → from ≤ k → k < 64 → bit_at word k ≡ 0) }
{
    let rest = word >> from;
    if rest == 0 {
        None
    } else {
        Some(from + rest.trailing_zeros() as usize)
    }
}

/// One past the place of the last one below `before`, and 0 where there is none.
pub(crate) fn ones_end(word: u64, before: usize) -> usize
    requires { before ≤ 64 }
    ensures within { result ≤ before }
    ensures one { 0 < result → bit_at word (result - 1) ≡ 1 }
    ensures zeros { (k : ℕ) → result ≤ k → k < before → bit_at word k ≡ 0 }
{
    let low = word & low_ones(before);
    if low == 0 {
        0
    } else {
        low.ilog2() as usize + 1
    }
}

/// The word with ones at the first `count` places.
pub(crate) fn low_ones(count: usize) -> u64
    requires { count ≤ 64 }
    ensures { result ≡ 2 ^ count - 1 }
{
    if count == 0 {
        0
    } else {
        u64::MAX >> (64 - count)
    }
}
