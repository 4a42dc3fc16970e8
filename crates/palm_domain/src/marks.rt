//! A mark for each value that a variable may be declared with.
ghost use Rattle.std.specs.Prelude.{◌≡◌, ◌≢◌, ℕ, ◌+◌, ◌-◌, ◌<◌, ◌≤◌, true, false, not, nat_eq, nat_lt, IfNone, IfSome};
ghost use Rattle.std.specs.Int.{bit_at};
ghost use Rattle.palm_domain.specs.Marks.{is_marked};

use crate::bits::{first_one, low_ones, ones_end};
use crate::limits::MOST_VALUES;

/// A mark for each place, 64 of them to a word.
#[derive(Clone, Copy, Debug)]
pub(crate) struct Marks {
    words: [u64; 4],
}

impl Marks {
    /// Marks the first `count` places.
    pub(crate) fn of_first(count: usize) -> Marks
        requires { count ≤ MOST_VALUES }
        ensures { (k : ℕ) → is_marked result.words k ≡ nat_lt k count }
    {
        Marks {
            words: [
                low_ones(count.min(64)),
                low_ones(count.saturating_sub(64).min(64)),
                low_ones(count.saturating_sub(128).min(64)),
                low_ones(count.saturating_sub(192).min(64)),
            ],
        }
    }

    /// Whether the place is marked.
    pub(crate) fn has(&self, place: usize) -> bool
        requires { place < MOST_VALUES }
        ensures { result ≡ is_marked self.now.words place }
    {
        (self.words[place / 64] >> (place % 64)) & 1 == 1
    }

    /// Marks the place.
    pub(crate) fn set(&mut self, place: usize)
        requires { place < MOST_VALUES }
        ensures here { is_marked self.new.words place ≡ true }
        ensures others { (k : ℕ) → k ≢ place →
            is_marked self.new.words k ≡ is_marked self.old.words k }
    {
        self.words[place / 64] |= 1 << (place % 64);
    }

    /// Takes the mark of the place away.
    pub(crate) fn clear(&mut self, place: usize)
        requires { place < MOST_VALUES }
        ensures here { is_marked self.new.words place ≡ false }
        ensures others { (k : ℕ) → k ≢ place →
            is_marked self.new.words k ≡ is_marked self.old.words k }
    {
        self.words[place / 64] &= !(1 << (place % 64));
    }

    /// A bit for each of the 64 places from `from` on: one where the place is marked.
    #[inline(always)]
    pub(crate) fn window(&self, from: usize) -> u64
        requires { from < MOST_VALUES }
        ensures { (k : ℕ) → k < 64 →
            nat_eq (bit_at result k) 1 ≡ is_marked self.now.words (from + k) }
    {
        let low = self.words[from / 64] >> (from % 64);
        let past = 64 - from % 64;
        if past == 64 || from / 64 == 3 {
            low
        } else {
            low | self.words[from / 64 + 1] << past
        }
    }

    /// The first marked place from `from` on, where one below `end` is marked. No word behind that of `end` is read.
    pub(crate) fn next_set(&self, from: usize, end: usize) -> Option<usize>
        requires { end ≤ MOST_VALUES }
        ensures from { IfSome result (λ place. from ≤ place) }
        ensures within { IfSome result (λ place. place < MOST_VALUES) }
        ensures marked { IfSome result (λ place. is_marked self.now.words place ≡ true) }
        ensures between { IfSome result (λ place. (k : ℕ) →
            from ≤ k → k < place → is_marked self.now.words k ≡ false) }
        ensures none { IfNone result ((k : ℕ) →
            from ≤ k → k < end → is_marked self.now.words k ≡ false) }
    {
        let mut at = from;
        while at < end {
            if let Some(one) = first_one(self.words[at / 64], at % 64) {
                return Some(at / 64 * 64 + one);
            }
            at = at / 64 * 64 + 64;
        }
        None
    }

    /// One past the last marked place below `before`, and 0 where there is none.
    pub(crate) fn end_below(&self, before: usize) -> usize
        requires { before ≤ MOST_VALUES }
        ensures within { result ≤ before }
        ensures marked { 0 < result → is_marked self.now.words (result - 1) ≡ true }
        ensures between { (k : ℕ) →
            result ≤ k → k < before → is_marked self.now.words k ≡ false }
    {
        let mut at = before;
        while at > 0 {
            let word = (at - 1) / 64;
            let end = ones_end(self.words[word], at - word * 64);
            if end > 0 {
                return word * 64 + end;
            }
            at = word * 64;
        }
        0
    }

    /// The marks that these leave out.
    pub(crate) fn flipped(&self) -> Marks
        ensures { (k : ℕ) → k < MOST_VALUES →
            is_marked result.words k ≡ not (is_marked self.now.words k) }
    {
        let [a, b, c, d] = self.words;
        Marks {
            words: [!a, !b, !c, !d],
        }
    }
}
