//! Sets of places, of few of many: a word for 64 places that stand together, where one of them is in the set, and words of no place
//! where few would be missing between two. A walk down the log keeps the numbers of removals so, and a set of ids the variables of
//! decisions and the numbers of users.
ghost use Rattle.std.specs.Prelude.{◌≡◌, ◌⊎◌, ℕ, ◌%◌, ◌<◌, ◌≤◌, true, [], length, nat_le, nat_lt, slice_index_or, slice_set, IfNone, IfOk, IfSome, OnOk};
ghost use Rattle.std.specs.Int.{bit_at};
ghost use Rattle.palm_base.specs.Order.{IsPartedAt};
ghost use Rattle.palm_base.specs.Tells.{Tells};
ghost use Rattle.palm_explain.specs.Places.{ArePlaceWords, BeginsBelow, HasPlace, HasSame, IsFirstIn, IsFirstOne, IsGapAt, IsIn, IsLastBelow, IsLastIn, IsMissing, with_bits};
ghost use Rattle.palm_explain.specs.declared.places.PlaceWord.{PlaceWord as PlaceWordTerm};

use palm_base::NoMemory;
use std::alloc::{AllocError, Global};
use std::marker::Model;

/// How far behind one another two words may begin, if words of no place are to be put between.
const GAP: usize = 16 * 64;

/// Which of 64 places that stand together are in a set.
#[derive(Clone, Copy, Debug)]
pub(crate) struct PlaceWord {
    /// The first of the 64, a multiple of 64.
    start: usize,
    /// A one for each that is in the set.
    bits: u64,
}

/// A set of places. Its words fall: a walk goes down the log, and so mostly adds the last one.
#[derive(Debug, Drop)]
pub(crate) struct Places {
    words: Vec<PlaceWord>,
    /// Where the word of the place that was added last stands, most likely.
    near: usize,
}

impl Model for Places {
    ghost use Rattle.std.specs.Prelude.{List};
    ghost use Rattle.palm_explain.specs.Places.{ArePlaceWords};
    ghost use Rattle.palm_explain.specs.declared.places.PlaceWord.{PlaceWord as PlaceWordTerm};

    ghost Value = { List PlaceWordTerm };

    ghost view = { λ s. s.words.items };

    ghost invariant = { λ s. ArePlaceWords s.words.items };
}

impl Places {
    /// No place.
    pub(crate) fn new(alloc: Global) -> Places
        ensures { result ≡ [] }
    {
        Places {
            words: Vec::new(alloc),
            near: 0,
        }
    }

    /// Adds a place, unless it is there. Without memory nothing changes.
    #[inline(always)]
    pub(crate) fn add(&mut self, place: usize) -> Result<(), NoMemory>
        ensures there { OnOk result (HasPlace self.new place) }
        ensures stay { (p : ℕ) → HasPlace self.old p → HasPlace self.new p }
        ensures only { (p : ℕ) → HasPlace self.new p → HasPlace self.old p ⊎ (place ≡ p) }
    {
        self.add_word(&PlaceWord {
            start: place - place % 64,
            bits: 1 << (place % 64),
        })
    }

    /// Adds the places of a word, but for those that are there. Without memory no place is added.
    #[inline(always)]
    fn add_word(&mut self, word: &PlaceWord) -> Result<(), NoMemory>
        requires { word.now.start % 64 ≡ 0 }
        ensures there { OnOk result ((p : ℕ) → IsIn word.now p → HasPlace self.new p) }
        ensures stay { (p : ℕ) → HasPlace self.old p → HasPlace self.new p }
        ensures only { (p : ℕ) → HasPlace self.new p → HasPlace self.old p ⊎ IsIn word.now p }
    {
        let guess = guessed(&self.words, self.near, word.start);
        if starts_at(&self.words, guess, word.start) {
            self.near = guess;
            join_bits(&mut self.words, guess, word.bits);
            return Ok(());
        }
        self.add_far_word(word)
    }

    /// The same of a word that does not begin where it was guessed.
    #[inline(never)]
    fn add_far_word(&mut self, word: &PlaceWord) -> Result<(), NoMemory>
        requires { word.now.start % 64 ≡ 0 }
        ensures there { OnOk result ((p : ℕ) → IsIn word.now p → HasPlace self.new p) }
        ensures stay { (p : ℕ) → HasPlace self.old p → HasPlace self.new p }
        ensures only { (p : ℕ) → HasPlace self.new p → HasPlace self.old p ⊎ IsIn word.now p }
    {
        let at = index_by_halves(&self.words, word.start);
        if starts_at(&self.words, at, word.start) {
            self.near = at;
            join_bits(&mut self.words, at, word.bits);
            return Ok(());
        }
        let gap = reach(&mut self.words, at, word.start)?;
        self.near = gap;
        self.words.insert(gap, *word)?;
        Ok(())
    }

    /// Adds the places of another set, a word at a time.
    pub(crate) fn add_all(&mut self, other: &Places) -> Result<(), NoMemory>
        ensures there { OnOk result ((p : ℕ) → HasPlace other.now p → HasPlace self.new p) }
        ensures stay { (p : ℕ) → HasPlace self.old p → HasPlace self.new p }
        ensures only { (p : ℕ) → HasPlace self.new p → HasPlace self.old p ⊎ HasPlace other.now p }
    {
        for word in other.words.as_slice() {
            self.add_word(word)?;
        }
        Ok(())
    }

    /// Whether the place is in the set.
    pub(crate) fn has(&self, place: usize) -> bool
        ensures { Tells result (HasPlace self.now place) }
    {
        let start = place - place % 64;
        let at = index_near(&self.words, self.near, start);
        starts_at(&self.words, at, start) && has_bit(&self.words, at, place % 64)
    }

    /// The words. They fall.
    pub(crate) fn words(&self) -> &[PlaceWord]
        ensures words { result.now ≡ self.now }
        ensures formed { ArePlaceWords result.now }
    {
        self.words.as_slice()
    }

    /// How many places there are.
    pub(crate) fn count(&self) -> usize {
        let mut count: usize = 0;
        for word in self.words.as_slice() {
            count = count.saturating_add(word.bits.count_ones() as usize);
        }
        count
    }

    /// The last of the places below the end. Its word is looked for first at an index, and `near` is then where it stands.
    #[inline(always)]
    pub(crate) fn last_below(&self, end: usize, near: &mut usize) -> Option<usize>
        ensures some { IfSome result (λ place. IsLastBelow self.now end place) }
        ensures none { IfNone result ((p : ℕ) → HasPlace self.now p → p < end → ⊥) }
    {
        let words = self.words.as_slice();
        let mut index = index_below(words, *near, end);
        while index < words.len() {
            if let Some(place) = last_in(&words[index], end) {
                *near = index;
                return Some(place);
            }
            index += 1;
        }
        None
    }
}

/// Whether the word at an index begins at this place.
#[inline(always)]
fn starts_at(words: &[PlaceWord], index: usize, start: usize) -> bool
    ensures { Tells result (index < length words.now × ((d : PlaceWordTerm) → (slice_index_or words.now index d).start ≡ start)) }
{
    match words.get(index) {
        Some(word) => word.start == start,
        None => false,
    }
}

/// The index of the word that begins at this place if no word is missing between it and the one at `near`.
#[inline(always)]
fn guessed(words: &[PlaceWord], near: usize, start: usize) -> usize {
    match words.get(near) {
        Some(word) => near.wrapping_add((word.start / 64).wrapping_sub(start / 64)),
        None => 0,
    }
}

/// How many of the words begin behind this place: mostly no word is missing between the one at `near` and the one that begins there.
#[inline(always)]
fn index_near(words: &[PlaceWord], near: usize, start: usize) -> usize
    requires { ArePlaceWords words.now }
    ensures { IsPartedAt (λ w. nat_lt start w.start) words.now result }
{
    let guess = guessed(words, near, start);
    if starts_at(words, guess, start) {
        return guess;
    }
    index_by_halves(words, start)
}

/// How many of the words begin behind this place.
fn index_by_halves(words: &[PlaceWord], start: usize) -> usize
    requires { ArePlaceWords words.now }
    ensures { IsPartedAt (λ w. nat_lt start w.start) words.now result }
{
    words.partition_point(|word| start < word.start)
}

/// Where the next word begins, if the last one begins behind `start`, and few words but some are missing between.
#[inline(always)]
fn next_missing(words: &[PlaceWord], start: usize) -> Option<usize>
    requires formed { ArePlaceWords words.now }
    requires aligned { start % 64 ≡ 0 }
    ensures { IfSome result (λ next. IsMissing words.now start next) }
{
    let count = words.len();
    if count == 0 {
        return None;
    }
    let last = words[count - 1].start;
    if last <= start || last - start <= 64 || last - start > GAP {
        return None;
    }
    Some(last - 64)
}

/// Where a word belongs that begins at `start` and is missing at an index. If that is behind the others, words of no place are put
/// between, but not where many are missing.
fn reach(words: &mut Vec<PlaceWord>, at: usize, start: usize) -> Result<usize, NoMemory>
    requires { IsGapAt words.old.items start at }
    ensures gap { IfOk result (IsGapAt words.new.items start) }
    ensures same { HasSame words.old.items words.new.items }
{
    if at < words.len() {
        return Ok(at);
    }
    while let Some(next) = next_missing(words, start) {
        words.push(PlaceWord {
            start: next,
            bits: 0,
        })?;
    }
    Ok(words.len())
}

/// Whether the word at an index is the first one that begins below this place.
#[inline(always)]
fn begins_below(words: &[PlaceWord], index: usize, end: usize) -> bool
    ensures { result ≡ true → BeginsBelow words.now index end }
{
    match words.get(index) {
        Some(word) => word.start < end && (index == 0 || end <= words[index - 1].start),
        None => false,
    }
}

/// How many of the words begin at this place or behind it: mostly so many as at `near`.
#[inline(always)]
fn index_below(words: &[PlaceWord], near: usize, end: usize) -> usize
    requires { ArePlaceWords words.now }
    ensures { IsPartedAt (λ w. nat_le end w.start) words.now result }
{
    if begins_below(words, near, end) {
        return near;
    }
    words.partition_point(|word| end <= word.start)
}

/// Makes each of these bits of the word at an index a one.
#[inline(always)]
fn join_bits(words: &mut Vec<PlaceWord>, index: usize, bits: u64)
    requires { index < length words.old.items }
    ensures { (d : PlaceWordTerm) → words.new.items
        ≡ slice_set words.old.items index (with_bits (slice_index_or words.old.items index d) bits) }
{
    words[index].bits |= bits;
}

/// Whether a bit of the word at an index is a one.
#[inline(always)]
fn has_bit(words: &[PlaceWord], index: usize, bit: usize) -> bool
    requires index { index < length words.now }
    requires bit { bit < 64 }
    ensures { Tells result ((d : PlaceWordTerm) → bit_at (slice_index_or words.now index d).bits bit ≡ 1) }
{
    (words[index].bits >> bit) & 1 == 1
}

/// The first so many bits of a word.
#[inline(always)]
fn low_bits(bits: u64, count: usize) -> u64
    ensures below { (k : ℕ) → k < count → bit_at result k ≡ bit_at bits k }
    ensures above { (k : ℕ) → count ≤ k → bit_at result k ≡ 0 }
{
    if count < 64 {
        bits & ((1 << count) - 1)
    } else {
        bits
    }
}

/// The last place of the word below the end.
#[inline(always)]
fn last_in(word: &PlaceWord, end: usize) -> Option<usize>
    requires start { word.now.start < end }
    requires aligned { word.now.start % 64 ≡ 0 }
    ensures some { IfSome result (λ place. IsLastIn word.now end place) }
    ensures none { IfNone result ((p : ℕ) → IsIn word.now p → p < end → ⊥) }
{
    let low = low_bits(word.bits, end - word.start);
    if low == 0 {
        return None;
    }
    Some(word.start + low.ilog2() as usize)
}

/// The first one of a word from a bit on.
#[inline(always)]
fn first_one(bits: u64, from: usize) -> Option<usize>
    requires { from < 64 }
    ensures some { IfSome result (λ one. IsFirstOne bits from one) }
    ensures none { IfNone result ((k : ℕ) → from ≤ k → bit_at bits k ≡ 0) }
{
    let rest = bits >> from;
    if rest == 0 {
        return None;
    }
    Some(from + rest.trailing_zeros() as usize)
}

/// The first place of the word from a place on.
#[inline(always)]
pub(crate) fn first_in(word: &PlaceWord, from: usize) -> Option<usize>
    requires { word.now.start % 64 ≡ 0 }
    ensures some { IfSome result (λ place. IsFirstIn word.now from place) }
    ensures none { IfNone result ((p : ℕ) → IsIn word.now p → from ≤ p → ⊥) }
{
    let before = from.saturating_sub(word.start);
    if before >= 64 {
        return None;
    }
    let bit = first_one(word.bits, before)?;
    Some(word.start + bit)
}
