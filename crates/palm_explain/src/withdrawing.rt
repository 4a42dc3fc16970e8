//! How a withdrawal puts back what it loses, forgets its numbers, and closes up the log. A variable of which it puts values back stands
//! in a list once: its row says where.
ghost use Rattle.std.specs.Prelude.{◌≡◌, ◌⊎◌, ℕ, ◌+◌, ◌<◌, ◌≤◌, List, true, false, Some, ◌∷◌, [], length, take, Contains, slice_get, vec_capacity, vec_len};
ghost use Rattle.palm_base.specs.declared.terms.Pair.{Pair as PairTerm};
ghost use Rattle.palm_domain.specs.Rows.{IsDeclared, IsPresent};
ghost use Rattle.palm_explain.specs.Explanations.{AreEnds, IsSpanned, restored_vars};
ghost use Rattle.palm_explain.specs.Losing.{HasBack, LosesNumbers, kept_of, marked_pairs};
ghost use Rattle.palm_explain.specs.Restored.{AreSlotted, KeepsNumbers};
ghost use Rattle.palm_explain.specs.Rows.{AreFormedRows, number_at};
ghost use Rattle.palm_explain.specs.declared.entry.Entry.{Entry as EntryTerm};
ghost use Rattle.palm_explain.specs.declared.restored.Restored.{Restored as RestoredTerm};

use crate::entry::Entry;
use crate::restored::Restored;
use crate::rows::{NO_NUMBER, Row, set_number, set_slot, slot_of};
use palm_base::{Pair, Var};
use palm_domain::DomainStore;

/// Puts a pair back, and notes it. Its number stays.
pub(crate) fn put_back(
    pair: Pair,
    rows: &mut Vec<Row>,
    restored: &mut Vec<Restored>,
    store: &mut DomainStore,
)
    requires row { pair.var < length rows.old.items }
    requires declared { IsDeclared store.old pair.var pair.value }
    requires out { IsPresent store.old pair.var pair.value → ⊥ }
    requires slots { AreSlotted rows.old.items restored.old.items }
    requires room { vec_len restored.old < vec_capacity restored.old }
    ensures numbers { KeepsNumbers rows.old.items rows.new.items }
    ensures back { HasBack store.old store.new (pair ∷ []) }
    ensures slots { AreSlotted rows.new.items restored.new.items }
    ensures noted { (x : ℕ) → Contains (restored_vars restored.new.items) x → Contains (restored_vars restored.old.items) x ⊎ (pair.var ≡ x) }
    ensures spanned { (p : PairTerm) → IsSpanned restored.old.items p ⊎ (pair ≡ p) → IsSpanned restored.new.items p }
    ensures ends { (pairs : List PairTerm) → AreEnds restored.old.items pairs → Contains pairs pair → AreEnds restored.new.items pairs }
    ensures room { (vec_capacity restored.new ≡ vec_capacity restored.old) × (vec_len restored.new ≤ vec_len restored.old + 1) }
{
    store.put_back(pair.copy());
    note(rows, restored, pair);
}

/// Whether the variable stands at the place.
#[inline(always)]
fn has_at(restored: &[Restored], place: usize, var: Var) -> bool
    ensures there { result ≡ true → (r : RestoredTerm) × (slice_get restored.now place ≡ Some r) × (r.var ≡ var) }
    ensures other { result ≡ false → (r : RestoredTerm) → slice_get restored.now place ≡ Some r → r.var ≡ var → ⊥ }
{
    match restored.get(place) {
        Some(entry) => entry.var == var,
        None => false,
    }
}

/// Notes a pair: its variable's entry is widened, or comes behind the others, for which there is room.
fn note(rows: &mut Vec<Row>, restored: &mut Vec<Restored>, pair: Pair)
    requires row { pair.var < length rows.old.items }
    requires slots { AreSlotted rows.old.items restored.old.items }
    requires room { vec_len restored.old < vec_capacity restored.old }
    ensures numbers { KeepsNumbers rows.old.items rows.new.items }
    ensures slots { AreSlotted rows.new.items restored.new.items }
    ensures noted { (x : ℕ) → Contains (restored_vars restored.new.items) x → Contains (restored_vars restored.old.items) x ⊎ (pair.var ≡ x) }
    ensures spanned { (p : PairTerm) → IsSpanned restored.old.items p ⊎ (pair ≡ p) → IsSpanned restored.new.items p }
    ensures ends { (pairs : List PairTerm) → AreEnds restored.old.items pairs → Contains pairs pair → AreEnds restored.new.items pairs }
    ensures room { (vec_capacity restored.new ≡ vec_capacity restored.old) × (vec_len restored.new ≤ vec_len restored.old + 1) }
{
    let slot = slot_of(rows, pair.var);
    if has_at(restored, slot, pair.var) {
        restored[slot].widen(pair.value);
        return;
    }
    set_slot(rows, pair.var, restored.len());
    restored.push_reserved(Restored::of(pair));
}

/// Takes the numbers of the marked ones away, from a place on.
pub(crate) fn forget_each(log: &[Entry], start: usize, rows: &mut Vec<Row>)
    requires formed { AreFormedRows rows.old.items }
    requires numbered { (e : EntryTerm) → Contains log.now e → (k : ℕ) × (number_at rows.old.items e.pair ≡ Some k) }
    requires before { (e : EntryTerm) → Contains (take start log.now) e → e.mark ≡ false }
    ensures { LosesNumbers rows.old.items rows.new.items (marked_pairs log.now) }
{
    for place in start..log.len() {
        let entry = &log[place];
        if entry.mark {
            set_number(rows, &entry.pair, NO_NUMBER);
        }
    }
}

/// Takes the marked ones out of the removals from a place on; the others keep their order.
pub(crate) fn close_up(log: &mut Vec<Entry>, start: usize)
    requires within { start ≤ length log.old.items }
    requires before { (e : EntryTerm) → Contains (take start log.old.items) e → e.mark ≡ false }
    ensures { log.new.items ≡ kept_of log.old.items }
{
    let mut kept = start;
    for place in start..log.len() {
        if !log[place].mark {
            log.swap(kept, place);
            kept += 1;
        }
    }
    log.truncate(kept);
}
