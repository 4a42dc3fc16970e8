//! The best row of a view.
ghost use Rattle.std.specs.Prelude.{◌≡◌, filter, option_copied};
ghost use Rattle.palm_guide.specs.Picks.{IsPick};
ghost use Rattle.palm_guide.specs.Choices.{better};

use crate::guide::ViewRow;
use palm_base::Pair;

/// Which variables may be picked, and which of two is the better one.
pub(crate) trait Preference {
    ghost use Rattle.std.specs.Prelude.{Bool};
    ghost use Rattle.std.specs.Cmp.{IsStrictWeakOrder};
    ghost use Rattle.palm_guide.specs.declared.guide.ViewRow.{ViewRow as ViewRowTerm};

    /// Whether the variable of a row may be picked.
    ghost allows: { Self → ViewRowTerm → Bool };

    /// Whether the first row is better than the second.
    ghost beats: { Self → ViewRowTerm → ViewRowTerm → Bool };

    /// Whether the variable of the row may be picked.
    fn allows(&self, row: &ViewRow) -> bool
        ensures { result ≡ allows self.now row.now };

    /// Whether the row is better than the other.
    fn beats(&self, row: &ViewRow, other: &ViewRow) -> bool
        ensures { result ≡ beats self.now row.now other.now };

    /// The test is an order.
    ghost ranks: { (preference : Self) → IsStrictWeakOrder (beats preference) };
}

/// The row where it is better than the best one so far.
fn better<'a, P: Preference>(
    preference: &P,
    best: Option<&'a ViewRow>,
    row: &'a ViewRow,
) -> &'a ViewRow
    ensures { result.now ≡ better (P.beats preference.now) (option_copied best.entry) row.now }
{
    match best {
        Some(best) if !preference.beats(row, best) => best,
        _ => row,
    }
}

/// The pair of the best row that may be picked; of rows that are equally good, the first.
pub(crate) fn best_pair<P: Preference>(preference: &P, view: &[ViewRow]) -> Option<Pair>
    ensures { IsPick (P.beats preference.now) (filter (P.allows preference.now) view.now) result }
{
    let mut best = None;
    for row in view {
        if preference.allows(row) {
            best = Some(better(preference, best, row));
        }
    }
    best.map(|row| row.least_pair())
}
