//! Element constraints at the end of what was written.
#![tactic(auto, using(crate::proofs::PrintLemmas::keeping))]

ghost use Rattle.std.specs.Prelude.{◌<◌, [], ◌∷◌, codes};
ghost use Rattle.palm_lang.specs.Print.{Puts};
ghost use Rattle.palm_read.specs.Words.{spaced, row_text};

use crate::print::lists::put_row;
use crate::print::words::{put_spaced_name, put_text};
use palm_base::{NoMemory, ValueList};
use palm_read::Name;

/// `element z y (5,3,5)`
pub(crate) fn put_element(
    outcome: &Name,
    index: &Name,
    entries: &ValueList,
    out: &mut Vec<u8>,
) -> Result<(), NoMemory>
    ensures { Puts out.old.items out.new.items (spaced (codes "element" ∷ outcome.now ∷ index.now ∷ row_text entries.now ∷ [])) result }
{
    put_text("element", out)?;
    put_spaced_name(outcome, out)?;
    put_spaced_name(index, out)?;
    put_text(" ", out)?;
    put_row(entries, out)
}
