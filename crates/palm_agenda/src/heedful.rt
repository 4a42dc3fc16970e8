//! Which variables have a constraint over them that may heed losses that leave several values.
ghost use Rattle.std.specs.Prelude.{◌≡◌, ◌<◌, ℕ, true, false, length, slice_index_or, slice_set, Contains, OnOk};
ghost use Rattle.palm_agenda.specs.Agenda.{HeedsAlone};
ghost use Rattle.palm_agenda.specs.Kept.{NotesMore};

use crate::connection::Connection;
use palm_base::{NoMemory, Var};

/// Whether the variable is noted.
#[inline(always)]
pub(crate) fn is_heedful(heedful: &[bool], var: &Var) -> bool
    ensures { result ≡ slice_index_or heedful.now var.now false }
{
    heedful.get(var.0 as usize).copied().unwrap_or(false)
}

/// Raises a flag.
fn raise(heedful: &mut Vec<bool>, place: usize)
    requires { place < length heedful.old.items }
    ensures { heedful.new.items ≡ slice_set heedful.old.items place true }
{
    heedful[place] = true;
}

/// Notes the variable.
fn note(heedful: &mut Vec<bool>, var: &Var) -> Result<(), NoMemory>
    ensures more { NotesMore heedful.old.items heedful.new.items }
    ensures noted { OnOk result (slice_index_or heedful.new.items var.now false ≡ true) }
{
    let place = var.0 as usize;
    while heedful.len() <= place {
        heedful.push(false)?;
    }
    raise(heedful, place);
    Ok(())
}

/// Notes the variables of a constraint that may heed losses that leave several values.
pub(crate) fn note_heeds(heedful: &mut Vec<bool>, connection: &Connection) -> Result<(), NoMemory>
    ensures stay { NotesMore heedful.old.items heedful.new.items }
    ensures alone { OnOk result ((x : ℕ) → slice_index_or heedful.new.items x false ≡ false
        → Contains connection.now.scope x → HeedsAlone connection.now) }
{
    if connection.heeds_alone() {
        return Ok(());
    }
    for var in connection.scope() {
        note(heedful, var)?;
    }
    Ok(())
}
