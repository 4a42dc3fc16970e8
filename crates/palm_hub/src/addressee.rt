//! To whom a hub line goes, by its first bytes.
ghost use Rattle.std.specs.Prelude.{ℕ, List, ◌+◌, drop, take, IfNone, IfSome};
ghost use Rattle.palm_hub.specs.Addressing.{Addresses};
ghost use Rattle.palm_hub.specs.Standing.{Points};

use palm_read::{Cursor, token};

/// To whom a hub line goes.
#[derive(Clone, Copy, Debug, PartialEq, Eq)]
pub(crate) enum Addressee {
    /// Blanks alone: to nobody, if nothing follows.
    Blank,
    /// A comment goes to nobody.
    Nobody,
    /// The bytes do not begin with a name before a space or a tab.
    Nameless,
    /// To the session whose name is as many bytes long.
    Session(usize),
}

/// To whom a line with these first bytes goes.
pub(crate) fn addressee_of(head: &[u8]) -> Addressee
    ensures { Points head.now result }
{
    let Some(first) = token(head, 0) else {
        return Addressee::Blank;
    };
    if head[first.start] == b'#' {
        return Addressee::Nobody;
    }
    match name_length(head) {
        Some(length) => Addressee::Session(length),
        None => Addressee::Nameless,
    }
}

/// The length of the name that the bytes begin with, where a space or a tab stands behind it.
fn name_length(head: &[u8]) -> Option<usize>
    ensures some { IfSome result (λ n. Addresses head.now (take n head.now) (drop (n + 1) head.now)) }
    ensures none { IfNone result ((name line : List ℕ) → Addresses head.now name line → ⊥) }
{
    let name = Cursor::new(head).name()?;
    let gap = *head.strip_prefix(name)?.first()?;
    (gap == b' ' || gap == b'\t').then_some(name.len())
}
