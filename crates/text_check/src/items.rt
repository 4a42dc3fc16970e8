//! Reading items one after another.
ghost use Rattle.std.specs.Prelude.{option_map};
ghost use Rattle.palm_read.specs.Reader.Held.{Gives};
ghost use Rattle.palm_read.specs.Reader.Lists.{many_at};

use palm_base::Sequence;
use palm_read::{Cursor, LineError};
use std::alloc::Global;

/// Items that stand one after another in a phrase.
pub trait Items: Sized {
    ghost use Rattle.std.specs.Prelude.{List, Option};
    ghost use Rattle.palm_read.proofs.cited.Many.{Shortens};
    ghost use Rattle.palm_read.specs.Reader.Steps.{Reading};
    ghost use Rattle.palm_read.specs.Token.{Lexeme};

    /// One of them.
    type Item: Drop;

    /// What is read of the next one, if it stands in front.
    ghost next_at: { List Lexeme → Reading (Option Self.Item) };

    /// Each takes a token at least.
    ghost shortens: { Shortens next_at };

    /// Reads the next one, if it stands in front.
    fn next(cursor: &mut Cursor<'_>, alloc: Global) -> Result<Option<Self::Item>, LineError>
        ensures { Gives (option_map (λ item. item)) result cursor.new (next_at cursor.old) };
}

/// Reads items, as long as one stands in front.
pub fn read_items<R: Items>(
    cursor: &mut Cursor<'_>,
    alloc: Global,
) -> Result<Sequence<R::Item>, LineError>
    ensures { Gives (λ items. items) result cursor.new (many_at R.next_at cursor.old) }
{
    let mut items = Sequence::new(alloc);
    while let Some(item) = R::next(cursor, alloc)? {
        items.push(item)?;
    }
    Ok(items)
}
