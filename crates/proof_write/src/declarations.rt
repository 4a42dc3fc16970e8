//! Writing what a proof is of: the variables and the active constraints.
ghost use Rattle.std.specs.Prelude.{filter, flat_map};
ghost use Rattle.palm_cert.specs.Certificate.{added_line};
ghost use Rattle.palm_lang.specs.Writer.{Wrote};
ghost use Rattle.palm_lang.specs.Writing.{Writes};
ghost use Rattle.proof_run.specs.Text.{declarations};

use palm_base::Sink;
use palm_cert::write_added;
use palm_lang::{Book, WriteStop, Writer};

/// Writes the header, every variable, and every active constraint by rising number.
pub(crate) fn write_declarations<K: Sink>(
    book: &Book,
    out: &mut K,
    buffer: &mut Vec<u8>,
) -> Result<(), WriteStop>
    ensures { Writes (K.state out.old) (K.state out.new) (declarations book.now) result }
{
    let mut writer = Writer::new(out, buffer);
    writer.text(b"palm-proof 1\n")?;
    writer.variables(book)?;
    write_constraints(book, &mut writer)
}

/// Writes the active constraints.
fn write_constraints<K: Sink>(book: &Book, writer: &mut Writer<'_, K>) -> Result<(), WriteStop>
    ensures { Wrote K.state writer.old writer.new (flat_map (added_line book.now.variables) (filter (λ c. c.active) book.now.constraints)) result }
{
    for place in 0..book.constraints() {
        let entry = book.constraint(place);
        if entry.active {
            write_added(book, entry, writer)?;
        }
    }
    Ok(())
}
