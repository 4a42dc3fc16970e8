//! Tables at the end of what was written.
#![tactic(auto, using(crate::proofs::PrintLemmas::keeping))]

ghost use Rattle.std.specs.Prelude.{◌<◌, ◌++◌, ◌∷◌, codes, map, All, length};
ghost use Rattle.palm_lang.specs.Print.{Puts};
ghost use Rattle.palm_read.specs.Words.{spaced, row_text};
ghost use Rattle.palm_book.specs.Book.{name_of};

use crate::print::lists::{put_names, put_rows, put_vars};
use crate::print::words::put_text;
use palm_base::{NoMemory, VarList};
use palm_book::Book;
use palm_model::RowList;
use palm_read::NameList;

/// `table x y : (1,2) (2,3)`
pub(crate) fn put_table(vars: &NameList, rows: &RowList, out: &mut Vec<u8>) -> Result<(), NoMemory>
    ensures { Puts out.old.items out.new.items (spaced (codes "table" ∷ vars.now ++ codes ":" ∷ map row_text rows.now)) result }
{
    put_text("table", out)?;
    put_names(vars, out)?;
    put_text(" :", out)?;
    put_rows(rows, out)
}

/// `table x y : (1,2) (2,3)`
pub(crate) fn put_table_con(
    book: &Book,
    vars: &VarList,
    rows: &RowList,
    out: &mut Vec<u8>,
) -> Result<(), NoMemory>
    requires { All (λ x. x < length book.now.variables) vars.now }
    ensures { Puts out.old.items out.new.items (spaced (codes "table" ∷ map (name_of book.now.variables) vars.now ++ codes ":" ∷ map row_text rows.now)) result }
{
    put_text("table", out)?;
    put_vars(book, vars, out)?;
    put_text(" :", out)?;
    put_rows(rows, out)
}
