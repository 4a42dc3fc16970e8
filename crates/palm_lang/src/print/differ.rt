//! Differ constraints at the end of what was written.
#![tactic(auto, using(crate::proofs::PrintLemmas::keeping))]

ghost use Rattle.std.specs.Prelude.{◌<◌, ◌∷◌, codes, map, All, length};
ghost use Rattle.palm_lang.specs.Print.{Puts};
ghost use Rattle.palm_read.specs.Words.{spaced};
ghost use Rattle.palm_book.specs.Book.{name_of};

use crate::print::lists::{put_names, put_vars};
use crate::print::words::put_text;
use palm_base::{NoMemory, VarList};
use palm_book::Book;
use palm_read::NameList;

/// `differ x y z`
pub(crate) fn put_differ(vars: &NameList, out: &mut Vec<u8>) -> Result<(), NoMemory>
    ensures { Puts out.old.items out.new.items (spaced (codes "differ" ∷ vars.now)) result }
{
    put_text("differ", out)?;
    put_names(vars, out)
}

/// `differ x y z`
pub(crate) fn put_differ_con(book: &Book, vars: &VarList, out: &mut Vec<u8>) -> Result<(), NoMemory>
    requires { All (λ x. x < length book.now.variables) vars.now }
    ensures { Puts out.old.items out.new.items (spaced (codes "differ" ∷ map (name_of book.now.variables) vars.now)) result }
{
    put_text("differ", out)?;
    put_vars(book, vars, out)
}
