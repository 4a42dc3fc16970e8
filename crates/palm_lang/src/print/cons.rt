//! Constraints with the names that a book has for their variables, kind by kind.
#![tactic(auto, using(crate::proofs::PrintLemmas::keeping))]

ghost use Rattle.std.specs.Prelude.{◌<◌, All, length};
ghost use Rattle.palm_lang.specs.Print.{Puts};
ghost use Rattle.palm_lang.specs.Reply.{con_text};
ghost use Rattle.palm_model.specs.Constraint.{scope};

use crate::print::comparison::{put_compare_const, put_compare_var};
use crate::print::count::put_count_con;
use crate::print::differ::put_differ_con;
use crate::print::element::put_element;
use crate::print::linear::put_linear_con;
use crate::print::table::put_table_con;
use crate::print::within::put_within_con;
use palm_base::NoMemory;
use palm_book::Book;
use palm_model::Con;

/// A constraint with the book's names.
pub(crate) fn put_con(book: &Book, con: &Con, out: &mut Vec<u8>) -> Result<(), NoMemory>
    requires { All (λ x. x < length book.now.variables) (scope con.now) }
    ensures { Puts out.old.items out.new.items (con_text book.now.variables con.now) result }
{
    match con {
        Con::CompareVar {
            left,
            op,
            right,
            offset,
        } => put_compare_var(
            book.variable_name(*left),
            *op,
            book.variable_name(*right),
            offset,
            out,
        ),
        Con::CompareConst { left, op, value } => {
            put_compare_const(book.variable_name(*left), *op, value, out)
        }
        Con::Linear { terms, op, bound } => put_linear_con(book, terms, *op, bound, out),
        Con::Table { vars, rows } => put_table_con(book, vars, rows, out),
        Con::Element {
            outcome,
            index,
            entries,
        } => put_element(
            book.variable_name(*outcome),
            book.variable_name(*index),
            entries,
            out,
        ),
        Con::Count {
            value,
            vars,
            op,
            target,
        } => put_count_con(book, value, vars, *op, target, out),
        Con::Differ { vars } => put_differ_con(book, vars, out),
        Con::Within { var, values } => {
            put_within_con(book.variable_name(*var), values.as_slice(), out)
        }
    }
}
