//! Constraints with names, kind by kind.
#![tactic(auto, using(crate::proofs::PrintLemmas::keeping))]

ghost use Rattle.std.specs.Prelude.{◌<◌};
ghost use Rattle.palm_lang.specs.Print.{Puts};
ghost use Rattle.palm_read.specs.Text.{shape_words};
ghost use Rattle.palm_read.specs.Words.{spaced};

use crate::print::comparison::{put_compare_const, put_compare_var};
use crate::print::count::put_count;
use crate::print::differ::put_differ;
use crate::print::element::put_element;
use crate::print::linear::put_linear;
use crate::print::table::put_table;
use crate::print::within::put_within;
use palm_base::NoMemory;
use palm_read::Shape;

/// A constraint with names.
pub(crate) fn put_shape(shape: &Shape, out: &mut Vec<u8>) -> Result<(), NoMemory>
    ensures { Puts out.old.items out.new.items (spaced (shape_words shape.now)) result }
{
    match shape {
        Shape::CompareVar {
            left,
            op,
            right,
            offset,
        } => put_compare_var(left, *op, right, offset, out),
        Shape::CompareConst { left, op, value } => put_compare_const(left, *op, value, out),
        Shape::Linear { terms, op, bound } => put_linear(terms, *op, bound, out),
        Shape::Table { vars, rows } => put_table(vars, rows, out),
        Shape::Element {
            outcome,
            index,
            entries,
        } => put_element(outcome, index, entries, out),
        Shape::Count {
            value,
            vars,
            op,
            target,
        } => put_count(value, vars, *op, target, out),
        Shape::Differ { vars } => put_differ(vars, out),
        Shape::Within { var, domain } => put_within(var, domain, out),
    }
}
