//! Constraints, by their first word, and relations.
ghost use Rattle.palm_read.specs.Reader.Held.{Gives, held_shape};
ghost use Rattle.palm_read.specs.Reader.Shapes.{shape_at};
ghost use Rattle.palm_read.specs.Reader.Steps.{op_of, op_at};
ghost use Rattle.palm_read.specs.Reading.{shape_of};

use crate::line::Shape;
use crate::parse::LineError;
use crate::reader::cursor::Cursor;
use palm_model::Op;
use std::alloc::Global;

impl<'a> Cursor<'a> {
    /// Reads a constraint.
    #[tactic(auto, unfolding(crate::specs::Reader::Shapes::shape_at, crate::specs::Reader::Steps::when))]
    pub(crate) fn shape(&mut self, alloc: Global) -> Result<Shape, LineError>
        ensures { Gives (λ s. shape_of (held_shape s)) result self.new (shape_at self.old) }
    {
        if self.takes_word(b"sum") {
            self.linear(alloc)
        } else if self.takes_word(b"table") {
            self.table(alloc)
        } else if self.takes_word(b"element") {
            self.element(alloc)
        } else if self.takes_word(b"count") {
            self.count(alloc)
        } else if self.takes_word(b"differ") {
            self.differ(alloc)
        } else {
            self.of_name(alloc)
        }
    }

    /// Reads a relation.
    #[tactic(auto, unfolding(crate::specs::Reader::Steps::op_at, crate::specs::Reader::Steps::op_of, crate::specs::Reader::Steps::choose, crate::specs::Reader::Steps::and_then))]
    pub(crate) fn op(&mut self) -> Result<Op, LineError>
        ensures { Gives (λ op. op) result self.new (op_at self.old) }
    {
        match self.any_sign() {
            Some(b"=") => Ok(Op::Eq),
            Some(b"!=") => Ok(Op::Ne),
            Some(b"<") => Ok(Op::Lt),
            Some(b"<=") => Ok(Op::Le),
            Some(b">") => Ok(Op::Gt),
            Some(b">=") => Ok(Op::Ge),
            _ => Err(LineError::Form),
        }
    }
}
