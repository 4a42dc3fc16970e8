//! Comparisons.
ghost use Rattle.palm_read.specs.Reader.Held.{Gives, held_offset, held_shape};
ghost use Rattle.palm_read.specs.Reader.Shapes.{offset_at, comparison_at};
ghost use Rattle.palm_read.specs.Comparison.{offset_of};
ghost use Rattle.palm_read.specs.Reading.{shape_of};

use crate::line::{Name, Shape};
use crate::parse::LineError;
use crate::reader::cursor::Cursor;
use palm_model::GREATEST_OFFSET;
use std::alloc::Global;

/// One more than the greatest offset.
const OFFSET_CAP: u128 = GREATEST_OFFSET as u128 + 1;

impl<'a> Cursor<'a> {
    /// Reads a comparison behind the name on its left.
    #[tactic(auto, unfolding(crate::specs::Reader::Shapes::comparison_at, crate::specs::Reader::Steps::when, crate::specs::Reader::Steps::and_then))]
    pub(crate) fn comparison(&mut self, alloc: Global, left: Name) -> Result<Shape, LineError>
        ensures { Gives (λ s. shape_of (held_shape s)) result self.new (comparison_at left self.old) }
    {
        let op = self.op()?;
        if let Some(right) = self.name() {
            let right = Name::from_slice(alloc, right)?;
            let offset = self.offset()?;
            return Ok(Shape::CompareVar {
                left,
                op,
                right,
                offset,
            });
        }
        let value = self.value()?;
        Ok(Shape::CompareConst { left, op, value })
    }

    /// Reads `+` or `-` and digits, or no offset.
    #[tactic(auto, unfolding(crate::specs::Reader::Shapes::offset_at, crate::specs::Reader::Steps::when, crate::specs::Reader::Steps::and_then))]
    fn offset(&mut self) -> Result<i32, LineError>
        ensures { Gives (λ k. offset_of (held_offset k)) result self.new (offset_at self.old) }
    {
        if self.takes_sign(b"+") {
            return Ok(self.natural(OFFSET_CAP)? as i32);
        }
        if self.takes_sign(b"-") {
            return Ok(-(self.natural(OFFSET_CAP)? as i32));
        }
        Ok(0)
    }
}
