//! Differ constraints.
ghost use Rattle.palm_read.specs.Reader.Held.{Gives, held_shape};
ghost use Rattle.palm_read.specs.Reader.Shapes.{differ_at};
ghost use Rattle.palm_read.specs.Reading.{shape_of};

use crate::line::Shape;
use crate::parse::LineError;
use crate::reader::cursor::Cursor;
use std::alloc::Global;

impl<'a> Cursor<'a> {
    #[tactic(auto, unfolding(crate::specs::Reader::Shapes::differ_at, crate::specs::Reader::Steps::and_then))]
    pub(crate) fn differ(&mut self, alloc: Global) -> Result<Shape, LineError>
        ensures { Gives (λ s. shape_of (held_shape s)) result self.new (differ_at self.old) }
    {
        let vars = self.names(alloc, 2)?;
        Ok(Shape::Differ { vars })
    }
}
