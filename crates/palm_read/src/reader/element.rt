//! Element constraints.
ghost use Rattle.palm_read.specs.Reader.Held.{Gives, held_shape};
ghost use Rattle.palm_read.specs.Reader.Shapes.{element_at};
ghost use Rattle.palm_read.specs.Reading.{shape_of};

use crate::line::Shape;
use crate::parse::LineError;
use crate::reader::cursor::Cursor;
use std::alloc::Global;

impl<'a> Cursor<'a> {
    #[tactic(auto, unfolding(crate::specs::Reader::Shapes::element_at, crate::specs::Reader::Steps::and_then))]
    pub(crate) fn element(&mut self, alloc: Global) -> Result<Shape, LineError>
        ensures { Gives (λ s. shape_of (held_shape s)) result self.new (element_at self.old) }
    {
        let outcome = self.owned_name(alloc)?;
        let index = self.owned_name(alloc)?;
        self.sign(b"(")?;
        let entries = self.values(alloc, b")")?;
        Ok(Shape::Element {
            outcome,
            index,
            entries,
        })
    }
}
