//! Tables.
ghost use Rattle.palm_read.specs.Reader.Held.{Gives, held_shape};
ghost use Rattle.palm_read.specs.Reader.Shapes.{table_at};
ghost use Rattle.palm_read.specs.Reading.{shape_of};

use crate::line::Shape;
use crate::parse::LineError;
use crate::reader::cursor::Cursor;
use std::alloc::Global;

impl<'a> Cursor<'a> {
    #[tactic(auto, unfolding(crate::specs::Reader::Shapes::table_at, crate::specs::Reader::Steps::and_then))]
    pub(crate) fn table(&mut self, alloc: Global) -> Result<Shape, LineError>
        ensures { Gives (λ s. shape_of (held_shape s)) result self.new (table_at self.old) }
    {
        let vars = self.names(alloc, 1)?;
        self.sign(b":")?;
        let rows = self.rows(alloc, vars.len())?;
        Ok(Shape::Table { vars, rows })
    }
}
