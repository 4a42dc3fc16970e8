//! Counts.
ghost use Rattle.palm_read.specs.Reader.Held.{Gives, held_shape, held_target};
ghost use Rattle.palm_read.specs.Reader.Shapes.{target_at, count_at};
ghost use Rattle.palm_read.specs.Count.{line_target};
ghost use Rattle.palm_read.specs.Reading.{shape_of};

use crate::line::{Name, NameTarget, Shape};
use crate::parse::LineError;
use crate::reader::cursor::Cursor;
use std::alloc::Global;

impl<'a> Cursor<'a> {
    #[tactic(auto, unfolding(crate::specs::Reader::Shapes::count_at, crate::specs::Reader::Steps::and_then))]
    pub(crate) fn count(&mut self, alloc: Global) -> Result<Shape, LineError>
        ensures { Gives (λ s. shape_of (held_shape s)) result self.new (count_at self.old) }
    {
        let value = self.value()?;
        let vars = self.names(alloc, 1)?;
        let op = self.op()?;
        let target = self.target(alloc)?;
        Ok(Shape::Count {
            value,
            vars,
            op,
            target,
        })
    }

    /// Reads a variable or a number.
    #[tactic(auto, unfolding(crate::specs::Reader::Shapes::target_at, crate::specs::Reader::Steps::when, crate::specs::Reader::Steps::and_then))]
    fn target(&mut self, alloc: Global) -> Result<NameTarget, LineError>
        ensures { Gives (λ t. line_target (held_target t)) result self.new (target_at self.old) }
    {
        match self.name() {
            Some(name) => Ok(NameTarget::Variable(Name::from_slice(alloc, name)?)),
            None => Ok(NameTarget::Const(self.value()?)),
        }
    }
}
