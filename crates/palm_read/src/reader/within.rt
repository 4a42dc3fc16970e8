//! Constraints that begin with a name: constraints on a domain, and comparisons.
ghost use Rattle.palm_read.specs.Reader.Held.{Gives, held_shape};
ghost use Rattle.palm_read.specs.Reader.Shapes.{within_at, of_name_at};
ghost use Rattle.palm_read.specs.Reading.{shape_of};

use crate::line::{Name, Shape};
use crate::parse::LineError;
use crate::reader::cursor::Cursor;
use std::alloc::Global;

impl<'a> Cursor<'a> {
    /// Reads a constraint that begins with a name.
    #[tactic(auto, unfolding(crate::specs::Reader::Shapes::of_name_at, crate::specs::Reader::Steps::when, crate::specs::Reader::Steps::and_then))]
    pub(crate) fn of_name(&mut self, alloc: Global) -> Result<Shape, LineError>
        ensures { Gives (λ s. shape_of (held_shape s)) result self.new (of_name_at self.old) }
    {
        let name = self.owned_name(alloc)?;
        if self.takes_word(b"in") {
            self.within(alloc, name)
        } else {
            self.comparison(alloc, name)
        }
    }

    /// Reads the domain behind a name and `in`.
    #[tactic(auto, unfolding(crate::specs::Reader::Shapes::within_at, crate::specs::Reader::Steps::and_then))]
    fn within(&mut self, alloc: Global, var: Name) -> Result<Shape, LineError>
        ensures { Gives (λ s. shape_of (held_shape s)) result self.new (within_at var self.old) }
    {
        let domain = self.domain(alloc)?;
        Ok(Shape::Within { var, domain })
    }
}
