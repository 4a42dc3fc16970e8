//! Domains.
ghost use Rattle.std.specs.Prelude.{◌≡◌};
ghost use Rattle.palm_read.specs.Reader.Held.{Gives, held_domain};
ghost use Rattle.palm_read.specs.Reader.Shapes.{interval_at, domain_at};
ghost use Rattle.palm_read.specs.Domain.{domain_of, set_of};

use crate::line::DomainText;
use crate::parse::LineError;
use crate::reader::cursor::Cursor;
use palm_base::ValueList;
use std::alloc::Global;

impl<'a> Cursor<'a> {
    /// Reads a domain.
    #[tactic(auto, unfolding(crate::specs::Reader::Shapes::domain_at, crate::specs::Reader::Shapes::interval_at, crate::specs::Reader::Steps::when, crate::specs::Reader::Steps::and_then))]
    pub(crate) fn domain(&mut self, alloc: Global) -> Result<DomainText, LineError>
        ensures { Gives (λ d. domain_of (held_domain d)) result self.new (domain_at self.old) }
    {
        if self.takes_sign(b"{") {
            let values = self.values(alloc, b"}")?;
            return Ok(DomainText::Set(ascending(values)));
        }
        let low = self.value()?;
        self.sign(b"..")?;
        let high = self.value()?;
        Ok(DomainText::Range { low, high })
    }
}

/// The values in ascending order and without repeats.
fn ascending(values: ValueList) -> ValueList
    ensures { result ≡ set_of values }
{
    let mut values = values.into_vec();
    values.sort_unstable();
    values.dedup();
    ValueList::from_vec(values)
}
