//! Linear constraints: sums of terms.
ghost use Rattle.std.specs.Prelude.{◌≡◌, ◌++◌, map, option_map};
ghost use Rattle.palm_read.specs.Reader.Held.{Gives, held_term, held_shape};
ghost use Rattle.palm_read.specs.Linear.{term_of};
ghost use Rattle.palm_read.specs.Reader.Lists.{many_at};
ghost use Rattle.palm_read.specs.Reader.Shapes.{linear_term_at, linear_next_term, linear_first_term_at, linear_terms_at, is_linear_op, linear_at};
ghost use Rattle.palm_read.specs.Reading.{shape_of};

use crate::line::{NameTerm, NameTermList, Shape};
use crate::parse::LineError;
use crate::reader::cursor::Cursor;
use crate::reader::numbers::capped;
use palm_model::{GREATEST_FACTOR, Op};
use std::alloc::Global;

/// One more than the greatest coefficient.
const FACTOR_CAP: u128 = GREATEST_FACTOR as u128 + 1;

impl<'a> Cursor<'a> {
    #[tactic(auto, unfolding(crate::specs::Reader::Shapes::linear_at, crate::specs::Reader::Steps::choose, crate::specs::Reader::Steps::and_then))]
    pub(crate) fn linear(&mut self, alloc: Global) -> Result<Shape, LineError>
        ensures { Gives (λ s. shape_of (held_shape s)) result self.new (linear_at self.old) }
    {
        let terms = self.linear_terms(alloc)?;
        let op = self.op()?;
        if !is_linear_op(op) {
            return Err(LineError::Form);
        }
        let bound = self.bound()?;
        Ok(Shape::Linear { terms, op, bound })
    }

    /// Reads the terms of a sum.
    #[tactic(auto, unfolding(crate::specs::Reader::Shapes::linear_terms_at, crate::specs::Reader::Steps::and_then))]
    pub(crate) fn linear_terms(&mut self, alloc: Global) -> Result<NameTermList, LineError>
        ensures { Gives (map (λ t. term_of (held_term t))) result self.new (linear_terms_at self.old) }
    {
        let mut terms = NameTermList::new(alloc);
        terms.push(self.linear_first_term(alloc)?)?;
        self.linear_more_terms(alloc, terms)
    }

    /// Reads on as long as `+` or `-` stands in front.
    fn linear_more_terms(
        &mut self,
        alloc: Global,
        mut terms: NameTermList,
    ) -> Result<NameTermList, LineError>
        ensures { Gives (λ more. terms ++ map (λ t. term_of (held_term t)) more) result self.new (many_at linear_next_term self.old) }
    {
        while let Some(term) = self.linear_next_term(alloc)? {
            terms.push(term)?;
        }
        Ok(terms)
    }

    /// Reads a term, before which `-` may stand.
    #[tactic(auto, unfolding(crate::specs::Reader::Shapes::linear_first_term_at, crate::specs::Reader::Steps::when))]
    fn linear_first_term(&mut self, alloc: Global) -> Result<NameTerm, LineError>
        ensures { Gives (λ t. term_of (held_term t)) result self.new (linear_first_term_at self.old) }
    {
        let minus = self.takes_sign(b"-");
        self.linear_term(alloc, minus)
    }

    /// Reads a sign and a term, if `+` or `-` stands in front.
    #[tactic(auto, unfolding(crate::specs::Reader::Shapes::linear_next_term, crate::specs::Reader::Steps::when, crate::specs::Reader::Steps::and_then))]
    fn linear_next_term(&mut self, alloc: Global) -> Result<Option<NameTerm>, LineError>
        ensures { Gives (option_map (λ t. term_of (held_term t))) result self.new (linear_next_term self.old) }
    {
        if self.takes_sign(b"+") {
            return Ok(Some(self.linear_term(alloc, false)?));
        }
        if self.takes_sign(b"-") {
            return Ok(Some(self.linear_term(alloc, true)?));
        }
        Ok(None)
    }

    /// Reads a term behind its sign: a variable, or a coefficient and a variable.
    #[tactic(auto, unfolding(crate::specs::Reader::Shapes::linear_term_at, crate::specs::Reader::Steps::when, crate::specs::Reader::Steps::and_then))]
    fn linear_term(&mut self, alloc: Global, minus: bool) -> Result<NameTerm, LineError>
        ensures { Gives (λ t. term_of (held_term t)) result self.new (linear_term_at minus self.old) }
    {
        let mut factor = 1;
        if let Some(digits) = self.digits() {
            factor = capped(digits, FACTOR_CAP) as i32;
            self.sign(b"*")?;
        }
        let name = self.owned_name(alloc)?;
        let factor = if minus { -factor } else { factor };
        Ok(NameTerm { factor, name })
    }
}

/// Whether a sum may stand in the relation to its right side.
fn is_linear_op(op: Op) -> bool
    ensures { result ≡ is_linear_op op }
{
    !matches!(op, Op::Lt | Op::Gt)
}
