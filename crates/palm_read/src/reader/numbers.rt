//! Numbers of any size, as far as the limits of the language reach.
ghost use Rattle.std.specs.Prelude.{◌≡◌, ◌<◌, ◌^◌, ◌+◌, min};
ghost use Rattle.palm_base.specs.Numbers.{AreDigits, digits_number};
ghost use Rattle.palm_read.specs.Reader.Held.{Gives, held, held_value, counted};
ghost use Rattle.palm_read.specs.Domain.{count_in};
ghost use Rattle.palm_read.specs.Reader.Steps.{natural_at, integer_at};

use crate::parse::LineError;
use crate::reader::cursor::Cursor;
use palm_base::{Value, read_int};
use palm_model::{GREATEST_BOUND, GREATEST_VALUE};

impl<'a> Cursor<'a> {
    /// Reads digits: their number, or the cap where it is above that.
    #[tactic(auto, unfolding(crate::specs::Reader::Steps::natural_at, crate::specs::Reader::Steps::and_then))]
    pub(crate) fn natural(&mut self, cap: u128) -> Result<u128, LineError>
        requires { cap < 2 ^ 127 }
        ensures { Gives (λ n. min n cap) result self.new (natural_at self.old) }
    {
        match self.digits() {
            Some(digits) => Ok(capped(digits, cap)),
            None => Err(LineError::Form),
        }
    }

    /// Reads a whole number, and holds it up to the cap and down to that below 0.
    #[tactic(auto, unfolding(crate::specs::Reader::Steps::integer_at, crate::specs::Reader::Steps::when, crate::specs::Reader::Steps::and_then))]
    pub(crate) fn integer(&mut self, cap: u128) -> Result<i128, LineError>
        requires { cap < 2 ^ 127 }
        ensures { Gives (held cap) result self.new (integer_at self.old) }
    {
        if self.takes_sign(b"-") {
            let number = self.natural(cap)?;
            return Ok(-(number as i128));
        }
        let number = self.natural(cap)?;
        Ok(number as i128)
    }

    /// Reads a value.
    pub(crate) fn value(&mut self) -> Result<Value, LineError>
        ensures { Gives held_value result self.new (integer_at self.old) }
    {
        let number = self.integer(VALUE_CAP)?;
        Ok(Value(number as i32))
    }

    /// Reads the right side of a sum.
    pub(crate) fn bound(&mut self) -> Result<i64, LineError>
        ensures { Gives (held (GREATEST_BOUND + 1)) result self.new (integer_at self.old) }
    {
        let number = self.integer(BOUND_CAP)?;
        Ok(number as i64)
    }

    /// Reads a number from 1 to the most, and holds 0 in place of any other.
    pub(crate) fn counted(&mut self, most: u64) -> Result<u64, LineError>
        ensures { Gives (λ z. count_in (counted most z)) result self.new (integer_at self.old) }
    {
        let number = self.integer(u128::from(most) + 1)?;
        match u64::try_from(number) {
            Ok(number) if number <= most => Ok(number),
            _ => Ok(0),
        }
    }
}

/// One more than the greatest value.
const VALUE_CAP: u128 = GREATEST_VALUE as u128 + 1;

/// One more than the greatest right side of a sum.
const BOUND_CAP: u128 = GREATEST_BOUND as u128 + 1;

/// The number of digits, or the cap where it is above that.
pub fn capped(digits: &[u8], cap: u128) -> u128
    requires digits { AreDigits digits.now }
    requires cap { cap < 2 ^ 127 }
    ensures { result ≡ min (digits_number digits.now) cap }
{
    match read_int(digits) {
        Some(number) => (number as u128).min(cap),
        None => cap,
    }
}
