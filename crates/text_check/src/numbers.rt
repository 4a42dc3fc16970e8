//! Reading headers, values and numbers, as phrases have them.
ghost use Rattle.std.specs.Prelude.{◌≡◌, ◌≤◌, true, false, IfNone, IfSome};
ghost use Rattle.palm_base.specs.Numbers.{AreDigits, digits_number};
ghost use Rattle.palm_claim.specs.Reader.{header_at, is_number, is_value, reasons_at, value_at};
ghost use Rattle.palm_read.specs.Linear.{signed};
ghost use Rattle.palm_read.specs.Reader.Held.{Gives, Passes};

use crate::items::{Items, read_items};
use palm_base::{Value, read_int};
use palm_claim::StepList;
use palm_model::GREATEST_VALUE;
use palm_read::{Cursor, LineError, TokenKind};
use std::alloc::Global;

/// Reads the header of a text of this kind: `palm`, `-`, the kind and `1`.
#[tactic(auto, unfolding(palm_claim::specs::Reader::header_at, palm_read::specs::Reader::Steps::and_then))]
pub fn read_header(cursor: &mut Cursor<'_>, kind: &[u8]) -> Result<(), LineError>
    ensures { Passes result cursor.new (header_at kind.now cursor.old) }
{
    cursor.keyword(b"palm")?;
    cursor.sign(b"-")?;
    cursor.keyword(kind)?;
    if !cursor.takes(TokenKind::Digits, b"1") {
        return Err(LineError::Form);
    }
    Ok(())
}

/// Reads `from` and numbers of steps, if `from` stands in front.
#[tactic(auto, unfolding(palm_claim::specs::Reader::reasons_at, palm_claim::specs::Reader::numbers_at, palm_read::specs::Reader::Steps::and_then, palm_read::specs::Reader::Steps::when, palm_read::specs::Reader::Steps::choose))]
pub fn read_reasons(cursor: &mut Cursor<'_>, alloc: Global) -> Result<StepList, LineError>
    ensures { Gives (λ numbers. numbers) result cursor.new (reasons_at cursor.old) }
{
    if !cursor.takes_word(b"from") {
        return Ok(StepList::new(alloc));
    }
    let numbers = read_items::<StepNumbers>(cursor, alloc)?;
    if numbers.len() == 0 {
        return Err(LineError::Form);
    }
    Ok(numbers)
}

/// Numbers of steps.
struct StepNumbers;

impl Items for StepNumbers {
    ghost use Rattle.palm_claim.proofs.cited.Phrases.{number_item};
    ghost use Rattle.palm_claim.specs.Reader.{next_number};
    ghost use Rattle.palm_read.proofs.cited.Many.{item_shortens};

    type Item = u32;

    ghost next_at = { next_number };

    ghost shortens = { item_shortens number_item };

    #[tactic(auto, unfolding(palm_claim::specs::Reader::next_number, palm_read::specs::Reader::Steps::when, palm_read::specs::Reader::Steps::choose))]
    fn next(cursor: &mut Cursor<'_>, _alloc: Global) -> Result<Option<u32>, LineError> {
        let Some(digits) = cursor.digits() else {
            return Ok(None);
        };
        match number_up_to(u64::from(u32::MAX), digits) {
            Some(number) => Ok(Some(number as u32)),
            None => Err(LineError::Form),
        }
    }
}

/// The number of the digits, where it is counted from 1 and no more than the most.
pub fn number_up_to(most: u64, digits: &[u8]) -> Option<u64>
    requires { AreDigits digits.now }
    ensures some { IfSome result (λ number. number ≡ digits_number digits.now) }
    ensures within { IfSome result (λ number. number ≤ most) }
    ensures fits { IfSome result (λ number. is_number most number ≡ true) }
    ensures none { IfNone result (is_number most (digits_number digits.now) ≡ false) }
{
    let number = read_int(digits)?;
    match u64::try_from(number) {
        Ok(number) if number >= 1 && number <= most => Some(number),
        _ => None,
    }
}

/// Reads a value of the language.
#[tactic(auto, unfolding(palm_claim::specs::Reader::value_at, palm_read::specs::Reader::Steps::integer_at, palm_read::specs::Reader::Steps::natural_at, palm_read::specs::Reader::Steps::and_then, palm_read::specs::Reader::Steps::when, palm_read::specs::Reader::Steps::choose))]
pub fn read_value(cursor: &mut Cursor<'_>) -> Result<Value, LineError>
    ensures { Gives (λ value. value) result cursor.new (value_at cursor.old) }
{
    let is_negative = cursor.takes_sign(b"-");
    let Some(digits) = cursor.digits() else {
        return Err(LineError::Form);
    };
    match value_of(is_negative, digits) {
        Some(value) => Ok(value),
        None => Err(LineError::Form),
    }
}

/// The value of the digits, or below 0 with a sign, where the language has it.
fn value_of(is_negative: bool, digits: &[u8]) -> Option<Value>
    requires { AreDigits digits.now }
    ensures some { IfSome result (λ value. value ≡ signed is_negative (digits_number digits.now)) }
    ensures fits { IfSome result (λ value. is_value value ≡ true) }
    ensures none { IfNone result (is_value (signed is_negative (digits_number digits.now)) ≡ false) }
{
    let number = read_int(digits)?;
    if number > GREATEST_VALUE as i128 {
        return None;
    }
    let size = number as i32;
    Some(Value(if is_negative { -size } else { size }))
}
