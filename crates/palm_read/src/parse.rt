//! Reading a line.
ghost use Rattle.std.specs.Prelude.{◌≡◌, ◌⊎◌, Ok, Err, IfOk, IfErr, OnOk, All, true};
ghost use Rattle.palm_base.specs.Tells.{Tells};
ghost use Rattle.palm_read.specs.declared.parse.LineError.TheVariants as LineError;
ghost use Rattle.palm_read.specs.Bytes.{after_blanks, is_note, is_plain};
ghost use Rattle.palm_read.specs.Reader.Checks.{PassesChecks};
ghost use Rattle.palm_read.specs.Reader.Held.{GivesAll, held_line};
ghost use Rattle.palm_read.specs.Reader.Lines.{form_at};
ghost use Rattle.palm_read.specs.Reading.{IsReadAs};
ghost use Rattle.palm_read.specs.Sound.{IsSound};
ghost use Rattle.palm_read.specs.Token.{tokens_of};

use crate::limits::MOST_LINE_BYTES;
use crate::line::Line;
use crate::mode::Mode;
use crate::reader::checks::{is_allowed, is_in_range, lacks_something};
use crate::reader::cursor::Cursor;
use crate::reader::repeats::repeats_name;
use crate::scan::count_blanks;
use palm_base::NoMemory;
use std::alloc::Global;
use thiserror::Error;

/// Why a line is refused by its text alone, in the order in which the causes are looked for.
#[derive(Clone, Copy, Debug, PartialEq, Eq, Error)]
pub enum LineError {
    /// More bytes than a line may have, or a byte that may not stand in a line.
    #[error("bytes or length")]
    Bytes,
    /// The tokens fit no form.
    #[error("no such form")]
    Form,
    /// A number is outside its range.
    #[error("number out of range")]
    Range,
    /// A domain, a table or a list of entries without members, or a coefficient of 0.
    #[error("empty or zero")]
    Empty,
    /// A variable stands twice in a constraint.
    #[error("repeated variable")]
    Repeated,
    /// No memory for the line.
    #[error("out of memory")]
    NoMemory,
}

impl From<NoMemory> for LineError {
    ghost from_gives = { λ _ e. e ≡ LineError.NoMemory };

    fn from(_error: NoMemory) -> LineError {
        LineError::NoMemory
    }
}

/// Reads one line without its line end, in a mode. A line of more than 65,536 bytes is refused, a comment too.
pub fn parse_line(alloc: Global, bytes: &[u8], mode: Mode) -> Result<Line, LineError>
    ensures read { IsReadAs mode bytes.now result }
    ensures sound { IfOk result IsSound }
{
    let mut cursor = Cursor::new(bytes);
    parse_tokens(alloc, bytes, &mut cursor, mode)
}

/// Reads the same line, with a cursor at its first token.
pub fn parse_tokens(
    alloc: Global,
    bytes: &[u8],
    cursor: &mut Cursor<'_>,
    mode: Mode,
) -> Result<Line, LineError>
    requires { cursor.old ≡ tokens_of bytes.now }
    ensures read { IsReadAs mode bytes.now result }
    ensures sound { IfOk result IsSound }
{
    if bytes.len() > MOST_LINE_BYTES {
        return Err(LineError::Bytes);
    }
    if is_note(bytes) {
        return Ok(Line::Comment);
    }
    match read_form(alloc, cursor) {
        Ok(line) => within_limits(alloc, line, mode),
        Err(LineError::Form) => Err(without_form(bytes)),
        Err(error) => Err(error),
    }
}

/// Why no form fits the line: a byte that may not stand in it, or its tokens. A line of a form has plain bytes alone,
/// since tokens have no others.
fn without_form(bytes: &[u8]) -> LineError
    ensures plain { result ≡ LineError.Form → All (λ b. is_plain b ≡ true) bytes.now }
    ensures odd { result ≡ LineError.Bytes → All (λ b. is_plain b ≡ true) bytes.now → ⊥ }
    ensures either { (result ≡ LineError.Form) ⊎ (result ≡ LineError.Bytes) }
{
    if are_plain(bytes) {
        LineError::Form
    } else {
        LineError::Bytes
    }
}

/// Whether nothing or `#` stands behind the blanks in front.
fn is_note(bytes: &[u8]) -> bool
    ensures { result ≡ is_note (after_blanks bytes.now) }
{
    match bytes.get(count_blanks(bytes)) {
        None => true,
        Some(byte) => *byte == b'#',
    }
}

/// Whether each byte may stand in a line that is no comment.
fn are_plain(bytes: &[u8]) -> bool
    ensures { Tells result (All (λ b. is_plain b ≡ true) bytes.now) }
{
    bytes.iter().all(|b| is_plain(*b))
}

fn is_plain(byte: u8) -> bool
    ensures { result ≡ is_plain byte }
{
    matches!(byte, b' '..=b'~' | b'\t')
}

/// Reads the form that all tokens make.
#[tactic(auto, unfolding(crate::specs::Reader::Lines::form_at, crate::specs::Reader::Steps::choose, crate::specs::Reader::Steps::and_then))]
fn read_form(alloc: Global, cursor: &mut Cursor<'_>) -> Result<Line, LineError>
    ensures { GivesAll held_line result (form_at cursor.old) }
{
    let line = cursor.line(alloc)?;
    if !cursor.is_at_end() {
        return Err(LineError::Form);
    }
    Ok(line)
}

/// The line, where the mode allows it and it breaks none of the limits that refuse it.
fn within_limits(alloc: Global, line: Line, mode: Mode) -> Result<Line, LineError>
    ensures { PassesChecks mode line result }
{
    check_limits(alloc, &line, mode)?;
    Ok(line)
}

/// Refuses the line where the mode does not allow it, and else for the first limit that it breaks.
fn check_limits(alloc: Global, line: &Line, mode: Mode) -> Result<(), LineError>
    ensures kept { OnOk result (PassesChecks mode line.now (Ok line.now)) }
    ensures refused { IfErr result (λ error. PassesChecks mode line.now (Err error)) }
{
    if !is_allowed(line, mode) {
        return Err(LineError::Form);
    }
    if !is_in_range(line) {
        return Err(LineError::Range);
    }
    if lacks_something(line) {
        return Err(LineError::Empty);
    }
    if repeats_name(alloc, line)? {
        return Err(LineError::Repeated);
    }
    Ok(())
}
