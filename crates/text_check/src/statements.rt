//! What lines say.
ghost use Rattle.std.specs.Prelude.{◌≡◌, IfOk, IfSome, option_map};
ghost use Rattle.palm_base.specs.Tells.{Tells};
ghost use Rattle.palm_claim.specs.Phrases.{of_line, phrase_of};
ghost use Rattle.palm_read.specs.Limits.{IsBeyond};
ghost use Rattle.palm_read.specs.Reader.Held.{GivesAll};
ghost use Rattle.palm_read.specs.Token.{tokens_of};
ghost use Rattle.text_check.specs.Reading.{IsBeyondAlone, SaysOrNot};

use crate::body::Body;
use palm_base::NoMemory;
use palm_claim::Statement;
use palm_read::{Cursor, Line, LineError, MOST_LINE_BYTES, Mode, beyond, parse_line};
use std::alloc::Global;

/// What a line says, and whether it breaks a limit by itself.
#[derive(Drop)]
pub struct Reading<P> {
    pub statement: Statement<P>,
    pub is_beyond: bool,
}

/// What the line says, or nothing: a phrase, or what a line of a session of version 2 says there.
pub fn read_statement<B: Body>(
    alloc: Global,
    bytes: &[u8],
) -> Result<Option<Reading<B::Phrase>>, NoMemory>
    ensures says { IfOk result (SaysOrNot B.own.phrases bytes.now) }
    ensures beyond { IfOk result (λ reading. IfSome reading (λ r. Tells r.is_beyond (IsBeyondAlone r.statement))) }
{
    if bytes.len() > MOST_LINE_BYTES {
        return Ok(None);
    }
    match read_phrase::<B>(alloc, bytes) {
        Ok(phrase) => Ok(Some(Reading {
            statement: Statement::Phrase(phrase),
            is_beyond: false,
        })),
        Err(LineError::Form) => match parse_line(alloc, bytes, Mode::Two) {
            Ok(line) => Ok(of_line(line)),
            Err(error) => match error {
                LineError::NoMemory => Err(NoMemory),
                _ => Ok(None),
            },
        },
        Err(_) => Err(NoMemory),
    }
}

/// What all tokens of a line say by a phrase.
#[tactic(auto, unfolding(palm_claim::specs::Phrases::phrase_of, palm_read::specs::Reader::Steps::and_then, palm_read::specs::Reader::Steps::choose))]
fn read_phrase<B: Body>(alloc: Global, bytes: &[u8]) -> Result<B::Phrase, LineError>
    ensures { GivesAll (λ phrase. phrase) result (phrase_of B.own.phrases.phrase_at (tokens_of bytes.now)) }
{
    let mut cursor = Cursor::new(bytes);
    let phrase = B::read(&mut cursor, alloc)?;
    if !cursor.is_at_end() {
        return Err(LineError::Form);
    }
    Ok(phrase)
}

/// What a line of a session says there.
fn of_line<P: Drop>(line: Line) -> Option<Reading<P>>
    ensures says { option_map (λ r. r.statement) result ≡ of_line line }
    ensures beyond { IfSome result (λ r. Tells r.is_beyond (IsBeyondAlone r.statement)) }
{
    let is_beyond = beyond(&line);
    let statement = statement_of(line)?;
    Some(Reading {
        statement,
        is_beyond,
    })
}

fn statement_of<P: Drop>(line: Line) -> Option<Statement<P>>
    ensures says { result ≡ of_line line }
    ensures alone { IfSome result (λ s. IsBeyondAlone s → IsBeyond line) }
    ensures whole { IfSome result (λ s. IsBeyond line → IsBeyondAlone s) }
{
    match line {
        Line::Comment => Some(Statement::Comment),
        Line::Var { name, domain } => Some(Statement::Variable { name, domain }),
        Line::Add { name, shape } => Some(Statement::Constraint { name, shape }),
        _ => None,
    }
}
