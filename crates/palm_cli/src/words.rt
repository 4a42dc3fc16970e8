//! The words after the program's name.
ghost use Rattle.std.specs.Prelude.{ℕ, [], ◌∷◌, map, string_bytes, Any, IfOk, IfSome, IfNone};
ghost use Rattle.palm_base.specs.Tells.{Tells};
ghost use Rattle.palm_cli.specs.Generator.{IsSize};
ghost use Rattle.palm_cli.specs.Words.{Asks, IsApart};

use crate::limits::{MOST_QUEENS, MOST_SIZE_DIGITS};
use clap::error::ErrorKind;
use clap::{Arg, Command};
use palm_base::{NoMemory, read_int};
use std::alloc::Global;

/// What a text is judged as.
#[derive(Clone, Copy, Debug, PartialEq, Eq)]
pub enum Evidence {
    /// `check`: a certificate.
    Certificate,
    /// `proof`: a proof that constraints have no solution.
    Proof,
}

/// What words ask for.
#[derive(Clone, Copy, Debug, PartialEq, Eq)]
pub enum Request {
    /// `run`: the lines of the source are answered.
    Run,
    /// `check` or `proof`: the verdict on the source is told.
    Judge(Evidence),
    /// `gen N`: the session of so many queens is made and summed up.
    Gen { size: u8 },
}

/// What the words ask for, and nothing where they are those of no command.
pub fn request_of(alloc: Global, words: &[String]) -> Result<Option<Request>, NoMemory>
    ensures { IfOk result (Asks (map string_bytes words.now)) }
{
    if has_apart(words) {
        return Ok(None);
    }
    parse(alloc, words)
}

/// Whether some word begins with `-` or is `help`.
fn has_apart(words: &[String]) -> bool
    ensures { Tells result (Any IsApart (map string_bytes words.now)) }
{
    for word in words {
        if is_apart(word) {
            return true;
        }
    }
    false
}

/// Whether the word begins with `-` or is `help`.
fn is_apart(word: &String) -> bool
    ensures { Tells result (IsApart (string_bytes word.now)) }
{
    word.as_bytes().starts_with(b"-") || word.as_bytes() == b"help".as_slice()
}

/// What words ask for of which none begins with `-`, as `clap` reads them.
fn parse(alloc: Global, words: &[String]) -> Result<Option<Request>, NoMemory>
    requires { Any IsApart (map string_bytes words.now) → ⊥ }
    ensures { IfOk result (Asks (map string_bytes words.now)) }
{
    let size = Arg::new(alloc, "N").required(true);
    let generate = Command::new(alloc, "gen").arg(size)?;
    let palm = Command::new(alloc, "palm")
        .no_binary_name(true)
        .disable_help_flag(true)
        .disable_help_subcommand(true)
        .disable_version_flag(true)
        .subcommand(Command::new(alloc, "run"))?
        .subcommand(Command::new(alloc, "check"))?
        .subcommand(Command::new(alloc, "proof"))?
        .subcommand(generate)?;
    let matches = match palm.try_get_matches_from(words) {
        Ok(matches) => matches,
        Err(error) => match error.kind() {
            ErrorKind::OutOfMemory => return Err(NoMemory),
            _ => return Ok(None),
        },
    };
    let Some((name, inner)) = matches.subcommand() else {
        return Ok(None);
    };
    let Some(word) = inner.get_str("N") else {
        return Ok(request_alone(name));
    };
    match size_of(word.as_bytes()) {
        Some(size) => Ok(Some(Request::Gen { size })),
        None => Ok(None),
    }
}

/// What a word asks for that no other word follows.
fn request_alone(word: &str) -> Option<Request>
    ensures { Asks (word.now ∷ []) result }
{
    match word {
        "run" => Some(Request::Run),
        "check" => Some(Request::Judge(Evidence::Certificate)),
        "proof" => Some(Request::Judge(Evidence::Proof)),
        _ => None,
    }
}

/// The number of queens that a word tells by one to three digits.
fn size_of(digits: &[u8]) -> Option<u8>
    ensures some { IfSome result (IsSize digits.now) }
    ensures none { IfNone result ((size : ℕ) → IsSize digits.now size → ⊥) }
{
    if digits.len() > MOST_SIZE_DIGITS {
        return None;
    }
    match u8::try_from(read_int(digits)?) {
        Ok(size) if 1 <= size && size <= MOST_QUEENS => Some(size),
        _ => None,
    }
}
