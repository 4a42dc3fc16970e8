//! Finding the tokens of a text.
ghost use Rattle.std.specs.Prelude.{◌≡◌, ◌≤◌, [], ◌∷◌, ◌↔◌, length, drop, IsNone, IsTrue, ◌<◌, IfSome, MatchOption};
ghost use Rattle.std.specs.List.{prefix_len};
ghost use Rattle.palm_read.specs.Bytes.{is_blank, is_digit, is_letter, is_word_byte, after_blanks};
ghost use Rattle.palm_read.specs.Token.{IsFirstToken, IsPart, begins_long_sign, is_sign, are_sign, kind_at, more_at, lexeme_of, tokens_of};

use crate::tokens::{Token, TokenKind};

/// The first token from a place on, or `None` where only spaces and tabs are left.
pub fn token(bytes: &[u8], from: usize) -> Option<Token>
    requires { from ≤ length bytes.now }
    ensures none { IsNone result ↔ (after_blanks (drop from bytes.now) ≡ []) }
    ensures first { IfSome result (IsFirstToken bytes.now from) }
    ensures part { IfSome result (IsPart bytes.now) }
    ensures tokens { MatchOption result (tokens_of (drop from bytes.now) ≡ [])
        (λ t. tokens_of (drop from bytes.now) ≡ lexeme_of bytes.now t ∷ tokens_of (drop t.end bytes.now)) }
{
    let blanks = count_blanks(&bytes[from..]);
    let start = from + blanks;
    let Some((first, rest)) = bytes[start..].split_first() else {
        return None;
    };
    let (kind, more) = kind_and_length(*first, rest);
    let end = start + (1 + more);
    Some(Token { kind, start, end })
}

/// What begins with this byte before these bytes, and how many of these it takes.
#[tactic(auto, unfolding(crate::specs::Token::kind_at, crate::specs::Token::more_at))]
fn kind_and_length(first: u8, rest: &[u8]) -> (TokenKind, usize)
    ensures kind { result.0 ≡ kind_at first rest.now }
    ensures more { result.1 ≡ more_at first rest.now }
    ensures within { result.1 ≤ length rest.now }
{
    if is_letter(first) {
        (TokenKind::Word, count_word_bytes(rest))
    } else if is_digit(first) {
        (TokenKind::Digits, count_digits(rest))
    } else if begins_long_sign(first, rest) {
        (TokenKind::Sign, 1)
    } else if is_sign(first) {
        (TokenKind::Sign, 0)
    } else {
        (TokenKind::Other, 0)
    }
}

/// How many blanks stand in front.
pub fn count_blanks(bytes: &[u8]) -> usize
    ensures count { result ≡ prefix_len is_blank bytes.now }
    ensures within { result ≤ length bytes.now }
{
    bytes.iter().take_while(|b| is_blank(**b)).count()
}

fn count_word_bytes(bytes: &[u8]) -> usize
    ensures count { result ≡ prefix_len is_word_byte bytes.now }
    ensures within { result ≤ length bytes.now }
{
    bytes.iter().take_while(|b| is_word_byte(**b)).count()
}

fn count_digits(bytes: &[u8]) -> usize
    ensures count { result ≡ prefix_len is_digit bytes.now }
    ensures within { result ≤ length bytes.now }
{
    bytes.iter().take_while(|b| is_digit(**b)).count()
}

/// Whether a byte begins a sign of two bytes before these bytes.
fn begins_long_sign(first: u8, rest: &[u8]) -> bool
    ensures value { result ≡ begins_long_sign first rest.now }
    ensures some { IsTrue result → 0 < length rest.now }
{
    match rest {
        [] => false,
        [second, ..] => match (first, *second) {
            (b'.', b'.') | (b'!' | b'<' | b'>', b'=') => true,
            _ => false,
        },
    }
}

/// Whether a byte is a sign by itself.
fn is_sign(byte: u8) -> bool
    ensures { result ≡ is_sign byte }
{
    b"{}(),:*+-=<>".contains(&byte)
}

/// Whether a byte is a space or a tab.
pub fn is_blank(byte: u8) -> bool
    ensures { result ≡ is_blank byte }
{
    byte == b' ' || byte == b'\t'
}

fn is_digit(byte: u8) -> bool
    ensures { result ≡ is_digit byte }
{
    byte.is_ascii_digit()
}

/// Whether a byte is a letter or `_`.
fn is_letter(byte: u8) -> bool
    ensures { result ≡ is_letter byte }
{
    byte.is_ascii_alphabetic() || byte == b'_'
}

fn is_word_byte(byte: u8) -> bool
    ensures { result ≡ is_word_byte byte }
{
    is_letter(byte) || is_digit(byte)
}
