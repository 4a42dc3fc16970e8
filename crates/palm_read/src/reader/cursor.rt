//! The tokens of a line, one after another.
ghost use Rattle.std.specs.Prelude.{◌≡◌, [], IfSome, drop, option_copied};
ghost use Rattle.palm_base.specs.Tells.{Tells};
ghost use Rattle.palm_read.specs.Token.{tokens_of};
ghost use Rattle.palm_read.specs.Reader.Held.{Takes, TakesIf};
ghost use Rattle.palm_read.specs.Reader.Steps.{token_at, behind, keyword_at, mark_at, front_text, name_at, is_name, is_reserved};
ghost use Rattle.palm_base.specs.Numbers.{AreDigits};
ghost use Rattle.palm_read.specs.declared.tokens.TokenKind.TheVariants.{Word, Digits, Sign};

use crate::limits::MOST_NAME_BYTES;
use crate::scan::token;
use crate::tokens::{Token, TokenKind};
use std::marker::Model;

/// The tokens that are left of a line. The first of them is at hand.
#[derive(Drop)]
pub struct Cursor<'a> {
    bytes: &'a [u8],
    next: Option<Token>,
}

impl<'a> Model for Cursor<'a> {
    ghost use Rattle.std.specs.Prelude.{List};
    ghost use Rattle.palm_read.specs.Token.{Lexeme, tokens_left, StandsIn};

    ghost Value = { List Lexeme };

    ghost view = { λ c. tokens_left c.bytes.now c.next };

    ghost invariant = { λ c. StandsIn c.bytes.now c.next };
}

impl<'a> Cursor<'a> {
    /// All tokens of a line.
    pub fn new(bytes: &'a [u8]) -> Cursor<'a>
        ensures { result ≡ tokens_of bytes.now }
    {
        Cursor {
            bytes,
            next: token(bytes, 0),
        }
    }

    /// Whether no token is left.
    pub fn is_at_end(&self) -> bool
        ensures { Tells result (self.now ≡ []) }
    {
        self.next.is_none()
    }

    /// Takes the word in front.
    pub fn word(&mut self) -> Option<&'a [u8]>
        ensures { Takes (option_copied result) self.old self.new (token_at Word self.old) }
    {
        self.take(TokenKind::Word)
    }

    /// Takes the sign in front.
    pub fn any_sign(&mut self) -> Option<&'a [u8]>
        ensures { Takes (option_copied result) self.old self.new (token_at Sign self.old) }
    {
        self.take(TokenKind::Sign)
    }

    /// Takes the digits in front.
    pub fn digits(&mut self) -> Option<&'a [u8]>
        ensures taken { Takes (option_copied result) self.old self.new (token_at Digits self.old) }
        ensures digits { IfSome result (λ text. AreDigits text.now) }
    {
        self.take(TokenKind::Digits)
    }

    /// Takes the name in front.
    #[tactic(auto, unfolding(crate::specs::Reader::Steps::name_at, crate::specs::Reader::Steps::token_at, crate::specs::Reader::Steps::and_then, crate::specs::Reader::Steps::choose))]
    pub fn name(&mut self) -> Option<&'a [u8]>
        ensures { Takes (option_copied result) self.old self.new (name_at self.old) }
    {
        let word = self.text(TokenKind::Word)?;
        if !is_name(word) {
            return None;
        }
        self.advance();
        Some(word)
    }

    /// Takes this word, if it stands in front.
    pub fn takes_word(&mut self, text: &[u8]) -> bool
        ensures { TakesIf result self.old self.new (keyword_at text.now self.old) }
    {
        self.takes(TokenKind::Word, text)
    }

    /// Takes these digits, just so, if they stand in front.
    pub fn takes_digits(&mut self, text: &[u8]) -> bool
        ensures { TakesIf result self.old self.new (behind Digits text.now self.old) }
    {
        self.takes(TokenKind::Digits, text)
    }

    /// Takes this sign, if it stands in front.
    pub fn takes_sign(&mut self, text: &[u8]) -> bool
        ensures { TakesIf result self.old self.new (mark_at text.now self.old) }
    {
        self.takes(TokenKind::Sign, text)
    }

    /// Takes this token, if it stands in front.
    #[tactic(auto, unfolding(crate::specs::Reader::Steps::behind, crate::specs::Reader::Steps::token_at, crate::specs::Reader::Steps::and_then, crate::specs::Reader::Steps::choose))]
    pub fn takes(&mut self, kind: TokenKind, text: &[u8]) -> bool
        ensures { TakesIf result self.old self.new (behind kind text.now self.old) }
    {
        let is_there = self.text(kind) == Some(text);
        if is_there {
            self.advance();
        }
        is_there
    }

    #[tactic(auto, unfolding(crate::specs::Reader::Steps::token_at, crate::specs::Reader::Steps::and_then))]
    fn take(&mut self, kind: TokenKind) -> Option<&'a [u8]>
        ensures taken { Takes (option_copied result) self.old self.new (token_at kind self.old) }
        ensures digits { kind ≡ Digits → IfSome result (λ text. AreDigits text.now) }
    {
        let text = self.text(kind)?;
        self.advance();
        Some(text)
    }

    /// The text of the token in front, where it is of this kind.
    #[tactic(auto, unfolding(crate::specs::Reader::Steps::front_text, crate::specs::Reader::Steps::choose))]
    pub fn text(&self, kind: TokenKind) -> Option<&'a [u8]>
        ensures value { option_copied result ≡ front_text kind self.now }
        ensures digits { kind ≡ Digits → IfSome result (λ text. AreDigits text.now) }
    {
        let token = self.next?;
        if token.kind == kind {
            Some(&self.bytes[token.start..token.end])
        } else {
            None
        }
    }

    /// Goes on behind the token in front.
    fn advance(&mut self)
        ensures { self.new ≡ drop 1 self.old }
    {
        if let Some(token) = self.next {
            self.next = crate::scan::token(self.bytes, token.end);
        }
    }
}

/// Whether a word is a name.
#[tactic(auto, unfolding(crate::specs::Reader::Steps::is_name))]
fn is_name(word: &[u8]) -> bool
    ensures { result ≡ is_name word.now }
{
    word.len() <= MOST_NAME_BYTES && !is_reserved(word)
}

/// Whether a word is one of those that are no names.
fn is_reserved(word: &[u8]) -> bool
    ensures { result ≡ is_reserved word.now }
{
    word == b"sum".as_slice()
        || word == b"table".as_slice()
        || word == b"element".as_slice()
        || word == b"count".as_slice()
        || word == b"differ".as_slice()
        || word == b"in".as_slice()
}
