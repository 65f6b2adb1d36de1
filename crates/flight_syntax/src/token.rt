ghost use Rattle.std.specs.Prelude.{ℕ, ◌≡◌, ◌↔◌, IsTrue, IfOk, pos};
ghost use Rattle.flight_syntax.specs.Pieces.{IsNumber, IsBig, IsText};
ghost use Rattle.flight_syntax.specs.Tokens.{IsTokenOf, spelling};
ghost use Rattle.flight_syntax.specs.Names.{IsUpper, IsLower};

use crate::name::{is_lower, is_upper};
use crate::number::{MOST, MOST_BIG, number_of};
use crate::string::string_of;
use flight_value::{Memory, Text};
use std::alloc::{AllocError, AllocFailed, Global};

/// What a token is.
#[derive(Clone, Copy, Debug, PartialEq)]
pub enum TokenKind {
    /// A letter or `_`, and then letters, digits and `_`; keywords too.
    Name,
    /// A whole number of at most 2^53 - 1, in decimal.
    Number,
    /// A whole number of at most 2^127 - 1, in decimal, followed by `n`.
    Big,
    /// A JSON string literal, with its quotes.
    Text,
    /// One of `( ) [ ] { } , ; : . = == && || + - * < > </ />`.
    Mark,
}

/// A token, with where it begins and where it ends, in bytes of the text; `to` is the place behind it.
#[derive(Clone, Copy)]
pub struct Token {
    pub kind: TokenKind,
    pub from: u32,
    pub to: u32,
}

impl Token {
    /// The bytes of the token in the text whose token it is.
    pub fn bytes<'a>(&self, text: &'a [u8]) -> &'a [u8]
        requires { IsTokenOf text.now self.now }
        ensures { result.now ≡ spelling text.now self.now }
    {
        &text[self.from as usize..self.to as usize]
    }

    /// Whether the token is spelled so: a mark, or a name.
    pub fn is(&self, text: &[u8], word: &str) -> bool
        requires { IsTokenOf text.now self.now }
        ensures { IsTrue result ↔ (spelling text.now self.now ≡ word.now) }
    {
        self.bytes(text) == word.as_bytes()
    }

    /// Whether the token is an Upper name: it begins with a capital letter, and is no keyword.
    pub fn is_upper(&self, text: &[u8]) -> bool
        requires { IsTokenOf text.now self.now }
        ensures { IsTrue result ↔ IsUpper text.now self.now }
    {
        self.kind == TokenKind::Name && is_upper(self.bytes(text))
    }

    /// Whether the token is a lower name: any other that is no keyword.
    pub fn is_lower(&self, text: &[u8]) -> bool
        requires { IsTokenOf text.now self.now }
        ensures { IsTrue result ↔ IsLower text.now self.now }
    {
        self.kind == TokenKind::Name && is_lower(self.bytes(text))
    }

    /// The name that the token is.
    pub fn name(&self, alloc: Global, text: &[u8]) -> Result<Text, Memory>
        requires token { IsTokenOf text.now self.now }
        requires name { self.now.kind ≡ TokenKind.Name }
        ensures { IfOk result (λ name. name ≡ spelling text.now self.now) }
    {
        match str::from_utf8(self.bytes(text)) {
            Ok(name) => Text::new(alloc, name),
            Err(_) => unreachable!(),
        }
    }

    /// The value of the number that the token is.
    pub fn number(&self, text: &[u8]) -> i64
        requires token { IsTokenOf text.now self.now }
        requires number { self.now.kind ≡ TokenKind.Number }
        ensures { (number : ℕ) × (IsNumber (spelling text.now self.now) number × (result ≡ pos number)) }
    {
        match number_of(self.bytes(text), MOST) {
            Some(number) => number as i64,
            None => unreachable!(),
        }
    }

    /// The value of the big number that the token is.
    pub fn big(&self, text: &[u8]) -> i128
        requires token { IsTokenOf text.now self.now }
        requires big { self.now.kind ≡ TokenKind.Big }
        ensures { (number : ℕ) × (IsBig (spelling text.now self.now) number × (result ≡ pos number)) }
    {
        let bytes = self.bytes(text);
        match number_of(&bytes[..bytes.len() - 1], MOST_BIG) {
            Some(number) => number as i128,
            None => unreachable!(),
        }
    }

    /// The text that the token stands for.
    pub fn text(&self, alloc: Global, text: &[u8]) -> Result<Text, Memory>
        requires token { IsTokenOf text.now self.now }
        requires text { self.now.kind ≡ TokenKind.Text }
        ensures { IfOk result (λ value. IsText (spelling text.now self.now) value) }
    {
        string_of(alloc, self.bytes(text))
    }
}

/// Why a text has no tokens.
#[derive(Clone, Copy, Debug)]
pub enum LexKind {
    /// No token begins with the byte.
    BadByte,
    /// A literal is no JSON string, or it does not end.
    BadText,
    /// Digits with a leading zero, out of range, or with another byte of a name directly behind them.
    BadNumber,
}

/// The first fault of a text, and where it stands, in bytes of the text: at the byte, at the literal's quote
/// or at the number's first digit.
#[derive(Clone, Copy, Debug)]
pub struct LexFault {
    pub kind: LexKind,
    pub at: u32,
}

/// Why no tokens were given.
#[derive(Clone, Copy, Debug)]
pub enum Lexed {
    /// The text has none.
    Fault(LexFault),
    /// Memory was wanting.
    Memory,
}

impl From<Memory> for Lexed {
    ghost use Rattle.std.specs.Prelude.{◌≡◌};
    ghost use Rattle.flight_syntax.specs.declared.token.Lexed.TheVariants as lexed;

    ghost from_gives = { λ _ e. e ≡ lexed.Memory };

    fn from(_error: Memory) -> Lexed {
        Lexed::Memory
    }
}

impl From<AllocError> for Lexed {
    ghost use Rattle.std.specs.Prelude.{◌≡◌};
    ghost use Rattle.flight_syntax.specs.declared.token.Lexed.TheVariants as lexed;

    ghost from_gives = { λ _ e. e ≡ lexed.Memory };

    fn from(_error: AllocError) -> Lexed {
        Lexed::Memory
    }
}

impl<T: Drop> From<AllocFailed<T>> for Lexed {
    ghost use Rattle.std.specs.Prelude.{◌≡◌};
    ghost use Rattle.flight_syntax.specs.declared.token.Lexed.TheVariants as lexed;

    ghost from_gives = { λ _ e. e ≡ lexed.Memory };

    fn from(_error: AllocFailed<T>) -> Lexed {
        Lexed::Memory
    }
}
