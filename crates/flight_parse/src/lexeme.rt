ghost use Rattle.std.specs.Prelude.{◌≡◌, IfOk, slice_index};
ghost use Rattle.std.specs.Char.{is_ascii_uppercase};
ghost use Rattle.std.specs.List.{All};
ghost use Rattle.flight_syntax.specs.Lexicon.{word_of, words_of};
ghost use Rattle.flight_syntax.specs.Tokens.{IsTokenOf};
ghost use Rattle.flight_syntax.specs.declared.token.TokenKind.TheVariants as TokenKind;
ghost use Rattle.flight_parse.specs.Code.{word, words};

use crate::numeral::{BigNumeral, Numeral};
use crate::word::{keyword_of, sign_of};
use flight_syntax::{Keyword, Punctuator, Token, TokenKind};
use flight_value::{Memory, Text};
use sqlite_items::Items;
use std::alloc::Global;

/// A name or a text, and where it stands, in bytes of the program's text.
#[derive(Drop)]
pub struct Name {
    pub bytes: Text,
    pub at: u32,
}

impl Name {
    /// An equal name.
    pub fn copy(&self) -> Result<Name, Memory>
        ensures { IfOk result (λ name. name ≡ self.now) }
    {
        let bytes = self.bytes.clone()?;
        Ok(Name { bytes, at: self.at })
    }
}

/// What a token says.
#[derive(Drop)]
pub enum Lexeme {
    /// A keyword, and where it stands.
    Key(Keyword, u32),
    Lower(Name),
    Upper(Name),
    Number(Numeral),
    Big(BigNumeral),
    /// The text that a literal stands for, and where the literal stands.
    Literal(Name),
    Mark(Punctuator),
}

/// What the tokens of a text say.
pub fn lexemes(alloc: Global, text: &[u8], tokens: &[Token]) -> Result<Vec<Lexeme>, Memory>
    requires { All (IsTokenOf text.now) tokens.now }
    ensures { IfOk result (λ lexemes. words lexemes.items ≡ words_of text.now tokens.now) }
{
    let mut lexemes = Vec::new(alloc);
    for token in tokens {
        let lexeme = lexeme_of(alloc, text, token)?;
        lexemes.push(lexeme)?;
    }
    Ok(lexemes)
}

/// What a token of a text says.
fn lexeme_of(alloc: Global, text: &[u8], token: &Token) -> Result<Lexeme, Memory>
    requires { IsTokenOf text.now token.now }
    ensures { IfOk result (λ lexeme. word lexeme ≡ word_of text.now token.now) }
{
    match token.kind {
        TokenKind::Name => named(alloc, text, token),
        TokenKind::Number => number(alloc, text, token),
        TokenKind::Big => big(alloc, text, token),
        TokenKind::Text => literal(alloc, text, token),
        TokenKind::Mark => Ok(mark(text, token)),
    }
}

/// What a name says.
fn named(alloc: Global, text: &[u8], token: &Token) -> Result<Lexeme, Memory>
    requires token { IsTokenOf text.now token.now }
    requires name { token.now.kind ≡ TokenKind.Name }
    ensures { IfOk result (λ lexeme. word lexeme ≡ word_of text.now token.now) }
{
    let bytes = token.bytes(text);
    if let Some(keyword) = keyword_of(bytes) {
        return Ok(Lexeme::Key(keyword, token.from));
    }
    let name = Name {
        bytes: token.name(alloc, text)?,
        at: token.from,
    };
    if begins_upper(bytes) {
        Ok(Lexeme::Upper(name))
    } else {
        Ok(Lexeme::Lower(name))
    }
}

/// Whether a name begins with a capital letter.
fn begins_upper(name: &[u8]) -> bool
    ensures { result ≡ is_ascii_uppercase (slice_index name.now 0) }
{
    !name.is_empty() && name[0].is_ascii_uppercase()
}

/// What a number says.
fn number(alloc: Global, text: &[u8], token: &Token) -> Result<Lexeme, Memory>
    requires token { IsTokenOf text.now token.now }
    requires number { token.now.kind ≡ TokenKind.Number }
    ensures { IfOk result (λ lexeme. word lexeme ≡ word_of text.now token.now) }
{
    let digits = Items::from_slice(alloc, token.bytes(text))?;
    let value = token.number(text);
    Ok(Lexeme::Number(Numeral { digits, value }))
}

/// What a big number says.
fn big(alloc: Global, text: &[u8], token: &Token) -> Result<Lexeme, Memory>
    requires token { IsTokenOf text.now token.now }
    requires number { token.now.kind ≡ TokenKind.Big }
    ensures { IfOk result (λ lexeme. word lexeme ≡ word_of text.now token.now) }
{
    let bytes = token.bytes(text);
    let digits = Items::from_slice(alloc, &bytes[..bytes.len() - 1])?;
    let value = token.big(text);
    Ok(Lexeme::Big(BigNumeral { digits, value }))
}

/// What a literal says.
fn literal(alloc: Global, text: &[u8], token: &Token) -> Result<Lexeme, Memory>
    requires token { IsTokenOf text.now token.now }
    requires text { token.now.kind ≡ TokenKind.Text }
    ensures { IfOk result (λ lexeme. word lexeme ≡ word_of text.now token.now) }
{
    let bytes = token.text(alloc, text)?;
    let at = token.from;
    Ok(Lexeme::Literal(Name { bytes, at }))
}

/// What a mark says.
fn mark(text: &[u8], token: &Token) -> Lexeme
    requires token { IsTokenOf text.now token.now }
    requires mark { token.now.kind ≡ TokenKind.Mark }
    ensures { word result ≡ word_of text.now token.now }
{
    match sign_of(token.bytes(text)) {
        Some(sign) => Lexeme::Mark(sign),
        None => Lexeme::Mark(Punctuator::Semicolon),
    }
}
