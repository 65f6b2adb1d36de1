ghost use Rattle.std.specs.Prelude.{◌≡◌, ◌++◌, ◌∷◌, ◌≤◌, ◌+◌, ◌*◌, [], false, length, All, IfOk, OnOk, OnErr};
ghost use Rattle.json.specs.Print.{print, token_text, separator, begins, ends, escape_byte, escape, quoted, IsPrintable};
ghost use Rattle.json.specs.Reads.{token_of};
ghost use Rattle.json.specs.Run.{is_stop};
ghost use Rattle.flight_row.specs.Rows.{longest};
ghost use Rattle.flight_payload.specs.Line.{IsLineToken, IsTextOf};

use flight_value::Memory;
use json::{Token, Writer};
use std::alloc::Global;
use std::marker::Model;
use std::mem;

/// The most bytes that the payload of a row may have.
pub const LONGEST: usize = 67_108_864;

/// Up to how many bytes are copied, so that their buffer serves for the next row. Most rows are short, and all are kept.
const SHORT: usize = 1024;

/// JSON on its way, which contracts see as its tokens. It has one line, and is never longer than the payload of a row may
/// be.
#[derive(Drop)]
pub struct JsonText {
    out: Writer,
    /// How many bytes it has.
    len: usize,
    /// Whether a value has just ended, so that a comma comes before the next one.
    after_value: bool,
}

impl Model for JsonText {
    ghost use Rattle.std.specs.Prelude.{List};
    ghost use Rattle.json.specs.Token.{Token, tokens_code};

    ghost Value = { List Token };

    ghost coded = { tokens_code };

    ghost use Rattle.flight_payload.specs.Text.{IsText};

    ghost view = { λ j. j.out.tokens };

    ghost invariant = { IsText };
}

impl JsonText {
    /// No token yet.
    pub fn new(alloc: Global) -> JsonText
        ensures { result ≡ [] }
    {
        JsonText {
            out: Writer::new(Vec::new(alloc)),
            len: 0,
            after_value: false,
        }
    }

    /// How many bytes it has.
    pub fn len(&self) -> usize
        ensures { result ≡ length (print self.now) }
    {
        self.len
    }

    /// Appends a token, if it may be so long then.
    #[inline(always)]
    pub fn token(&mut self, token: Token<'_>) -> Result<(), Memory>
        requires printable { IsPrintable (token_of token) }
        requires line { IsLineToken (token_of token) }
        ensures ok { OnOk result (self.new ≡ self.old ++ token_of token.entry ∷ []) }
        ensures err { OnErr result (self.new ≡ self.old) }
    {
        let len = self.len + comma_len(self.after_value, token) + token_len(token)?;
        if len > LONGEST {
            return Err(Memory::past_limit());
        }
        self.out.token(token)?;
        self.len = len;
        self.after_value = ends(token);
        Ok(())
    }

    /// Takes the text off. It leaves its buffer behind where it is short.
    pub fn take(&mut self, alloc: Global) -> Result<Vec<u8>, Memory>
        ensures empty { self.new ≡ [] }
        ensures text { IfOk result (λ text. IsTextOf self.old text.items) }
    {
        let JsonText { out, .. } = mem::replace(self, JsonText::new(alloc));
        let mut text = out.into_inner();
        if text.len() > SHORT {
            return Ok(text);
        }
        let copy = Vec::from_slice(alloc, text.as_slice())?;
        text.clear();
        self.out = Writer::new(text);
        Ok(copy)
    }
}

/// How many bytes stand between a value that has just ended and a token.
#[inline(always)]
fn comma_len(after_value: bool, token: Token<'_>) -> usize
    ensures len { result ≡ length (separator after_value (token_of token.entry)) }
    ensures few { result ≤ 1 }
{
    if after_value && begins(token) { 1 } else { 0 }
}

/// Whether a token begins a value or a member.
#[inline(always)]
fn begins(token: Token<'_>) -> bool
    ensures { result ≡ begins (token_of token.entry) }
{
    !matches!(token, Token::EndObject | Token::EndArray)
}

/// Whether a token is the last of a value.
#[inline(always)]
fn ends(token: Token<'_>) -> bool
    ensures { result ≡ ends (token_of token.entry) }
{
    !matches!(
        token,
        Token::BeginObject | Token::BeginArray | Token::Key(_)
    )
}

/// How many bytes a token is written with, if no text in it is too long for a row.
#[inline(always)]
fn token_len(token: Token<'_>) -> Result<usize, Memory>
    requires { IsPrintable (token_of token) }
    ensures len { IfOk result (λ n. n ≡ length (token_text (token_of token.entry))) }
    ensures few { IfOk result (λ n. n ≤ 8 * longest) }
{
    match token {
        Token::BeginObject => Ok(1),
        Token::EndObject => Ok(1),
        Token::BeginArray => Ok(1),
        Token::EndArray => Ok(1),
        Token::Key(name) => Ok(quoted_len(name)? + 1),
        Token::String(text) => quoted_len(text),
        Token::Number(text) => plain_len(text),
        Token::Bool(true) => Ok(4),
        Token::Bool(false) => Ok(5),
        Token::Null => Ok(4),
        Token::Bad => unreachable!(),
    }
}

/// How many bytes a text has.
#[inline(always)]
fn plain_len(text: &str) -> Result<usize, Memory>
    ensures len { IfOk result (λ n. n ≡ length text.now) }
    ensures few { IfOk result (λ n. n ≤ longest) }
{
    if text.len() > LONGEST {
        return Err(Memory::past_limit());
    }
    Ok(text.len())
}

/// How many bytes a text has as a JSON string.
#[inline(always)]
pub(crate) fn quoted_len(text: &str) -> Result<usize, Memory>
    ensures len { IfOk result (λ n. n ≡ length (quoted text.now)) }
    ensures few { IfOk result (λ n. n ≤ 6 * longest + 2) }
{
    if text.len() > LONGEST {
        return Err(Memory::past_limit());
    }
    if any_escaped(text.as_bytes()) {
        return Ok(escaped_len(text.as_bytes()) + 2);
    }
    Ok(text.len() + 2)
}

/// Whether a byte may not stand as it is in a JSON string. Each byte is looked at, which goes many at a time.
#[inline(always)]
fn any_escaped(bytes: &[u8]) -> bool
    ensures { result ≡ false → All (λ b. is_stop b ≡ false) bytes.now }
{
    let mut found = false;
    for byte in bytes {
        found |= is_escaped(*byte);
    }
    found
}

#[inline(always)]
fn is_escaped(byte: u8) -> bool
    ensures { result ≡ is_stop byte }
{
    byte == b'"' || byte == b'\\' || byte < 32
}

/// How many bytes stand for others in a JSON string.
#[inline(never)]
fn escaped_len(bytes: &[u8]) -> usize
    requires { length bytes.now ≤ longest }
    ensures len { result ≡ length (escape bytes.now) }
    ensures few { result ≤ 6 * longest }
{
    let mut len = 0;
    for byte in bytes {
        len += byte_len(*byte);
    }
    len
}

/// How many bytes stand for one.
#[tactic(auto, unfolding(json::specs::Print::escape_byte))]
fn byte_len(byte: u8) -> usize
    ensures len { result ≡ length (escape_byte byte) }
    ensures few { result ≤ 6 }
{
    match byte {
        b'"' | b'\\' | 8 | 12 | b'\n' | b'\r' | b'\t' => 2,
        0..32 => 6,
        _ => 1,
    }
}
