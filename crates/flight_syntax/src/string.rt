ghost use Rattle.std.specs.Prelude.{◌≡◌, ◌↔◌, IsTrue, IfOk, IfSome, ◌≤◌, List, ℕ, Some, false, ◌<◌, drop, length, slice_index};
ghost use Rattle.std.specs.Str.{IsUtf8};
ghost use Rattle.serde_json.specs.Data.{string};
ghost use Rattle.serde_json.specs.Read.{read};
ghost use Rattle.flight_syntax.specs.Literal.{closing};
ghost use Rattle.flight_syntax.specs.Pieces.{IsFound, IsText};

use crate::piece::{Found, Piece};
use crate::token::TokenKind;
use flight_value::{Memory, Text};
use serde_json::Value;
use std::alloc::Global;

/// The text at a place of a text where a quote stands.
pub fn text_piece(alloc: Global, text: &[u8], at: usize) -> Result<Option<Found>, Memory>
    requires utf8 { IsUtf8 text.now }
    requires within { at < length text.now }
    requires quote { slice_index text.now at ≡ 34 }
    ensures { IfOk result (IsFound (drop at text.now)) }
{
    let rest = &text[at..];
    let Some(closing) = closing_len(&rest[1..]) else {
        return Ok(None);
    };
    let len = closing + 1;
    if !is_string(alloc, &rest[..len])? {
        return Ok(None);
    }
    let piece = Piece::Token(TokenKind::Text);
    Ok(Some(Found { piece, len }))
}

/// How many bytes there are up to the first quote that no backslash escapes, with it.
pub fn closing_len(text: &[u8]) -> Option<usize>
    ensures within { IfSome result (λ n. n ≤ length text.now) }
    ensures value { result ≡ closing false text.now }
{
    let mut escaped = false;
    for (i, byte) in text.iter().enumerate() {
        if escaped {
            escaped = false;
        } else if *byte == b'"' {
            return Some(i + 1);
        } else {
            escaped = *byte == b'\\';
        }
    }
    None
}

/// Whether a text is a JSON string.
pub fn is_string(alloc: Global, text: &[u8]) -> Result<bool, Memory>
    requires { IsUtf8 text.now }
    ensures { IfOk result (λ yes. IsTrue yes ↔ ((value : List ℕ) × (read text.now ≡ Some (string value)))) }
{
    match Value::from_slice(alloc, text) {
        Ok(value) => Ok(value.is_string()),
        Err(error) if error.is_memory() => Err(Memory::past_limit()),
        Err(_) => Ok(false),
    }
}

/// The value of a JSON string.
pub fn string_of(alloc: Global, literal: &[u8]) -> Result<Text, Memory>
    requires { (value : List ℕ) × IsText literal.now value }
    ensures { IfOk result (λ value. IsText literal.now value) }
{
    // The literal was read before, so that nothing can go wrong but for want of memory.
    match Value::from_slice(alloc, literal) {
        Ok(Value::String(value)) => Text::from_string(value),
        Ok(_) => unreachable!(),
        Err(_) => Err(Memory::past_limit()),
    }
}
