ghost use Rattle.std.specs.Prelude.{◌≡◌, ℕ, IfOk, IfSome, option_map, string_bytes};
ghost use Rattle.flight_syntax.specs.Words.{word_of};
ghost use Rattle.flight_top.specs.StaticReader.{Gives, AreOfText, words_from, seen, escaped, want, any_name, lower_name, a_number, a_text};

use crate::static_code::{Code, Unbuilt};
use flight_syntax::TokenKind;
use serde_json::Value;
use std::alloc::{AllocError, Global};

/// Behind a word of this kind and spelling, where it stands at this place.
pub fn want(code: &Code, at: usize, kind: TokenKind, word: &str) -> Option<usize>
    requires { AreOfText code.now }
    ensures { option_map (λ n. words_from code.now n) result ≡ want kind word.now (words_from code.now at) }
{
    if at >= code.tokens.len() {
        return None;
    }
    let token = code.tokens[at];
    if token.kind != kind {
        return None;
    }
    if !token.is(code.text, word) {
        return None;
    }
    Some(at + 1)
}

/// The name at this place.
pub fn any_name(alloc: Global, code: &Code, at: usize) -> Result<(String, usize), Unbuilt>
    requires { AreOfText code.now }
    ensures { Gives (λ x. (string_bytes x.0, words_from code.now x.1)) result (any_name (words_from code.now at)) }
{
    if at >= code.tokens.len() {
        return Err(Unbuilt::NotBuilt);
    }
    let token = code.tokens[at];
    if token.kind != TokenKind::Name {
        return Err(Unbuilt::NotBuilt);
    }
    let name = token.name(alloc, code.text)?;
    Ok((String::from_str(alloc, name.as_str())?, at + 1))
}

/// The lower name at this place.
pub fn lower_name(alloc: Global, code: &Code, at: usize) -> Result<(String, usize), Unbuilt>
    requires { AreOfText code.now }
    ensures { Gives (λ x. (string_bytes x.0, words_from code.now x.1)) result (lower_name (words_from code.now at)) }
{
    if at >= code.tokens.len() {
        return Err(Unbuilt::NotBuilt);
    }
    let token = code.tokens[at];
    if !token.is_lower(code.text) {
        return Err(Unbuilt::NotBuilt);
    }
    let name = token.name(alloc, code.text)?;
    Ok((String::from_str(alloc, name.as_str())?, at + 1))
}

/// A text as it is written in a row.
pub fn escaped(alloc: Global, text: &str) -> Result<String, AllocError>
    ensures { IfOk result (λ s. string_bytes s ≡ escaped text.now) }
{
    let mut written = String::new(alloc);
    if text.starts_with('$') {
        written.push('$')?;
    }
    written.push_str(text)?;
    Ok(written)
}

/// The number at this place.
pub fn number(code: &Code, at: usize) -> Option<(Value, usize)>
    requires { AreOfText code.now }
    ensures { option_map (seen code.now) result ≡ a_number (words_from code.now at) }
{
    if at >= code.tokens.len() {
        return None;
    }
    let token = code.tokens[at];
    if token.kind != TokenKind::Number {
        return None;
    }
    Some((Value::from(token.number(code.text)), at + 1))
}

/// The text at this place.
pub fn text(alloc: Global, code: &Code, at: usize) -> Result<(Value, usize), Unbuilt>
    requires { AreOfText code.now }
    ensures { Gives (seen code.now) result (a_text (words_from code.now at)) }
{
    if at >= code.tokens.len() {
        return Err(Unbuilt::NotBuilt);
    }
    let token = code.tokens[at];
    if token.kind != TokenKind::Text {
        return Err(Unbuilt::NotBuilt);
    }
    let text = token.text(alloc, code.text)?;
    Ok((Value::String(escaped(alloc, text.as_str())?), at + 1))
}
