ghost use Rattle.std.specs.Prelude.{ℕ, List, ◌<◌, ◌≤◌, ◌≡◌, ◌≢◌, ◌+◌, ◌^◌, slice_index, IfOk, IfErr, length, drop};
ghost use Rattle.std.specs.List.{All, AllPairs};
ghost use Rattle.std.specs.Str.{IsUtf8};
ghost use Rattle.flight_syntax.specs.Pieces.{NothingStands, IsFound};
ghost use Rattle.flight_syntax.specs.Tokens.{AreTokens, IsTokenOf, IsFaultOf, IsRefused, HasOneReading};

use crate::mark::mark_piece;
use crate::number::number_piece;
use crate::piece::{Found, Piece, begins_name, is_space, name_len};
use crate::string::text_piece;
use crate::token::{LexFault, LexKind, Lexed, Token, TokenKind};
use flight_value::Memory;
use std::alloc::Global;

/// The tokens of a text of at most 1,048,576 bytes, in the order in which they stand. Spaces and comments
/// stand between them; the longest token is taken. A fault is the first in the text, and no text has both
/// tokens and a fault.
pub fn tokens(alloc: Global, bytes: &[u8]) -> Result<Vec<Token>, Lexed>
    requires utf8 { IsUtf8 bytes.now }
    requires within { length bytes.now ≤ 1048576 }
    ensures ok { IfOk result (λ tokens. AreTokens bytes.now tokens.items) }
    ensures each { IfOk result (λ tokens. All (IsTokenOf bytes.now) tokens.items) }
    ensures ascend { IfOk result (λ tokens. AllPairs (λ first later. first.to ≤ later.from) tokens.items) }
    ensures fault { IfErr result (IsFaultOf bytes.now) }
{
    let mut tokens = Vec::new(alloc);
    let mut at = 0;
    while at < bytes.len() {
        let Some(found) = piece_at(alloc, bytes, at)? else {
            return Err(Lexed::Fault(fault_at(bytes, at)));
        };
        let end = at + found.len;
        if let Piece::Token(kind) = found.piece {
            tokens.push(Token {
                kind,
                from: at as u32,
                to: end as u32,
            })?;
        }
        at = end;
    }
    Ok(tokens)
}

/// The piece at a place of a text, if any stands there.
fn piece_at(alloc: Global, bytes: &[u8], at: usize) -> Result<Option<Found>, Memory>
    requires utf8 { IsUtf8 bytes.now }
    requires within { at < length bytes.now }
    ensures { IfOk result (IsFound (drop at bytes.now)) }
{
    if bytes[at] == b'"' {
        return text_piece(alloc, bytes, at);
    }
    Ok(plain_piece(&bytes[at..]))
}

/// The piece at the front of a text that does not begin with a quote.
fn plain_piece(text: &[u8]) -> Option<Found>
    requires some { 0 < length text.now }
    requires no_quote { slice_index text.now 0 ≢ 34 }
    ensures { IsFound text.now result }
{
    let first = text[0];
    if is_space(first) {
        let piece = Piece::Space;
        Some(Found { piece, len: 1 })
    } else if begins_name(first) {
        let piece = Piece::Token(TokenKind::Name);
        let len = name_len(text);
        Some(Found { piece, len })
    } else if first.is_ascii_digit() {
        number_piece(text)
    } else {
        mark_piece(text)
    }
}

/// The fault at a place of a text where no piece stands.
fn fault_at(bytes: &[u8], at: usize) -> LexFault
    requires within { at < length bytes.now }
    requires small { at < 2 ^ 32 }
    requires nothing { NothingStands (drop at bytes.now) }
    ensures at { result.at ≡ at }
    ensures kind { IsRefused result.kind (drop at bytes.now) }
{
    let first = bytes[at];
    let kind = if first.is_ascii_digit() {
        LexKind::BadNumber
    } else if first == b'"' {
        LexKind::BadText
    } else {
        LexKind::BadByte
    };
    LexFault {
        kind,
        at: at as u32,
    }
}

/// No text has two lists of tokens, or tokens and a fault, or two faults.
pub fn one_reading()
    ensures { (text : List ℕ) → HasOneReading text }
{}
