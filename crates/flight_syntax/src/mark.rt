ghost use Rattle.std.specs.Prelude.{◌≡◌, ◌<◌, false, IfSome, IfNone, length, slice_index, ◌==◌};
ghost use Rattle.std.specs.Char.{is_ascii_digit};
ghost use Rattle.flight_syntax.specs.Pieces.{is_space, begins_name, is_single_mark, is_double_mark, begins_pair, Stands, IsFound};

use crate::piece::{Found, Piece, line_len};
use crate::token::TokenKind;

/// Whether a byte alone is a mark.
fn is_single_mark(byte: u8) -> bool
    ensures { result ≡ is_single_mark byte }
{
    matches!(
        byte,
        b'(' | b')'
            | b'['
            | b']'
            | b'{'
            | b'}'
            | b','
            | b';'
            | b':'
            | b'.'
            | b'='
            | b'+'
            | b'-'
            | b'*'
            | b'<'
            | b'>'
    )
}

/// Whether two bytes are a mark.
fn is_double_mark(first: u8, second: u8) -> bool
    ensures { result ≡ is_double_mark first second }
{
    matches!(
        (first, second),
        (b'=', b'=') | (b'&', b'&') | (b'|', b'|') | (b'<', b'/') | (b'/', b'>')
    )
}

/// The comment or the mark at the front of a text that begins with no other piece.
pub fn mark_piece(text: &[u8]) -> Option<Found>
    requires some { 0 < length text.now }
    requires no_space { is_space (slice_index text.now 0) ≡ false }
    requires no_name { begins_name (slice_index text.now 0) ≡ false }
    requires no_digit { is_ascii_digit (slice_index text.now 0) ≡ false }
    requires no_quote { (slice_index text.now 0 == 34) ≡ false }
    ensures { IsFound text.now result }
{
    if let Some(found) = pair_piece(text) {
        return Some(found);
    }
    if is_single_mark(text[0]) {
        let piece = Piece::Token(TokenKind::Mark);
        return Some(Found { piece, len: 1 });
    }
    None
}

/// The comment or the mark of two bytes at the front of a text.
fn pair_piece(text: &[u8]) -> Option<Found>
    ensures some { IfSome result (λ found. Stands found.piece text.now found.len) }
    ensures none { IfNone result (begins_pair text.now ≡ false) }
{
    if text.len() < 2 {
        return None;
    }
    if text[0] == b'/' && text[1] == b'/' {
        let len = 2 + line_len(&text[2..]);
        let piece = Piece::Comment;
        return Some(Found { piece, len });
    }
    if is_double_mark(text[0], text[1]) {
        let piece = Piece::Token(TokenKind::Mark);
        return Some(Found { piece, len: 2 });
    }
    None
}
