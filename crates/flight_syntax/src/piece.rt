ghost use Rattle.std.specs.Prelude.{◌≡◌, ◌≤◌, length};
ghost use Rattle.std.specs.List.{prefix_len};
ghost use Rattle.flight_syntax.specs.Pieces.{is_line_byte, is_space, begins_name, is_name_byte};

use crate::token::TokenKind;

/// What a text is made of.
#[derive(Clone, Copy)]
pub enum Piece {
    /// A space, a tab, a carriage return or a newline.
    Space,
    /// From `//` to the end of the line.
    Comment,
    /// A token of that kind.
    Token(TokenKind),
}

/// A piece at the front of a text, and how many bytes it has.
#[derive(Clone, Copy)]
pub struct Found {
    pub piece: Piece,
    pub len: usize,
}

/// Whether a byte is a space, a tab, a carriage return or a newline.
pub fn is_space(byte: u8) -> bool
    ensures { result ≡ is_space byte }
{
    matches!(byte, b' ' | b'\t' | b'\r' | b'\n')
}

/// Whether a name may begin with a byte.
pub fn begins_name(byte: u8) -> bool
    ensures { result ≡ begins_name byte }
{
    byte.is_ascii_alphabetic() || byte == b'_'
}

/// Whether a byte may stand in a name.
pub fn is_name_byte(byte: u8) -> bool
    ensures { result ≡ is_name_byte byte }
{
    begins_name(byte) || byte.is_ascii_digit()
}

/// How many bytes of a name stand at the front.
pub fn name_len(text: &[u8]) -> usize
    ensures within { result ≤ length text.now }
    ensures value { result ≡ prefix_len is_name_byte text.now }
{
    for (i, byte) in text.iter().enumerate() {
        if !is_name_byte(*byte) {
            return i;
        }
    }
    text.len()
}

/// How many bytes of a line stand at the front.
pub fn line_len(text: &[u8]) -> usize
    ensures within { result ≤ length text.now }
    ensures value { result ≡ prefix_len is_line_byte text.now }
{
    for (i, byte) in text.iter().enumerate() {
        if *byte == b'\n' {
            return i;
        }
    }
    text.len()
}
