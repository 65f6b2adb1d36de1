ghost use Rattle.std.specs.Prelude.{◌≡◌, ◌≢◌, ◌↔◌, ℕ, ◌<◌, ◌≤◌, ◌^◌, ◌+◌, ◌-◌, true, IfSome, IfNone, IsTrue, length, take, slice_index};
ghost use Rattle.std.specs.List.{list_all, prefix_len};
ghost use Rattle.std.specs.Char.{is_ascii_digit};
ghost use Rattle.flight_syntax.specs.Pieces.{decimal, IsNumeral, EndsApart, IsFound};

use crate::piece::{Found, Piece, is_name_byte};
use crate::token::TokenKind;

/// The greatest number.
pub const MOST: u128 = (1 << 53) - 1;

/// The greatest big number.
pub const MOST_BIG: u128 = (1 << 127) - 1;

/// The number or the big number at the front of a text that begins with a digit.
pub fn number_piece(text: &[u8]) -> Option<Found>
    requires some { 0 < length text.now }
    requires digit { is_ascii_digit (slice_index text.now 0) ≡ true }
    ensures { IsFound text.now result }
{
    let digits = digits_len(text);
    if is_byte_at(text, digits, b'n') {
        big_number(text, digits)
    } else {
        plain_number(text, digits)
    }
}

/// The big number of so many digits, behind which `n` stands.
fn big_number(text: &[u8], digits: usize) -> Option<Found>
    requires some { 0 < length text.now }
    requires digit { is_ascii_digit (slice_index text.now 0) ≡ true }
    requires digits { digits ≡ prefix_len is_ascii_digit text.now }
    requires mark { (digits < length text.now) × (slice_index text.now digits ≡ 110) }
    ensures { IsFound text.now result }
{
    let len = digits + 1;
    if is_number(text, digits, len, MOST_BIG) {
        let piece = Piece::Token(TokenKind::Big);
        return Some(Found { piece, len });
    }
    None
}

/// The number of so many digits, behind which no `n` stands.
fn plain_number(text: &[u8], digits: usize) -> Option<Found>
    requires some { 0 < length text.now }
    requires digit { is_ascii_digit (slice_index text.now 0) ≡ true }
    requires digits { digits ≡ prefix_len is_ascii_digit text.now }
    requires mark { slice_index text.now digits ≢ 110 }
    ensures { IsFound text.now result }
{
    if is_number(text, digits, digits, MOST) {
        let piece = Piece::Token(TokenKind::Number);
        return Some(Found { piece, len: digits });
    }
    None
}

/// Whether so many digits are a numeral of at most `most`, and no name byte stands behind the number.
fn is_number(text: &[u8], digits: usize, len: usize, most: u128) -> bool
    requires digits { digits ≡ prefix_len is_ascii_digit text.now }
    requires some { 0 < digits }
    requires least { 9 ≤ most }
    requires most { most < 2 ^ 127 }
    ensures { IsTrue result ↔ ((number : ℕ) × ((IsNumeral (take digits text.now) number × (number ≤ most)) × EndsApart text.now len)) }
{
    is_numeral(&text[..digits], most) && ends_apart(text, len)
}

/// Whether a byte stands at a place of a text.
fn is_byte_at(text: &[u8], at: usize, byte: u8) -> bool
    ensures { IsTrue result ↔ ((at < length text.now) × (slice_index text.now at ≡ byte)) }
{
    at < text.len() && text[at] == byte
}

/// Whether no name byte stands at a place of a text.
fn ends_apart(text: &[u8], at: usize) -> bool
    ensures { IsTrue result ↔ EndsApart text.now at }
{
    at >= text.len() || !is_name_byte(text[at])
}

/// Whether digits are a numeral of at most `most`.
fn is_numeral(digits: &[u8], most: u128) -> bool
    requires digits { list_all is_ascii_digit digits.now ≡ true }
    requires some { 0 < length digits.now }
    requires least { 9 ≤ most }
    requires most { most < 2 ^ 127 }
    ensures { IsTrue result ↔ ((number : ℕ) × (IsNumeral digits.now number × (number ≤ most))) }
{
    (digits.len() == 1 || digits[0] != b'0') && number_of(digits, most).is_some()
}

/// How many digits stand at the front.
pub fn digits_len(text: &[u8]) -> usize
    ensures within { result ≤ length text.now }
    ensures value { result ≡ prefix_len is_ascii_digit text.now }
{
    for (i, byte) in text.iter().enumerate() {
        if !byte.is_ascii_digit() {
            return i;
        }
    }
    text.len()
}

/// The number that digits spell, if it is at most `most`.
pub fn number_of(digits: &[u8], most: u128) -> Option<u128>
    requires digits { list_all is_ascii_digit digits.now ≡ true }
    requires least { 9 ≤ most }
    requires most { most < 2 ^ 127 }
    ensures some { IfSome result (λ n. (n ≡ decimal digits.now) × (n ≤ most)) }
    ensures none { IfNone result (most < decimal digits.now) }
{
    let mut number = 0u128;
    for digit in digits {
        let digit = u128::from(digit_value(*digit));
        if number > (most - digit) / 10 {
            return None;
        }
        number = 10 * number + digit;
    }
    Some(number)
}

/// The value of a digit.
pub fn digit_value(byte: u8) -> u8
    requires { is_ascii_digit byte ≡ true }
    ensures value { result ≡ byte - 48 }
    ensures small { result < 10 }
{
    byte - b'0'
}
