ghost use Rattle.std.specs.Prelude.{◌≡◌};
ghost use Rattle.std.specs.List.{list_all};
ghost use Rattle.flight_text.specs.Hex.{is_hex_digit, IsId};
ghost use Rattle.flight_text.specs.Answer.{Answers};

use crate::mark::Marked;

/// Whether a byte is a lower-case hexadecimal digit.
fn is_digit(byte: u8) -> bool
    ensures { result ≡ is_hex_digit byte }
{
    matches!(byte, b'0'..=b'9' | b'a'..=b'f')
}

/// Whether each byte is one.
fn are_digits(text: &str) -> bool
    ensures { result ≡ list_all is_hex_digit text.now }
{
    text.bytes().all(is_digit)
}

/// The id that hexadecimal digits spell.
pub fn read_id(digits: &str) -> Result<u32, Marked>
    ensures { Answers (IsId digits.now) result }
{
    if digits.len() > 8 || !are_digits(digits) {
        return Err(Marked::BadToken);
    }
    match u32::from_str_radix(digits, 16) {
        Ok(id) if id < 1 << 31 => Ok(id),
        _ => Err(Marked::BadToken),
    }
}
