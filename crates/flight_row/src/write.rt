ghost use Rattle.std.specs.Prelude.{false, ◌≡◌, ◌++◌, ◌∷◌, [], ◌<◌, ◌≤◌, List, ℕ, drop, length, OnOk, OnErr};
ghost use Rattle.std.specs.Fmt.{digit_glyph};
ghost use Rattle.flight_row.specs.Rows.{Spells, longest};
ghost use Rattle.flight_row.specs.Written.{hexadecimal, tag_bytes, payload_bytes, spelling_of, IsWritable};

use crate::row::{Row, RowKind};
use flight_value::{Flow, Memory};

/// Appends the one spelling in which a row is written: ids and lengths in lower-case hexadecimal without leading
/// zeros. Where memory is wanting, `out` is as it was.
pub fn write_row(row: &Row, out: &mut Vec<u8>) -> Result<(), Memory>
    requires { IsWritable row.now }
    ensures ok { OnOk result (out.new.items ≡ out.old.items ++ spelling_of row.now) }
    ensures err { OnErr result (out.new.items ≡ out.old.items) }
    ensures spells { Spells (spelling_of row.now) row.now }
{
    let start = out.len();
    let written = append_row(row, out);
    if written.is_err() {
        out.truncate(start);
    }
    written
}

/// Appends a row, or a part of it where memory is wanting.
fn append_row(row: &Row, out: &mut Vec<u8>) -> Result<(), Memory>
    requires { IsWritable row.now }
    ensures ok { OnOk result (out.new.items ≡ out.old.items ++ spelling_of row.now) }
    ensures err { OnErr result ((part : List ℕ) × (out.new.items ≡ out.old.items ++ part)) }
{
    append_hexadecimal(row.id, out)?;
    out.push(b':')?;
    append_tag(row.kind, out)?;
    append_payload(row.kind, row.payload.as_slice(), out)
}

/// Appends what stands between the colon and the payload's own part: the tag, where the kind has one.
fn append_tag(kind: RowKind, out: &mut Vec<u8>) -> Result<(), Memory>
    ensures ok { OnOk result (out.new.items ≡ out.old.items ++ tag_bytes kind) }
    ensures err { OnErr result (out.new.items ≡ out.old.items) }
{
    let tag = match kind {
        RowKind::Model => return Ok(()),
        RowKind::Import => b'I',
        RowKind::Error => b'E',
        RowKind::Text => b'T',
        RowKind::Open(Flow::Readable) => b'R',
        RowKind::Open(Flow::Iterable) => b'X',
        RowKind::Open(Flow::Iterator) => b'x',
        RowKind::Close => b'C',
    };
    out.push(tag)?;
    Ok(())
}

/// Appends a text with its length, or another payload with its newline, or a part of that.
fn append_payload(kind: RowKind, payload: &[u8], out: &mut Vec<u8>) -> Result<(), Memory>
    requires { length payload.now ≤ longest }
    ensures ok { OnOk result (out.new.items ≡ out.old.items ++ payload_bytes kind payload.now) }
    ensures err { OnErr result ((part : List ℕ) × (out.new.items ≡ out.old.items ++ part)) }
{
    match kind {
        RowKind::Text => append_text(payload, out),
        _ => append_line(payload, out),
    }
}

/// Appends a length, a comma and so many bytes, or a part of that.
fn append_text(payload: &[u8], out: &mut Vec<u8>) -> Result<(), Memory>
    requires { length payload.now ≤ longest }
    ensures ok { OnOk result (out.new.items ≡ out.old.items ++ (hexadecimal (length payload.now) ++ 44 ∷ payload.now)) }
    ensures err { OnErr result ((part : List ℕ) × (out.new.items ≡ out.old.items ++ part)) }
{
    append_hexadecimal(payload.len() as u32, out)?;
    out.push(b',')?;
    out.extend_from_slice(payload)?;
    Ok(())
}

/// Appends bytes and a newline, or a part of that.
fn append_line(payload: &[u8], out: &mut Vec<u8>) -> Result<(), Memory>
    ensures ok { OnOk result (out.new.items ≡ out.old.items ++ (payload.now ++ 10 ∷ [])) }
    ensures err { OnErr result ((part : List ℕ) × (out.new.items ≡ out.old.items ++ part)) }
{
    out.extend_from_slice(payload)?;
    out.push(b'\n')?;
    Ok(())
}

/// Appends a number in hexadecimal.
fn append_hexadecimal(number: u32, out: &mut Vec<u8>) -> Result<(), Memory>
    ensures ok { OnOk result (out.new.items ≡ out.old.items ++ hexadecimal number) }
    ensures err { OnErr result (out.new.items ≡ out.old.items) }
{
    let mut digits = [0; 8];
    let start = put_hexadecimal(number, &mut digits);
    out.extend_from_slice(&digits[start..])?;
    Ok(())
}

/// Puts a number in hexadecimal at the end of a buffer, and gives the place of its first digit.
fn put_hexadecimal(number: u32, digits: &mut [u8; 8]) -> usize
    ensures within { result ≤ 8 }
    ensures value { drop result digits.new ≡ hexadecimal number }
{
    let mut at = 8;
    let mut rest = number;
    'places: loop {
        at -= 1;
        digits[at] = hexadecimal_digit((rest % 16) as u8);
        rest /= 16;
        if rest == 0 {
            return at;
        }
    }
}

/// The lower-case digit of a value.
fn hexadecimal_digit(value: u8) -> u8
    requires { value < 16 }
    ensures { result ≡ digit_glyph false value }
{
    if value < 10 {
        b'0' + value
    } else {
        b'a' + (value - 10)
    }
}
