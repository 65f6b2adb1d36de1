ghost use Rattle.std.specs.Prelude.{◌≡◌, [], ◌∷◌, ◌++◌, ◌/◌, ◌%◌, ◌<◌, ◌≤◌, codes, OnOk, MatchOption, All, length, take, slice_index, true, false};
ghost use Rattle.std.specs.Char.{digit_char};
ghost use Rattle.flight_graph.specs.Text.{escaped, string_text};
ghost use Rattle.flight_graph.specs.Writing.{is_escaped};

use crate::gathered::WINDOW;
use crate::writer::Writer;
use flight_value::Memory;

/// Appends a text as a JSON string: in quotation marks, with a backslash before `"` and `\`, with `\b`, `\f`,
/// `\n`, `\r` and `\t`, and with other bytes below 32 as `\u00` and two lower-case hexadecimal digits. All else
/// stands as it is. Where memory is wanting, a part may be appended.
pub fn write_string(out: &mut Writer, text: &str) -> Result<(), Memory>
    ensures { OnOk result (out.new ≡ out.old ++ string_text text.now) }
{
    if text.len() <= WINDOW {
        return write_short(out, text);
    }
    if any_escaped(text.as_bytes()) {
        return write_in_runs(out, text);
    }
    out.push_quoted(text)
}

/// Appends a text that a window holds.
#[inline(always)]
fn write_short(out: &mut Writer, text: &str) -> Result<(), Memory>
    requires { length text.now ≤ 16 }
    ensures { OnOk result (out.new ≡ out.old ++ string_text text.now) }
{
    let mut window = [b' '; WINDOW];
    fill_front(&mut window, text.as_bytes());
    if any_escaped(window.as_slice()) {
        return write_in_runs(out, text);
    }
    out.push_window_quoted(&window, text.len())
}

/// Puts bytes at the front of a window.
#[inline(always)]
fn fill_front(window: &mut [u8; WINDOW], piece: &[u8])
    requires { length piece.now ≤ 16 }
    ensures { take (length piece.now) window.new ≡ piece.now }
{
    window[..piece.len()].copy_from_slice(piece);
}

/// Appends a text as a JSON string, the runs of what stands as it is one at a time.
#[inline(never)]
fn write_in_runs(out: &mut Writer, text: &str) -> Result<(), Memory>
    ensures { OnOk result (out.new ≡ out.old ++ string_text text.now) }
{
    put(out, b'"')?;
    let mut rest = text;
    while let Some(at) = first_escaped(rest.as_bytes()) {
        out.push_str(&rest[..at])?;
        write_escaped(out, rest.as_bytes()[at])?;
        rest = &rest[at + 1..];
    }
    out.push_str(rest)?;
    put(out, b'"')?;
    Ok(())
}

/// Appends a character of ASCII.
pub fn put(out: &mut Writer, character: u8) -> Result<(), Memory>
    requires { character < 128 }
    ensures { OnOk result (out.new ≡ out.old ++ character ∷ []) }
{
    out.push(character)
}

/// Whether a byte may not stand as it is. Each byte is looked at, which goes many at a time.
#[inline(always)]
fn any_escaped(bytes: &[u8]) -> bool
    ensures { result ≡ false → All (λ b. is_escaped b ≡ false) bytes.now }
{
    let mut found = false;
    for byte in bytes {
        found |= is_escaped(*byte);
    }
    found
}

/// Where the first byte stands that may not stand as it is.
fn first_escaped(bytes: &[u8]) -> Option<usize>
    ensures { MatchOption result (All (λ b. is_escaped b ≡ false) bytes.now) (λ at. (at < length bytes.now) × (is_escaped (slice_index bytes.now at) ≡ true) × All (λ b. is_escaped b ≡ false) (take at bytes.now)) }
{
    bytes.iter().position(|byte| is_escaped(*byte))
}

#[inline]
fn is_escaped(byte: u8) -> bool
    ensures { result ≡ is_escaped byte }
{
    byte < 32 || byte == b'"' || byte == b'\\'
}

/// Appends a byte of ASCII as it stands within a JSON string.
fn write_escaped(out: &mut Writer, byte: u8) -> Result<(), Memory>
    requires { byte < 128 }
    ensures { OnOk result (out.new ≡ out.old ++ escaped byte) }
{
    match byte {
        b'"' => out.push_str("\\\"")?,
        b'\\' => out.push_str("\\\\")?,
        8 => out.push_str("\\b")?,
        12 => out.push_str("\\f")?,
        b'\n' => out.push_str("\\n")?,
        b'\r' => out.push_str("\\r")?,
        b'\t' => out.push_str("\\t")?,
        0..32 => write_control(out, byte)?,
        _ => out.push(byte)?,
    }
    Ok(())
}

/// Appends the escape of a control byte by its number.
fn write_control(out: &mut Writer, byte: u8) -> Result<(), Memory>
    requires { byte < 32 }
    ensures { OnOk result (out.new ≡ out.old ++ codes "\\u00" ++ digit_char (byte / 16) ∷ digit_char (byte % 16) ∷ []) }
{
    out.push_str("\\u00")?;
    out.push(hex_digit(byte / 16))?;
    out.push(hex_digit(byte % 16))?;
    Ok(())
}

/// The lower-case hexadecimal digit of a number below 16.
fn hex_digit(n: u8) -> u8
    requires { n < 16 }
    ensures { result ≡ digit_char n }
{
    if n < 10 { b'0' + n } else { b'a' + (n - 10) }
}
