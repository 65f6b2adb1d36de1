ghost use Rattle.std.specs.Prelude.{◌≡◌, ◌==◌, ◌<◌, ◌^◌, pos, neg_ℤ, option_map, true, false, IsTrue, IfSome, length, slice_index};
ghost use Rattle.std.specs.Str.Parse.{AllDigits, digits_value};
ghost use Rattle.fast_float.specs.Text.{scan};
ghost use Rattle.serde_json.specs.Read.{number_of, number_from};
ghost use Rattle.serde_json.specs.View.{number_view};

use fast_float::{Numeral, parse_u64};
use serde_json::Number;

/// The number that a text of JSON's numbers writes. One past what a float can be is none.
pub fn number(text: &str) -> Option<Number>
    ensures { option_map number_view result ≡ number_of text.now }
{
    let bytes = text.as_bytes();
    if has_sign(bytes) {
        negative(&bytes[1..])
    } else {
        unsigned(bytes)
    }
}

/// Whether a number is written behind a `-`.
fn has_sign(bytes: &[u8]) -> bool
    ensures sign { result ≡ (slice_index bytes.now 0 == 45) }
    ensures some { IsTrue result → 0 < length bytes.now }
{
    !bytes.is_empty() && bytes[0] == b'-'
}

/// A number without a sign.
fn unsigned(bytes: &[u8]) -> Option<Number>
    ensures { option_map number_view result ≡ number_from false (scan bytes.now) }
{
    match digits(bytes) {
        Some(n) => Some(Number::from(n)),
        None => unsigned_scanned(bytes),
    }
}

/// A number behind its sign.
fn negative(bytes: &[u8]) -> Option<Number>
    ensures { option_map number_view result ≡ number_from true (scan bytes.now) }
{
    match digits(bytes) {
        Some(n) if 0 < n && n < 1 << 63 => Some(Number::from(minus(n))),
        _ => negative_scanned(bytes),
    }
}

/// A number below zero.
fn minus(n: u64) -> i64
    requires { n < 2 ^ 63 }
    ensures { result ≡ neg_ℤ (pos n) }
{
    -(n as i64)
}

/// The number that digits alone write, as nearly all numbers are written.
fn digits(bytes: &[u8]) -> Option<u64>
    ensures { IfSome result (λ n. (0 < length bytes.now) × AllDigits 10 bytes.now × (n ≡ digits_value 10 bytes.now)) }
{
    if bytes.is_empty() || bytes[0] == b'+' {
        return None;
    }
    parse_u64(bytes).ok()
}

/// A number without a sign that is no short list of digits.
#[cold]
#[inline(never)]
fn unsigned_scanned(bytes: &[u8]) -> Option<Number>
    ensures { option_map number_view result ≡ number_from false (scan bytes.now) }
{
    unsigned_numeral(&Numeral::scan(bytes))
}

/// The same behind its sign.
#[cold]
#[inline(never)]
fn negative_scanned(bytes: &[u8]) -> Option<Number>
    ensures { option_map number_view result ≡ number_from true (scan bytes.now) }
{
    negative_numeral(&Numeral::scan(bytes))
}

/// A number without a sign.
fn unsigned_numeral(numeral: &Numeral<'_>) -> Option<Number>
    ensures { option_map number_view result ≡ number_from false numeral.now }
{
    match numeral.to_u64() {
        Some(n) => Number::from_u128(u128::from(n)),
        None => Number::from_f64(numeral.to_float::<f64>(false)),
    }
}

/// A number behind its sign.
fn negative_numeral(numeral: &Numeral<'_>) -> Option<Number>
    ensures { option_map number_view result ≡ number_from true numeral.now }
{
    match numeral.to_i64(true) {
        Some(n) if n < 0 => Number::from_i128(i128::from(n)),
        _ => Number::from_f64(numeral.to_float::<f64>(true)),
    }
}
