ghost use Rattle.std.specs.Prelude.{◌≡◌, ◌↔◌, None, true, List, ℕ, IfSome, IsTrue, IsUtf8, MatchOption, Contains};
ghost use Rattle.flight_top.specs.OneRow.{begins_model, IsRowOf};

/// The most bytes of an input of one row.
const MOST: usize = 67_108_864;

/// Whether a payload begins as a model row's here.
fn begins(payload: &str) -> bool
    ensures { IsTrue result ↔ (begins_model payload.now ≡ true) }
{
    match payload.as_bytes() {
        [b'{' | b'[' | b'"' | b'-' | b'n' | b't' | b'f', ..] => true,
        [byte, ..] => byte.is_ascii_digit(),
        [] => false,
    }
}

/// Whether a newline stands in a payload.
fn has_newline(payload: &str) -> bool
    ensures { IsTrue result ↔ Contains payload.now 10 }
{
    memchr::memchr(b'\n', payload.as_bytes()).is_some()
}

/// The payload of an input that is one model row.
pub fn row_payload(input: &[u8]) -> Option<&str>
    ensures row { IfSome result (λ payload. IsRowOf input.now payload.now) }
    ensures no_row { result ≡ None → (payload : List ℕ) → ¬ (IsRowOf input.now payload) }
{
    if input.len() > MOST {
        return None;
    }
    let text = simdutf8::compat::from_utf8(input).ok()?;
    let payload = text.strip_prefix("0:")?.strip_suffix("\n")?;
    if has_newline(payload) {
        return None;
    }
    if !begins(payload) {
        return None;
    }
    Some(payload)
}
