ghost use Rattle.std.specs.Prelude.{◌≡◌, ◌++◌, IfOk, string_bytes, codes};
ghost use Rattle.std.specs.Fmt.{signed_decimal};
ghost use Rattle.flight_text.specs.declared.mark.Mark.{Mark};
ghost use Rattle.flight_text.specs.Hex.{hex_of};
ghost use Rattle.flight_text.specs.Mark.{IsSpelling, IsSpellable, plain, word_of, reference_of, spelling_of};

use crate::mark::{Mark, Ref};
use flight_value::{Constant, Memory, Text};
use std::alloc::Global;

/// The string that stands for a mark: ids in lower-case hexadecimal and BigInts in decimal, without
/// leading zeros, and server references behind `$F`. `read_mark` reads it as that mark.
pub fn spell_mark(alloc: Global, mark: &Mark) -> Result<Text, Memory>
    requires { IsSpellable mark.now }
    ensures spelled { IfOk result (λ text. text ≡ spelling_of mark.now) }
    ensures read { IfOk result (λ text. IsSpelling text mark.now) }
{
    Ok(Text::from_string(spelled(alloc, mark)?)?)
}

/// The bytes of that string.
fn spelled(alloc: Global, mark: &Mark) -> Result<String, Memory>
    ensures { IfOk result (λ out. string_bytes out ≡ spelling_of mark.now) }
{
    match mark {
        Mark::Plain(text) => plain_text(alloc, text.as_str()),
        Mark::Element => with_text(alloc, "$", ""),
        Mark::Lazy(id) => with_id(alloc, "$L", *id),
        Mark::Promise(id) => with_id(alloc, "$@", *id),
        Mark::Value(place) => with_place(alloc, "$", place),
        Mark::Map(place) => with_place(alloc, "$Q", place),
        Mark::Set(place) => with_place(alloc, "$W", place),
        Mark::Action(id) => with_id(alloc, "$F", *id),
        Mark::Date(date) => with_text(alloc, "$D", date.as_str()),
        Mark::Big(number) => with_number(alloc, *number),
        Mark::Symbol(name) => with_text(alloc, "$S", name.as_str()),
        Mark::Undefined => with_text(alloc, "$undefined", ""),
        Mark::Constant(constant) => with_text(alloc, word(*constant), ""),
    }
}

/// A text as it is written: with one `$` more where it begins with `$`.
fn plain_text(alloc: Global, text: &str) -> Result<String, Memory>
    ensures { IfOk result (λ out. string_bytes out ≡ plain text.now) }
{
    if text.starts_with('$') {
        with_text(alloc, "$", text)
    } else {
        with_text(alloc, "", text)
    }
}

/// A sign and a text.
fn with_text(alloc: Global, sign: &str, text: &str) -> Result<String, Memory>
    ensures { IfOk result (λ out. string_bytes out ≡ sign.now ++ text.now) }
{
    let mut out = String::from_str(alloc, sign)?;
    out.push_str(text)?;
    Ok(out)
}

/// A sign and an id.
fn with_id(alloc: Global, sign: &str, id: u32) -> Result<String, Memory>
    ensures { IfOk result (λ out. string_bytes out ≡ sign.now ++ hex_of id) }
{
    Ok(format!(in alloc; "{sign}{id:x}")?)
}

/// A BigInt.
fn with_number(alloc: Global, number: i128) -> Result<String, Memory>
    ensures { IfOk result (λ out. string_bytes out ≡ codes "$n" ++ signed_decimal number) }
{
    Ok(format!(in alloc; "$n{number}")?)
}

/// A sign and a place.
fn with_place(alloc: Global, sign: &str, place: &Ref) -> Result<String, Memory>
    ensures { IfOk result (λ out. string_bytes out ≡ sign.now ++ reference_of place.now) }
{
    let mut out = with_id(alloc, sign, place.id)?;
    for name in place.path.as_slice() {
        out.push(':')?;
        out.push_str(name.as_str())?;
    }
    Ok(out)
}

/// How a constant is written.
fn word(constant: Constant) -> &'static str
    ensures { result.now ≡ word_of constant }
{
    match constant {
        Constant::NotANumber => "$NaN",
        Constant::Infinity => "$Infinity",
        Constant::MinusInfinity => "$-Infinity",
        Constant::MinusZero => "$-0",
    }
}
