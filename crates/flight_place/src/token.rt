ghost use Rattle.std.specs.Prelude.{◌≡◌, ◌↔◌, ◌<◌, [], ◌∷◌, true, false, IsTrue, IfOk, IfErr, IfSome};
ghost use Rattle.std.specs.Char.{digit_value as digit_of};
ghost use Rattle.flight_text.specs.declared.mark.Mark.TheVariants as mark;
ghost use Rattle.flight_text.specs.Hex.{IsId, is_hex_digit};
ghost use Rattle.flight_text.specs.Mark.{IsSpelling};
ghost use Rattle.flight_place.specs.Tokens.{is_dollar, is_plain, is_text, is_barred, is_of_wire, place_of};
ghost use Rattle.flight_place.specs.Places.{HasPlace, Visit, token};
ghost use Rattle.flight_place.specs.Faults.{Refuses};

use crate::fault::{PlaceFault, PlaceKind};
use crate::manner::Manner;
use flight_meaning::Place;
use flight_text::{Mark, Marked, read_mark};
use flight_value::{Atom, Memory, Text, Wide};
use std::alloc::Global;

/// The place of a string.
pub fn token_place(alloc: Global, manner: Manner, at: u32, text: &str) -> Result<Place, PlaceFault>
    ensures place { IfOk result (λ place. HasPlace manner (token at text.now) place) }
    ensures err { IfErr result (Refuses manner (token at text.now ∷ [])) }
{
    if is_barred(manner, text) {
        return Err(PlaceFault::Fault(PlaceKind::BadToken { at }));
    }
    match read_mark(alloc, text) {
        Ok(mark) => Ok(mark_place(alloc, mark)?),
        Err(Marked::BadToken) => Err(PlaceFault::Fault(PlaceKind::BadToken { at })),
        Err(Marked::Memory) => Err(PlaceFault::Memory),
    }
}

/// The id of a value reference without a path, if a string is one and has seven digits at most. Most references are
/// written so.
#[inline]
pub fn plain_reference(text: &str) -> Option<u32>
    ensures spells { IfSome result (λ id. IsSpelling text.now (mark.Value (record { id = id; path = [] }))) }
    ensures allowed { IfSome result (λ id. (manner : Manner) → is_barred manner text.now ≡ false) }
{
    match text.as_bytes() {
        [b'$', digits @ ..] => short_id(digits),
        _ => None,
    }
}

/// The id that one to seven hexadecimal digits spell.
fn short_id(digits: &[u8]) -> Option<u32>
    ensures { IfSome result (λ id. IsId digits.now id) }
{
    if digits.is_empty() || digits.len() > 7 {
        return None;
    }
    let mut id = 0;
    for digit in digits {
        id = 16 * id + u32::from(digit_value(*digit)?);
    }
    Some(id)
}

/// The value of a lower-case hexadecimal digit.
fn digit_value(byte: u8) -> Option<u8>
    ensures { IfSome result (λ value. (is_hex_digit byte ≡ true) × (value ≡ digit_of byte) × (value < 16)) }
{
    match byte {
        b'0'..=b'9' => Some(byte - b'0'),
        b'a'..=b'f' => Some(byte - b'a' + 10),
        _ => None,
    }
}

/// Whether a string is `$`.
pub fn is_dollar(text: &str) -> bool
    ensures { IsTrue result ↔ (is_dollar text.now ≡ true) }
{
    matches!(text.as_bytes(), [b'$'])
}

/// Whether a string stands for itself.
#[inline(always)]
pub fn is_plain(text: &str) -> bool
    ensures { result ≡ is_plain text.now }
{
    !matches!(text.as_bytes(), [b'$', ..])
}

/// Whether a string is read as a text.
pub fn is_text(text: &str) -> bool
    ensures { result ≡ is_text text.now }
{
    !text.starts_with('$') || text.starts_with("$$")
}

/// Whether a string may not stand for a place.
fn is_barred(manner: Manner, text: &str) -> bool
    ensures { IsTrue result ↔ (is_barred manner text.now ≡ true) }
{
    match manner {
        Manner::Wire => is_dollar(text),
        Manner::Reply => is_dollar(text) || is_of_wire(text),
    }
}

/// Whether a string begins as a token that no reply has.
fn is_of_wire(text: &str) -> bool
    ensures { result ≡ is_of_wire text.now }
{
    text.starts_with("$L") || text.starts_with("$h") || text.starts_with("$S")
}

/// The place that a mark stands for. The mark of an element stands for the text `$`.
pub fn mark_place(alloc: Global, mark: Mark) -> Result<Place, Memory>
    ensures { IfOk result (λ place. place ≡ place_of mark) }
{
    Ok(match mark {
        Mark::Plain(text) => Place::Atom(Atom::Text(text)),
        Mark::Element => Place::Atom(Atom::Text(Text::new(alloc, "$")?)),
        Mark::Lazy(id) => Place::Lazy(id),
        Mark::Promise(id) => Place::Promise(id),
        Mark::Value(place) => Place::Value(place),
        Mark::Map(place) => Place::Map(place),
        Mark::Set(place) => Place::Set(place),
        Mark::Action(id) => Place::Action(id),
        Mark::Date(date) => Place::Atom(Atom::Date(date)),
        Mark::Big(number) => Place::Atom(Atom::Big(Wide::new(number))),
        Mark::Symbol(name) => Place::Atom(Atom::Symbol(name)),
        Mark::Undefined => Place::Atom(Atom::Undefined),
        Mark::Constant(constant) => Place::Atom(Atom::Constant(constant)),
    })
}
