ghost use Rattle.std.specs.Prelude.{◌≡◌, ◌∷◌, ◌<◌, length, Some, None, Err, IfOk, IfErr, OnOk};
ghost use Rattle.json.specs.Json.{value, items, members};
ghost use Rattle.json.specs.Reads.{token_of};
ghost use Rattle.serde_json.specs.Data.{no_members};
ghost use Rattle.serde_json.specs.Read.{of_json, of_items, of_members, converted, read};
ghost use Rattle.flight_place.specs.Parsed.{data_of, items_data, members_data};
ghost use Rattle.flight_place.specs.Faults.{IsUnread};

use crate::fault::{PlaceFault, PlaceKind};
use crate::gathered::Gathered;
use crate::number::number;
use crate::parsed::Parsed;
use json::{Invalid, Reader, Scratch, Token};
use std::alloc::{AllocError, AllocFailed, Global};

/// Arrays and objects nest so deep at most.
pub const LEVELS: usize = 127;

/// Why there is no value.
#[derive(Drop)]
pub enum Unread {
    NoJson,
    Memory,
}

impl From<Invalid> for Unread {
    ghost use Rattle.std.specs.Prelude.{◌≡◌};
    ghost use Rattle.flight_place.specs.declared.reading.Unread.TheVariants as unread;

    ghost from_gives = { λ _ e. e ≡ unread.NoJson };

    fn from(_invalid: Invalid) -> Unread {
        Unread::NoJson
    }
}

impl From<AllocError> for Unread {
    ghost use Rattle.std.specs.Prelude.{◌≡◌};
    ghost use Rattle.flight_place.specs.declared.reading.Unread.TheVariants as unread;

    ghost from_gives = { λ _ e. e ≡ unread.Memory };

    fn from(_error: AllocError) -> Unread {
        Unread::Memory
    }
}

impl<T: Drop> From<AllocFailed<T>> for Unread {
    ghost use Rattle.std.specs.Prelude.{◌≡◌};
    ghost use Rattle.flight_place.specs.declared.reading.Unread.TheVariants as unread;

    ghost from_gives = { λ _ e. e ≡ unread.Memory };

    fn from(_error: AllocFailed<T>) -> Unread {
        Unread::Memory
    }
}

/// The JSON of a payload.
pub fn parse<'a>(
    alloc: Global,
    payload: &'a str,
    scratch: &'a mut Scratch,
) -> Result<Parsed<'a>, PlaceFault>
    ensures ok { IfOk result (λ p. read payload.now ≡ Some (data_of p)) }
    ensures err { IfErr result (IsUnread payload.now) }
{
    let mut reader = Reader::new(payload, scratch)?;
    match read_value(alloc, &mut reader, LEVELS) {
        Ok(parsed) => {
            if reader.next().is_some() {
                return Err(PlaceFault::Fault(PlaceKind::BadModel));
            }
            Ok(parsed)
        }
        Err(Unread::NoJson) => Err(PlaceFault::Fault(PlaceKind::BadModel)),
        Err(Unread::Memory) => Err(PlaceFault::Memory),
    }
}

/// The next value, in which arrays and objects nest `levels` deep at most.
#[cycle(read)]
fn read_value<'a>(
    alloc: Global,
    reader: &mut Reader<'a>,
    levels: usize,
) -> Result<Parsed<'a>, Unread>
    ensures ok { IfOk result (λ p. converted of_json (value levels reader.old) ≡ Some (data_of p, reader.new)) }
    ensures shorter { OnOk result (length reader.new < length reader.old) }
    ensures err { result ≡ Err Unread.NoJson → converted of_json (value levels reader.old) ≡ None }
{
    let token = reader.next().ok_or(Unread::NoJson)?;
    read_from(alloc, token, reader, levels)
}

/// The value that a token begins.
#[cycle(read)]
#[inline(always)]
pub fn read_from<'a>(
    alloc: Global,
    token: Token<'a>,
    reader: &mut Reader<'a>,
    levels: usize,
) -> Result<Parsed<'a>, Unread>
    ensures ok { IfOk result (λ p. converted of_json (value levels (token_of token.entry ∷ reader.old)) ≡ Some (data_of p, reader.new)) }
    ensures shorter { OnOk result (length reader.new < length (token_of token.entry ∷ reader.old)) }
    ensures err { result ≡ Err Unread.NoJson → converted of_json (value levels (token_of token.entry ∷ reader.old)) ≡ None }
{
    match token {
        Token::Null => Ok(Parsed::Null),
        Token::Bool(b) => Ok(Parsed::Bool(b)),
        Token::Number(text) => match number(text) {
            Some(number) => Ok(Parsed::Number(number)),
            None => Err(Unread::NoJson),
        },
        Token::String(text) => Ok(Parsed::String(text)),
        Token::BeginArray => {
            if levels == 0 {
                return Err(Unread::NoJson);
            }
            Ok(Parsed::Array(read_items(alloc, reader, levels - 1)?))
        }
        Token::BeginObject => {
            if levels == 0 {
                return Err(Unread::NoJson);
            }
            Ok(Parsed::Object(read_members(alloc, reader, levels - 1)?))
        }
        Token::EndObject | Token::EndArray | Token::Key(_) | Token::Bad => Err(Unread::NoJson),
    }
}

/// The items of an array that has begun.
#[cycle(read)]
#[inline(never)]
pub fn read_items<'a>(
    alloc: Global,
    reader: &mut Reader<'a>,
    levels: usize,
) -> Result<Vec<Parsed<'a>>, Unread>
    ensures ok { IfOk result (λ v. converted of_items (items (value levels) (length reader.old) reader.old) ≡ Some (items_data v.items, reader.new)) }
    ensures shorter { OnOk result (length reader.new < length reader.old) }
    ensures err { result ≡ Err Unread.NoJson → converted of_items (items (value levels) (length reader.old) reader.old) ≡ None }
{
    let mut found = Vec::new(alloc);
    'items: while !reader.take_end_array() {
        found.reserve(1)?;
        let item = read_value(alloc, reader, levels)?;
        found.push_reserved(item);
    }
    Ok(found)
}

/// The members of an object that has begun.
#[cycle(read)]
#[inline(never)]
fn read_members<'a>(
    alloc: Global,
    reader: &mut Reader<'a>,
    levels: usize,
) -> Result<Vec<(&'a str, Parsed<'a>)>, Unread>
    ensures ok { IfOk result (λ v. converted (λ ms. of_members ms no_members) (members (value levels) (length reader.old) reader.old) ≡ Some (members_data v.items, reader.new)) }
    ensures shorter { OnOk result (length reader.new < length reader.old) }
    ensures err { result ≡ Err Unread.NoJson → converted (λ ms. of_members ms no_members) (members (value levels) (length reader.old) reader.old) ≡ None }
{
    let mut found = Gathered::new(alloc);
    'members: while let Some(name) = reader.next_key()? {
        let member = read_value(alloc, reader, levels)?;
        found.put(alloc, name, member)?;
    }
    Ok(found.into_list(alloc)?)
}
