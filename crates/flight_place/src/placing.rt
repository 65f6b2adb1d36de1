ghost use Rattle.std.specs.Prelude.{◌≡◌, ◌∷◌, ◌+◌, ◌<◌, ◌↔◌, length, true, false, codes, Some, None, IfOk, IfErr, OnOk, IsTrue};
ghost use Rattle.json.specs.Json.{value, items, after_end_array};
ghost use Rattle.json.specs.Reads.{token_of};
ghost use Rattle.json.specs.Token.{string};
ghost use Rattle.serde_json.specs.Data.{array, string as text};
ghost use Rattle.flight_place.specs.Parsed.{data_of};
ghost use Rattle.serde_json.specs.Read.{of_json, of_items, converted};
ghost use Rattle.flight_place.specs.Places.{visits, count, item_visits, item_count};
ghost use Rattle.flight_place.specs.Placing.{Brings, BringsItems, Stops, is_mark_token, is_array_token};

use crate::fault::{PlaceFault, PlaceKind};
use crate::manner::Manner;
use crate::parsed::Parsed;
use crate::reading::{Unread, read_from, read_items};
use crate::token::is_dollar;
use crate::walk::{push, put, unfinished, walk};
use flight_meaning::Place;
use flight_value::List;
use json::{Reader, Token};
use std::alloc::{AllocError, AllocFailed, Global};

/// Why there are no places.
#[derive(Drop)]
pub enum Stop {
    NoJson,
    /// The first fault, if the payload is JSON.
    Fault(PlaceKind),
    Memory,
}

impl From<Unread> for Stop {
    ghost use Rattle.std.specs.Prelude.{◌≡◌};
    ghost use Rattle.flight_place.specs.Placing.{stop_unread};

    ghost from_gives = { λ u e. e ≡ stop_unread u };

    fn from(unread: Unread) -> Stop {
        match unread {
            Unread::NoJson => Stop::NoJson,
            Unread::Memory => Stop::Memory,
        }
    }
}

impl From<PlaceFault> for Stop {
    ghost use Rattle.std.specs.Prelude.{◌≡◌};
    ghost use Rattle.flight_place.specs.Placing.{stop_at};

    ghost from_gives = { λ f e. e ≡ stop_at f };

    fn from(fault: PlaceFault) -> Stop {
        match fault {
            PlaceFault::Fault(kind) => Stop::Fault(kind),
            PlaceFault::Memory => Stop::Memory,
        }
    }
}

impl From<AllocError> for Stop {
    ghost use Rattle.std.specs.Prelude.{◌≡◌};
    ghost use Rattle.flight_place.specs.declared.placing.Stop.TheVariants as stop;

    ghost from_gives = { λ _ e. e ≡ stop.Memory };

    fn from(_error: AllocError) -> Stop {
        Stop::Memory
    }
}

impl<T: Drop> From<AllocFailed<T>> for Stop {
    ghost use Rattle.std.specs.Prelude.{◌≡◌};
    ghost use Rattle.flight_place.specs.declared.placing.Stop.TheVariants as stop;

    ghost from_gives = { λ _ e. e ≡ stop.Memory };

    fn from(_error: AllocFailed<T>) -> Stop {
        Stop::Memory
    }
}

/// Adds the places of the next value, and gives its number.
#[cycle(place)]
pub fn place_next<'a>(
    alloc: Global,
    manner: Manner,
    reader: &mut Reader<'a>,
    levels: usize,
    out: &mut Vec<Place>,
) -> Result<u32, Stop>
    ensures number { IfOk result (λ n. n ≡ length out.old.items) }
    ensures brings { OnOk result (Brings manner (visits manner (length out.old.items)) count out.old.items out.new.items (converted of_json (value levels reader.old)) reader.new) }
    ensures stops { IfErr result (Stops manner (visits manner (length out.old.items)) (converted of_json (value levels reader.old))) }
    ensures shorter { OnOk result (length reader.new < length reader.old) }
{
    let token = reader.next().ok_or(Stop::NoJson)?;
    place(alloc, manner, token, reader, levels, out)
}

/// Adds the places of the value that a token begins. An array is read item by item, and any other value as a whole.
#[cycle(place)]
#[inline(always)]
fn place<'a>(
    alloc: Global,
    manner: Manner,
    token: Token<'a>,
    reader: &mut Reader<'a>,
    levels: usize,
    out: &mut Vec<Place>,
) -> Result<u32, Stop>
    ensures number { IfOk result (λ n. n ≡ length out.old.items) }
    ensures brings { OnOk result (Brings manner (visits manner (length out.old.items)) count out.old.items out.new.items (converted of_json (value levels (token_of token.entry ∷ reader.old))) reader.new) }
    ensures stops { IfErr result (Stops manner (visits manner (length out.old.items)) (converted of_json (value levels (token_of token.entry ∷ reader.old)))) }
    ensures shorter { OnOk result (length reader.new < length (token_of token.entry ∷ reader.old)) }
{
    if is_array(&token) {
        if levels == 0 {
            return Err(Stop::NoJson);
        }
        return place_array(alloc, manner, reader, levels - 1, out);
    }
    let value = read_from(alloc, token, reader, levels)?;
    Ok(walk(alloc, manner, &value, out)?)
}

/// Adds the places of an array that has begun.
#[cycle(place)]
fn place_array<'a>(
    alloc: Global,
    manner: Manner,
    reader: &mut Reader<'a>,
    levels: usize,
    out: &mut Vec<Place>,
) -> Result<u32, Stop>
    ensures number { IfOk result (λ n. n ≡ length out.old.items) }
    ensures brings { OnOk result (Brings manner (λ ds. visits manner (length out.old.items) (array ds)) (λ ds. 1 + item_count ds) out.old.items out.new.items (converted of_items (items (value levels) (length reader.old) reader.old)) reader.new) }
    ensures stops { IfErr result (Stops manner (λ ds. visits manner (length out.old.items) (array ds)) (converted of_items (items (value levels) (length reader.old) reader.old))) }
    ensures shorter { OnOk result (length reader.new < length reader.old) }
{
    if reader.take_end_array() {
        return Ok(push(out, unfinished(alloc))?);
    }
    let first = reader.next().ok_or(Stop::NoJson)?;
    if is_mark(&first) {
        place_marked(alloc, manner, reader, levels, out)
    } else {
        place_unmarked(alloc, manner, first, reader, levels, out)
    }
}

/// Adds the places of an array that begins with the mark of an element, which was read.
fn place_marked<'a>(
    alloc: Global,
    manner: Manner,
    reader: &mut Reader<'a>,
    levels: usize,
    out: &mut Vec<Place>,
) -> Result<u32, Stop>
    ensures number { IfOk result (λ n. n ≡ length out.old.items) }
    ensures brings { OnOk result (Brings manner (λ ds. visits manner (length out.old.items) (array ds)) (λ ds. 1 + item_count ds) out.old.items out.new.items (converted of_items (items (value levels) (length reader.old + 1) (string (codes "$") ∷ reader.old))) reader.new) }
    ensures stops { IfErr result (Stops manner (λ ds. visits manner (length out.old.items) (array ds)) (converted of_items (items (value levels) (length reader.old + 1) (string (codes "$") ∷ reader.old)))) }
    ensures shorter { OnOk result (length reader.new < length reader.old) }
{
    let mut items = read_items(alloc, reader, levels)?;
    items.insert(0, mark())?;
    Ok(walk(alloc, manner, &Parsed::Array(items), out)?)
}

/// Adds the places of an array that is no element, whose first token was read.
#[cycle(place)]
fn place_unmarked<'a>(
    alloc: Global,
    manner: Manner,
    first: Token<'a>,
    reader: &mut Reader<'a>,
    levels: usize,
    out: &mut Vec<Place>,
) -> Result<u32, Stop>
    requires going { after_end_array (token_of first ∷ reader.old) ≡ None }
    requires unmarked { is_mark_token (token_of first) ≡ false }
    ensures number { IfOk result (λ n. n ≡ length out.old.items) }
    ensures brings { OnOk result (Brings manner (λ ds. visits manner (length out.old.items) (array ds)) (λ ds. 1 + item_count ds) out.old.items out.new.items (converted of_items (items (value levels) (length reader.old + 1) (token_of first.entry ∷ reader.old))) reader.new) }
    ensures stops { IfErr result (Stops manner (λ ds. visits manner (length out.old.items) (array ds)) (converted of_items (items (value levels) (length reader.old + 1) (token_of first.entry ∷ reader.old)))) }
    ensures shorter { OnOk result (length reader.new < length (token_of first.entry ∷ reader.old)) }
{
    let number = push(out, unfinished(alloc))?;
    let numbers = place_items(alloc, manner, first, reader, levels, out)?;
    put(out, number as usize, Place::Array(List::new(numbers)));
    Ok(number)
}

/// Adds the places of items, the first of which a token begins, and gives their numbers.
#[cycle(place)]
fn place_items<'a>(
    alloc: Global,
    manner: Manner,
    first: Token<'a>,
    reader: &mut Reader<'a>,
    levels: usize,
    out: &mut Vec<Place>,
) -> Result<Vec<u32>, Stop>
    requires { after_end_array (token_of first ∷ reader.old) ≡ None }
    ensures brings { IfOk result (λ numbers. BringsItems manner out.old.items out.new.items (converted of_items (items (value levels) (length reader.old + 1) (token_of first.entry ∷ reader.old))) reader.new numbers.items) }
    ensures stops { IfErr result (Stops manner (item_visits manner (length out.old.items)) (converted of_items (items (value levels) (length reader.old + 1) (token_of first.entry ∷ reader.old)))) }
    ensures shorter { OnOk result (length reader.new < length (token_of first.entry ∷ reader.old)) }
{
    let mut numbers = Vec::new(alloc);
    numbers.push(place(alloc, manner, first, reader, levels, out)?)?;
    'items: while !reader.take_end_array() {
        numbers.push(place_next(alloc, manner, reader, levels, out)?)?;
    }
    Ok(numbers)
}

/// The mark of an element.
fn mark<'a>() -> Parsed<'a>
    ensures { data_of result ≡ text (codes "$") }
{
    Parsed::String("$")
}

/// Whether a token is the mark of an element.
fn is_mark(token: &Token<'_>) -> bool
    ensures { IsTrue result ↔ (is_mark_token (token_of token.now) ≡ true) }
{
    match token {
        Token::String(text) => is_dollar(text),
        _ => false,
    }
}

/// Whether a token begins an array.
fn is_array(token: &Token<'_>) -> bool
    ensures { IsTrue result ↔ (is_array_token (token_of token.now) ≡ true) }
{
    matches!(token, Token::BeginArray)
}
