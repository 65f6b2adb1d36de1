ghost use Rattle.std.specs.Prelude.{◌≡◌, ◌∷◌, [], IsUtf8, IfOk, IfErr, Some, option_map};
ghost use Rattle.serde_json.specs.Read.{read};
ghost use Rattle.serde_json.specs.View.{view};
ghost use Rattle.flight_place.specs.Places.{placed, HavePlaces};
ghost use Rattle.flight_place.specs.Faults.{Refuses, IsUnfit, IsUnread};
ghost use Rattle.flight_place.specs.Placing.{StopsAt, IsConfirmed};
ghost use Rattle.flight_place.specs.Rows.{model_visits, import_visit, digest_of, error_visit, row_visits, IsTree, IsRowFault};

use crate::fault::{PlaceFault, PlaceKind};
use crate::manner::Manner;
use crate::placing::{Stop, place_next};
use crate::reading::{LEVELS, parse};
use crate::scratch::Scratch;
use flight_meaning::{Place, PlaceTree};
use flight_row::{Row, RowKind};
use flight_text::has_whole_numbers;
use flight_value::{Atom, List, Text};
use json::Reader;
use serde_json::Value;
use std::alloc::{AllocError, Global};
use std::{mem, str};

/// Up to how many places of a row are moved to where there is no room behind them. Most rows are small, and the places
/// of all are kept.
const FEW: usize = 64;

/// The places of a row, numbered from the root, 0, as the walk visits them, or the first fault that it meets. A
/// manner matters to model and close rows alone. JSON nests 127 levels at most (this project's limit).
pub fn places(alloc: Global, row: &Row, manner: Manner) -> Result<PlaceTree, PlaceFault>
    requires { IsUtf8 row.now.payload }
    ensures tree { IfOk result (IsTree manner row.now) }
    ensures fault { IfErr result (Refuses manner (row_visits manner row.now.kind row.now.payload)) }
{
    places_with(alloc, &mut Scratch::new(alloc), row, manner)
}

/// The same, read in memory that is kept from row to row: to make it anew costs more than to read a small row.
pub fn places_with(
    alloc: Global,
    scratch: &mut Scratch,
    row: &Row,
    manner: Manner,
) -> Result<PlaceTree, PlaceFault>
    requires { IsUtf8 row.now.payload }
    ensures tree { IfOk result (IsTree manner row.now) }
    ensures fault { IfErr result (Refuses manner (row_visits manner row.now.kind row.now.payload)) }
{
    let payload = utf8(row.payload.as_slice());
    let places = payload_places(alloc, scratch, manner, row.kind, payload)?;
    Ok(PlaceTree {
        kind: row.kind,
        places: List::new(places),
    })
}

/// Bytes that are a text.
fn utf8(bytes: &[u8]) -> &str
    requires { IsUtf8 bytes.now }
    ensures { result.now ≡ bytes.now }
{
    // SAFETY: the clause asks for UTF-8.
    unsafe { str::from_utf8_unchecked(bytes) }
}

/// The places of a payload, by the kind of its row.
#[tactic(auto, using(crate::proofs::Trees::single_has, crate::proofs::Trees::single_refuses))]
fn payload_places(
    alloc: Global,
    scratch: &mut Scratch,
    manner: Manner,
    kind: RowKind,
    payload: &str,
) -> Result<Vec<Place>, PlaceFault>
    ensures ok { IfOk result (λ places. HavePlaces manner (row_visits manner kind payload.now) places.items) }
    ensures err { IfErr result (Refuses manner (row_visits manner kind payload.now)) }
{
    match kind {
        RowKind::Model => model_places(alloc, scratch, manner, payload),
        RowKind::Import => single(alloc, import_place(alloc, payload)?),
        RowKind::Error => single(alloc, error_place(alloc, payload)?),
        RowKind::Text => single(alloc, text_place(alloc, payload)?),
        RowKind::Open(_) => {
            if payload.is_empty() {
                Ok(Vec::new(alloc))
            } else {
                Err(PlaceFault::Fault(PlaceKind::BadModel))
            }
        }
        RowKind::Close => {
            if payload.is_empty() {
                single(alloc, Place::Atom(Atom::Undefined))
            } else {
                model_places(alloc, scratch, manner, payload)
            }
        }
    }
}

/// One place.
fn single(alloc: Global, place: Place) -> Result<Vec<Place>, PlaceFault>
    ensures ok { IfOk result (λ places. places.items ≡ place ∷ []) }
    ensures err { IfErr result (λ e. e ≡ PlaceFault.Memory) }
{
    let mut places = Vec::new(alloc);
    places.push(place)?;
    Ok(places)
}

/// The places of a value.
fn model_places(
    alloc: Global,
    scratch: &mut Scratch,
    manner: Manner,
    payload: &str,
) -> Result<Vec<Place>, PlaceFault>
    ensures ok { IfOk result (λ places. HavePlaces manner (model_visits manner (read payload.now)) places.items) }
    ensures err { IfErr result (Refuses manner (model_visits manner (read payload.now))) }
{
    match whole(alloc, scratch, manner, payload) {
        Ok(places) => Ok(places),
        Err(Stop::NoJson) => Err(PlaceFault::Fault(PlaceKind::BadModel)),
        Err(Stop::Fault(kind)) => Err(confirmed(alloc, scratch, payload, kind)),
        Err(Stop::Memory) => Err(PlaceFault::Memory),
    }
}

/// The places of a value behind which nothing stands.
fn whole(
    alloc: Global,
    scratch: &mut Scratch,
    manner: Manner,
    payload: &str,
) -> Result<Vec<Place>, Stop>
    ensures ok { IfOk result (λ places. HavePlaces manner (model_visits manner (read payload.now)) places.items) }
    ensures stops { IfErr result (StopsAt manner (read payload.now)) }
{
    let Scratch { json, places } = scratch;
    let mut reader = Reader::new(payload, json)?;
    places.clear();
    place_next(alloc, manner, &mut reader, LEVELS, places)?;
    if reader.next().is_some() {
        return Err(Stop::NoJson);
    }
    Ok(taken(alloc, places)?)
}

/// All places, which leave the memory behind where they are few.
fn taken(alloc: Global, places: &mut Vec<Place>) -> Result<Vec<Place>, AllocError>
    ensures { IfOk result (λ kept. kept.items ≡ places.old.items) }
{
    if places.len() > FEW {
        return Ok(mem::replace(places, Vec::new(alloc)));
    }
    let mut kept = Vec::with_capacity(alloc, places.len())?;
    kept.append(places)?;
    Ok(kept)
}

/// A fault that is the first of a payload if that is JSON.
fn confirmed(alloc: Global, scratch: &mut Scratch, payload: &str, kind: PlaceKind) -> PlaceFault
    ensures { IsConfirmed kind (read payload.now) result }
{
    match parse(alloc, payload, &mut scratch.json) {
        Ok(_) => PlaceFault::Fault(kind),
        Err(fault) => fault,
    }
}

/// The place of a client module: its JSON, compact.
fn import_place(alloc: Global, payload: &str) -> Result<Place, PlaceFault>
    ensures ok { IfOk result (λ place. import_visit (read payload.now) ≡ placed place) }
    ensures err { IfErr result (IsUnfit (import_visit (read payload.now))) }
{
    let value = parsed(alloc, payload)?;
    if !has_whole_numbers(&value) {
        return Err(PlaceFault::Fault(PlaceKind::Number));
    }
    let json = value.to_string(alloc)?;
    let text = Text::from_string(json)?;
    Ok(Place::Atom(Atom::Import(text)))
}

/// The place of a failure: its digest.
fn error_place(alloc: Global, payload: &str) -> Result<Place, PlaceFault>
    ensures ok { IfOk result (λ place. error_visit (read payload.now) ≡ placed place) }
    ensures err { IfErr result (IsUnfit (error_visit (read payload.now))) }
{
    let value = parsed(alloc, payload)?;
    match digest(&value) {
        Some(digest) => Ok(Place::Atom(Atom::Failed(Text::new(alloc, digest)?))),
        None => Err(PlaceFault::Fault(PlaceKind::BadModel)),
    }
}

/// The digest of a failure.
fn digest(value: &Value) -> Option<&str>
    ensures { option_map (λ s. s.now) result ≡ digest_of (view value.now) }
{
    value.get("digest").and_then(Value::as_str)
}

/// The place of a text, as it is.
fn text_place(alloc: Global, payload: &str) -> Result<Place, PlaceFault>
    ensures ok { IfOk result (λ place. place ≡ Place.Atom (Atom.Text payload.now)) }
    ensures err { IfErr result (λ e. e ≡ PlaceFault.Memory) }
{
    Ok(Place::Atom(Atom::Text(Text::new(alloc, payload)?)))
}

/// The JSON of a payload.
fn parsed(alloc: Global, payload: &str) -> Result<Value, PlaceFault>
    ensures ok { IfOk result (λ value. read payload.now ≡ Some (view value)) }
    ensures err { IfErr result (IsUnread payload.now) }
{
    match Value::from_str(alloc, payload) {
        Ok(value) => Ok(value),
        Err(error) if error.is_memory() => Err(PlaceFault::Memory),
        Err(_) => Err(PlaceFault::Fault(PlaceKind::BadModel)),
    }
}
