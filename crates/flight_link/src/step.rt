ghost use Rattle.std.specs.Prelude.{ℕ, ◌≡◌, ◌≢◌, ◌<◌, ◌^◌, ◌↔◌, IsTrue, map, option_map, slice_get, decimal, MatchOption};
ghost use Rattle.flight_value.specs.Graph.{Ascend};
ghost use Rattle.flight_place.specs.Parts.{HasOrder};
ghost use Rattle.flight_meaning.specs.Resolve.{step, property, item_from, part};
ghost use Rattle.flight_link.specs.Nodes.{followed, fails};

use flight_meaning::{Named, Place};
use flight_value::{Atom, Text};
use itoa::Buffer;

/// The number of the place to which a name leads from a place (React 19.0, `getOutlinedModel`).
pub fn step_down(place: &Place, name: &Text) -> Option<u32>
    requires { HasOrder place.now }
    ensures { result ≡ step place.now name.now }
{
    match place {
        Place::Array(numbers) => item(numbers.as_slice(), name),
        Place::Object(props) => property_of(props.as_slice(), name.as_str()),
        Place::Element { tag, key, props } => part_of(*tag, *key, *props, name),
        _ => None,
    }
}

/// The item whose index a name spells in decimal, without leading zeros.
fn item(numbers: &[u32], name: &Text) -> Option<u32>
    ensures { result ≡ item_from 0 numbers.now name.now }
{
    match index_of(name.as_str()) {
        Some(index) => number_at(numbers, index as usize),
        None => None,
    }
}

/// The number at an index.
pub fn number_at(numbers: &[u32], index: usize) -> Option<u32>
    ensures { result ≡ slice_get numbers.now index }
{
    numbers.get(index).copied()
}

/// The number that a text spells in decimal, without leading zeros.
fn index_of(text: &str) -> Option<u64>
    ensures { MatchOption result ((k : ℕ) → k < 2 ^ 64 → text.now ≢ decimal k) (λ k. text.now ≡ decimal k) }
{
    match text.parse::<u64>() {
        Ok(index) if spells(text, index) => Some(index),
        _ => None,
    }
}

/// Whether a text spells a number in decimal.
fn spells(text: &str, number: u64) -> bool
    ensures { IsTrue result ↔ (text.now ≡ decimal number) }
{
    let mut buffer = Buffer::new();
    buffer.format(number) == text
}

/// The property of a name, among properties that ascend by their names.
pub fn property_of(props: &[Named], name: &str) -> Option<u32>
    requires { Ascend (map (λ p. p.name) props.now) }
    ensures { result ≡ property props.now name.now }
{
    match props.binary_search_by(|prop| prop.name.as_str().cmp(name)) {
        Ok(at) => Some(props[at].place),
        Err(_) => None,
    }
}

/// A part of an element.
fn part_of(tag: u32, key: u32, props: u32, name: &Text) -> Option<u32>
    ensures { result ≡ part tag key props name.now }
{
    match name.as_str() {
        "type" => Some(tag),
        "key" => Some(key),
        "props" => Some(props),
        _ => None,
    }
}

/// Whether it is a failure.
pub fn is_failure(place: &Place) -> bool
    ensures { result ≡ fails place.now }
{
    matches!(place, Place::Atom(Atom::Failed(_)))
}

/// The id and the names of a lazy or a value reference.
pub fn walk_of(place: &Place) -> Option<(u32, &[Text])>
    ensures { option_map (λ way. (way.0, way.1.now)) result ≡ followed place.now }
{
    match place {
        Place::Lazy(id) => Some((*id, &[])),
        Place::Value(at) => Some((at.id, at.path.as_slice())),
        _ => None,
    }
}
