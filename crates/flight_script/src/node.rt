ghost use Rattle.std.specs.Prelude.{◌≡◌, ◌≢◌, ◌∷◌, [], map, option_map, MatchOption};
ghost use Rattle.std.specs.List.{AllZip};
ghost use Rattle.serde_json.specs.View.{view};
ghost use Rattle.serde_json.specs.declared.value.Value.{Value};
ghost use Rattle.flight_script.specs.Entries.{entries};
ghost use Rattle.flight_script.specs.Slots.{IsSlot, IsProp, IsPair, IsNode, list_in, members_in};
ghost use Rattle.flight_script.specs.Answer.{Answers};

use crate::look::{as_list, as_members, only};
use crate::slot::{read_slot, read_slots};
use crate::unfit::Unfit;
use flight_value::{List, Node, Pair, Prop, Text};
use serde_json::{Map, Value};
use std::alloc::Global;

/// The node that a value is, among so many.
pub fn read_node(alloc: Global, value: &Value, count: u32) -> Result<Node, Unfit>
    ensures { Answers (IsNode count (view value.now)) result }
{
    if let Some(items) = list_in(value, "array") {
        return Ok(Node::Array(read_slots(alloc, items, count)?));
    }
    if let Some(members) = members_in(value, "object") {
        return Ok(Node::Object(read_props(alloc, members, count)?));
    }
    if let Some(items) = list_in(value, "map") {
        return Ok(Node::Map(read_pairs(alloc, items, count)?));
    }
    match list_in(value, "set") {
        Some(items) => Ok(Node::Set(read_slots(alloc, items, count)?)),
        None => Err(Unfit::Form),
    }
}

/// The array that is an object's only member, of that name.
fn list_in<'a>(value: &'a Value, name: &str) -> Option<&'a [Value]>
    ensures { option_map (λ s. map view s.now) result ≡ list_in name.now (view value.now) }
{
    only(value, name).and_then(as_list)
}

/// The object that is an object's only member, of that name.
fn members_in<'a>(value: &'a Value, name: &str) -> Option<&'a Map<String, Value>>
    ensures { option_map (λ m. entries m.now.entries) result ≡ members_in name.now (view value.now) }
{
    only(value, name).and_then(as_members)
}

/// The properties that members are.
fn read_props(alloc: Global, members: &Map<String, Value>, count: u32) -> Result<List<Prop>, Unfit>
    ensures { Answers (AllZip (IsProp count) (entries members.now.entries)) result }
{
    let mut props = Vec::with_capacity(alloc, members.len())?;
    for (name, member) in members.iter() {
        let name = Text::new(alloc, name.as_str())?;
        let slot = read_slot(alloc, member, count)?;
        props.push(Prop { name, slot })?;
    }
    Ok(List::new(props))
}

/// The entries that items are.
fn read_pairs(alloc: Global, items: &[Value], count: u32) -> Result<List<Pair>, Unfit>
    ensures { Answers (AllZip (IsPair count) (map view items.now)) result }
{
    let mut pairs = Vec::with_capacity(alloc, items.len())?;
    for item in items {
        pairs.push(read_pair(alloc, item, count)?)?;
    }
    Ok(List::new(pairs))
}

/// The entry that a value is: an array of a key and a value.
fn read_pair(alloc: Global, value: &Value, count: u32) -> Result<Pair, Unfit>
    ensures { Answers (IsPair count (view value.now)) result }
{
    match as_list(value) {
        Some(items) => pair_of(alloc, items, count),
        None => Err(Unfit::Form),
    }
}

/// The entry of a key and a value.
fn pair_of(alloc: Global, items: &[Value], count: u32) -> Result<Pair, Unfit>
    ensures { Answers (λ p. AllZip (IsSlot count) (map view items.now) (p.key ∷ p.value ∷ [])) result }
{
    let Some((key, value)) = two(items) else {
        return Err(Unfit::Form);
    };
    let key = read_slot(alloc, key, count)?;
    let value = read_slot(alloc, value, count)?;
    Ok(Pair { key, value })
}

/// The two items of a list of two.
fn two(items: &[Value]) -> Option<(&Value, &Value)>
    ensures { MatchOption result ((a b : Value) → items.now ≢ a ∷ b ∷ []) (λ p. items.now ≡ p.0.now ∷ p.1.now ∷ []) }
{
    match items {
        [first, second] => Some((first, second)),
        _ => None,
    }
}
