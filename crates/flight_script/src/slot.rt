ghost use Rattle.std.specs.Prelude.{◌≡◌, ◌<◌, ◌^◌, map, length, option_map};
ghost use Rattle.std.specs.List.{AllZip};
ghost use Rattle.serde_json.specs.Data as Data;
ghost use Rattle.serde_json.specs.View.{view};
ghost use Rattle.flight_text.specs.declared.mark.Mark.TheVariants as mark;
ghost use Rattle.flight_script.specs.Slots.{slot_of, IsSlot};
ghost use Rattle.flight_script.specs.Answer.{Answers};

use crate::unfit::Unfit;
use flight_text::{Mark, Marked, Ref, read_mark, whole};
use flight_value::{Atom, List, Slot, Wide};
use serde_json::Value;
use std::alloc::Global;

/// The slot that a value is, among so many nodes.
pub fn read_slot(alloc: Global, value: &Value, count: u32) -> Result<Slot, Unfit>
    ensures { Answers (IsSlot count (view value.now)) result }
{
    match value {
        Value::Null => Ok(Slot::Atom(Atom::Null)),
        Value::Bool(b) => Ok(Slot::Atom(Atom::Bool(*b))),
        Value::Number(number) => match whole(number) {
            Some(z) => Ok(Slot::Atom(Atom::Whole(z))),
            None => Err(Unfit::Form),
        },
        Value::String(text) => read_text(alloc, text.as_str(), count),
        Value::Array(_) | Value::Object(_) => Err(Unfit::Form),
    }
}

/// The slot that a string is.
fn read_text(alloc: Global, text: &str, count: u32) -> Result<Slot, Unfit>
    ensures { Answers (IsSlot count (Data.string text.now)) result }
{
    match read_mark(alloc, text) {
        Ok(mark) => match mark_slot(mark, count) {
            Some(slot) => Ok(slot),
            None => Err(Unfit::Form),
        },
        Err(Marked::BadToken) => Err(Unfit::Form),
        Err(Marked::Memory) => Err(Unfit::Memory),
    }
}

/// The slot that a mark is.
fn mark_slot(mark: Mark, count: u32) -> Option<Slot>
    ensures { result ≡ slot_of count mark }
{
    match mark {
        Mark::Plain(text) => Some(Slot::Atom(Atom::Text(text))),
        Mark::Value(place) => node_slot(&place, count),
        Mark::Date(date) => Some(Slot::Atom(Atom::Date(date))),
        Mark::Big(number) => Some(Slot::Atom(Atom::Big(Wide::new(number)))),
        Mark::Symbol(name) => Some(Slot::Atom(Atom::Symbol(name))),
        Mark::Undefined => Some(Slot::Atom(Atom::Undefined)),
        Mark::Constant(constant) => Some(Slot::Atom(Atom::Constant(constant))),
        _ => None,
    }
}

/// The node that a place is, where it has no path.
fn node_slot(place: &Ref, count: u32) -> Option<Slot>
    ensures { result ≡ slot_of count (mark.Value place.now) }
{
    if place.path.as_slice().is_empty() && place.id < count {
        Some(Slot::Node(place.id))
    } else {
        None
    }
}

/// The slots that items are.
pub fn read_slots(alloc: Global, items: &[Value], count: u32) -> Result<List<Slot>, Unfit>
    ensures { Answers (AllZip (IsSlot count) (map view items.now)) result }
{
    let mut slots = Vec::with_capacity(alloc, items.len())?;
    for item in items {
        slots.push(read_slot(alloc, item, count)?)?;
    }
    Ok(List::new(slots))
}
