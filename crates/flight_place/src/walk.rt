ghost use Rattle.std.specs.Prelude.{◌≡◌, ◌+◌, ◌++◌, ◌∷◌, [], ◌↔◌, ◌<◌, true, length, IfOk, IfErr, OnOk, IsTrue, slice_set, drop, vec_len, vec_capacity};
ghost use Rattle.flight_place.specs.Parsed.{data_of, items_data, members_data};
ghost use Rattle.flight_place.specs.Places.{is_mark, is_marked, is_key, mark_visit, count, item_count, member_count, item_numbers, member_numbers, visits, array_visits, marked_visits, object_visits, item_visits, member_visits, token};
ghost use Rattle.flight_place.specs.Tokens.{is_plain};
ghost use Rattle.flight_place.specs.Faults.{Refuses, Adds};

use crate::fault::{PlaceFault, PlaceKind};
use crate::manner::Manner;
use crate::parsed::Parsed;
use crate::token::{is_dollar, is_plain, is_text, mark_place, plain_reference, token_place};
use flight_meaning::{Named, Place};
use flight_text::{Mark, Ref, whole};
use flight_value::{Atom, List, Text};
use std::alloc::Global;
use std::mem;

/// Adds the places of a value, and gives the value's number.
#[cycle(walk)]
#[inline(always)]
pub fn walk(
    alloc: Global,
    manner: Manner,
    value: &Parsed<'_>,
    out: &mut Vec<Place>,
) -> Result<u32, PlaceFault>
    ensures number { IfOk result (λ n. n ≡ length out.old.items) }
    ensures adds { OnOk result (Adds manner out.old.items out.new.items (visits manner (length out.old.items) (data_of value.now))) }
    ensures count { OnOk result (length out.new.items ≡ length out.old.items + count (data_of value.now)) }
    ensures err { IfErr result (Refuses manner (visits manner (length out.old.items) (data_of value.now))) }
{
    match value {
        Parsed::Null => push(out, Place::Atom(Atom::Null)),
        Parsed::Bool(b) => push(out, Place::Atom(Atom::Bool(*b))),
        Parsed::Number(number) => match whole(number) {
            Some(z) => push(out, Place::Atom(Atom::Whole(z))),
            None => Err(PlaceFault::Fault(PlaceKind::Number)),
        },
        Parsed::String(text) => push_token(alloc, manner, text, out),
        Parsed::Array(items) => {
            if starts_with_mark(items) {
                walk_element(alloc, manner, items, out)
            } else {
                walk_array(alloc, manner, items, out)
            }
        }
        Parsed::Object(members) => walk_object(alloc, manner, members, out),
    }
}

/// Adds the places of an array and its items.
#[cycle(walk)]
#[inline(never)]
fn walk_array(
    alloc: Global,
    manner: Manner,
    items: &[Parsed<'_>],
    out: &mut Vec<Place>,
) -> Result<u32, PlaceFault>
    ensures number { IfOk result (λ n. n ≡ length out.old.items) }
    ensures adds { OnOk result (Adds manner out.old.items out.new.items (array_visits manner (length out.old.items) (items_data items.now))) }
    ensures count { OnOk result (length out.new.items ≡ length out.old.items + 1 + item_count (items_data items.now)) }
    ensures err { IfErr result (Refuses manner (array_visits manner (length out.old.items) (items_data items.now))) }
{
    let number = push(out, unfinished(alloc))?;
    let numbers = walk_items(alloc, manner, items, out)?;
    put(out, number as usize, Place::Array(List::new(numbers)));
    Ok(number)
}

/// Adds the places of an element, its mark and what stands behind it.
#[cycle(walk)]
#[inline(never)]
fn walk_element(
    alloc: Global,
    manner: Manner,
    items: &[Parsed<'_>],
    out: &mut Vec<Place>,
) -> Result<u32, PlaceFault>
    requires { is_marked (items_data items.now) ≡ true }
    ensures number { IfOk result (λ n. n ≡ length out.old.items) }
    ensures adds { OnOk result (Adds manner out.old.items out.new.items (marked_visits manner (length out.old.items) (items_data items.now))) }
    ensures count { OnOk result (length out.new.items ≡ length out.old.items + 1 + item_count (items_data items.now)) }
    ensures err { IfErr result (Refuses manner (marked_visits manner (length out.old.items) (items_data items.now))) }
{
    match items {
        [_, tag, key, props] if may_be_key(key) => {
            let number = push(out, unfinished(alloc))?;
            push_mark(alloc, manner, out)?;
            let tag = walk(alloc, manner, tag, out)?;
            let key = walk(alloc, manner, key, out)?;
            let props = walk(alloc, manner, props, out)?;
            put(out, number as usize, Place::Element { tag, key, props });
            Ok(number)
        }
        _ => Err(PlaceFault::Fault(PlaceKind::BadElement {
            at: next_number(out.as_slice())?,
        })),
    }
}

/// Adds the places of an object and its members.
#[cycle(walk)]
#[inline(never)]
fn walk_object(
    alloc: Global,
    manner: Manner,
    members: &[(&str, Parsed<'_>)],
    out: &mut Vec<Place>,
) -> Result<u32, PlaceFault>
    ensures number { IfOk result (λ n. n ≡ length out.old.items) }
    ensures adds { OnOk result (Adds manner out.old.items out.new.items (object_visits manner (length out.old.items) (members_data members.now))) }
    ensures count { OnOk result (length out.new.items ≡ length out.old.items + 1 + member_count (members_data members.now)) }
    ensures err { IfErr result (Refuses manner (object_visits manner (length out.old.items) (members_data members.now))) }
{
    let number = push(out, unfinished(alloc))?;
    let numbers = walk_members(alloc, manner, members, out)?;
    put(out, number as usize, Place::Object(List::new(numbers)));
    Ok(number)
}

/// Adds the places of items, and gives the items' numbers.
#[cycle(walk)]
fn walk_items(
    alloc: Global,
    manner: Manner,
    items: &[Parsed<'_>],
    out: &mut Vec<Place>,
) -> Result<Vec<u32>, PlaceFault>
    ensures adds { OnOk result (Adds manner out.old.items out.new.items (item_visits manner (length out.old.items) (items_data items.now))) }
    ensures count { OnOk result (length out.new.items ≡ length out.old.items + item_count (items_data items.now)) }
    ensures numbers { IfOk result (λ numbers. numbers.items ≡ item_numbers (length out.old.items) (items_data items.now)) }
    ensures err { IfErr result (Refuses manner (item_visits manner (length out.old.items) (items_data items.now))) }
{
    let mut numbers = Vec::with_capacity(alloc, items.len())?;
    for item in items {
        numbers.push(walk(alloc, manner, item, out)?)?;
    }
    Ok(numbers)
}

/// Adds the places of members, and gives the properties with their numbers.
#[cycle(walk)]
fn walk_members(
    alloc: Global,
    manner: Manner,
    members: &[(&str, Parsed<'_>)],
    out: &mut Vec<Place>,
) -> Result<Vec<Named>, PlaceFault>
    ensures adds { OnOk result (Adds manner out.old.items out.new.items (member_visits manner (length out.old.items) (members_data members.now))) }
    ensures count { OnOk result (length out.new.items ≡ length out.old.items + member_count (members_data members.now)) }
    ensures numbers { IfOk result (λ numbers. numbers.items ≡ member_numbers (length out.old.items) (members_data members.now)) }
    ensures err { IfErr result (Refuses manner (member_visits manner (length out.old.items) (members_data members.now))) }
{
    let mut numbers = Vec::with_capacity(alloc, members.len())?;
    for member in members {
        let name = Text::new(alloc, member.0)?;
        let place = walk(alloc, manner, &member.1, out)?;
        numbers.push(Named { name, place })?;
    }
    Ok(numbers)
}

/// Whether items begin with the mark of an element.
fn starts_with_mark(items: &[Parsed<'_>]) -> bool
    ensures { IsTrue result ↔ (is_marked (items_data items.now) ≡ true) }
{
    match items {
        [first, ..] => is_mark(first),
        [] => false,
    }
}

/// Whether a value is the mark of an element.
fn is_mark(value: &Parsed<'_>) -> bool
    ensures { IsTrue result ↔ (is_mark (data_of value.now) ≡ true) }
{
    match value {
        Parsed::String(text) => is_dollar(text),
        _ => false,
    }
}

/// Whether a value may be an element's key.
fn may_be_key(value: &Parsed<'_>) -> bool
    ensures { IsTrue result ↔ (is_key (data_of value.now) ≡ true) }
{
    match value {
        Parsed::Null => true,
        Parsed::String(text) => is_text(text),
        _ => false,
    }
}

/// The next place's number. More places than numbers are answered as want of memory.
fn next_number(out: &[Place]) -> Result<u32, PlaceFault>
    ensures ok { IfOk result (λ n. n ≡ length out.now) }
    ensures err { IfErr result (λ e. e ≡ PlaceFault.Memory) }
{
    match u32::try_from(out.len()) {
        Ok(number) => Ok(number),
        Err(_) => Err(PlaceFault::Memory),
    }
}

/// A place that stands for one whose parts are not known yet.
pub fn unfinished(alloc: Global) -> Place
    ensures { result ≡ Place.Array [] }
{
    Place::Array(List::new(Vec::new(alloc)))
}

/// Adds a place, and gives its number.
#[inline(always)]
pub fn push(out: &mut Vec<Place>, place: Place) -> Result<u32, PlaceFault>
    ensures number { IfOk result (λ n. n ≡ length out.old.items) }
    ensures ok { OnOk result (out.new.items ≡ out.old.items ++ place ∷ []) }
    ensures err { IfErr result (λ e. e ≡ PlaceFault.Memory) }
{
    match next_room(out) {
        Ok(number) => {
            out.push_reserved(place);
            Ok(number)
        }
        Err(fault) => {
            discard(place);
            Err(fault)
        }
    }
}

/// The next place's number, with room for it.
#[inline(always)]
fn next_room(out: &mut Vec<Place>) -> Result<u32, PlaceFault>
    ensures number { IfOk result (λ n. n ≡ length out.old.items) }
    ensures room { OnOk result (vec_len out.new < vec_capacity out.new) }
    ensures kept { out.new.items ≡ out.old.items }
    ensures err { IfErr result (λ e. e ≡ PlaceFault.Memory) }
{
    let number = next_number(out.as_slice())?;
    if out.len() >= out.capacity() {
        make_room(out)?;
    }
    Ok(number)
}

/// Makes room for a place. It stands apart, so that what is done for each place stays small.
#[cold]
#[inline(never)]
fn make_room(out: &mut Vec<Place>) -> Result<(), PlaceFault>
    ensures room { OnOk result (vec_len out.new < vec_capacity out.new) }
    ensures kept { out.new.items ≡ out.old.items }
    ensures err { IfErr result (λ e. e ≡ PlaceFault.Memory) }
{
    out.reserve(1)?;
    Ok(())
}

/// Drops a place for which there was no room. It stands apart as well.
#[cold]
#[inline(never)]
fn discard(place: Place) {
    drop(place);
}

/// Adds the place of a string, and gives its number.
fn push_token(
    alloc: Global,
    manner: Manner,
    text: &str,
    out: &mut Vec<Place>,
) -> Result<u32, PlaceFault>
    ensures number { IfOk result (λ n. n ≡ length out.old.items) }
    ensures adds { OnOk result (Adds manner out.old.items out.new.items (token (length out.old.items) text.now ∷ [])) }
    ensures count { OnOk result (length out.new.items ≡ length out.old.items + 1) }
    ensures err { IfErr result (Refuses manner (token (length out.old.items) text.now ∷ [])) }
{
    if is_plain(text) {
        return push_plain(alloc, manner, text, out);
    }
    push_special(alloc, manner, text, out)
}

/// Adds the place of a string that stands for itself.
#[inline(always)]
fn push_plain(
    alloc: Global,
    manner: Manner,
    text: &str,
    out: &mut Vec<Place>,
) -> Result<u32, PlaceFault>
    requires { is_plain text.now ≡ true }
    ensures number { IfOk result (λ n. n ≡ length out.old.items) }
    ensures adds { OnOk result (Adds manner out.old.items out.new.items (token (length out.old.items) text.now ∷ [])) }
    ensures count { OnOk result (length out.new.items ≡ length out.old.items + 1) }
    ensures err { IfErr result (λ e. e ≡ PlaceFault.Memory) }
{
    let text = Text::new(alloc, text)?;
    push(out, Place::Atom(Atom::Text(text)))
}

/// Adds the place of a string that begins with `$`.
#[inline(never)]
fn push_special(
    alloc: Global,
    manner: Manner,
    text: &str,
    out: &mut Vec<Place>,
) -> Result<u32, PlaceFault>
    ensures number { IfOk result (λ n. n ≡ length out.old.items) }
    ensures adds { OnOk result (Adds manner out.old.items out.new.items (token (length out.old.items) text.now ∷ [])) }
    ensures count { OnOk result (length out.new.items ≡ length out.old.items + 1) }
    ensures err { IfErr result (Refuses manner (token (length out.old.items) text.now ∷ [])) }
{
    if let Some(id) = plain_reference(text) {
        let path = List::new(Vec::new(alloc));
        return push(out, Place::Value(Ref { id, path }));
    }
    let at = next_number(out.as_slice())?;
    let place = token_place(alloc, manner, at, text)?;
    push(out, place)
}

/// Adds what stands at the number of an element's mark.
fn push_mark(alloc: Global, manner: Manner, out: &mut Vec<Place>) -> Result<(), PlaceFault>
    ensures adds { OnOk result (Adds manner out.old.items out.new.items (mark_visit manner (length out.old.items) ∷ [])) }
    ensures count { OnOk result (length out.new.items ≡ length out.old.items + 1) }
    ensures err { IfErr result (Refuses manner (mark_visit manner (length out.old.items) ∷ [])) }
{
    match manner {
        Manner::Wire => {
            let place = mark_place(alloc, Mark::Element)?;
            push(out, place)?;
            Ok(())
        }
        Manner::Reply => Err(PlaceFault::Fault(PlaceKind::BadToken {
            at: next_number(out.as_slice())?,
        })),
    }
}

/// Puts a place where an unfinished one stands, which owns no memory.
#[inline(always)]
pub fn put(out: &mut Vec<Place>, at: usize, place: Place)
    requires { at < length out.old.items }
    ensures { out.new.items ≡ slice_set out.old.items at place }
{
    mem::forget(mem::replace(&mut out[at], place));
}
