ghost use Rattle.std.specs.Prelude.{◌≡◌, IfOk, OnOk, Some, false, map};
ghost use Rattle.std.specs.Fmt.{signed_decimal};
ghost use Rattle.json.specs.Json as json;
ghost use Rattle.serde_json.specs.Data as json_data;
ghost use Rattle.serde_json.specs.Read.{of_items, of_members};
ghost use Rattle.serde_json.specs.Written.{items_have_float, members_have_float};
ghost use Rattle.serde_json.specs.View.{view, items_view, members_view};
ghost use Rattle.flight_syntax.specs.Tree.{json_items_of, json_members_of};
ghost use Rattle.flight_parse.specs.Values.{json_of, member_of};
ghost use Rattle.flight_resolve.specs.Kept.{IsValueOf, IsWritten};

use flight_parse::{Json, Member};
use flight_value::{Memory, Text};
use serde_json::{Map, Value};
use std::alloc::Global;

/// JSON as `serde_json` writes it compactly.
pub fn compact(alloc: Global, read: &Json) -> Result<Text, Memory>
    ensures { IfOk result (λ text. IsWritten text (json_of read.now)) }
{
    let value = value(alloc, read)?;
    let text = value.to_string(alloc)?;
    Ok(Text::from_string(text)?)
}

/// JSON as a value of `serde_json`. Of a repeated property the last holds.
#[cycle(import)]
fn value(alloc: Global, read: &Json) -> Result<Value, Memory>
    ensures { IfOk result (λ value. IsValueOf value (json_of read.now)) }
{
    match read {
        Json::Null => Ok(Value::Null),
        Json::Boolean(truth) => Ok(Value::Bool(*truth)),
        Json::Number(number) => Ok(whole(*number)),
        Json::String(text) => Ok(Value::String(String::from_str(alloc, text.as_str())?)),
        Json::Array(items) => Ok(Value::Array(values(alloc, items.as_slice())?)),
        Json::Object(members) => Ok(Value::Object(object(alloc, members.as_slice())?)),
    }
}

/// A whole number.
fn whole(number: i64) -> Value
    ensures { IsValueOf result (json.number (signed_decimal number)) }
{
    Value::from(number)
}

/// The values of items.
#[cycle(import)]
fn values(alloc: Global, items: &[Json]) -> Result<Vec<Value>, Memory>
    ensures read { IfOk result (λ values. of_items (json_items_of (map json_of items.now)) ≡ Some (items_view values.items)) }
    ensures whole { IfOk result (λ values. items_have_float (items_view values.items) ≡ false) }
{
    let mut values = Vec::with_capacity(alloc, items.len())?;
    for item in items {
        let value = value(alloc, item)?;
        values.push(value)?;
    }
    Ok(values)
}

/// The values of members by their names.
#[cycle(import)]
fn object(alloc: Global, members: &[Member]) -> Result<Map<String, Value>, Memory>
    ensures read { IfOk result (λ object. of_members (json_members_of (map member_of members.now)) json_data.no_members ≡ Some (members_view object.entries)) }
    ensures whole { IfOk result (λ object. members_have_float (members_view object.entries) ≡ false) }
{
    let mut object = Map::new(alloc);
    for member in members {
        let value = value_in(alloc, member)?;
        put_in(alloc, &mut object, member, value)?;
    }
    Ok(object)
}

/// The value of a member.
#[cycle(import)]
fn value_in(alloc: Global, member: &Member) -> Result<Value, Memory>
    ensures { IfOk result (λ value. IsValueOf value (member_of member.now).1) }
{
    value(alloc, &member.value)
}

/// A member takes the place of one of its name.
fn put_in(
    alloc: Global,
    object: &mut Map<String, Value>,
    member: &Member,
    value: Value,
) -> Result<(), Memory>
    ensures { OnOk result (members_view object.new.entries ≡ json_data.put (member_of member.now).0.bytes (view value) (members_view object.old.entries)) }
{
    put(alloc, object, &member.name.bytes, value)
}

/// A value takes the place of one of its name.
fn put(
    alloc: Global,
    object: &mut Map<String, Value>,
    name: &Text,
    value: Value,
) -> Result<(), Memory>
    ensures { OnOk result (members_view object.new.entries ≡ json_data.put name.now (view value) (members_view object.old.entries)) }
{
    let name = String::from_str(alloc, name.as_str())?;
    object.insert(name, value)?;
    Ok(())
}
