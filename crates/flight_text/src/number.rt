ghost use Rattle.std.specs.Prelude.{◌≡◌};
ghost use Rattle.serde_json.specs.View.{view, items_view, members_view, number_view};
ghost use Rattle.flight_text.specs.Whole.{whole_of, has_whole_numbers, items_have_whole_numbers, members_have_whole_numbers};

use serde_json::{Map, Number, Value};

const MOST: i64 = 9_007_199_254_740_991;

/// A whole number within 53 bits.
pub fn whole(number: &Number) -> Option<i64>
    ensures { result ≡ whole_of (number_view number.now) }
{
    let n = number.as_i64()?;
    if n < -MOST || n > MOST { None } else { Some(n) }
}

/// Whether each number in a value is such a one.
#[cycle(whole)]
pub fn has_whole_numbers(value: &Value) -> bool
    ensures { result ≡ has_whole_numbers (view value.now) }
{
    match value {
        Value::Null | Value::Bool(_) | Value::String(_) => true,
        Value::Number(number) => whole(number).is_some(),
        Value::Array(items) => items_have_whole_numbers(items),
        Value::Object(members) => members_have_whole_numbers(members),
    }
}

/// Whether each number in items is such a one.
#[cycle(whole)]
fn items_have_whole_numbers(items: &[Value]) -> bool
    ensures { result ≡ items_have_whole_numbers (items_view items.now) }
{
    for item in items {
        if !has_whole_numbers(item) {
            return false;
        }
    }
    true
}

/// Whether each number in members is such a one.
#[cycle(whole)]
fn members_have_whole_numbers(members: &Map<String, Value>) -> bool
    ensures { result ≡ members_have_whole_numbers (members_view members.now.entries) }
{
    for (_name, member) in members.iter() {
        if !has_whole_numbers(member) {
            return false;
        }
    }
    true
}
