ghost use Rattle.std.specs.Prelude.{◌≡◌, map, is_some, option_map};
ghost use Rattle.std.specs.List.{list_all, list_any};
ghost use Rattle.std.specs.Str.{bytes_eq};
ghost use Rattle.serde_json.specs.Find.{as_str};
ghost use Rattle.serde_json.specs.View.{view};
ghost use Rattle.flight_script.specs.Json.{as_list, list_of, list_at, as_members, member_count, only, is_among, has_only, text, are_texts};
ghost use Rattle.flight_script.specs.Entries.{entries};

use serde_json::{Map, Value};

/// The items of an array.
#[tactic(auto, using(crate::proofs::Views::view_as_list))]
pub fn as_list(value: &Value) -> Option<&[Value]>
    ensures { option_map (λ s. map view s.now) result ≡ as_list (view value.now) }
{
    match value {
        Value::Array(items) => Some(items.as_slice()),
        _ => None,
    }
}

/// The same; of what is no array, none.
pub fn list_of(value: &Value) -> &[Value]
    ensures { map view result.now ≡ list_of (view value.now) }
{
    match as_list(value) {
        Some(items) => items,
        None => &[],
    }
}

/// The items of the array that is an object's member of that name, if there is one.
pub fn list_at<'a>(value: &'a Value, name: &str) -> &'a [Value]
    ensures { map view result.now ≡ list_at name.now (view value.now) }
{
    match value.get(name) {
        Some(list) => list_of(list),
        None => &[],
    }
}

/// The members of an object.
#[tactic(auto, using(crate::proofs::Views::view_as_members))]
pub fn as_members(value: &Value) -> Option<&Map<String, Value>>
    ensures { option_map (λ m. entries m.now.entries) result ≡ as_members (view value.now) }
{
    match value {
        Value::Object(members) => Some(members),
        _ => None,
    }
}

/// How many members an object has.
pub fn member_count(value: &Value) -> usize
    ensures { result ≡ member_count (view value.now) }
{
    match as_members(value) {
        Some(members) => members.len(),
        None => 0,
    }
}

/// The value of the only member of an object, where that is its name.
pub fn only<'a>(value: &'a Value, name: &str) -> Option<&'a Value>
    ensures { option_map (λ v. view v.now) result ≡ only name.now (view value.now) }
{
    if member_count(value) == 1 {
        value.get(name)
    } else {
        None
    }
}

/// Whether a name is one of these.
#[tactic(auto, using(crate::proofs::Views::among_map))]
pub fn is_among(names: &[&str], name: &str) -> bool
    ensures { result ≡ is_among (map (λ n. n.now) names.now) name.now }
{
    is_one_of(names, name)
}

/// Whether a text is one of these.
fn is_one_of(names: &[&str], name: &str) -> bool
    ensures { result ≡ list_any (λ n. bytes_eq n.now name.now) names.now }
{
    names.iter().any(|n| *n == name)
}

/// Whether a value is an array of texts.
pub fn are_texts(value: &Value) -> bool
    ensures { result ≡ are_texts (view value.now) }
{
    match as_list(value) {
        Some(items) => are_all_texts(items),
        None => false,
    }
}

/// Whether each of these is a text.
#[tactic(auto, using(crate::proofs::Views::all_map))]
fn are_all_texts(items: &[Value]) -> bool
    ensures { result ≡ list_all (λ t. is_some (as_str t)) (map view items.now) }
{
    are_strings(items)
}

/// Whether each of these is a text.
fn are_strings(items: &[Value]) -> bool
    ensures { result ≡ list_all (λ v. is_some (as_str (view v))) items.now }
{
    items.iter().all(|item| item.is_string())
}

/// Whether a value is an object all of whose names are among these.
pub fn has_only(value: &Value, names: &[&str]) -> bool
    ensures { result ≡ has_only (map (λ n. n.now) names.now) (view value.now) }
{
    match as_members(value) {
        Some(members) => has_names_among(members, names),
        None => false,
    }
}

/// Whether the names of all members are among these.
fn has_names_among(members: &Map<String, Value>, names: &[&str]) -> bool
    ensures { result ≡ list_all (λ m. is_among (map (λ n. n.now) names.now) m.0) (entries members.now.entries) }
{
    for (name, _member) in members.iter() {
        if !is_among(names, name.as_str()) {
            return false;
        }
    }
    true
}

/// A text; what is none counts as the empty one.
pub fn text(value: &Value) -> &str
    ensures { result.now ≡ text (view value.now) }
{
    match value {
        Value::String(text) => text.as_str(),
        _ => "",
    }
}
