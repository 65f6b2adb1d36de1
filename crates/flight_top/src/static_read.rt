ghost use Rattle.std.specs.Prelude.{◌≡◌, ℕ, IfOk, OnOk, string_bytes, IsUtf8, length, ◌≤◌, None, Some, is_some, true, false};
ghost use Rattle.serde_json.specs.Data.{put};
ghost use Rattle.serde_json.specs.Find.{get_member};
ghost use Rattle.serde_json.specs.View.{view, members_view};
ghost use Rattle.flight_syntax.specs.declared.token.TokenKind.TheVariants as kind;
ghost use Rattle.flight_top.specs.StaticReader.{Gives, AreOfText, words_from, seen, want, atom, array_rest, object_rest, property, braced, attribute_value, attribute, attributes_by, element_rest, begun, value, element_json, escaped};

use crate::static_code::{Code, Unbuilt};
use crate::static_word::{any_name, escaped, lower_name, number, text, want};
use flight_syntax::TokenKind::{Mark, Name};
use flight_value::Memory;
use serde_json::{Map, Value};
use std::alloc::Global;

/// Puts a property among others, where none of them has its name.
fn add(members: &mut Map<String, Value>, name: String, value: Value) -> Result<(), Unbuilt>
    ensures new { OnOk result (get_member (string_bytes name) (members_view members.old.entries) ≡ None) }
    ensures put { OnOk result (members_view members.new.entries ≡ put (string_bytes name) (view value) (members_view members.old.entries)) }
    ensures twice { result ≡ Err Unbuilt.NotBuilt → is_some (get_member (string_bytes name) (members_view members.old.entries)) ≡ true }
{
    if members.insert(name, value)?.is_some() {
        return Err(Unbuilt::NotBuilt); // the name stands twice
    }
    Ok(())
}

/// The value of one word at this place.
fn atom(alloc: Global, code: &Code, at: usize) -> Result<(Value, usize), Unbuilt>
    requires { AreOfText code.now }
    ensures { Gives (seen code.now) result (atom (words_from code.now at)) }
{
    if let Some(end) = want(code, at, Name, "null") {
        return Ok((Value::Null, end));
    }
    if let Some(end) = want(code, at, Name, "true") {
        return Ok((Value::Bool(true), end));
    }
    if let Some(end) = want(code, at, Name, "false") {
        return Ok((Value::Bool(false), end));
    }
    match number(code, at) {
        Some(found) => Ok(found),
        None => text(alloc, code, at),
    }
}

/// What is behind a mark that has to stand at this place.
pub fn mark(code: &Code, at: usize, mark: &str) -> Result<usize, Unbuilt>
    requires { AreOfText code.now }
    ensures { Gives (words_from code.now) result (want kind.Mark mark.now (words_from code.now at)) }
{
    want(code, at, Mark, mark).ok_or(Unbuilt::NotBuilt)
}

/// The value at this place, with so many levels.
#[cycle(static_read)]
#[tactic(auto, unfolding(crate::specs::StaticReader::value))]
pub fn value(alloc: Global, levels: u32, code: &Code, at: usize) -> Result<(Value, usize), Unbuilt>
    requires { AreOfText code.now }
    ensures { Gives (seen code.now) result (value levels (words_from code.now at)) }
{
    if levels == 0 {
        return Err(Unbuilt::NotBuilt);
    }
    begun(alloc, levels - 1, code, at)
}

/// The value at this place, by its first word.
#[cycle(static_read)]
fn begun(alloc: Global, below: u32, code: &Code, at: usize) -> Result<(Value, usize), Unbuilt>
    requires { AreOfText code.now }
    ensures { Gives (seen code.now) result (begun (value below) (words_from code.now at)) }
{
    if let Some(inside) = want(code, at, Mark, "[") {
        return array(alloc, below, code, inside);
    }
    if let Some(inside) = want(code, at, Mark, "{") {
        return object(alloc, below, code, inside);
    }
    if let Some(inside) = want(code, at, Mark, "<") {
        return element(alloc, below, code, inside);
    }
    atom(alloc, code, at)
}

/// The array whose items begin at this place.
#[cycle(static_read)]
fn array(alloc: Global, below: u32, code: &Code, at: usize) -> Result<(Value, usize), Unbuilt>
    requires { AreOfText code.now }
    ensures { Gives (seen code.now) result (array_rest (value below) (words_from code.now at)) }
{
    let mut items = Vec::new(alloc);
    if let Some(end) = want(code, at, Mark, "]") {
        return Ok((Value::Array(items), end));
    }
    let mut next = at;
    'items: for _ in at..code.tokens.len() {
        let (item, end) = value(alloc, below, code, next)?;
        items.push(item)?;
        if let Some(end) = want(code, end, Mark, "]") {
            return Ok((Value::Array(items), end));
        }
        next = mark(code, end, ",")?;
    }
    Err(Unbuilt::NotBuilt)
}

/// The object whose properties begin at this place.
#[cycle(static_read)]
fn object(alloc: Global, below: u32, code: &Code, at: usize) -> Result<(Value, usize), Unbuilt>
    requires { AreOfText code.now }
    ensures { Gives (seen code.now) result (object_rest (value below) (words_from code.now at)) }
{
    let mut members = Map::new(alloc);
    if let Some(end) = want(code, at, Mark, "}") {
        return Ok((Value::Object(members), end));
    }
    let mut next = at;
    'props: for _ in at..code.tokens.len() {
        let end = property(alloc, below, code, next, &mut members)?;
        if let Some(end) = want(code, end, Mark, "}") {
            return Ok((Value::Object(members), end));
        }
        next = mark(code, end, ",")?;
    }
    Err(Unbuilt::NotBuilt)
}

/// Puts the property at this place among others.
#[cycle(static_read)]
fn property(
    alloc: Global,
    below: u32,
    code: &Code,
    at: usize,
    members: &mut Map<String, Value>,
) -> Result<usize, Unbuilt>
    requires { AreOfText code.now }
    ensures { Gives (λ end. (members_view members.new.entries, words_from code.now end)) result (property (value below) (members_view members.old.entries) (words_from code.now at)) }
{
    let (name, end) = any_name(alloc, code, at)?;
    let end = mark(code, end, ":")?;
    let (value, end) = value(alloc, below, code, end)?;
    add(members, name, value)?;
    Ok(end)
}

/// The element whose tag stands at this place.
#[cycle(static_read)]
fn element(alloc: Global, below: u32, code: &Code, at: usize) -> Result<(Value, usize), Unbuilt>
    requires { AreOfText code.now }
    ensures { Gives (seen code.now) result (element_rest (value below) (words_from code.now at)) }
{
    let (tag, end) = lower_name(alloc, code, at)?;
    let mut members = Map::new(alloc);
    let end = attributes(alloc, below, code, end, &mut members)?;
    Ok((element_value(alloc, tag.as_str(), members)?, end))
}

/// The JSON of an element.
fn element_value(alloc: Global, tag: &str, members: Map<String, Value>) -> Result<Value, Memory>
    ensures { IfOk result (λ v. view v ≡ element_json tag.now (members_view members.entries)) }
{
    let mark = Value::String(String::from_str(alloc, "$")?);
    let tag = Value::String(escaped(alloc, tag)?);
    Ok(Value::Array(vec![in alloc; mark, tag, Value::Null, Value::Object(members)]?))
}

/// Puts the attributes from this place on among others.
#[cycle(static_read)]
fn attributes(
    alloc: Global,
    below: u32,
    code: &Code,
    at: usize,
    members: &mut Map<String, Value>,
) -> Result<usize, Unbuilt>
    requires { AreOfText code.now }
    ensures { Gives (λ end. (members_view members.new.entries, words_from code.now end)) result (attributes_by (length (words_from code.now at)) (value below) (members_view members.old.entries) (words_from code.now at)) }
{
    let mut next = at;
    'attributes: for _ in at..code.tokens.len() {
        if let Some(end) = want(code, next, Mark, "/>") {
            return Ok(end);
        }
        next = attribute(alloc, below, code, next, members)?;
    }
    Err(Unbuilt::NotBuilt)
}

/// Puts the attribute at this place among others.
#[cycle(static_read)]
fn attribute(
    alloc: Global,
    below: u32,
    code: &Code,
    at: usize,
    members: &mut Map<String, Value>,
) -> Result<usize, Unbuilt>
    requires { AreOfText code.now }
    ensures { Gives (λ end. (members_view members.new.entries, words_from code.now end)) result (attribute (value below) (members_view members.old.entries) (words_from code.now at)) }
{
    let (name, end) = any_name(alloc, code, at)?;
    if name.as_str() == "key" {
        return Err(Unbuilt::NotBuilt);
    }
    let end = mark(code, end, "=")?;
    let (value, end) = attribute_value(alloc, below, code, end)?;
    add(members, name, value)?;
    Ok(end)
}

/// The text, or the value in braces, at this place.
#[cycle(static_read)]
fn attribute_value(
    alloc: Global,
    below: u32,
    code: &Code,
    at: usize,
) -> Result<(Value, usize), Unbuilt>
    requires { AreOfText code.now }
    ensures { Gives (seen code.now) result (attribute_value (value below) (words_from code.now at)) }
{
    match text(alloc, code, at) {
        Ok(found) => Ok(found),
        Err(Unbuilt::NotBuilt) => {
            let inside = mark(code, at, "{")?;
            let (value, end) = value(alloc, below, code, inside)?;
            let end = mark(code, end, "}")?;
            Ok((value, end))
        }
        Err(Unbuilt::Memory) => Err(Unbuilt::Memory),
    }
}
