ghost use Rattle.std.specs.Prelude.{◌≡◌, ◌∷◌, ◌++◌, [], Some, false, true, map, codes, IfOk, IfErr, OnOk, MatchOption};
ghost use Rattle.std.specs.Option.{option_to_list};
ghost use Rattle.std.specs.List.{AllZip, flat_map};
ghost use Rattle.serde_json.specs.Find.{get};
ghost use Rattle.serde_json.specs.View.{view};
ghost use Rattle.flight_value.specs.Graph.{Ascend};
ghost use Rattle.flight_script.specs.Entries.{entries};
ghost use Rattle.flight_script.specs.Streams.{flow_of, flow_in, has_items, may_have_final, has_stream_members, is_stream, name_test, stream_tests, IsNumberOf, IsLast, IsStream};
ghost use Rattle.flight_script.specs.Tests.{AllPass, Refuses};

use crate::fault::ScriptFault;
use crate::look::{are_texts, has_only, list_at, text};
use crate::names::number_of;
use crate::text::joined;
use flight_syntax::Flowing;
use flight_value::{Flow, List, Text};
use serde_json::{Map, Value};
use std::alloc::Global;

/// The streams, by the bytes of their names, over the names of the sources.
pub fn read_streams(
    alloc: Global,
    sources: &[&str],
    members: &Map<String, Value>,
) -> Result<Vec<Flowing>, ScriptFault>
    requires { Ascend (map (λ n. n.now) sources.now) }
    ensures pass { OnOk result (AllPass (flat_map (stream_tests (map (λ n. n.now) sources.now)) (entries members.now.entries))) }
    ensures are { IfOk result (λ out. AllZip (IsStream (map (λ n. n.now) sources.now)) (entries members.now.entries) out.items) }
    ensures err { IfErr result (Refuses (flat_map (stream_tests (map (λ n. n.now) sources.now)) (entries members.now.entries))) }
{
    let mut streams = Vec::with_capacity(alloc, members.len())?;
    for (name, member) in members.iter() {
        streams.push(read_stream(alloc, sources, name.as_str(), member)?)?;
    }
    Ok(streams)
}

/// A stream.
fn read_stream(
    alloc: Global,
    sources: &[&str],
    name: &str,
    value: &Value,
) -> Result<Flowing, ScriptFault>
    requires { Ascend (map (λ n. n.now) sources.now) }
    ensures pass { OnOk result (AllPass (stream_tests (map (λ n. n.now) sources.now) (name.now, view value.now))) }
    ensures is { IfOk result (IsStream (map (λ n. n.now) sources.now) (name.now, view value.now)) }
    ensures err { IfErr result (Refuses (stream_tests (map (λ n. n.now) sources.now) (name.now, view value.now))) }
{
    let Some(flow) = stream_flow(value) else {
        return Err(ScriptFault::BadShape {
            place: joined(alloc, "streams.", name)?,
        });
    };
    let items = source_numbers(alloc, sources, list_at(value, "items"))?;
    let last = last_number(alloc, sources, value)?;
    Ok(Flowing {
        name: Text::new(alloc, name)?,
        flow,
        items: List::new(items),
        last,
    })
}

/// What a stream was opened as, where the value has the form of a stream.
fn stream_flow(value: &Value) -> Option<Flow>
    ensures { MatchOption result (is_stream (view value.now) ≡ false) (λ flow. (is_stream (view value.now) ≡ true) × (flow_in (view value.now) ≡ Some flow)) }
{
    let flow = flow_in(value)?;
    if has_stream_members(value) {
        Some(flow)
    } else {
        None
    }
}

/// Whether the members of a stream are there, and no other.
fn has_stream_members(value: &Value) -> bool
    ensures { result ≡ has_stream_members (view value.now) }
{
    has_only(value, &["kind", "items", "final"]) && has_items(value) && may_have_final(value)
}

/// Whether the items are texts.
fn has_items(value: &Value) -> bool
    ensures { result ≡ has_items (view value.now) }
{
    match value.get("items") {
        Some(items) => are_texts(items),
        None => false,
    }
}

/// Whether the final value, if there is one, is a text.
fn may_have_final(value: &Value) -> bool
    ensures { result ≡ may_have_final (view value.now) }
{
    match value.get("final") {
        Some(last) => last.is_string(),
        None => true,
    }
}

/// What a stream was opened as.
fn flow_in(value: &Value) -> Option<Flow>
    ensures { result ≡ flow_in (view value.now) }
{
    flow_of(value.get("kind").and_then(Value::as_str)?)
}

fn flow_of(kind: &str) -> Option<Flow>
    ensures { result ≡ flow_of kind.now }
{
    if kind == "readable" {
        Some(Flow::Readable)
    } else if kind == "iterable" {
        Some(Flow::Iterable)
    } else if kind == "iterator" {
        Some(Flow::Iterator)
    } else {
        None
    }
}

/// The numbers of the sources that items name.
fn source_numbers(alloc: Global, sources: &[&str], items: &[Value]) -> Result<Vec<u32>, ScriptFault>
    requires { Ascend (map (λ n. n.now) sources.now) }
    ensures pass { OnOk result (AllPass (map (name_test (map (λ n. n.now) sources.now)) (map view items.now))) }
    ensures are { IfOk result (λ out. AllZip (IsNumberOf (map (λ n. n.now) sources.now)) (map view items.now) out.items) }
    ensures err { IfErr result (Refuses (map (name_test (map (λ n. n.now) sources.now)) (map view items.now))) }
{
    let mut numbers = Vec::with_capacity(alloc, items.len())?;
    for item in items {
        numbers.push(number_of(alloc, sources, text(item))?)?;
    }
    Ok(numbers)
}

/// The number of the source that the final value of a stream names.
fn last_number(alloc: Global, sources: &[&str], stream: &Value) -> Result<Option<u32>, ScriptFault>
    requires { Ascend (map (λ n. n.now) sources.now) }
    ensures pass { OnOk result (AllPass (map (name_test (map (λ n. n.now) sources.now)) (option_to_list (get (codes "final") (view stream.now))))) }
    ensures is { IfOk result (IsLast (map (λ n. n.now) sources.now) (get (codes "final") (view stream.now))) }
    ensures err { IfErr result (Refuses (map (name_test (map (λ n. n.now) sources.now)) (option_to_list (get (codes "final") (view stream.now))))) }
{
    match stream.get("final") {
        Some(last) => Ok(Some(number_of(alloc, sources, text(last))?)),
        None => Ok(None),
    }
}
