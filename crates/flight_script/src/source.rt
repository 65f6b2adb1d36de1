ghost use Rattle.std.specs.Prelude.{◌≡◌, ◌<◌, ◌^◌, ◌∷◌, [], None, Some, map, length, option_map, IfOk, IfErr, OnOk};
ghost use Rattle.std.specs.List.{AllZip, flat_map};
ghost use Rattle.serde_json.specs.View.{view};
ghost use Rattle.flight_text.specs.Whole.{has_whole_numbers};
ghost use Rattle.flight_script.specs.Entries.{entries};
ghost use Rattle.flight_script.specs.Slots.{IsSlot, IsNode};
ghost use Rattle.flight_script.specs.Sources.{rejection, value_parts, node_tests, value_tests, source_tests, IsGraph, IsSource};
ghost use Rattle.flight_script.specs.Tests.{holds, a_slot, a_node, AllPass, Refuses};
ghost use Rattle.flight_script.specs.declared.fault.ScriptFault.TheVariants as fault;

use crate::fault::ScriptFault;
use crate::look::{as_list, member_count, only};
use crate::node::read_node;
use crate::slot::read_slot;
use crate::text::{joined, number};
use crate::unfit::Unfit;
use flight_syntax::{Data, Outcome};
use flight_text::has_whole_numbers;
use flight_value::{Graph, List, Node, Slot, Text};
use serde_json::{Map, Value};
use std::alloc::Global;

/// The sources, by the bytes of their names.
pub fn read_sources(alloc: Global, members: &Map<String, Value>) -> Result<Vec<Data>, ScriptFault>
    ensures pass { OnOk result (AllPass (flat_map source_tests (entries members.now.entries))) }
    ensures are { IfOk result (λ sources. AllZip IsSource (entries members.now.entries) sources.items) }
    ensures err { IfErr result (Refuses (flat_map source_tests (entries members.now.entries))) }
{
    let mut sources = Vec::with_capacity(alloc, members.len())?;
    for (name, member) in members.iter() {
        sources.push(read_source(alloc, name.as_str(), member)?)?;
    }
    Ok(sources)
}

/// A source.
fn read_source(alloc: Global, name: &str, value: &Value) -> Result<Data, ScriptFault>
    ensures pass { OnOk result (AllPass (source_tests (name.now, view value.now))) }
    ensures is { IfOk result (IsSource (name.now, view value.now)) }
    ensures err { IfErr result (Refuses (source_tests (name.now, view value.now))) }
{
    let outcome = match rejection(value) {
        Some(digest) => Outcome::Reject(Text::new(alloc, digest)?),
        None => Outcome::Value(read_value(alloc, name, value)?),
    };
    Ok(Data {
        name: Text::new(alloc, name)?,
        outcome,
    })
}

/// The digest of a source that is rejected.
fn rejection(value: &Value) -> Option<&str>
    ensures { option_map (λ s. s.now) result ≡ rejection (view value.now) }
{
    only(value, "reject").and_then(Value::as_str)
}

/// The value and the nodes of a source that has a value.
fn value_parts(value: &Value) -> Option<(&Value, &[Value])>
    ensures { option_map (λ p. (view p.0.now, map view p.1.now)) result ≡ value_parts (view value.now) }
{
    if member_count(value) != 2 {
        return None;
    }
    let root = value.get("value")?;
    let nodes = value.get("nodes").and_then(as_list)?;
    Some((root, nodes))
}

/// The graph of a source that is not rejected.
fn read_value(alloc: Global, name: &str, value: &Value) -> Result<Graph, ScriptFault>
    requires { rejection (view value.now) ≡ None }
    ensures pass { OnOk result (AllPass (source_tests (name.now, view value.now))) }
    ensures is { IfOk result (IsGraph (value_parts (view value.now))) }
    ensures err { IfErr result (Refuses (source_tests (name.now, view value.now))) }
{
    match value_parts(value) {
        Some((root, nodes)) => read_graph(alloc, name, root, nodes),
        None => Err(ScriptFault::BadShape {
            place: joined(alloc, "sources.", name)?,
        }),
    }
}

/// The graph of a value and nodes.
fn read_graph(
    alloc: Global,
    name: &str,
    root: &Value,
    nodes: &[Value],
) -> Result<Graph, ScriptFault>
    ensures pass { OnOk result (AllPass (value_tests name.now (Some (view root.now, map view nodes.now)))) }
    ensures is { IfOk result (IsGraph (Some (view root.now, map view nodes.now))) }
    ensures err { IfErr result (Refuses (value_tests name.now (Some (view root.now, map view nodes.now)))) }
{
    let count = number(nodes.len())?;
    let root = source_slot(alloc, name, root, count)?;
    let nodes = source_nodes(alloc, name, nodes, count)?;
    Ok(Graph { root, nodes })
}

/// The slot of a source's value.
fn source_slot(alloc: Global, name: &str, value: &Value, count: u32) -> Result<Slot, ScriptFault>
    ensures pass { OnOk result (AllPass (holds (has_whole_numbers (view value.now)) (fault.Number name.now) ∷ a_slot count (view value.now) (fault.BadNode name.now None) ∷ [])) }
    ensures is { IfOk result (IsSlot count (view value.now)) }
    ensures err { IfErr result (Refuses (holds (has_whole_numbers (view value.now)) (fault.Number name.now) ∷ a_slot count (view value.now) (fault.BadNode name.now None) ∷ [])) }
{
    if !has_whole_numbers(value) {
        return Err(ScriptFault::Number {
            source: Text::new(alloc, name)?,
        });
    }
    match read_slot(alloc, value, count) {
        Ok(slot) => Ok(slot),
        Err(Unfit::Form) => Err(ScriptFault::BadNode {
            source: Text::new(alloc, name)?,
            node: None,
        }),
        Err(Unfit::Memory) => Err(ScriptFault::Memory),
    }
}

/// The nodes of a source.
fn source_nodes(
    alloc: Global,
    name: &str,
    values: &[Value],
    count: u32,
) -> Result<List<Node>, ScriptFault>
    requires { length values.now ≡ count }
    ensures pass { OnOk result (AllPass (node_tests name.now count 0 (map view values.now))) }
    ensures are { IfOk result (AllZip (IsNode count) (map view values.now)) }
    ensures err { IfErr result (Refuses (node_tests name.now count 0 (map view values.now))) }
{
    let mut nodes = Vec::with_capacity(alloc, values.len())?;
    for (number, value) in values.iter().enumerate() {
        nodes.push(source_node(alloc, name, value, count, number as u32)?)?;
    }
    Ok(List::new(nodes))
}

/// The node of a source that has that number.
fn source_node(
    alloc: Global,
    name: &str,
    value: &Value,
    count: u32,
    number: u32,
) -> Result<Node, ScriptFault>
    ensures pass { OnOk result (AllPass (holds (has_whole_numbers (view value.now)) (fault.Number name.now) ∷ a_node count (view value.now) (fault.BadNode name.now (Some number)) ∷ [])) }
    ensures is { IfOk result (IsNode count (view value.now)) }
    ensures err { IfErr result (Refuses (holds (has_whole_numbers (view value.now)) (fault.Number name.now) ∷ a_node count (view value.now) (fault.BadNode name.now (Some number)) ∷ [])) }
{
    if !has_whole_numbers(value) {
        return Err(ScriptFault::Number {
            source: Text::new(alloc, name)?,
        });
    }
    match read_node(alloc, value, count) {
        Ok(node) => Ok(node),
        Err(Unfit::Form) => Err(ScriptFault::BadNode {
            source: Text::new(alloc, name)?,
            node: Some(number),
        }),
        Err(Unfit::Memory) => Err(ScriptFault::Memory),
    }
}
