ghost use Rattle.std.specs.Prelude.{◌≡◌, ◌<◌, length, IfOk, Option, None, ℕ, All, map, unwrap_or, slice_index_or};
ghost use Rattle.flight_value.specs.Graph.{IsValid};
ghost use Rattle.flight_graph.specs.Canon.{canon_of, map_end, map_pair, map_prop, map_slots, node_at};
ghost use Rattle.flight_graph.specs.Walk.{placed};

use crate::walk::visit_all;
use flight_value::{End, Graph, List, Memory, Node, Pair, Prop, Slot, Text};
use std::alloc::Global;

/// The graph with its nodes in the order of a first visit, under new numbers. Those that the root does
/// not lead to are left out.
pub fn canon(alloc: Global, graph: &Graph) -> Result<Graph, Memory>
    requires { IsValid graph.now }
    ensures canon { IfOk result (λ c. c ≡ canon_of graph.now) }
    ensures valid { IfOk result (λ c. IsValid c) }
{
    let walk = visit_all(alloc, graph)?;
    let places = walk.places.as_slice();
    Ok(Graph {
        root: renamed_slot(places, &graph.root)?,
        nodes: renamed_nodes(alloc, places, graph.nodes.as_slice(), walk.order.as_slice())?,
    })
}

/// The nodes of that order, with their slots under their nodes' places.
fn renamed_nodes(
    alloc: Global,
    places: &[Option<u32>],
    nodes: &[Node],
    order: &[u32],
) -> Result<List<Node>, Memory>
    requires { All (λ n. n < length nodes.now) order.now }
    ensures { IfOk result (λ new. new ≡ map (λ n. map_slots (placed places.now) (node_at nodes.now n)) order.now) }
{
    let mut new = Vec::with_capacity(alloc, order.len())?;
    for node in order {
        new.push(renamed_node(alloc, places, node_in(nodes, *node))?)?;
    }
    Ok(List::new(new))
}

/// The node of a number.
pub fn node_in(nodes: &[Node], node: u32) -> &Node
    requires { node < length nodes.now }
    ensures { result.now ≡ node_at nodes.now node }
{
    &nodes[node as usize]
}

/// The place of a node, 0 where it has none.
pub fn place_of(places: &[Option<u32>], node: u32) -> u32
    ensures { result ≡ unwrap_or (slice_index_or places.now node None) 0 }
{
    match places.get(node as usize) {
        Some(Some(place)) => *place,
        _ => 0,
    }
}

fn renamed_slot(places: &[Option<u32>], slot: &Slot) -> Result<Slot, Memory>
    ensures { IfOk result (λ new. new ≡ placed places.now slot.now) }
{
    match slot {
        Slot::Atom(atom) => Ok(Slot::Atom(atom.copy()?)),
        Slot::Node(node) => Ok(Slot::Node(place_of(places, *node))),
    }
}

fn renamed_slots(
    alloc: Global,
    places: &[Option<u32>],
    slots: &[Slot],
) -> Result<List<Slot>, Memory>
    ensures { IfOk result (λ new. new ≡ map (placed places.now) slots.now) }
{
    let mut new = Vec::with_capacity(alloc, slots.len())?;
    for slot in slots {
        new.push(renamed_slot(places, slot)?)?;
    }
    Ok(List::new(new))
}

fn renamed_prop(places: &[Option<u32>], prop: &Prop) -> Result<Prop, Memory>
    ensures { IfOk result (λ new. new ≡ map_prop (placed places.now) prop.now) }
{
    Ok(Prop {
        name: prop.name.clone()?,
        slot: renamed_slot(places, &prop.slot)?,
    })
}

fn renamed_props(
    alloc: Global,
    places: &[Option<u32>],
    props: &[Prop],
) -> Result<List<Prop>, Memory>
    ensures { IfOk result (λ new. new ≡ map (map_prop (placed places.now)) props.now) }
{
    let mut new = Vec::with_capacity(alloc, props.len())?;
    for prop in props {
        new.push(renamed_prop(places, prop)?)?;
    }
    Ok(List::new(new))
}

fn renamed_pair(places: &[Option<u32>], pair: &Pair) -> Result<Pair, Memory>
    ensures { IfOk result (λ new. new ≡ map_pair (placed places.now) pair.now) }
{
    Ok(Pair {
        key: renamed_slot(places, &pair.key)?,
        value: renamed_slot(places, &pair.value)?,
    })
}

fn renamed_pairs(
    alloc: Global,
    places: &[Option<u32>],
    pairs: &[Pair],
) -> Result<List<Pair>, Memory>
    ensures { IfOk result (λ new. new ≡ map (map_pair (placed places.now)) pairs.now) }
{
    let mut new = Vec::with_capacity(alloc, pairs.len())?;
    for pair in pairs {
        new.push(renamed_pair(places, pair)?)?;
    }
    Ok(List::new(new))
}

fn renamed_end(places: &[Option<u32>], end: &End) -> Result<End, Memory>
    ensures { IfOk result (λ new. new ≡ map_end (placed places.now) end.now) }
{
    match end {
        End::Going => Ok(End::Going),
        End::Closed(last) => Ok(End::Closed(renamed_slot(places, last)?)),
        End::Broken(digest) => Ok(End::Broken(digest.clone()?)),
    }
}

/// A node with its slots under their nodes' places.
fn renamed_node(alloc: Global, places: &[Option<u32>], node: &Node) -> Result<Node, Memory>
    ensures { IfOk result (λ new. new ≡ map_slots (placed places.now) node.now) }
{
    match node {
        Node::Array(items) => Ok(Node::Array(renamed_slots(alloc, places, items.as_slice())?)),
        Node::Object(props) => Ok(Node::Object(renamed_props(alloc, places, props.as_slice())?)),
        Node::Map(pairs) => Ok(Node::Map(renamed_pairs(alloc, places, pairs.as_slice())?)),
        Node::Set(items) => Ok(Node::Set(renamed_slots(alloc, places, items.as_slice())?)),
        Node::Element { tag, key, props } => Ok(Node::Element {
            tag: renamed_slot(places, tag)?,
            key: renamed_slot(places, key)?,
            props: renamed_slot(places, props)?,
        }),
        Node::Promise(outcome) => Ok(Node::Promise(renamed_slot(places, outcome)?)),
        Node::Stream { flow, items, end } => Ok(Node::Stream {
            flow: *flow,
            items: renamed_slots(alloc, places, items.as_slice())?,
            end: renamed_end(places, end)?,
        }),
        Node::Action { id, bound } => Ok(Node::Action {
            id: id.clone()?,
            bound: renamed_slot(places, bound)?,
        }),
    }
}
