ghost use Rattle.std.specs.Prelude.{◌≡◌, ◌<◌, ◌≤◌, ◌++◌, ◌∷◌, [], length, map, flat_map, reverse, OnOk, IfOk, ℕ, All};
ghost use Rattle.flight_value.specs.Graph.{IsValid, slots_of, end_slots};
ghost use Rattle.flight_graph.specs.Canon.{node_at, visited_of};
ghost use Rattle.flight_graph.specs.Walk.{IsKept, IsUnvisited, NamesBelow, Visits, named_by, named, reached, reached_with, turns_left};

use flight_value::{End, Graph, List, Memory, Node, Pair, Prop, Slot};
use std::alloc::Global;

/// A walk through a graph.
#[derive(Drop)]
pub struct Walk {
    /// For each node its place in `order`, if it was visited.
    pub places: Vec<Option<u32>>,
    /// The visited nodes.
    pub order: Vec<u32>,
    /// The nodes that slots still to visit name, the next one last.
    pub waiting: Vec<u32>,
}

/// Walks through a valid graph from its root.
pub fn visit_all(alloc: Global, graph: &Graph) -> Result<Walk, Memory>
    requires { IsValid graph.now }
    ensures kept { IfOk result (λ w. IsKept (length graph.now.nodes) w) }
    ensures visited { IfOk result (λ w. w.order.items ≡ visited_of graph.now) }
{
    let nodes = graph.nodes.as_slice();
    let mut walk = unvisited(alloc, nodes.len())?;
    push_slot(&mut walk.waiting, &graph.root)?;
    while let Some(node) = walk.waiting.pop() {
        meet(&mut walk, nodes, node)?;
    }
    Ok(walk)
}

/// The nodes that the root of a valid graph leads to, in the order of a first visit: that of the canon.
pub fn visited(alloc: Global, graph: &Graph) -> Result<List<u32>, Memory>
    requires { IsValid graph.now }
    ensures { IfOk result (λ nodes. nodes ≡ visited_of graph.now) }
{
    let walk = visit_all(alloc, graph)?;
    Ok(List::new(walk.order))
}

/// A walk that has visited nothing.
fn unvisited(alloc: Global, count: usize) -> Result<Walk, Memory>
    ensures { IfOk result (λ w. IsUnvisited count w) }
{
    let mut places = Vec::with_capacity(alloc, count)?;
    for _ in 0..count {
        places.push(None)?;
    }
    Ok(Walk {
        places,
        order: Vec::new(alloc),
        waiting: Vec::new(alloc),
    })
}

/// Meets a node, which is visited if it was not before.
fn meet(walk: &mut Walk, nodes: &[Node], node: u32) -> Result<(), Memory>
    requires kept { IsKept (length nodes.now) walk.old }
    requires within { node < length nodes.now }
    requires valid { (n : ℕ) → NamesBelow (length nodes.now) (node_at nodes.now n) }
    ensures kept { OnOk result (IsKept (length nodes.now) walk.new) }
    ensures reached { OnOk result (reached nodes.now walk.new ≡ reached_with nodes.now walk.old node) }
    ensures turns { OnOk result (turns_left nodes.now walk.new ≤ turns_left nodes.now walk.old) }
{
    if walk.places[node as usize].is_none() {
        visit(walk, nodes, node)?;
    }
    Ok(())
}

/// Visits a node: its slots are the next to be visited.
fn visit(walk: &mut Walk, nodes: &[Node], node: u32) -> Result<(), Memory>
    requires within { node < length nodes.now }
    requires long { length walk.old.places.items ≡ length nodes.now }
    ensures { OnOk result (Visits nodes.now node walk.old walk.new) }
{
    let Ok(place) = u32::try_from(walk.order.len()) else {
        return Err(Memory::past_limit());
    };
    walk.order.push(node)?;
    walk.places[node as usize] = Some(place);
    push_node(&mut walk.waiting, &nodes[node as usize])
}

/// Puts the nodes that a node's slots name on top of the waiting ones, the first slot's last.
fn push_node(waiting: &mut Vec<u32>, node: &Node) -> Result<(), Memory>
    ensures { OnOk result (waiting.new.items ≡ waiting.old.items ++ reverse (named (slots_of node.now))) }
{
    let from = waiting.len();
    push_slots_of(waiting, node)?;
    waiting[from..].reverse();
    Ok(())
}

/// Puts the nodes that a node's slots name behind the waiting ones, in order.
fn push_slots_of(waiting: &mut Vec<u32>, node: &Node) -> Result<(), Memory>
    ensures { OnOk result (waiting.new.items ≡ waiting.old.items ++ named (slots_of node.now)) }
{
    match node {
        Node::Array(items) | Node::Set(items) => push_slots(waiting, items.as_slice()),
        Node::Object(props) => push_props(waiting, props.as_slice()),
        Node::Map(pairs) => push_pairs(waiting, pairs.as_slice()),
        Node::Element { tag, key, props } => {
            push_slot(waiting, tag)?;
            push_slot(waiting, key)?;
            push_slot(waiting, props)
        }
        Node::Promise(slot) | Node::Action { bound: slot, .. } => push_slot(waiting, slot),
        Node::Stream { items, end, .. } => {
            push_slots(waiting, items.as_slice())?;
            push_end(waiting, end)
        }
    }
}

fn push_slots(waiting: &mut Vec<u32>, slots: &[Slot]) -> Result<(), Memory>
    ensures { OnOk result (waiting.new.items ≡ waiting.old.items ++ named slots.now) }
{
    for slot in slots {
        push_slot(waiting, slot)?;
    }
    Ok(())
}

fn push_props(waiting: &mut Vec<u32>, props: &[Prop]) -> Result<(), Memory>
    ensures { OnOk result (waiting.new.items ≡ waiting.old.items ++ named (map (λ p. p.slot) props.now)) }
{
    for prop in props {
        push_slot(waiting, &prop.slot)?;
    }
    Ok(())
}

fn push_pairs(waiting: &mut Vec<u32>, pairs: &[Pair]) -> Result<(), Memory>
    ensures { OnOk result (waiting.new.items ≡ waiting.old.items ++ named (flat_map (λ p. p.key ∷ p.value ∷ []) pairs.now)) }
{
    for pair in pairs {
        push_slot(waiting, &pair.key)?;
        push_slot(waiting, &pair.value)?;
    }
    Ok(())
}

fn push_end(waiting: &mut Vec<u32>, end: &End) -> Result<(), Memory>
    ensures { OnOk result (waiting.new.items ≡ waiting.old.items ++ named (end_slots end.now)) }
{
    match end {
        End::Closed(last) => push_slot(waiting, last),
        End::Going | End::Broken(_) => Ok(()),
    }
}

fn push_slot(waiting: &mut Vec<u32>, slot: &Slot) -> Result<(), Memory>
    ensures { OnOk result (waiting.new.items ≡ waiting.old.items ++ named_by slot.now) }
{
    if let Slot::Node(node) = slot {
        waiting.push(*node)?;
    }
    Ok(())
}
