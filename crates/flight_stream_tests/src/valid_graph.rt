//! Whether a graph of the tests is valid.
ghost use Rattle.std.specs.Prelude.{◌≡◌, ◌<◌, ◌^◌, length, IsTrue, All};
ghost use Rattle.std.specs.Ordering.{nat_cmp};
ghost use Rattle.std.specs.Cmp.Lexicographic.{slice_cmp};
ghost use Rattle.std.specs.declared.cmp.Ordering.TheVariants.{Less};
ghost use Rattle.flight_value.specs.Graph.{IsBound, IsValid, IsValidNode, IsValidSlot, end_slots};
ghost use Rattle.flight_value.specs.declared.graph.Node.TheVariants as node;

use flight_value::{Atom, End, Graph, Node, Pair, Prop, Slot, is_date};
use std::cmp::Ordering;

/// Whether a graph is valid. One with an object of more than two properties, or with a map of more than one
/// entry, is refused.
pub fn is_valid(graph: &Graph) -> bool
    ensures { IsTrue result → IsValid graph.now }
{
    let nodes = graph.nodes.as_slice();
    nodes.len() < 1 << 32
        && is_valid_slot(nodes.len(), &graph.root)
        && nodes.iter().all(|node| is_valid_node(nodes, node))
}

fn is_valid_node(nodes: &[Node], node: &Node) -> bool
    ensures { IsTrue result → IsValidNode nodes.now node.now }
{
    match node {
        Node::Array(items) => are_valid(nodes.len(), items.as_slice()),
        Node::Set(items) => are_valid(nodes.len(), items.as_slice()),
        Node::Object(props) => is_valid_object(nodes, props.as_slice()),
        Node::Map(pairs) => is_valid_map(nodes, pairs.as_slice()),
        Node::Element { tag, key, props } => is_valid_element(nodes, tag, key, props),
        Node::Promise(outcome) => is_valid_slot(nodes.len(), outcome),
        Node::Stream { items, end, .. } => {
            are_valid(nodes.len(), items.as_slice()) && is_valid_end(nodes.len(), end)
        }
        Node::Action { bound, .. } => is_bound(nodes, bound),
    }
}

fn is_valid_object(nodes: &[Node], props: &[Prop]) -> bool
    ensures { IsTrue result → IsValidNode nodes.now (node.Object props.now) }
{
    match props {
        [] => true,
        [only] => is_valid_slot(nodes.len(), &only.slot),
        [first, second] => are_two(nodes.len(), first, second),
        _ => false,
    }
}

fn are_two(count: usize, first: &Prop, second: &Prop) -> bool
    ensures { IsTrue result → (slice_cmp nat_cmp first.now.name second.now.name ≡ Less) × IsValidSlot count first.now.slot × IsValidSlot count second.now.slot }
{
    first.name.as_str().cmp(second.name.as_str()) == Ordering::Less
        && is_valid_slot(count, &first.slot)
        && is_valid_slot(count, &second.slot)
}

fn is_valid_map(nodes: &[Node], pairs: &[Pair]) -> bool
    ensures { IsTrue result → IsValidNode nodes.now (node.Map pairs.now) }
{
    match pairs {
        [] => true,
        [only] => is_valid_slot(nodes.len(), &only.key) && is_valid_slot(nodes.len(), &only.value),
        _ => false,
    }
}

fn is_valid_element(nodes: &[Node], tag: &Slot, key: &Slot, props: &Slot) -> bool
    ensures { IsTrue result → IsValidNode nodes.now (node.Element tag.now key.now props.now) }
{
    is_valid_slot(nodes.len(), tag)
        && is_valid_slot(nodes.len(), key)
        && is_valid_slot(nodes.len(), props)
}

fn is_valid_end(count: usize, end: &End) -> bool
    ensures { IsTrue result → All (IsValidSlot count) (end_slots end.now) }
{
    match end {
        End::Closed(last) => is_valid_slot(count, last),
        End::Going | End::Broken(_) => true,
    }
}

fn is_bound(nodes: &[Node], bound: &Slot) -> bool
    ensures { IsTrue result → IsValidSlot (length nodes.now) bound.now × IsBound nodes.now bound.now }
{
    match bound {
        Slot::Atom(atom) => matches!(atom, Atom::Null),
        Slot::Node(n) => matches!(nodes.get(*n as usize), Some(Node::Promise(_))),
    }
}

/// Whether slots are valid, and few.
fn are_valid(count: usize, slots: &[Slot]) -> bool
    ensures { IsTrue result → (length slots.now < 2 ^ 31) × All (IsValidSlot count) slots.now }
{
    slots.len() < 1 << 31 && slots.iter().all(|slot| is_valid_slot(count, slot))
}

fn is_valid_slot(count: usize, slot: &Slot) -> bool
    ensures { IsTrue result → IsValidSlot count slot.now }
{
    match slot {
        Slot::Atom(Atom::Whole(n)) => {
            *n >= -9_007_199_254_740_991 && *n <= 9_007_199_254_740_991
        }
        Slot::Atom(Atom::Date(text)) => is_date(text.as_str()),
        Slot::Atom(_) => true,
        Slot::Node(n) => (*n as usize) < count,
    }
}
