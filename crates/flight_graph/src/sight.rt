ghost use Rattle.std.specs.Prelude.{◌≡◌, ◌++◌, ◌∷◌, [], None, Some, MatchOption, flat_map, slice_get};
ghost use Rattle.flight_value.specs.Graph.{IsValid, end_slots, slots_of};
ghost use Rattle.flight_value.specs.Store.{label_of};
ghost use Rattle.flight_graph.specs.Canon.{node_at};
ghost use Rattle.flight_graph.specs.Look.{Shows, IsLabel, kind_of, slot_in};

use crate::label::{Kind, Label};
use flight_value::{End, Graph, Node, Pair, Slot};

/// What stands at the end of a path of slot numbers from the root. There is nothing exactly where a number is past
/// the slots of its node, or an atom is stepped into. A mark is its node's number. It takes no memory.
pub fn look<'a>(graph: &'a Graph, path: &[u32]) -> Option<Label<'a>>
    requires { IsValid graph.now }
    ensures { Shows graph.now path.now result }
{
    let nodes = graph.nodes.as_slice();
    let mut slot = &graph.root;
    for number in path {
        slot = slot_below(nodes, slot, *number)?;
    }
    Some(label_at(nodes, slot))
}

/// The slot of a number in what stands in a slot.
fn slot_below<'a>(nodes: &'a [Node], slot: &Slot, number: u32) -> Option<&'a Slot>
    ensures { MatchOption result (slot_in nodes.now slot.now number ≡ None) (λ s. slot_in nodes.now slot.now number ≡ Some s.now) }
{
    match slot {
        Slot::Atom(_) => None,
        Slot::Node(node) => slot_of(nodes.get(*node as usize)?, number as usize),
    }
}

/// What stands in a slot.
fn label_at<'a>(nodes: &[Node], slot: &'a Slot) -> Label<'a>
    ensures { IsLabel nodes.now slot.now result }
{
    match slot {
        Slot::Atom(atom) => Label::Atom(atom),
        Slot::Node(node) => Label::Node {
            kind: nodes.get(*node as usize).map_or(Kind::Array, kind),
            mark: *node,
        },
    }
}

/// What kind of node it is.
fn kind(node: &Node) -> Kind
    ensures { result ≡ kind_of (label_of node.now) }
{
    match node {
        Node::Array(_) => Kind::Array,
        Node::Object(_) => Kind::Object,
        Node::Map(_) => Kind::Map,
        Node::Set(_) => Kind::Set,
        Node::Element { .. } => Kind::Element,
        Node::Promise(_) => Kind::Promise,
        Node::Stream { .. } => Kind::Stream,
        Node::Action { .. } => Kind::Action,
    }
}

/// The slot of a number in a node.
fn slot_of(node: &Node, number: usize) -> Option<&Slot>
    ensures { MatchOption result (slice_get (slots_of node.now) number ≡ None) (λ s. slice_get (slots_of node.now) number ≡ Some s.now) }
{
    match node {
        Node::Array(items) | Node::Set(items) => items.as_slice().get(number),
        Node::Object(props) => match props.as_slice().get(number) {
            Some(prop) => Some(&prop.slot),
            None => None,
        },
        Node::Map(pairs) => slot_of_pair(pairs.as_slice(), number),
        Node::Element { tag, key, props } => match number {
            0 => Some(tag),
            1 => Some(key),
            2 => Some(props),
            _ => None,
        },
        Node::Promise(slot) | Node::Action { bound: slot, .. } => match number {
            0 => Some(slot),
            _ => None,
        },
        Node::Stream { items, end, .. } => slot_of_stream(items.as_slice(), end, number),
    }
}

/// The slot of a number among entries, each of which has two.
fn slot_of_pair(pairs: &[Pair], number: usize) -> Option<&Slot>
    ensures { MatchOption result (slice_get (flat_map (λ p. p.key ∷ p.value ∷ []) pairs.now) number ≡ None) (λ s. slice_get (flat_map (λ p. p.key ∷ p.value ∷ []) pairs.now) number ≡ Some s.now) }
{
    match pairs.get(number / 2) {
        Some(pair) if number % 2 == 0 => Some(&pair.key),
        Some(pair) => Some(&pair.value),
        None => None,
    }
}

/// The slot of a number among the items of a stream and behind them.
fn slot_of_stream<'a>(items: &'a [Slot], end: &'a End, number: usize) -> Option<&'a Slot>
    ensures { MatchOption result (slice_get (items.now ++ end_slots end.now) number ≡ None) (λ s. slice_get (items.now ++ end_slots end.now) number ≡ Some s.now) }
{
    match (items.get(number), end) {
        (Some(item), _) => Some(item),
        (None, End::Closed(last)) if number == items.len() => Some(last),
        (None, _) => None,
    }
}
