ghost use Rattle.std.specs.Prelude.{◌≡◌, ◌&&◌};
ghost use Rattle.std.specs.List.{list_all};
ghost use Rattle.flight_reply_out.specs.Sent.{is_sent_atom, is_sent_slot, is_sent_node, first_unsent};

use flight_value::{Atom, Node, Pair, Prop, Slot};

/// The least of the nodes that can't be sent.
pub fn first_unsent(nodes: &[Node]) -> Option<usize>
    ensures { result ≡ first_unsent nodes.now }
{
    nodes.iter().position(|node| !is_sent_node(node))
}

/// Whether a node can be sent.
fn is_sent_node(node: &Node) -> bool
    ensures { result ≡ is_sent_node node.now }
{
    match node {
        Node::Array(items) | Node::Set(items) => are_sent_slots(items.as_slice()),
        Node::Object(props) => are_sent_props(props.as_slice()),
        Node::Map(pairs) => are_sent_pairs(pairs.as_slice()),
        Node::Promise(slot) | Node::Action { bound: slot, .. } => is_sent_slot(slot),
        Node::Element { .. } | Node::Stream { .. } => false,
    }
}

fn are_sent_slots(slots: &[Slot]) -> bool
    ensures { result ≡ list_all is_sent_slot slots.now }
{
    slots.iter().all(|slot| is_sent_slot(slot))
}

fn are_sent_props(props: &[Prop]) -> bool
    ensures { result ≡ list_all (λ p. is_sent_slot p.slot) props.now }
{
    props.iter().all(|prop| is_sent_slot(&prop.slot))
}

fn are_sent_pairs(pairs: &[Pair]) -> bool
    ensures { result ≡ list_all (λ p. is_sent_slot p.key && is_sent_slot p.value) pairs.now }
{
    pairs.iter().all(|pair| is_sent_slot(&pair.key) && is_sent_slot(&pair.value))
}

/// Whether what stands in a slot can be sent in it.
pub fn is_sent_slot(slot: &Slot) -> bool
    ensures { result ≡ is_sent_slot slot.now }
{
    match slot {
        Slot::Atom(atom) => is_sent_atom(atom),
        Slot::Node(_) => true,
    }
}

fn is_sent_atom(atom: &Atom) -> bool
    ensures { result ≡ is_sent_atom atom.now }
{
    !matches!(
        atom,
        Atom::Symbol(_) | Atom::Import(_) | Atom::Failed(_) | Atom::Pending
    )
}
