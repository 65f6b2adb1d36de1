ghost use Rattle.std.specs.Prelude.{ℕ, ◌≡◌, ◌<◌, ◌^◌, ◌∷◌, [], length, map, flat_map, None, All, IfOk, replicate};
ghost use Rattle.flight_value.specs.Graph.{slots_of};
ghost use Rattle.flight_reply_out.specs.Origins.{AreOrigins, is_same};
ghost use Rattle.flight_reply_out.specs.Noted.{Notes};
ghost use Rattle.flight_reply_out.specs.Known.{IsGoodNode, AreGood};

use flight_value::{Memory, Node, Pair, Prop, Slot};
use std::alloc::Global;

/// A slot of a node. Both are numbers.
#[derive(Clone, Copy)]
pub struct Origin {
    pub node: usize,
    pub slot: usize,
}

/// Where each node of a canon is met first: in the last node before it that names it, and there in the first slot that
/// does. The root is met in none.
pub fn origins(alloc: Global, nodes: &[Node]) -> Result<Vec<Option<Origin>>, Memory>
    requires { AreGood nodes.now }
    ensures { IfOk result (λ origins. AreOrigins nodes.now origins.items) }
{
    let mut origins = unmet(alloc, nodes.len())?;
    for n in 0..nodes.len() {
        note_node(&mut origins, n, &nodes[n]);
    }
    Ok(origins)
}

/// No node is met so far.
fn unmet(alloc: Global, count: usize) -> Result<Vec<Option<Origin>>, Memory>
    ensures { IfOk result (λ origins. origins.items ≡ replicate count None) }
{
    let mut origins = Vec::with_capacity(alloc, count)?;
    for _ in 0..count {
        origins.push(None)?;
    }
    Ok(origins)
}

/// Notes the nodes that a node names.
fn note_node(origins: &mut Vec<Option<Origin>>, n: usize, node: &Node)
    requires { (count : ℕ) × IsGoodNode count node.now }
    ensures { Notes n 0 (slots_of node.now) origins.old.items origins.new.items }
{
    match node {
        Node::Array(items) | Node::Set(items) => note_items(origins, n, items.as_slice()),
        Node::Object(props) => note_props(origins, n, props.as_slice()),
        Node::Map(pairs) => note_pairs(origins, n, pairs.as_slice()),
        Node::Promise(slot) | Node::Action { bound: slot, .. } => note(origins, n, 0, slot),
        Node::Element { .. } => unreachable!(),
        Node::Stream { .. } => unreachable!(),
    }
}

/// Notes the nodes that items name, the last first, so that the first slot stays.
fn note_items(origins: &mut Vec<Option<Origin>>, n: usize, items: &[Slot])
    ensures { Notes n 0 items.now origins.old.items origins.new.items }
{
    'items: for i in (0..items.len()).rev() {
        note(origins, n, i, &items[i]);
    }
}

/// Notes the nodes that properties name.
fn note_props(origins: &mut Vec<Option<Origin>>, n: usize, props: &[Prop])
    ensures { Notes n 0 (map (λ p. p.slot) props.now) origins.old.items origins.new.items }
{
    'props: for i in (0..props.len()).rev() {
        note(origins, n, i, &props[i].slot);
    }
}

/// Notes the nodes that entries name.
fn note_pairs(origins: &mut Vec<Option<Origin>>, n: usize, pairs: &[Pair])
    requires { length (flat_map (λ p. p.key ∷ p.value ∷ []) pairs.now) < 2 ^ 32 }
    ensures { Notes n 0 (flat_map (λ p. p.key ∷ p.value ∷ []) pairs.now) origins.old.items origins.new.items }
{
    'pairs: for i in (0..pairs.len()).rev() {
        note(origins, n, 2 * i + 1, &pairs[i].value);
        note(origins, n, 2 * i, &pairs[i].key);
    }
}

/// Notes the node that a slot names, if it stands behind node n.
fn note(origins: &mut Vec<Option<Origin>>, n: usize, i: usize, slot: &Slot)
    ensures { Notes n i (slot.now ∷ []) origins.old.items origins.new.items }
{
    if let Slot::Node(m) = slot {
        let m = *m as usize;
        if n < m && m < origins.len() {
            origins[m] = Some(Origin { node: n, slot: i });
        }
    }
}

/// Whether two origins are one.
pub fn is_same(one: Option<Origin>, other: Option<Origin>) -> bool
    ensures { result ≡ is_same one other }
{
    match (one, other) {
        (None, None) => true,
        (Some(a), Some(b)) => a.node == b.node && a.slot == b.slot,
        (None, Some(_)) => false,
        (Some(_), None) => false,
    }
}
