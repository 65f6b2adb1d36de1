ghost use Rattle.std.specs.Prelude.{◌≡◌, ◌++◌, ◌<◌, ◌^◌, length, OnOk, flat_map, ◌∷◌, [], codes, Some};
ghost use Rattle.flight_value.specs.declared.graph.Atom.TheVariants as atom;
ghost use Rattle.flight_value.specs.declared.graph.Slot.TheVariants as slot;
ghost use Rattle.flight_meaning.specs.declared.place.Place.TheVariants as place;
ghost use Rattle.flight_payload.specs.Tree.{single, array, object, no_props, prop_and, trees_of, props_of};
ghost use Rattle.flight_payload.specs.Written.{tokens_of};
ghost use Rattle.flight_reply_out.specs.Origins.{slot_of};
ghost use Rattle.flight_reply_out.specs.Fields.{reference, stands_here, slot_tree, tree_in_place, value_tree, item_tree, prop_tree, entry_tree, pair_tree, action_tree, numbered};
ghost use Rattle.flight_reply_out.specs.Known.{IsGoodSlot, AreGoodSlots, AreGoodProps, AreGoodPairs, IsGoodNode};
ghost use Rattle.flight_reply_out.specs.Drawn.{IsDrawn};

use crate::home::{Home, root_of};
use crate::origin::{Origin, is_same};
use flight_payload::PayloadWriter;
use flight_value::{Memory, Node, Pair, Prop, Slot};
use std::alloc::Global;

/// A canon, with where each of its nodes is met first and where it stands.
#[derive(Clone, Copy)]
pub struct Drawn<'a> {
    pub nodes: &'a [Node],
    pub origins: &'a [Option<Origin>],
    pub homes: &'a [Home],
}

/// Writes a slot: an atom, a node in place, in which no more than so many stand in one another, or a reference.
#[cycle(writing)]
pub fn write_slot(
    alloc: Global,
    out: &mut PayloadWriter,
    drawn: Drawn<'_>,
    levels: u32,
    here: Option<Origin>,
    slot: &Slot,
) -> Result<(), Memory>
    requires drawn { IsDrawn drawn }
    requires good { IsGoodSlot (length drawn.nodes.now) slot.now }
    ensures { OnOk result (out.new ≡ out.old ++ tokens_of (slot_tree levels drawn.entry.nodes.now drawn.entry.homes.now here slot.now)) }
{
    match slot {
        Slot::Atom(atom) => out.atom(atom),
        Slot::Node(m) => write_node(alloc, out, drawn, levels, here, *m as usize),
    }
}

/// Writes a node in place, or a reference to it.
#[cycle(writing)]
fn write_node(
    alloc: Global,
    out: &mut PayloadWriter,
    drawn: Drawn<'_>,
    levels: u32,
    here: Option<Origin>,
    m: usize,
) -> Result<(), Memory>
    requires drawn { IsDrawn drawn }
    requires within { m < length drawn.nodes.now }
    ensures { OnOk result (out.new ≡ out.old ++ tokens_of (slot_tree levels drawn.entry.nodes.now drawn.entry.homes.now here (slot.Node m))) }
{
    let node = &drawn.nodes[m];
    let home = &drawn.homes[m];
    if levels > 0 && stands_here(drawn, here, m) {
        return write_in_place(alloc, out, drawn, levels - 1, m, home, node);
    }
    write_reference(out, home, node)
}

/// Writes a node in place.
#[cycle(writing)]
pub fn write_in_place(
    alloc: Global,
    out: &mut PayloadWriter,
    drawn: Drawn<'_>,
    levels: u32,
    m: usize,
    home: &Home,
    node: &Node,
) -> Result<(), Memory>
    requires drawn { IsDrawn drawn }
    requires good { IsGoodNode (length drawn.nodes.now) node.now }
    ensures { OnOk result (out.new ≡ out.old ++ tokens_of (tree_in_place (slot_tree levels drawn.entry.nodes.now drawn.entry.homes.now) m home.now node.now)) }
{
    match node {
        Node::Map(_) => out.map(&root_of(alloc, home.content)),
        Node::Set(_) => out.set(&root_of(alloc, home.content)),
        _ => write_value(alloc, out, drawn, levels, m, node),
    }
}

/// Writes what is in a node.
#[cycle(writing)]
pub fn write_value(
    alloc: Global,
    out: &mut PayloadWriter,
    drawn: Drawn<'_>,
    levels: u32,
    n: usize,
    node: &Node,
) -> Result<(), Memory>
    requires drawn { IsDrawn drawn }
    requires good { IsGoodNode (length drawn.nodes.now) node.now }
    ensures { OnOk result (out.new ≡ out.old ++ tokens_of (value_tree (slot_tree levels drawn.entry.nodes.now drawn.entry.homes.now) n node.now)) }
{
    match node {
        Node::Array(items) | Node::Set(items) => {
            write_items(alloc, out, drawn, levels, n, items.as_slice())
        }
        Node::Object(props) => write_props(alloc, out, drawn, levels, n, props.as_slice()),
        Node::Map(pairs) => write_pairs(alloc, out, drawn, levels, n, pairs.as_slice()),
        Node::Promise(outcome) => {
            let here = Some(Origin { node: n, slot: 0 });
            write_slot(alloc, out, drawn, levels, here, outcome)
        }
        Node::Action { id, bound } => {
            write_action(alloc, out, drawn, levels, n, id.as_str(), bound)
        }
        Node::Element { .. } => unreachable!(),
        Node::Stream { .. } => unreachable!(),
    }
}

/// Writes items, as an array.
#[cycle(writing)]
fn write_items(
    alloc: Global,
    out: &mut PayloadWriter,
    drawn: Drawn<'_>,
    levels: u32,
    n: usize,
    items: &[Slot],
) -> Result<(), Memory>
    requires drawn { IsDrawn drawn }
    requires good { AreGoodSlots (length drawn.nodes.now) items.now }
    ensures { OnOk result (out.new ≡ out.old ++ tokens_of (array (trees_of (numbered (item_tree (slot_tree levels drawn.entry.nodes.now drawn.entry.homes.now) n) 0 items.now)))) }
{
    out.begin_array()?;
    'items: for (i, item) in items.iter().enumerate() {
        write_slot(
            alloc,
            out,
            drawn,
            levels,
            Some(Origin { node: n, slot: i }),
            item,
        )?;
    }
    out.end_array()
}

/// Writes properties, as an object.
#[cycle(writing)]
fn write_props(
    alloc: Global,
    out: &mut PayloadWriter,
    drawn: Drawn<'_>,
    levels: u32,
    n: usize,
    props: &[Prop],
) -> Result<(), Memory>
    requires drawn { IsDrawn drawn }
    requires good { AreGoodProps (length drawn.nodes.now) props.now }
    ensures { OnOk result (out.new ≡ out.old ++ tokens_of (object (props_of (numbered (prop_tree (slot_tree levels drawn.entry.nodes.now drawn.entry.homes.now) n) 0 props.now)))) }
{
    out.begin_object()?;
    'props: for (i, prop) in props.iter().enumerate() {
        out.name(prop.name.as_str())?;
        write_slot(
            alloc,
            out,
            drawn,
            levels,
            Some(Origin { node: n, slot: i }),
            &prop.slot,
        )?;
    }
    out.end_object()
}

/// Writes the entries of a Map, as an array.
#[cycle(writing)]
fn write_pairs(
    alloc: Global,
    out: &mut PayloadWriter,
    drawn: Drawn<'_>,
    levels: u32,
    n: usize,
    pairs: &[Pair],
) -> Result<(), Memory>
    requires drawn { IsDrawn drawn }
    requires few { length (flat_map (λ p. p.key ∷ p.value ∷ []) pairs.now) < 2 ^ 32 }
    requires good { AreGoodPairs (length drawn.nodes.now) pairs.now }
    ensures { OnOk result (out.new ≡ out.old ++ tokens_of (array (trees_of (numbered (pair_tree (slot_tree levels drawn.entry.nodes.now drawn.entry.homes.now) n) 0 pairs.now)))) }
{
    out.begin_array()?;
    'pairs: for (i, pair) in pairs.iter().enumerate() {
        write_pair(alloc, out, drawn, levels, n, 2 * i, pair)?;
    }
    out.end_array()
}

/// Writes an entry, as an array of two, whose key stands in slot i.
#[cycle(writing)]
fn write_pair(
    alloc: Global,
    out: &mut PayloadWriter,
    drawn: Drawn<'_>,
    levels: u32,
    n: usize,
    i: usize,
    pair: &Pair,
) -> Result<(), Memory>
    requires drawn { IsDrawn drawn }
    requires few { i < 2 ^ 32 }
    requires good { IsGoodSlot (length drawn.nodes.now) pair.now.key × IsGoodSlot (length drawn.nodes.now) pair.now.value }
    ensures { OnOk result (out.new ≡ out.old ++ tokens_of (entry_tree (slot_tree levels drawn.entry.nodes.now drawn.entry.homes.now) n i pair.now)) }
{
    out.begin_array()?;
    write_slot(
        alloc,
        out,
        drawn,
        levels,
        Some(Origin { node: n, slot: i }),
        &pair.key,
    )?;
    write_slot(
        alloc,
        out,
        drawn,
        levels,
        Some(Origin {
            node: n,
            slot: i + 1,
        }),
        &pair.value,
    )?;
    out.end_array()
}

/// Writes a server reference, as an object.
#[cycle(writing)]
fn write_action(
    alloc: Global,
    out: &mut PayloadWriter,
    drawn: Drawn<'_>,
    levels: u32,
    n: usize,
    id: &str,
    bound: &Slot,
) -> Result<(), Memory>
    requires drawn { IsDrawn drawn }
    requires good { IsGoodSlot (length drawn.nodes.now) bound.now }
    ensures { OnOk result (out.new ≡ out.old ++ tokens_of (action_tree (slot_tree levels drawn.entry.nodes.now drawn.entry.homes.now) n id.now bound.now)) }
{
    out.begin_object()?;
    out.name("bound")?;
    write_slot(
        alloc,
        out,
        drawn,
        levels,
        Some(Origin { node: n, slot: 0 }),
        bound,
    )?;
    out.name("id")?;
    out.text(id)?;
    out.end_object()
}

/// Whether a node is met first here, and stands in place.
fn stands_here(drawn: Drawn<'_>, here: Option<Origin>, m: usize) -> bool
    requires drawn { IsDrawn drawn }
    requires within { m < length drawn.nodes.now }
    ensures { result ≡ stands_here drawn.entry.nodes.now drawn.entry.homes.now here m }
{
    is_same(drawn.origins[m], here) && !drawn.homes[m].apart
}

/// Writes a reference to a node.
fn write_reference(out: &mut PayloadWriter, home: &Home, node: &Node) -> Result<(), Memory>
    ensures { OnOk result (out.new ≡ out.old ++ tokens_of (single (reference home.now node.now))) }
{
    match node {
        Node::Promise(_) => out.promise(home.content),
        Node::Action { .. } => out.action(home.content),
        _ => out.value(&home.place),
    }
}
