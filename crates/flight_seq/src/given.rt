ghost use Rattle.std.specs.Prelude.{◌≡◌, ◌∷◌, ◌++◌, [], IfOk, map, flat_map};
ghost use Rattle.flight_value.specs.Graph.{end_slots};
ghost use Rattle.flight_value.specs.Store.{label_of, state_of};
ghost use Rattle.flight_render.specs.Jobs.{shown};
ghost use Rattle.flight_seq.specs.Held.{label_for, state_for, value_held};
ghost use Rattle.flight_seq.specs.Sources.{from_source, source_values};

use crate::copy::copy_slot;
use crate::held::{FlowState, Held, Label, Shape};
use crate::source::tree_from;
use flight_value::{End, List, Memory, Node, Pair, Prop, Slot, Text};
use std::alloc::Global;

/// A node of a source's value before its slots are followed.
pub fn source_shape(alloc: Global, source: u32, node: &Node) -> Result<Shape, Memory>
    ensures label { IfOk result (λ s. label_for s.label ≡ label_of node.now) }
    ensures held { IfOk result (λ s. map value_held s.held ≡ source_values source node.now) }
{
    let label = label_from(alloc, node)?;
    let held = List::new(held_from(alloc, source, node)?);
    Ok(Shape { label, held })
}

fn label_from(alloc: Global, node: &Node) -> Result<Label, Memory>
    ensures { IfOk result (λ l. label_for l ≡ label_of node.now) }
{
    match node {
        Node::Array(_) => Ok(Label::Array),
        Node::Object(props) => Ok(Label::Object(names_of(alloc, props.as_slice())?)),
        Node::Map(_) => Ok(Label::Map),
        Node::Set(_) => Ok(Label::Set),
        Node::Element { .. } => Ok(Label::Element),
        Node::Promise(_) => Ok(Label::Promise),
        Node::Stream { flow, end, .. } => Ok(Label::Stream {
            flow: *flow,
            state: state_from(end)?,
        }),
        Node::Action { id, .. } => Ok(Label::Action(id.clone()?)),
    }
}

fn names_of(alloc: Global, props: &[Prop]) -> Result<List<Text>, Memory>
    ensures { IfOk result (λ names. names ≡ map (λ p. p.name) props.now) }
{
    let mut names = Vec::new(alloc);
    for prop in props {
        names.push(prop.name.clone()?)?;
    }
    Ok(List::new(names))
}

fn state_from(end: &End) -> Result<FlowState, Memory>
    ensures { IfOk result (λ s. state_for s ≡ state_of end.now) }
{
    match end {
        End::Going => Ok(FlowState::Flowing),
        End::Closed(_) => Ok(FlowState::Closed),
        End::Broken(digest) => Ok(FlowState::Broken(digest.clone()?)),
    }
}

fn held_from(alloc: Global, source: u32, node: &Node) -> Result<Vec<Held>, Memory>
    ensures { IfOk result (λ hs. map value_held hs.items ≡ source_values source node.now) }
{
    match node {
        Node::Array(items) => held_slots(alloc, source, items.as_slice()),
        Node::Object(props) => held_props(alloc, source, props.as_slice()),
        Node::Map(pairs) => held_pairs(alloc, source, pairs.as_slice()),
        Node::Set(items) => held_slots(alloc, source, items.as_slice()),
        Node::Element { tag, key, props } => held_element(alloc, source, tag, key, props),
        Node::Promise(slot) => held_one(
            alloc,
            Held::Known {
                slot: copy_slot(slot)?,
            },
        ),
        Node::Stream { items, end, .. } => held_stream(alloc, source, items.as_slice(), end),
        Node::Action { bound, .. } => held_one(alloc, held_slot(source, bound)?),
    }
}

fn held_slot(source: u32, slot: &Slot) -> Result<Held, Memory>
    ensures { IfOk result (λ h. value_held h ≡ shown (from_source source slot.now)) }
{
    Ok(Held::Tree(tree_from(source, slot)?))
}

fn held_one(alloc: Global, held: Held) -> Result<Vec<Held>, Memory>
    ensures { IfOk result (λ hs. hs.items ≡ held ∷ []) }
{
    let mut one = Vec::new(alloc);
    one.push(held)?;
    Ok(one)
}

fn held_slots(alloc: Global, source: u32, slots: &[Slot]) -> Result<Vec<Held>, Memory>
    ensures { IfOk result (λ hs. map value_held hs.items ≡ map (λ slot. shown (from_source source slot)) slots.now) }
{
    let mut held = Vec::new(alloc);
    for slot in slots {
        held.push(held_slot(source, slot)?)?;
    }
    Ok(held)
}

fn held_props(alloc: Global, source: u32, props: &[Prop]) -> Result<Vec<Held>, Memory>
    ensures { IfOk result (λ hs. map value_held hs.items ≡ map (λ slot. shown (from_source source slot)) (map (λ p. p.slot) props.now)) }
{
    let mut held = Vec::new(alloc);
    for prop in props {
        held.push(held_slot(source, &prop.slot)?)?;
    }
    Ok(held)
}

fn held_pairs(alloc: Global, source: u32, pairs: &[Pair]) -> Result<Vec<Held>, Memory>
    ensures { IfOk result (λ hs. map value_held hs.items ≡ map (λ slot. shown (from_source source slot)) (flat_map (λ p. p.key ∷ p.value ∷ []) pairs.now)) }
{
    let mut held = Vec::new(alloc);
    for pair in pairs {
        held.push(held_slot(source, &pair.key)?)?;
        held.push(held_slot(source, &pair.value)?)?;
    }
    Ok(held)
}

fn held_element(
    alloc: Global,
    source: u32,
    tag: &Slot,
    key: &Slot,
    props: &Slot,
) -> Result<Vec<Held>, Memory>
    ensures { IfOk result (λ hs. map value_held hs.items ≡ map (λ slot. shown (from_source source slot)) (tag.now ∷ key.now ∷ props.now ∷ [])) }
{
    let mut held = Vec::new(alloc);
    held.push(held_slot(source, tag)?)?;
    held.push(held_slot(source, key)?)?;
    held.push(held_slot(source, props)?)?;
    Ok(held)
}

fn held_stream(alloc: Global, source: u32, items: &[Slot], end: &End) -> Result<Vec<Held>, Memory>
    ensures { IfOk result (λ hs. map value_held hs.items ≡ map (λ slot. shown (from_source source slot)) (items.now ++ end_slots end.now)) }
{
    let mut held = held_slots(alloc, source, items)?;
    if let End::Closed(last) = end {
        held.push(held_slot(source, last)?)?;
    }
    Ok(held)
}
