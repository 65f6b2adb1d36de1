ghost use Rattle.std.specs.Prelude.{◌≡◌, ◌∷◌, ◌++◌, [], IfOk, map, flat_map};
ghost use Rattle.flight_value.specs.Graph.{slots_of};
ghost use Rattle.flight_value.specs.Store as store;
ghost use Rattle.flight_value.specs.Store.{label_of};
ghost use Rattle.flight_seq.specs.declared.held.Label.TheVariants as label;
ghost use Rattle.flight_seq.specs.Held.{label_for};

use crate::held::{FlowState, Label};
use flight_value::{End, Flow, List, Memory, Node, Pair, Prop, Slot, Text};
use std::alloc::Global;

/// The node of a label with these slots in order. Slots that do not fit the label are want of memory: no
/// rendering makes them.
pub fn node_with(alloc: Global, label: Label, slots: Vec<Slot>) -> Result<Node, Memory>
    ensures label { IfOk result (λ n. label_of n ≡ label_for label) }
    ensures slots { IfOk result (λ n. slots_of n ≡ slots.items) }
{
    match label {
        Label::Array => Ok(Node::Array(List::new(slots))),
        Label::Object(names) => Ok(Node::Object(props(alloc, names, slots)?)),
        Label::Map => Ok(Node::Map(pairs(alloc, slots)?)),
        Label::Set => Ok(Node::Set(List::new(slots))),
        Label::Element => element(slots),
        Label::Promise => Ok(Node::Promise(only(slots)?)),
        Label::Stream { flow, state } => stream(flow, state, slots),
        Label::Action(id) => Ok(Node::Action {
            id,
            bound: only(slots)?,
        }),
    }
}

/// Properties of these names with these slots.
fn props(alloc: Global, names: List<Text>, slots: Vec<Slot>) -> Result<List<Prop>, Memory>
    ensures names { IfOk result (λ ps. map (λ p. p.name) ps ≡ names) }
    ensures slots { IfOk result (λ ps. map (λ p. p.slot) ps ≡ slots.items) }
{
    let mut names = names.into_vec().into_iter();
    let mut props = Vec::new(alloc);
    for slot in slots {
        let Some(name) = names.next() else {
            return Err(Memory::past_limit());
        };
        props.push(Prop { name, slot })?;
    }
    match names.next() {
        None => Ok(List::new(props)),
        Some(_) => Err(Memory::past_limit()),
    }
}

/// Entries of slots that are key, value, key, value and so on.
fn pairs(alloc: Global, slots: Vec<Slot>) -> Result<List<Pair>, Memory>
    ensures { IfOk result (λ ps. flat_map (λ p. p.key ∷ p.value ∷ []) ps ≡ slots.items) }
{
    let mut slots = slots.into_iter();
    let mut pairs = Vec::new(alloc);
    'pairs: for _ in 0..u64::MAX {
        let Some(key) = slots.next() else {
            return Ok(List::new(pairs));
        };
        let Some(value) = slots.next() else {
            return Err(Memory::past_limit());
        };
        pairs.push(Pair { key, value })?;
    }
    Err(Memory::past_limit())
}

/// An element of three slots: tag, key and props.
fn element(slots: Vec<Slot>) -> Result<Node, Memory>
    ensures label { IfOk result (λ n. label_of n ≡ store.element) }
    ensures slots { IfOk result (λ n. slots_of n ≡ slots.items) }
{
    let mut slots = slots;
    let Some(props) = slots.pop() else {
        return Err(Memory::past_limit());
    };
    let Some(key) = slots.pop() else {
        return Err(Memory::past_limit());
    };
    let tag = only(slots)?;
    Ok(Node::Element { tag, key, props })
}

/// A stream, whose final value is the last slot where it is closed.
fn stream(flow: Flow, state: FlowState, slots: Vec<Slot>) -> Result<Node, Memory>
    ensures label { IfOk result (λ n. label_of n ≡ label_for (label.Stream flow state)) }
    ensures slots { IfOk result (λ n. slots_of n ≡ slots.items) }
{
    match state {
        FlowState::Flowing => Ok(Node::Stream {
            flow,
            items: List::new(slots),
            end: End::Going,
        }),
        FlowState::Broken(digest) => Ok(Node::Stream {
            flow,
            items: List::new(slots),
            end: End::Broken(digest),
        }),
        FlowState::Closed => closed(flow, slots),
    }
}

/// A stream whose final value is the last slot.
fn closed(flow: Flow, slots: Vec<Slot>) -> Result<Node, Memory>
    ensures label { IfOk result (λ n. label_of n ≡ store.stream flow store.closed) }
    ensures slots { IfOk result (λ n. slots_of n ≡ slots.items) }
{
    let mut items = slots;
    let Some(last) = items.pop() else {
        return Err(Memory::past_limit());
    };
    Ok(Node::Stream {
        flow,
        items: List::new(items),
        end: End::Closed(last),
    })
}

/// The one slot that there is.
fn only(slots: Vec<Slot>) -> Result<Slot, Memory>
    ensures { IfOk result (λ s. slots.items ≡ s ∷ []) }
{
    let mut slots = slots;
    let Some(slot) = slots.pop() else {
        return Err(Memory::past_limit());
    };
    if slots.is_empty() {
        Ok(slot)
    } else {
        Err(Memory::past_limit())
    }
}
