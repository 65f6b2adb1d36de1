ghost use Rattle.std.specs.Prelude.{◌≡◌, ◌∷◌, [], IfOk, map, length, Some, ℕ, slice_get};
ghost use Rattle.std.specs.Option.{option_copied};
ghost use Rattle.flight_render.specs.Plain.{NodeIs, label_of_kind, made_shape, action_name};
ghost use Rattle.flight_render.specs.Jobs.{shown};
ghost use Rattle.flight_seq.specs.Held.{label_for, shape_for, value_held};
ghost use Rattle.flight_seq.specs.Walk.{IsWalk};

use crate::copy::copy_tree;
use crate::flow::flow_of;
use crate::given::source_shape;
use crate::held::{Held, Label, Shape};
use crate::source::source_node;
use crate::walk::Walk;
use flight_render::Ground;
use flight_syntax::{Declared, Flowing, Seen};
use flight_value::{Atom, Key, List, Made, MadeKind, Memory, Text, Tree};
use std::alloc::Global;

impl Walk {
    /// What stands at a key, before its slots are followed. No key is met at which nothing stands.
    pub fn shape(
        &self,
        alloc: Global,
        ground: &Ground,
        seen: &Seen,
        key: &Key,
    ) -> Result<Shape, Memory>
        requires seen { length seen.now.settled ≡ length ground.now.script.sources }
        ensures { IfOk result (λ s. (fuel : ℕ) → IsWalk ground.now seen.now.settled fuel self.now → NodeIs ground.now seen.now.settled key.now (shape_for s)) }
    {
        match key {
            Key::Made(name) => match self.made(name) {
                Some(made) => shape_of_made(alloc, ground, made),
                None => Err(Memory::past_limit()),
            },
            Key::Source { source, node } => match source_node(ground, *source, *node) {
                Some(found) => source_shape(alloc, *source, found),
                None => Err(Memory::past_limit()),
            },
            Key::Settled { source } => shape_with(
                alloc,
                Label::Promise,
                Held::Outcome { source: *source },
            ),
            Key::Stream { stream } => match stream_at(ground, *stream) {
                Some(flowing) => flow_of(alloc, ground, seen, flowing),
                None => Err(Memory::past_limit()),
            },
            Key::Action { action } => shape_with(
                alloc,
                Label::Action(name_of_action(alloc, ground, *action)?),
                Held::Tree(Tree::Atom(Atom::Null)),
            ),
            Key::Client { .. } | Key::Symbol(_) | Key::Server(_) => Err(Memory::past_limit()),
        }
    }
}

/// A stream of the script.
fn stream_at(ground: &Ground, stream: u32) -> Option<&Flowing>
    ensures { option_copied result ≡ slice_get ground.now.script.streams stream }
{
    ground.script.streams.as_slice().get(stream as usize)
}

/// A node of one slot.
fn shape_with(alloc: Global, label: Label, slot: Held) -> Result<Shape, Memory>
    ensures { IfOk result (λ s. s ≡ record { label = label; held = slot ∷ [] }) }
{
    let mut held = Vec::new(alloc);
    held.push(slot)?;
    Ok(Shape {
        label,
        held: List::new(held),
    })
}

/// What a server reference is called.
fn name_of_action(alloc: Global, ground: &Ground, action: u32) -> Result<Text, Memory>
    ensures { IfOk result (λ name. name ≡ action_name ground.now action) }
{
    match ground.program.declared.as_slice().get(action as usize) {
        Some(Declared::Action { name, .. }) => Ok(name.clone()?),
        _ => Text::new(alloc, ""),
    }
}

/// A node that a body made. A server element is none.
fn shape_of_made(alloc: Global, ground: &Ground, made: &Made) -> Result<Shape, Memory>
    ensures { IfOk result (λ s. made_shape ground.now made.now ≡ Some (shape_for s)) }
{
    let label = label_made(alloc, ground, &made.kind)?;
    let held = held_made(alloc, made.slots.as_slice())?;
    Ok(Shape { label, held })
}

fn label_made(alloc: Global, ground: &Ground, kind: &MadeKind) -> Result<Label, Memory>
    ensures { IfOk result (λ l. label_of_kind ground.now kind.now ≡ Some (label_for l)) }
{
    match kind {
        MadeKind::Array => Ok(Label::Array),
        MadeKind::Object(names) => Ok(Label::Object(copy_names(alloc, names.as_slice())?)),
        MadeKind::Map => Ok(Label::Map),
        MadeKind::Set => Ok(Label::Set),
        MadeKind::Element => Ok(Label::Element),
        MadeKind::Server { .. } => Err(Memory::past_limit()),
        MadeKind::Promise => Ok(Label::Promise),
        MadeKind::Bound { action } => { Ok(Label::Action(name_of_action(alloc, ground, *action)?)) }
    }
}

fn copy_names(alloc: Global, names: &[Text]) -> Result<List<Text>, Memory>
    ensures { IfOk result (λ copies. copies ≡ names.now) }
{
    let mut copies = Vec::new(alloc);
    for name in names {
        copies.push(name.clone()?)?;
    }
    Ok(List::new(copies))
}

fn held_made(alloc: Global, slots: &[Tree]) -> Result<List<Held>, Memory>
    ensures { IfOk result (λ hs. map value_held hs ≡ map shown slots.now) }
{
    let mut held = Vec::new(alloc);
    for slot in slots {
        held.push(Held::Tree(copy_tree(slot)?))?;
    }
    Ok(List::new(held))
}
