ghost use Rattle.std.specs.Prelude.{◌≡◌, IfOk, slice_get, option_and_then, length};
ghost use Rattle.std.specs.Option.{option_copied};
ghost use Rattle.flight_render.specs.Values.{outcomes, node_in, source_end};
ghost use Rattle.flight_render.specs.Jobs.{argument_in};
ghost use Rattle.flight_seq.specs.Held.{end_for};
ghost use Rattle.flight_seq.specs.Sources.{from_source, IsArrived};

use crate::held::End;
use flight_render::{Ground, Root};
use flight_syntax::{Outcome, Seen};
use flight_value::{Atom, Memory, Node, Slot, Text, Tree};

/// What a source comes to.
#[derive(Clone, Copy)]
pub enum Arrived<'a> {
    /// The slot that is its value's root.
    Value(&'a Slot),
    /// A digest.
    Rejected(&'a Text),
    /// It is not settled.
    Waits,
}

/// What a source comes to with these sources settled.
pub fn come<'a>(ground: &'a Ground, seen: &Seen, source: u32) -> Arrived<'a>
    requires { length seen.now.settled ≡ length ground.now.script.sources }
    ensures { IsArrived ground.now seen.now.settled source result }
{
    let Some(data) = ground.script.sources.as_slice().get(source as usize) else {
        return Arrived::Waits;
    };
    match seen.settled.as_slice().get(source as usize) {
        Some(true) => match &data.outcome {
            Outcome::Value(graph) => Arrived::Value(&graph.root),
            Outcome::Reject(digest) => Arrived::Rejected(digest),
        },
        Some(false) | None => Arrived::Waits,
    }
}

/// How the job of a source ends.
pub fn outcome(ground: &Ground, seen: &Seen, source: u32) -> Result<End, Memory>
    requires { length seen.now.settled ≡ length ground.now.script.sources }
    ensures { IfOk result (λ e. end_for e ≡ source_end ground.now seen.now.settled source) }
{
    match come(ground, seen, source) {
        Arrived::Value(root) => Ok(End::Gave(tree_from(source, root)?)),
        Arrived::Rejected(digest) => Ok(End::Threw(digest.clone()?)),
        Arrived::Waits => Ok(End::Waits { source }),
    }
}

/// A slot of a source's value.
pub fn tree_from(source: u32, slot: &Slot) -> Result<Tree, Memory>
    ensures { IfOk result (λ t. t ≡ from_source source slot.now) }
{
    match slot {
        Slot::Atom(atom) => Ok(Tree::Atom(atom.copy()?)),
        Slot::Node(node) => Ok(Tree::FromSource {
            source,
            node: *node,
        }),
    }
}

/// A slot of the arguments, which stand as one more source.
pub fn argument(ground: &Ground, slot: &Slot) -> Result<Tree, Memory>
    ensures { IfOk result (λ t. t ≡ argument_in ground.now slot.now) }
{
    match &ground.root {
        Root::App => Ok(Tree::Atom(Atom::Undefined)),
        Root::Call { .. } => match u32::try_from(ground.script.sources.as_slice().len()) {
            Ok(source) => tree_from(source, slot),
            Err(_) => Err(Memory::past_limit()),
        },
    }
}

/// A node of a source's value, or of the arguments.
pub fn source_node(ground: &Ground, source: u32, node: u32) -> Option<&Node>
    ensures { option_copied result ≡ option_and_then (λ o. node_in o node) (slice_get (outcomes ground.now) source) }
{
    let sources = ground.script.sources.as_slice();
    match sources.get(source as usize) {
        Some(data) => match &data.outcome {
            Outcome::Value(graph) => graph.nodes.as_slice().get(node as usize),
            Outcome::Reject(_) => None,
        },
        None if source as usize == sources.len() => match &ground.root {
            Root::Call { args, .. } => args.nodes.as_slice().get(node as usize),
            Root::App => None,
        },
        None => None,
    }
}
