ghost use Rattle.std.specs.Prelude.{IfOk};
ghost use Rattle.flight_emit.specs.Nodes.{tree_in, IsTargetOf};

use crate::node::Item;
use crate::take::copy_name;
use flight_value::{Atom, Key, Memory, Slot, Tree};

/// What a value is: an atom, or what stands at a key.
#[derive(Drop)]
pub enum Target<'a> {
    Atom(&'a Atom),
    Key(Key),
}

/// What the value of a slot is.
pub fn target_of<'a>(item: Item<'a>) -> Result<Target<'a>, Memory>
    ensures { IfOk result (IsTargetOf (tree_in item.entry)) }
{
    Ok(match item {
        Item::Tree(tree) => match tree {
            Tree::Atom(atom) => Target::Atom(atom),
            Tree::Made(name) => Target::Key(Key::Made(copy_name(name)?)),
            Tree::FromSource { source, node } => Target::Key(Key::Source {
                source: *source,
                node: *node,
            }),
            Tree::Promise { source } => Target::Key(Key::Settled { source: *source }),
            Tree::Stream { stream } => Target::Key(Key::Stream { stream: *stream }),
            Tree::Action { action } => Target::Key(Key::Action { action: *action }),
        },
        Item::Slot { source, slot } => match slot {
            Slot::Atom(atom) => Target::Atom(atom),
            Slot::Node(node) => Target::Key(Key::Source {
                source,
                node: *node,
            }),
        },
    })
}
