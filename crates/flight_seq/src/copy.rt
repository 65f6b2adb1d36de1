ghost use Rattle.std.specs.Prelude.{◌≡◌, IfOk};

use flight_value::{Memory, Name, Slot, Tree};

/// An equal name.
pub fn copy_name(name: &Name) -> Result<Name, Memory>
    ensures { IfOk result (λ n. n ≡ name.now) }
{
    Ok(Name {
        render: name.render.share()?,
        serial: name.serial,
    })
}

/// An equal tree.
pub fn copy_tree(tree: &Tree) -> Result<Tree, Memory>
    ensures { IfOk result (λ t. t ≡ tree.now) }
{
    match tree {
        Tree::Atom(atom) => Ok(Tree::Atom(atom.copy()?)),
        Tree::Made(name) => Ok(Tree::Made(copy_name(name)?)),
        Tree::FromSource { source, node } => Ok(Tree::FromSource {
            source: *source,
            node: *node,
        }),
        Tree::Promise { source } => Ok(Tree::Promise { source: *source }),
        Tree::Stream { stream } => Ok(Tree::Stream { stream: *stream }),
        Tree::Action { action } => Ok(Tree::Action { action: *action }),
    }
}

/// An equal slot.
pub fn copy_slot(slot: &Slot) -> Result<Slot, Memory>
    ensures { IfOk result (λ s. s ≡ slot.now) }
{
    match slot {
        Slot::Atom(atom) => Ok(Slot::Atom(atom.copy()?)),
        Slot::Node(node) => Ok(Slot::Node(*node)),
    }
}
