use crate::graph::Atom;
use crate::list::List;
use crate::name::Name;
use crate::shared::Shared;
use crate::text::Text;

/// What kind of node a body made.
#[derive(Drop)]
pub enum MadeKind {
    Array,
    /// With the names of its properties, which ascend by bytes; one slot each.
    Object(List<Text>),
    /// Its slots are key, value, key, value and so on.
    Map,
    Set,
    /// Its slots are tag, key and props.
    Element,
    /// A server element, by the position of its component's declaration. Its slots are key and props.
    Server { component: u32 },
    /// Its slot is its array.
    Promise,
    /// A server reference with bound arguments. Its slot is their promise.
    Bound { action: u32 },
}

/// A value of rendering. No tree holds a tree: a node stands in the list of those that its body made.
#[derive(Drop)]
pub enum Tree {
    Atom(Atom),
    Made(Name),
    FromSource { source: u32, node: u32 },
    Promise { source: u32 },
    Stream { stream: u32 },
    Action { action: u32 },
}

/// A node that a body made.
#[derive(Drop)]
pub struct Made {
    pub kind: MadeKind,
    pub slots: List<Tree>,
}

/// The tables of an address: list k has the nodes that the body at the address's first k items made, in
/// the order of their serials. There is one list for each proper prefix.
#[derive(Drop)]
pub struct Tables {
    pub made: List<Shared<List<Made>>>,
}
