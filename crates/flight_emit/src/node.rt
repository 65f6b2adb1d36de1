ghost use Rattle.std.specs.Prelude.{◌≡◌, ◌≤◌, length, slice_get, Some, IfSome, IfNone, option_copied};
ghost use Rattle.flight_value.specs.Graph.{slots_of};
ghost use Rattle.flight_emit.specs.Nodes.{value_in, slots_in, names_in, IsSort, slots_of_source, IsListed, IsListedNode};

use flight_value::{Made, MadeKind, Slot, Text, Tree};

/// A node that is written: one that a body made, or one of a source's value.
#[derive(Clone, Copy)]
pub enum Node<'a> {
    Made(&'a Made),
    Source {
        source: u32,
        node: &'a flight_value::Node,
    },
}

/// A slot of a node.
#[derive(Clone, Copy)]
pub enum Item<'a> {
    Tree(&'a Tree),
    Slot { source: u32, slot: &'a Slot },
}

/// How a node is written.
#[derive(Clone, Copy)]
pub enum Sort {
    Array,
    Object,
    Element,
    Map,
    Set,
    Promise,
    /// A server reference.
    Action,
    /// A server element, which is no node.
    Server,
    /// The node of a stream, which no value of a program holds.
    Stream,
}

impl<'a> Node<'a> {
    /// How it is written.
    pub fn sort(self) -> Sort
        ensures { IsSort self.entry result }
    {
        match self {
            Node::Made(made) => match made.kind {
                MadeKind::Array => Sort::Array,
                MadeKind::Object(_) => Sort::Object,
                MadeKind::Map => Sort::Map,
                MadeKind::Set => Sort::Set,
                MadeKind::Element => Sort::Element,
                MadeKind::Server { .. } => Sort::Server,
                MadeKind::Promise => Sort::Promise,
                MadeKind::Bound { .. } => Sort::Action,
            },
            Node::Source { node, .. } => match node {
                flight_value::Node::Array(_) => Sort::Array,
                flight_value::Node::Object(_) => Sort::Object,
                flight_value::Node::Map(_) => Sort::Map,
                flight_value::Node::Set(_) => Sort::Set,
                flight_value::Node::Element { .. } => Sort::Element,
                flight_value::Node::Promise(_) => Sort::Promise,
                flight_value::Node::Stream { .. } => Sort::Stream,
                flight_value::Node::Action { .. } => Sort::Action,
            },
        }
    }

    /// The slot of an index, of an array, an object, a Set, or of any node that a body made.
    pub fn slot(self, at: usize) -> Option<Item<'a>>
        ensures some { IfSome result (λ item. slice_get (slots_in self.entry) at ≡ Some (value_in item)) }
        ensures none { IsListed self.entry → IfNone result (length (slots_in self.entry) ≤ at) }
    {
        match self {
            Node::Made(made) => match made.slots.as_slice().get(at) {
                Some(tree) => Some(Item::Tree(tree)),
                None => None,
            },
            Node::Source { source, node } => source_slot(source, node, at),
        }
    }

    /// The name of a property.
    pub fn name(self, at: usize) -> Option<&'a Text>
        ensures { option_copied result ≡ slice_get (names_in self.entry) at }
    {
        match self {
            Node::Made(made) => match &made.kind {
                MadeKind::Object(names) => names.as_slice().get(at),
                _ => None,
            },
            Node::Source { node, .. } => match node {
                flight_value::Node::Object(props) => match props.as_slice().get(at) {
                    Some(prop) => Some(&prop.name),
                    None => None,
                },
                _ => None,
            },
        }
    }
}

/// The slot of an index, of an array, an object or a Set.
fn node_slot(node: &flight_value::Node, at: usize) -> Option<&Slot>
    ensures some { IfSome result (λ slot. slice_get (slots_of node.now) at ≡ Some slot.now) }
    ensures none { IsListedNode node.now → IfNone result (length (slots_of node.now) ≤ at) }
{
    match node {
        flight_value::Node::Array(items) => items.as_slice().get(at),
        flight_value::Node::Set(items) => items.as_slice().get(at),
        flight_value::Node::Object(props) => match props.as_slice().get(at) {
            Some(prop) => Some(&prop.slot),
            None => None,
        },
        _ => None,
    }
}

/// The same, with its source.
fn source_slot<'a>(source: u32, node: &'a flight_value::Node, at: usize) -> Option<Item<'a>>
    ensures some { IfSome result (λ item. slice_get (slots_of_source source node.now) at ≡ Some (value_in item)) }
    ensures none { IsListedNode node.now → IfNone result (length (slots_of_source source node.now) ≤ at) }
{
    match node_slot(node, at) {
        Some(slot) => Some(Item::Slot { source, slot }),
        None => None,
    }
}
