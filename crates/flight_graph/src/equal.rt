ghost use Rattle.std.specs.Prelude.{◌≡◌, ◌↔◌, IsTrue, IfOk};
ghost use Rattle.flight_value.specs.Graph.{IsValid};
ghost use Rattle.flight_graph.specs.Canon.{canon_of};

use crate::rename::canon;
use flight_value::{End, Graph, List, Memory, Node, Pair, Prop, Slot};
use std::alloc::Global;

/// Whether two graphs say the same: their canons are equal.
pub fn alike(alloc: Global, one: &Graph, other: &Graph) -> Result<bool, Memory>
    requires one { IsValid one.now }
    requires other { IsValid other.now }
    ensures { IfOk result (λ b. IsTrue b ↔ (canon_of one.now ≡ canon_of other.now)) }
{
    let one = canon(alloc, one)?;
    let other = canon(alloc, other)?;
    Ok(one.same(&other))
}

/// Values whose sameness can be told.
trait Same {
    /// Whether two values are the same.
    fn same(&self, other: &Self) -> bool
        ensures { IsTrue result ↔ (self.now ≡ other.now) };
}

impl Same for Slot {
    fn same(&self, other: &Slot) -> bool {
        *self == *other
    }
}

impl Same for End {
    fn same(&self, other: &End) -> bool {
        *self == *other
    }
}

impl Same for Prop {
    fn same(&self, other: &Prop) -> bool {
        *self == *other
    }
}

impl Same for Pair {
    fn same(&self, other: &Pair) -> bool {
        self.key.same(&other.key) && self.value.same(&other.value)
    }
}

impl<T: Same> Same for List<T> {
    fn same(&self, other: &List<T>) -> bool {
        let one = self.as_slice();
        let other = other.as_slice();
        if one.len() != other.len() {
            return false;
        }
        for i in 0..one.len() {
            if !one[i].same(&other[i]) {
                return false;
            }
        }
        true
    }
}

impl Same for Node {
    fn same(&self, other: &Node) -> bool {
        match (self, other) {
            (Node::Array(a), Node::Array(b)) => a.same(b),
            (Node::Object(a), Node::Object(b)) => a.same(b),
            (Node::Map(a), Node::Map(b)) => a.same(b),
            (Node::Set(a), Node::Set(b)) => a.same(b),
            (
                Node::Element { tag, key, props },
                Node::Element {
                    tag: other_tag,
                    key: other_key,
                    props: other_props,
                },
            ) => tag.same(other_tag) && key.same(other_key) && props.same(other_props),
            (Node::Promise(a), Node::Promise(b)) => a.same(b),
            (
                Node::Stream { flow, items, end },
                Node::Stream {
                    flow: other_flow,
                    items: other_items,
                    end: other_end,
                },
            ) => *flow == *other_flow && items.same(other_items) && end.same(other_end),
            (
                Node::Action { id, bound },
                Node::Action {
                    id: other_id,
                    bound: other_bound,
                },
            ) => *id == *other_id && bound.same(other_bound),
            _ => false,
        }
    }
}

impl Same for Graph {
    fn same(&self, other: &Graph) -> bool {
        self.root.same(&other.root) && self.nodes.same(&other.nodes)
    }
}
