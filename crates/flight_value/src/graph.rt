ghost use Rattle.std.specs.Prelude.{◌≡◌, IfOk};

use crate::list::List;
use crate::memory::Memory;
use crate::text::Text;
use crate::wide::Wide;

/// A number that JSON cannot spell (React 19.0, `$NaN`, `$Infinity`, `$-Infinity`, `$-0`).
#[derive(Clone, Copy, Debug, PartialEq, Eq)]
pub enum Constant {
    NotANumber,
    Infinity,
    MinusInfinity,
    MinusZero,
}

/// A value without identity.
#[derive(Clone, Drop, PartialEq, Eq)]
pub enum Atom {
    Null,
    Undefined,
    Bool(bool),
    /// From −(2^53−1) to 2^53−1 in a valid graph.
    Whole(i64),
    Big(Wide),
    Text(Text),
    /// Of the form that `is_date` tests, in a valid graph.
    Date(Text),
    Symbol(Text),
    Constant(Constant),
    /// What a bundler says of a client module, as compact JSON.
    Import(Text),
    /// A failure, with its digest.
    Failed(Text),
    /// Nothing is known yet.
    Pending,
}

impl Atom {
    /// An equal atom.
    pub fn copy(&self) -> Result<Atom, Memory>
        ensures { IfOk result (λ atom. atom ≡ self.now) }
    {
        Ok(self.clone()?)
    }
}

/// What stands in a place of a node: an atom, or a node by its number.
#[derive(Drop, PartialEq, Eq)]
pub enum Slot {
    Atom(Atom),
    Node(u32),
}

/// What a stream was opened as.
#[derive(Clone, Copy, Debug, PartialEq, Eq)]
pub enum Flow {
    Readable,
    Iterable,
    Iterator,
}

/// How a stream ends, as far as it is known.
#[derive(Drop, PartialEq, Eq)]
pub enum End {
    Going,
    /// With its final value.
    Closed(Slot),
    /// With a digest.
    Broken(Text),
}

/// A property of an object.
#[derive(Drop, PartialEq, Eq)]
pub struct Prop {
    pub name: Text,
    pub slot: Slot,
}

/// An entry of a map.
#[derive(Drop)]
pub struct Pair {
    pub key: Slot,
    pub value: Slot,
}

/// A value with identity.
#[derive(Drop)]
pub enum Node {
    Array(List<Slot>),
    /// Properties ascend by the bytes of their names, in a valid graph.
    Object(List<Prop>),
    Map(List<Pair>),
    Set(List<Slot>),
    Element {
        tag: Slot,
        key: Slot,
        props: Slot,
    },
    /// With its outcome.
    Promise(Slot),
    Stream {
        flow: Flow,
        items: List<Slot>,
        end: End,
    },
    /// A server reference, with the promise of its bound arguments, or null.
    Action {
        id: Text,
        bound: Slot,
    },
}

/// A root and the nodes that slots name by number.
#[derive(Drop)]
pub struct Graph {
    pub root: Slot,
    pub nodes: List<Node>,
}
