//! The values that every part of Flight speaks of: graphs of nodes with identity, and the names that
//! rendering gives to the nodes that it makes.
//!
//! All types are plain data. Contracts see a [`Text`] as its bytes, a [`List`] as its items and a
//! [`Shared`] as the value behind it, so that `≡` in a clause compares what a user would compare.
//! `specs/` has what is said of such values everywhere: the slots of a node and when a graph is valid
//! (`specs/Graph.antt`), the form of a date (`specs/Date.antt`), stores of nodes, with what it means that two
//! stores draw one graph (`specs/Store.antt`), and what stands in a list, and once (`specs/Listed.antt`).
//!
//! No function here builds or checks a graph: validity is a definition that the makers of graphs prove.
#![tactic(auto)]

mod date;
mod graph;
mod inline;
mod key;
mod list;
mod made;
mod memory;
mod name;
mod shared;
mod text;
mod wide;

pub use date::is_date;
pub use graph::{Atom, Constant, End, Flow, Graph, Node, Pair, Prop, Slot};
pub use key::Key;
pub use list::List;
pub use made::{Made, MadeKind, Tables, Tree};
pub use memory::Memory;
pub use name::Name;
pub use shared::Shared;
pub use text::Text;
pub use wide::Wide;
