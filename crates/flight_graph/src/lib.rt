//! Canonical graphs: a graph's nodes in the order of a first visit, and the text of that.
//!
//! Nodes of a graph are numbered, and the numbers mean nothing. The canon has the nodes that the root leads
//! to, in the order in which a depth-first walk first visits them, under new numbers (`specs/Canon.antt`).
//! So two graphs say the same, sharing and cycles included, exactly where their canons are equal. They are
//! exactly where some list of pairs of their nodes fits, which follows no walk ([`same_by_pairs`]).
//!
//! [`canon_text`] prints the canon, one line a node (`specs/Text.antt`). The format is this project's own:
//!
//! ```text
//! root #0
//! #0 array [#1,#1]
//! #1 object {"self":#1}
//! ```
//!
//! [`write_atom`], [`write_number`], [`write_string`], [`write_comma`] and [`put`] append the pieces of that text to a
//! [`Writer`], for who prints a graph that it does not hold. A writer tells how many bytes it has, and gives them as a
//! text or as bytes: who leaves gaps in a text fills them in another.
//!
//! Walking and printing take time and memory in proportion to the nodes, the slots and the text; no machine
//! stack grows with the graph.
#![tactic(auto)]

mod equal;
mod escape;
mod gathered;
mod label;
mod law;
mod print;
mod rename;
mod sight;
mod walk;
mod writer;

pub use equal::alike;
pub use escape::{put, write_string};
pub use label::{Kind, Label};
pub use law::{canon_in_order, canon_is_valid, pairs_join, same_by_pairs};
pub use print::{canon_text, write_atom, write_comma, write_number};
pub use rename::canon;
pub use sight::look;
pub use walk::visited;
pub use writer::Writer;
