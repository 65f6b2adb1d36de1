//! What one answer of a server writes: the rows of a value, the homes of its nodes, and the tasks that are born (React
//! 19.0, `renderModelDestructive` of ReactFlightServer).
//!
//! **This crate is not whole yet.** What stands is proved: the law that a writer's work, once all its rows are there, is
//! what the step of a finished task asks for, and the writer's parts from single atoms and references up to what one
//! composite adds. Still to come are the walk over a value's composites, the loop over the rows that it leaves, and the
//! public call.
//!
//! In the order of reading:
//!
//! - A value on paper: `Sheet.antt` has values as they are written, with what is meant at each place, before places have
//!   numbers; `Good.antt` says when they spell what is meant, and keep each node at its home; `Whole.antt` has all that an
//!   answer adds. The law [`sheets_emit`] leads from there to `flight_state`'s contract of a writer.
//! - A writer's acts: `Log.antt` says what each new id is taken for, and what acts add one after another; `Wrote.antt`
//!   what writing one value comes to; `Finished.antt` when all rows are written. The law [`acts_emit`] leads from there to
//!   the paper.
//! - The code: `work` has the rows, births and ids so far, `scene` the nodes that bodies made, `node` one node and its
//!   slots, `at` where a value is written, `take` the ids with homes, and `leaf` the values that are an atom or a
//!   reference.
#![tactic(auto)]

mod at;
mod law;
mod leaf;
mod node;
mod scene;
mod take;
mod value;
mod work;

pub use law::{acts_emit, nodes_are_seen, nodes_are_written, sheets_emit, values_are_written};
