//! Sequential rendering: the graph of a program over its data, and what it costs.
//!
//! One walk does both. It has no tasks, no retries and no rows, and so it is the yardstick for a server that
//! renders in parts.
#![tactic(auto)]

mod chain;
mod copy;
mod draw;
mod flow;
mod given;
mod held;
mod known;
mod node;
mod sequential;
mod shape;
mod source;
mod task;
mod total;
mod walk;

pub use sequential::{cost, plain, rendered};
pub use total::{Cost, Rendered};
