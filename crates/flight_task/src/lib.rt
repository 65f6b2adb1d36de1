//! The tasks of a request, by their numbers: which are ready, and for which sources the others wait.
#![tactic(auto)]

mod queue;
mod task;
mod tasks;

pub use task::Task;
pub use tasks::Tasks;
