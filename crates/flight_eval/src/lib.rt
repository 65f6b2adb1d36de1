//! The evaluator of the component language: one body, up to a limit on its cost.
//!
//! What a body comes to is said in `flight_render`: its value, a digest thrown or a wait, the nodes that it
//! makes and its cost. The code here does the work of one body and stops where its cost passes the limit;
//! `specs/Gives.antt` says how an answer of the code stands to the run that it is an answer of.
#![tactic(auto)]

mod body;
mod eval;
mod job;
mod object;
mod operators;
mod parts;
mod place;
mod sorted;
mod start;
mod stop;
mod values;
mod work;

pub use body::{Attempt, Body, Gave};
pub use job::attempt;
