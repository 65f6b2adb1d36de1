//! What it means to render a program of the component language.
//!
//! This crate has no code of its own: it has the [`Ground`] that a program is rendered over, the [`Job`] of an
//! attempt, the definitions of rendering in `specs/`, and their laws as functions with empty bodies.
//!
//! - One body: `Eval.antt` says what an expression gives, which nodes it makes and what it costs, over the
//!   runs of `Run.antt`, the sources and nodes of `Values.antt` and the operators of `Operators.antt`;
//!   `Body.antt` says it of a component's body and of the root's. All of it computes.
//! - A whole rendering: `Bodies.antt` has the body at each address, `Jobs.antt` what a slot stands for, and
//!   `Plain.antt` the graph as a store of nodes: no walk, no order, no tasks and no rows. `Costs.antt` has
//!   what is reached, what it waits for and what it costs, and `Attempt.antt` what an attempt at a job finds.
//! - `Valid.antt` says which grounds are valid and which nodes are made well; `Laws.antt` has the words of the
//!   laws.
//!
//! The language, its costs and the digests that it throws are this project's own. A server component is
//! rendered as React 19.0's ReactFlightServer renders one: anew from its start whenever a source settles that
//! it waited for, with nothing kept but its props.
#![tactic(auto)]

mod job;
mod law;
mod root;

pub use job::{Job, What};
pub use law::{
    attempts, chains, charges, larger_bodies, larger_rendering, made_well, names_lead_back, totals,
    waits_right,
};
pub use root::{Ground, Root};
