//! Rows linked into a graph with identity: references are followed, whatever the order of the rows.
//!
//! [`Links`] takes the rows of a stream or of a reply with their places, one after another, and refuses a row that
//! may not follow those of its id. Contracts see it as the list of the rows that came. What a reference leads to, and
//! what the rows mean as a whole, is said in `flight_meaning` (`Resolve.antt`, `Meaning.antt`, `Good.antt`); this crate's
//! `specs/` say what each call answers in these terms (React 19.0, `getOutlinedModel`, `resolveModelChunk` of
//! ReactFlightClient).
//!
//! Rows that open or close a stream are not linked yet: they are refused.
#![tactic(auto)]

mod add;
mod advance;
mod backlog;
mod below;
mod cell;
mod draft;
mod draw;
mod fault;
mod filled;
mod find;
mod found;
mod fresh;
mod gap;
mod ids;
mod key;
mod laid;
mod law;
mod links;
mod look;
mod mention;
mod named;
mod node;
mod numbers;
mod order;
mod origins;
mod room;
mod settle;
mod step;
mod table;
mod target;
mod text;
mod undefined;
mod unproved;

pub use fault::{LinkFault, LinkKind};
pub use found::{Found, Seen, Spot};
pub use law::one_canon;
pub use links::Links;
