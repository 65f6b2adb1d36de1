//! What rows mean: definitions with their laws, and no code that runs.
//!
//! A row is known by its [`Place`]s, numbered, the root 0 ([`PlaceTree`]); a list of [`PlacedRow`]s is all that linking
//! knows of a stream. `specs/Linked.antt` says which rows of an id may follow one another, `specs/Resolve.antt` where a
//! reference leads, by small turns, `specs/Meaning.antt` what the rows mean, as a store of nodes, `specs/Good.antt` when
//! every reference is defined, and `specs/Lasting.antt` what stays when rows follow (React 19.0, ReactFlightClient:
//! `resolveModelChunk`, `getOutlinedModel`, `createLazyChunkWrapper`).
//!
//! The laws are public functions with empty bodies: walks have one end, more rows change nothing that was resolved, and
//! a meaning is one. The reader of payloads (flight_place), the linker (flight_link) and the server's theory stand on
//! these definitions, and on nothing else of one another.
#![tactic(auto)]

mod law;
mod place;

pub use law::{
    one_end, one_meaning, pairs_stay, resolved_stays, rows_follow, steps_go_on, walks_on,
    walks_turn,
};
pub use place::{Named, Place, PlaceTree, PlacedRow};
