//! The payloads of Flight's rows as numbered places.
//!
//! A payload is JSON, and a walk over it visits a value before its items, items in order and properties by
//! their bytes. Each value that is visited gets the next number, from 0, and is a [`Place`]: an atom, a
//! composite that names the places in it, or a reference to another row. [`places`] gives the places of a row, or
//! the first fault that the walk meets (React 19.0, `parseModel` and `parseModelString` of ReactFlightClient,
//! read strictly); [`places_with`] does so in memory that is kept from row to row. `specs/Places.antt` has what is
//! visited at each number, and which places stand for that.
//!
//! JSON is read as serde_json reads it, but with no tree of the whole payload: items of an array are placed as they
//! come, and an object or an element is read first, its texts borrowed, since its members may stand in any order.
//!
//! Where a reference leads is no matter of this crate: that is flight_meaning.
#![tactic(auto)]

mod fault;
mod gathered;
mod law;
mod manner;
mod number;
mod parsed;
mod placing;
mod reading;
mod scratch;
mod token;
mod tree;
mod walk;

pub use fault::{PlaceFault, PlaceKind};
pub use law::{names_ascend, numbers_lead_to_places, one_tree};
pub use manner::Manner;
pub use scratch::Scratch;
pub use tree::{places, places_with};
