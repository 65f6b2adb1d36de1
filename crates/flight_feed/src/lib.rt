//! Rows from bytes that come in pieces of any size.
//!
//! [`Feed`] takes the bytes of a Flight stream as they come and hands out each row as soon as it is whole. Which
//! rows a stream has is a relation between bytes and rows (`flight_row`); where no rows fit, the number of the
//! first faulty row and the kind of its fault are functions of the bytes (`specs/Faults.antt`). Neither hangs on
//! how the stream was cut: [`decode`] says so of whole streams, [`one_reading`] that every stream has exactly one
//! reading, and [`read_back`] that a row which `write_row` wrote is read again, whatever follows it.
//!
//! The payload of a row is copied once. Time and memory are linear in the bytes, however they are cut.
#![tactic(auto)]

mod arrived;
mod begun;
mod fault;
mod feed;
mod head;
mod payload;
mod stream;
mod take;

pub use arrived::Arrived;
pub use fault::{FeedFault, FeedKind};
pub use feed::Feed;
pub use stream::{decode, one_reading, read_back};
