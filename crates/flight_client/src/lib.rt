//! A client of Flight: bytes of a stream come in pieces of any size, and become a graph with identity.
//!
//! [`Client`] reads, places and links each row as soon as it is whole, and shows at any time what has come
//! (React 19.0, `processBinaryChunk` and `resolveModelChunk` of ReactFlightClient). Which rows a stream has, which
//! fault is its first, and when it is good are said of the bytes as a whole (`specs/Rows.antt`, `specs/Faults.antt`);
//! where a client stands in a text hangs on the text alone (`HasTaken` of `specs/Held.antt`), not on the pieces.
//! [`decode_stream`] says so of whole streams, and [`one_reading`] that each text has one reading.
//!
//! A row's bytes are dropped as soon as its places are made. Time and memory are linear in the bytes, however they are
//! cut.
#![tactic(auto)]

mod client;
mod decode;
mod ended;
mod fault;
mod law;
mod piece;
mod rows;

pub use client::Client;
pub use decode::decode_stream;
pub use fault::ClientFault;
pub use law::{
    labels_stay, looks_stay, marks_tell_nodes, no_place_stays, one_reading, partial_as_seen,
};
