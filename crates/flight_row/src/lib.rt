//! Rows of a Flight stream: what a row is, how rows are spelled, and the writing of a row.
//!
//! A stream is rows one after another. A row is an id in lower-case hexadecimal, a colon and a rest (React
//! 19.0, ReactFlightClient, `processBinaryChunk`). The first byte of the rest tells what the row is: a text row
//! has a length and so many bytes, every other row ends with a newline. `specs/Rows.antt` says this as a
//! relation between bytes and rows; the table of first bytes is [`read_tag`]. Hint rows are spelled in a stream
//! but are no [`Row`]: readers pass over them.
//!
//! What a payload says is no matter of this crate.
#![tactic(auto)]

mod row;
mod tag;
mod write;

pub use row::{Row, RowKind};
pub use tag::{Tag, read_tag};
pub use write::write_row;
