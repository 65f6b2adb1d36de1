//! The payloads of Flight's rows, as a server writes them.
//!
//! [`PayloadWriter`] writes a value in one pass: atoms and references, and arrays, objects and elements around them, as
//! deep as they nest. The rows of texts, failures, client modules and streams are made by functions of their own. Each
//! row can be given to `flight_row::write_row`, and the reader of `flight_place` finds in it the places of what was
//! written: `specs/Tree.antt` says what a value is and how its places are numbered, `specs/Written.antt` which tokens
//! of JSON it is written as.
//!
//! Which value stands in which row is no matter of this crate.
#![tactic(auto)]

mod json_text;
mod law;
mod module;
mod row;
mod spelling;
mod writer;

pub use law::{lists_are_written, values_stand};
pub use module::module_text;
pub use row::{action_row, close_row, error_row, import_row, open_row, text_row};
pub use writer::PayloadWriter;
