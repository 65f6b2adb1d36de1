//! Where bytes come from and where they go.
//!
//! Everything that this project reads comes through a [`Source`], and everything that it writes
//! goes through a [`Sink`]. Both are this project's own. Their contracts speak of the bytes that a
//! source has left and that a sink holds, where it tells them, and of a count of faults: a call
//! answers that the outside failed only where that count rose. [`read_all`] and [`write_all`] move
//! whole texts over any of them.
//!
//! [`MemSource`] and [`MemSink`] are a source and a sink over memory. They move a few bytes a call
//! and fail at calls that are given to them, so what a program does when its input or output breaks
//! is shown by them. [`StdSource`] and [`StdSink`] adapt any reader and writer. They tell no bytes:
//! what a real file, pipe or terminal gave or holds is stated nowhere.
#![tactic(auto)]

mod mem_sink;
mod mem_source;
mod outside;
mod reading;
mod schedule;
mod std_sink;
mod std_source;
mod writing;

pub use mem_sink::MemSink;
pub use mem_source::MemSource;
pub use outside::{Failed, Sink, Source, Unwritten};
pub use reading::{ReadAll, read_all};
pub use std_sink::StdSink;
pub use std_source::StdSource;
pub use writing::write_all;
