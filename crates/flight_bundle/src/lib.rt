//! Bundles: a program with its script, and perhaps a reply.
//!
//! [`read_bundle`] reads a whole one into the [`Ground`](flight_render::Ground) that is rendered, or finds its
//! first fault. A line that is exactly `%%script` ends the program, and behind it a line that is exactly
//! `%%reply` ends the script (`specs/Lines.antt`, `specs/Parts.antt`); the faults are sought in a fixed order
//! (`specs/Bundle.antt`). What is read is a valid ground ([`read_is_valid`]), so that it can be rendered.
//!
//! Bundles are this project's own format.
#![tactic(auto)]

mod bundle;
mod fault;
mod law;
mod line;
mod part;

pub use bundle::{Bundle, read_bundle};
pub use fault::BundleFault;
pub use law::{one_bundle, read_is_valid};
