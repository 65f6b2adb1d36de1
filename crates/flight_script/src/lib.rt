//! The scripts of renderings: what each source of data will hold, and who settles it.
//!
//! A script is JSON. [`read_script`] reads a whole one for a program, or finds its first fault. What is asked of
//! a script is a list of tests in order (`specs/Tests.antt`, `specs/Script.antt`): its form, its sources one by
//! one, its streams, its settlers, and at last the names that the program has behind `use`, `promise` and
//! `stream`. The first fault is that of the first test that does not pass. Which script a text is, is a relation
//! (`specs/Script.antt`), and no text has two scripts or two first faults, or both ([`one_script`]). A script that
//! was read has the form that a rendering asks (`specs/Script.antt` of `flight_syntax`): its graphs are valid and
//! hold what a source may hold, names ascend and are no keywords, and no source is settled twice.
//!
//! Scripts are this project's own format. Their strings are model strings (React 19.0, `parseModelString` of
//! ReactFlightClient), and their numbers have 53 bits at most.
#![tactic(auto)]

mod count;
mod fault;
mod law;
mod look;
mod named;
mod names;
mod node;
mod script;
mod seen;
mod settler;
mod slot;
mod source;
mod stream;
mod text;
mod unfit;

pub use fault::ScriptFault;
pub use law::one_script;
pub use script::read_script;
pub use seen::{nothing, scripted};
