//! Programs of the component language, read from their text.
//!
//! [`parse`] gives the program that a text is, or its first fault. What a text comes to is said in `flight_grammar`
//! (`specs/Outcome.antt`), and that this is one thing. The declarations come from `flight_parse`; here their names are
//! looked up. Tables by name keep this linear.
#![tactic(auto)]

mod attribute_fault;
mod body;
mod build;
mod element_fault;
mod fault;
mod faults;
mod import;
mod known;
mod meaning;
mod name_fault;
mod program;
mod property_names;
mod read;
mod repeated;
mod tables;

pub use fault::ParseFault;
pub use read::parse;
