//! A large bundle from a number: the input of the program's own load test, and of benchmarks that anyone can repeat.
//!
//! [`generate`] writes a program of so many components, each of which waits for a source of its own and places an item
//! for each of its four objects, which name one another in a ring; and the script with these sources, which four settlers
//! settle in turn. `specs/Generated.antt` has its bytes.
#![tactic(auto)]

mod bundle;
mod program;
mod script;

pub use bundle::generate;
