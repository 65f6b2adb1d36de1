//! Programs of the component language, printed.
//!
//! [`print_program`] gives a text from which the language derives the program again. `specs/Text.antt` says which
//! text: a line for each declaration, a space behind each word, and no comment. Texts are quoted as JSON quotes
//! them, numbers are decimal, and what a bundler says of a client component stands as it is kept.
#![tactic(auto)]

mod atom;
mod expression;
mod names;
mod program;
mod shape;
mod words;

pub use program::print_program;
