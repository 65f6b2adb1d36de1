//! The declarations that a text of the component language spells, as trees with names and their places.
//!
//! [`declarations`] reads them, or finds the first fault of the text's tokens or of its form. It reads from left to
//! right with one token of foresight, and is proved against the reader of `flight_grammar`. Names are not looked up
//! here.
#![tactic(auto)]

mod below;
mod declaration;
mod element;
mod expression;
mod fault;
mod json_value;
mod lexeme;
mod list;
mod numeral;
mod read;
mod simple;
mod stop;
mod tag;
mod terminal;
mod tree;
mod values;
mod word;

pub use declaration::Declaration;
pub use fault::TreeFault;
pub use json_value::{Json, Member};
pub use lexeme::Name;
pub use read::declarations;
pub use tree::{Entry, Post, Property, Tree};
