//! The marks of Flight's model strings: what a string of a row's JSON stands for.
//!
//! A string that does not begin with `$` is itself. One that does is a text with one `$` more, a constant
//! that JSON cannot spell, a date, a BigInt, a symbol, or a reference to another row. [`read_mark`] reads
//! such a string and [`spell_mark`] writes it. `specs/Mark.antt` has the one relation between strings and
//! marks that both are proved against (React 19.0, `parseModelString` of ReactFlightClient), and
//! [`one_mark`] that it gives a string one mark at most.
//!
//! Numbers in Flight's JSON are whole and have 53 bits at most, which is this project's limit: [`whole`].
//!
//! What a string may stand for depends on where it stands: whether the element mark may stand there, and
//! which marks a reply may have, is for the readers of payloads.
#![tactic(auto)]

mod big;
mod hex;
mod law;
mod mark;
mod number;
mod read;
mod reference;
mod spell;

pub use law::{one_mark, read_again};
pub use mark::{Mark, Marked, Ref};
pub use number::{has_whole_numbers, whole};
pub use read::read_mark;
pub use spell::spell_mark;
