//! What a reply says: definitions, and no code that runs.
//!
//! A reply is what a browser sends with a call: a form, whose fields are the parts of a value. A field's name is the
//! decimal number of a part, and its value is JSON; part 0 is the root, and references name parts in hexadecimal.
//! `specs/Form.antt` says which fields a form has and which of them are placed how, `specs/Faults.antt` what is wrong with
//! a form that is no reply. A reply means what its fields mean as rows, each under its number: flight_meaning
//! (React 19.0, `processReply` of ReactFlightClient and ReactFlightReplyServer).
//!
//! That a reply is always a form, and that its fields hold no binary parts, is this project's own.
#![tactic(auto)]

mod field;

pub use field::Field;
