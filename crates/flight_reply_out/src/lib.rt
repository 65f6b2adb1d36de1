//! The encoder of replies: a graph as the form that a browser sends with a call.
//!
//! [`encode_reply`] gives the fields of a graph's canon. Field 0 is the root. Maps, Sets, promises and server references are
//! parts of their own, numbered from 1 in the order in which a walk meets them first; arrays and objects stand in place,
//! and are referred to by their paths after that. Where a path would be long, or has a name with `:`, or leads too deep, a
//! part is made as well (React 19.0, `processReply` of ReactFlightClient; that nodes stand in place as deep as that, and
//! which of them do not, is this project's own).
//!
//! The definition follows no walk (`specs/`). In a canon the numbers of nodes say where each is met first
//! (`Origins.antt`); then each node has its home, in the order of the nodes (`Homes.antt`); and then each part is written
//! (`Fields.antt`). So are the steps here, each linear in the graph, and the one recursion goes 40 nodes deep.
//!
//! [`fields_text`] gives the text of a form.
#![tactic(auto)]

mod encode;
mod fault;
mod field;
mod home;
mod origin;
mod plan;
mod sent;
mod text;
mod write;

pub use encode::encode_reply;
pub use fault::ReplyOut;
pub use flight_reply::Field;
pub use text::fields_text;
