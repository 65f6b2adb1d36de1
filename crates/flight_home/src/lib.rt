//! Where each node that is written stands: the row of its key, and the names of the steps from that row's root.
#![tactic(auto)]

mod home;

pub use home::Home;
