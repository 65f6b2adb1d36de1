//! Tests of the crates from one body to the commands, over their public calls alone: what no clause says, such as that a
//! call succeeds with ample memory, and examples whose answers come from outside. Nothing stands on this crate.
#![tactic(auto)]

#[cfg(test)]
mod bodies;
#[cfg(test)]
mod commands;
#[cfg(test)]
mod homes;
#[cfg(test)]
mod plain;
