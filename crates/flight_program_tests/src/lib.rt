//! Tests of the crates from tokens to bundles, over their public calls alone: what no clause says, such as that a call
//! succeeds with ample memory, and examples whose answers come from outside. Nothing stands on this crate.
#![tactic(auto)]

#[cfg(test)]
mod bundles;
#[cfg(test)]
mod printed;
#[cfg(test)]
mod scripts;
#[cfg(test)]
mod tokens;
