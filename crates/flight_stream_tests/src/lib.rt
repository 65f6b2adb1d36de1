//! Tests of the crates from values to the client, over their public calls alone: what no clause says, such as that a
//! call succeeds with ample memory, and examples whose answers come from outside. Nothing stands on this crate.
#![tactic(auto)]

#[cfg(test)]
mod client;
#[cfg(test)]
mod feed;
#[cfg(test)]
mod graphs;
#[cfg(test)]
mod links;
#[cfg(test)]
mod outside;
#[cfg(test)]
mod page;
#[cfg(test)]
mod payloads;
#[cfg(test)]
mod places;
#[cfg(test)]
mod replies;
#[cfg(test)]
mod rows;
#[cfg(test)]
mod strings;
#[cfg(test)]
mod valid_graph;
#[cfg(test)]
mod values;
