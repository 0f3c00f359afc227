//! Rows by key in the order of their insertion, as `java.util`'s `LinkedHashMap` and `LinkedHashSet`, and the parts that
//! such collections are made of. The rows are nodes of a slab, and a thread of links through the nodes decides their
//! order.
//!
//! `thread` says when links through the nodes of a slab are a list of places, and `group` keeps such a thread for each
//! key.
#![tactic(auto)]

mod free_linked_map;
pub mod group;
mod linked_map;
mod links;
mod row_nodes;
#[cfg(test)]
mod tests;
pub mod thread;

pub use free_linked_map::FreeLinkedMap;
pub use linked_map::{LinkedMap, LinkedSet};
