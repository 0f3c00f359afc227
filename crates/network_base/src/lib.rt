//! Guava's mutable networks as a list of nodes and a list of edges, in the order of their coming. An edge is an element
//! of its own, so any number of edges join the same nodes.
#![tactic(auto)]

mod after_beside;
mod beside;
mod faults;
mod named_edges;
mod net_steps;
mod network_edits;
mod network_rows;
mod sides;
#[cfg(test)]
mod tests;
mod walking;

pub use faults::NetFault;
pub use net_steps::{NetGone, NetItem, NetStep};
pub use network_rows::NetworkRows;
pub use sides::Side;
