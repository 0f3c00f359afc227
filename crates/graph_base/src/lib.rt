//! Guava's mutable value graphs as a list of nodes and a list of edges. Both stand in the order in which they were first
//! put, and what is put again keeps its place.
//!
//! `degrees` keeps what each node counts, and `halves` an edge at both its ends, for other rows of nodes and edges too.
#![tactic(auto)]

pub mod degrees;
mod edge_row;
mod edge_rows;
mod faults;
mod graph_edits;
pub mod halves;
mod next_nodes;
#[cfg(test)]
mod tests;
mod value_graph_rows;
mod ways;

pub use faults::GraphFault;
pub use value_graph_rows::ValueGraphRows;
pub use ways::Way;
