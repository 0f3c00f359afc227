//! A value graph to walk through, along its edges or against them: Guava's `Graphs.transpose` without a copy. The order of
//! its nodes and edges is that of the value graph.
#![tactic(auto)]

#[cfg(test)]
mod tests;
mod turned;

pub use turned::Turned;
