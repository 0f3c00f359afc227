//! Guava's `TreeMultimap` as rows: each key has its values in a tree, each value once, and the keys stand in a tree. Keys
//! and values are in their natural order.
#![tactic(auto)]

#[cfg(test)]
mod tests;
mod tree_pair_id;
mod tree_pairs;
mod values;

pub use tree_pair_id::TreePairId;
pub use tree_pairs::TreePairs;
