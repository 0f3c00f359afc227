//! Guava's multimaps as lists of pairs: each pair has a key, a value and an id that it keeps. The pairs are nodes of a
//! slab, and a thread through all nodes and one through those of each key decide their order.
#![tactic(auto)]

mod distinct_values;
mod flat_pairs;
mod free_flat_pairs;
mod grouped_lists;
mod heads;
mod key_values;
mod linked_keys;
mod linked_pairs;
mod pair_id;
mod pair_nodes;
mod pair_places;
#[cfg(test)]
mod tests;

pub use flat_pairs::FlatPairs;
pub use free_flat_pairs::FreeFlatPairs;
pub use grouped_lists::GroupedLists;
pub use linked_pairs::LinkedPairs;
pub use pair_id::PairId;
