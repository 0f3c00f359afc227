//! The rows of plain collections, one list each: the items of a list by their indexes, and rows by key in an order of
//! the keys. The order is a type parameter, and is the natural one where none is named.
#![tactic(auto)]

mod array_rows;
mod bounds;
mod free_array_rows;
mod free_tree_map_rows;
mod free_two_key_rows;
mod groups;
mod ranked;
mod tree_map_rows;

pub use array_rows::ArrayRows;
pub use free_array_rows::FreeArrayRows;
pub use free_tree_map_rows::FreeTreeMapRows;
pub use free_two_key_rows::FreeTwoKeyRows;
pub use tree_map_rows::{TreeMapRows, TreeSetRows};

#[cfg(test)]
mod tests;
