//! The rows of a range set and of a range map: ranges of whole numbers, kept in a tree by their lower cuts. Ranges of a
//! set that touch are one row, and ranges of a map never overlap.
#![tactic(auto)]

mod edits;
mod free_range_map_rows;
mod free_range_rows;
mod part;
mod range_map_rows;
mod range_rows;
mod reads;
mod writes;

pub use free_range_map_rows::FreeRangeMapRows;
pub use free_range_rows::FreeRangeRows;
pub use part::Part;
pub use range_map_rows::RangeMapRows;
pub use range_rows::RangeRows;

#[cfg(test)]
mod tests;
