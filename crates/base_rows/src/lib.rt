//! The rows of one base of any kind that scripts know, as the views over it read and change them.
//!
//! A base has few calls: how many rows there are, the row that follows another in a lane, the row at a spot, a row put in
//! its spot, a row removed, and all rows that pass a test dropped. What tells a row from the others is its spot: the index
//! in a list, the key in a set, a map or a bimap. The next kind of base is one more case of `BaseRows`.
#![tactic(auto)]

mod base_rows;
mod place_fault;
mod reach;
mod row_test;
mod spotted;

pub use base_rows::BaseRows;
pub use place_fault::PlaceFault;
pub use reach::Reach;
pub use row_test::RowTest;
pub use spotted::{SpottedRow, spots_tell};
