//! The rows of one table, as the views over it read and change them: each row is a cell, a row and a column of a Guava
//! `Table` with the value there. What tells a cell from the others is its spot: its row and its column.
//!
//! `base_rows` has the same calls for lists, sets, maps and bimaps. A walk goes along a lane, and a table has three
//! threads of cells: all of them, those of a row, and those of a column. Each goes from the front or from the back.
//!
//! A call that finds, puts or removes one row asks the table once, and so does the next row of a walk (one step). A removal
//! of several rows asks it for each row within its reach and once more at the end, and again to look the row up and to
//! remove it: three steps a row.
#![tactic(auto)]

mod cell_rows;
mod grouped_cells;
mod journal;
mod reach;
mod row_test;
mod spotted;
#[cfg(test)]
mod tests;

pub use cell_rows::CellRows;
pub use grouped_cells::GroupedCells;
pub use reach::Reach;
pub use row_test::RowTest;
pub use spotted::{SpottedRow, spots_tell};
