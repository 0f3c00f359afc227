//! Guava's tables as lists of cells: each cell has a row, a column and a value, and no two have the same row and column.
//! The cells of a `LinkedCells` are nodes of a slab, and a thread through all nodes, one through those of each row and one
//! through those of each column decide their order.
#![tactic(auto)]

mod cell_nodes;
mod linked_cells;
mod linking;
mod seeking;
mod sides;
mod spots;
#[cfg(test)]
mod tests;
mod tree_cells;
#[cfg(test)]
mod tree_cells_tests;

pub use linked_cells::LinkedCells;
pub use tree_cells::TreeCells;
