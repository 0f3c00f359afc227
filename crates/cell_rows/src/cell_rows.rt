//! The cells of a table, in the type of its kind.
ghost use Rattle.std.specs.Prelude.{◌≡◌, [], length, true, IfOk};
ghost use Rattle.cell_rows.specs.CellRows.{kind_of, rows_of, AreCells};
ghost use Rattle.cell_rows.specs.CellSpots.{HaveOwnSpots};
ghost use Rattle.vocabulary.specs.Kinds.{shape_of_kind};
ghost use Rattle.vocabulary.specs.Shapes.{is_table};

mod dropping;
mod ends;
mod placing;
mod reading;
mod walking;

use crate::GroupedCells;
use elem::NoMemory;
use std::alloc::Global;
use table_base::TreeCells;
use vocabulary::Kind;

/// The cells of a table: of Guava's `Tables.newCustomTable` over linked hash maps, or of a `TreeBasedTable` in the natural
/// order.
#[derive(Drop)]
pub enum CellRows {
    Linked(GroupedCells),
    Sorted(TreeCells),
}

impl CellRows {
    /// No cells, in a table of a kind.
    pub fn new(alloc: Global, kind: Kind) -> Result<CellRows, NoMemory>
        requires { is_table (shape_of_kind kind) ≡ true }
        ensures rows { IfOk result (λ table. rows_of table ≡ []) }
        ensures kind { IfOk result (λ table. kind_of table ≡ kind) }
    {
        match kind {
            Kind::LinkedTable => Ok(CellRows::Linked(GroupedCells::new(alloc)?)),
            Kind::TreeBasedTable => Ok(CellRows::Sorted(TreeCells::new(alloc)?)),
            _ => unreachable!(),
        }
    }

    /// The kind.
    pub fn kind(&self) -> Kind
        ensures { result ≡ kind_of self.now }
    {
        match self {
            CellRows::Linked(_) => Kind::LinkedTable,
            CellRows::Sorted(_) => Kind::TreeBasedTable,
        }
    }

    /// How many cells there are.
    pub fn len(&self) -> usize
        ensures len { result ≡ length (rows_of self.now) }
        ensures spots { HaveOwnSpots (rows_of self.now) }
    {
        match self {
            CellRows::Linked(table) => table.cells.len(),
            CellRows::Sorted(table) => table.len(),
        }
    }

    /// Does nothing; its contract says that each row is a cell.
    pub fn rows_fit(&self)
        ensures { AreCells (rows_of self.now) }
    {}
}
