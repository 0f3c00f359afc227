//! Linked tables whose rows stand together.
ghost use Rattle.std.specs.Prelude.{◌≡◌, false, [], IfOk};

use elem::NoMemory;
use std::alloc::Global;
use table_base::LinkedCells;

/// A linked table in which the cells of each row stand together, so that a new cell goes last in its row.
#[derive(Drop)]
pub struct GroupedCells {
    pub cells: LinkedCells,
    ghost grouped: { cells.loose ≡ false },
}

impl GroupedCells {
    /// A table with no cells.
    pub fn new(alloc: Global) -> Result<GroupedCells, NoMemory>
        ensures { IfOk result (λ t. t.cells.cells ≡ []) }
    {
        let cells = LinkedCells::new(alloc)?;
        Ok(GroupedCells { cells })
    }
}
