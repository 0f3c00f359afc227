//! The cells of a row, or from the other side of a column, removed.
ghost use Rattle.std.specs.Prelude.{◌≡◌, length};
ghost use Rattle.table_base.specs.Cells.{row, without_cell, without_row};
ghost use Rattle.table_base.specs.CellNodes.{seen};

use super::LinkedCells;
use crate::sides::Side;
use elem::Elem;

impl LinkedCells {
    /// Removes the cells of a row, and tells their number.
    pub(crate) fn remove_all(&mut self, side: Side, k: &Elem) -> usize
        ensures answer { result ≡ length (row k.now (seen side self.old.cells)) }
        ensures cells { seen side self.new.cells ≡ without_row k.now (seen side self.old.cells) }
        ensures kind { self.new.loose ≡ self.old.loose }
    {
        let count = self.count_in(side, k);
        for _step in 0..count {
            if let Some(x) = self.first_in(side, k) {
                self.take_from(side, k, &x);
            }
        }
        count
    }

    /// Takes a cell of a row out.
    fn take_from(&mut self, side: Side, k: &Elem, x: &Elem)
        ensures cells { seen side self.new.cells ≡ without_cell k.now x.now (seen side self.old.cells) }
        ensures kind { self.new.loose ≡ self.old.loose }
    {
        match side {
            Side::Row => self.take(k, x),
            Side::Column => self.take(x, k),
        };
    }
}
