//! The neighbours of a row in a table that is not loose. Its rows stand together, so that they are at hand.
ghost use Rattle.std.specs.Prelude.{◌≡◌, false};
ghost use Rattle.elem.specs.Elements.{same};
ghost use Rattle.elem.specs.Rows.{key_after, key_before};
ghost use Rattle.table_base.specs.Cells.{HasRow, first_of_rows};

use super::LinkedCells;
use super::side_walks::key_of;
use crate::sides::Side;
use elem::Elem;
use linked_base::group::group_of;

impl LinkedCells {
    /// The row of the cell behind a row's last.
    pub(crate) fn row_behind(&self, k: &Elem) -> Option<Elem>
        requires row { HasRow k.now self.now.cells }
        requires kind { self.now.loose ≡ false }
        ensures { result ≡ key_after (same k.now) (first_of_rows self.now.cells) }
    {
        let group = group_of(&self.rows, k);
        let place = group.ends.last.unwrap();
        key_of(&self.nodes, Side::Row, self.nodes[place].all.next)
    }

    /// The row of the cell ahead of a row's first.
    pub(crate) fn row_ahead(&self, k: &Elem) -> Option<Elem>
        requires row { HasRow k.now self.now.cells }
        requires kind { self.now.loose ≡ false }
        ensures { result ≡ key_before (same k.now) (first_of_rows self.now.cells) }
    {
        let group = group_of(&self.rows, k);
        let place = group.ends.first.unwrap();
        key_of(&self.nodes, Side::Row, self.nodes[place].all.previous)
    }
}
