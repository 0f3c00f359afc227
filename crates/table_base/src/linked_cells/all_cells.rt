//! Walks along all cells.
ghost use Rattle.std.specs.Prelude.{◌≡◌, ◌+◌};
ghost use Rattle.elem.specs.Rows.{first_key, key_after};
ghost use Rattle.table_base.specs.Cells.{HasCell, is_spot, by_spot};
ghost use Rattle.table_base.specs.CellNodes.{spot_of_place};

use super::LinkedCells;
use crate::cell_nodes::CellNode;
use crate::spots::place_of;
use elem::{Elem, Steps};
use slab::Slab;
use std::sync::ledger::Ledger;

impl LinkedCells {
    /// The row and the column of the first cell.
    pub fn first_cell<L: Ledger>(&self, steps: &mut Steps<L>) -> Option<(Elem, Elem)>
        ensures spot { result ≡ first_key (by_spot self.now.cells) }
        ensures step { steps.new ≡ steps.old + 1 }
    {
        steps.tick();
        spot_of_place(&self.nodes, self.all.first)
    }

    /// The row and the column of the cell after that of a row and a column.
    pub fn after_cell<L: Ledger>(
        &self,
        r: Elem,
        c: Elem,
        steps: &mut Steps<L>,
    ) -> Option<(Elem, Elem)>
        requires { HasCell r c self.now.cells }
        ensures spot { result ≡ key_after (is_spot r c) (by_spot self.now.cells) }
        ensures step { steps.new ≡ steps.old + 1 }
    {
        steps.tick();
        let place = place_of(&self.index, &r, &c).unwrap();
        spot_of_place(&self.nodes, self.nodes[place].all.next)
    }
}

/// The row and the column of the node at a place.
fn spot_of_place(nodes: &Slab<CellNode>, place: Option<usize>) -> Option<(Elem, Elem)>
    ensures { result ≡ spot_of_place nodes.now place }
{
    let node = nodes.get(place?)?;
    Some((node.row, node.column))
}
