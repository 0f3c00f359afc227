//! The order of the rows, or from the other side of the columns: by the first cell of each.
ghost use Rattle.std.specs.Prelude.{◌≡◌, ℕ, Some};
ghost use Rattle.slab.specs.Slab.{ContainsKey};
ghost use Rattle.elem.specs.Elements.{same};
ghost use Rattle.elem.specs.Rows.{first_key, key_after, key_before};
ghost use Rattle.table_base.specs.Cells.{HasRow, first_of_rows};
ghost use Rattle.table_base.specs.CellNodes.{seen, key_of};

use super::LinkedCells;
use super::side_reads::group_at;
use crate::cell_nodes::CellNode;
use crate::seeking::{Sought, next_sought, previous_sought};
use crate::sides::Side;
use elem::Elem;
use slab::Slab;

impl LinkedCells {
    /// The first row.
    pub(crate) fn first_key(&self, side: Side) -> Option<Elem>
        ensures { result ≡ first_key (first_of_rows (seen side self.now.cells)) }
    {
        key_of(&self.nodes, side, self.all.first)
    }

    /// The row after another.
    pub(crate) fn after_key(&self, side: Side, k: &Elem) -> Option<Elem>
        requires { HasRow k.now (seen side self.now.cells) }
        ensures { result ≡ key_after (same k.now) (first_of_rows (seen side self.now.cells)) }
    {
        let group = group_at(&self.rows, &self.columns, side, k);
        let place = group.ends.first.unwrap();
        let from = self.nodes[place].all.next;
        let next = next_sought(&self.nodes, from, &Sought::First(side));
        key_of(&self.nodes, side, next)
    }

    /// The row before another.
    pub(crate) fn before_key(&self, side: Side, k: &Elem) -> Option<Elem>
        requires { HasRow k.now (seen side self.now.cells) }
        ensures { result ≡ key_before (same k.now) (first_of_rows (seen side self.now.cells)) }
    {
        let group = group_at(&self.rows, &self.columns, side, k);
        let place = group.ends.first.unwrap();
        let from = self.nodes[place].all.previous;
        let previous = previous_sought(&self.nodes, from, &Sought::First(side));
        key_of(&self.nodes, side, previous)
    }
}

/// The row of the node at a place, or from the other side its column.
pub(super) fn key_of(nodes: &Slab<CellNode>, side: Side, place: Option<usize>) -> Option<Elem>
    ensures { result ≡ key_of side nodes.now place }
{
    let node = nodes.get(place?)?;
    match side {
        Side::Row => Some(node.row),
        Side::Column => Some(node.column),
    }
}
