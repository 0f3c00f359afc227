//! Walks along the cells of a row, or from the other side of a column, each cell with its value.
ghost use Rattle.std.specs.Prelude.{◌≡◌, Some, IfSome, IsSome};
ghost use Rattle.std.specs.Option.{option_map, option_and_then};
ghost use Rattle.elem.specs.Elements.{same};
ghost use Rattle.elem.specs.Keyed.{value_at};
ghost use Rattle.elem.specs.Rows.{first_key, last_key, key_after, key_before};
ghost use Rattle.table_base.specs.Cells.{row, value_in};
ghost use Rattle.table_base.specs.CellNodes.{rest_at, seen};

use super::LinkedCells;
use super::side_reads::{group_at, links_of, place_at};
use crate::cell_nodes::CellNode;
use crate::sides::Side;
use elem::Elem;
use slab::Slab;

impl LinkedCells {
    /// The column and the value of the first cell in a row.
    pub(crate) fn first_entry(&self, side: Side, k: &Elem) -> Option<(Elem, Elem)>
        ensures column { option_map (λ x. x.0) result ≡ first_key (row k.now (seen side self.now.cells)) }
        ensures value { IfSome result (λ x. value_at (row k.now (seen side self.now.cells)) x.0 ≡ Some x.1) }
    {
        let group = group_at(&self.rows, &self.columns, side, k);
        entry_at(&self.nodes, side, group.ends.first)
    }

    /// The column and the value of the last cell in a row.
    pub(crate) fn last_entry(&self, side: Side, k: &Elem) -> Option<(Elem, Elem)>
        ensures column { option_map (λ x. x.0) result ≡ last_key (row k.now (seen side self.now.cells)) }
        ensures value { IfSome result (λ x. value_at (row k.now (seen side self.now.cells)) x.0 ≡ Some x.1) }
    {
        let group = group_at(&self.rows, &self.columns, side, k);
        entry_at(&self.nodes, side, group.ends.last)
    }

    /// The column and the value of the cell after another in a row.
    pub(crate) fn entry_after(&self, side: Side, k: &Elem, x: &Elem) -> Option<(Elem, Elem)>
        requires { IsSome (value_in k.now x.now (seen side self.now.cells)) }
        ensures column { option_map (λ x. x.0) result ≡ key_after (same x.now) (row k.now (seen side self.now.cells)) }
        ensures value { IfSome result (λ x. value_at (row k.now (seen side self.now.cells)) x.0 ≡ Some x.1) }
    {
        let place = place_at(&self.index, side, k, x).unwrap();
        entry_at(&self.nodes, side, links_of(&self.nodes[place], side).next)
    }

    /// The column and the value of the cell before another in a row.
    pub(crate) fn entry_before(&self, side: Side, k: &Elem, x: &Elem) -> Option<(Elem, Elem)>
        requires { IsSome (value_in k.now x.now (seen side self.now.cells)) }
        ensures column { option_map (λ x. x.0) result ≡ key_before (same x.now) (row k.now (seen side self.now.cells)) }
        ensures value { IfSome result (λ x. value_at (row k.now (seen side self.now.cells)) x.0 ≡ Some x.1) }
    {
        let place = place_at(&self.index, side, k, x).unwrap();
        entry_at(
            &self.nodes,
            side,
            links_of(&self.nodes[place], side).previous,
        )
    }
}

/// The column and the value of the node at a place, or from the other side its row and value.
fn entry_at(nodes: &Slab<CellNode>, side: Side, place: Option<usize>) -> Option<(Elem, Elem)>
    ensures { result ≡ option_and_then (rest_at side nodes.now) place }
{
    let node = nodes.get(place?)?;
    match side {
        Side::Row => Some((node.column, node.value)),
        Side::Column => Some((node.row, node.value)),
    }
}
