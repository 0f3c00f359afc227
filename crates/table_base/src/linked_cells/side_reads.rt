//! What is read from a table seen from either side.
ghost use Rattle.std.specs.Prelude.{◌≡◌, ℕ, length, Some, IsSome};
ghost use Rattle.std.specs.HashMap as hash;
ghost use Rattle.slab.specs.Slab.{ContainsKey};
ghost use Rattle.elem.specs.Elements.{same};
ghost use Rattle.elem.specs.Keyed.{HasDistinctKeys};
ghost use Rattle.elem.specs.Rows.{first_key, key_after, key_before};
ghost use Rattle.linked_base.specs.Group.{group_or_none};
ghost use Rattle.table_base.specs.Spots.{same_spot};
ghost use Rattle.table_base.specs.Cells.{row, value_in};
ghost use Rattle.table_base.specs.CellNodes.{links, groups_of, seen, other_of, spot};

use super::LinkedCells;
use crate::cell_nodes::CellNode;
use crate::sides::Side;
use crate::spots::{Spot, place_of};
use elem::Elem;
use hash_seed::SeededMap;
use linked_base::group::{Group, group_of};
use linked_base::thread::Links;
use slab::Slab;

impl LinkedCells {
    /// The number of cells in a row.
    pub(crate) fn count_in(&self, side: Side, k: &Elem) -> usize
        ensures { result ≡ length (row k.now (seen side self.now.cells)) }
    {
        group_at(&self.rows, &self.columns, side, k).count
    }

    /// The column of the first cell in a row.
    pub(crate) fn first_in(&self, side: Side, k: &Elem) -> Option<Elem>
        ensures distinct { HasDistinctKeys (row k.now (seen side self.now.cells)) }
        ensures column { result ≡ first_key (row k.now (seen side self.now.cells)) }
    {
        let group = group_at(&self.rows, &self.columns, side, k);
        other_of(&self.nodes, side, group.ends.first)
    }

    /// The column after another in a row.
    pub(crate) fn after_in(&self, side: Side, k: &Elem, x: &Elem) -> Option<Elem>
        requires { IsSome (value_in k.now x.now (seen side self.now.cells)) }
        ensures { result ≡ key_after (same x.now) (row k.now (seen side self.now.cells)) }
    {
        let place = place_at(&self.index, side, k, x).unwrap();
        other_of(&self.nodes, side, links_of(&self.nodes[place], side).next)
    }

    /// The column before another in a row.
    pub(crate) fn before_in(&self, side: Side, k: &Elem, x: &Elem) -> Option<Elem>
        requires { IsSome (value_in k.now x.now (seen side self.now.cells)) }
        ensures { result ≡ key_before (same x.now) (row k.now (seen side self.now.cells)) }
    {
        let place = place_at(&self.index, side, k, x).unwrap();
        other_of(
            &self.nodes,
            side,
            links_of(&self.nodes[place], side).previous,
        )
    }
}

/// The group of a row or a column.
pub(super) fn group_at(
    rows: &SeededMap<Elem, Group>,
    columns: &SeededMap<Elem, Group>,
    side: Side,
    k: &Elem,
) -> Group
    ensures { result ≡ group_or_none (groups_of (hash.get same rows.now) (hash.get same columns.now) side k.now) }
{
    match side {
        Side::Row => group_of(rows, k),
        Side::Column => group_of(columns, k),
    }
}

/// The place of the cell of a row and a column, or from the other side of a column and a row.
pub(super) fn place_at(
    index: &SeededMap<Spot, usize>,
    side: Side,
    k: &Elem,
    x: &Elem,
) -> Option<usize>
    ensures { result ≡ hash.get same_spot index.now (spot side k.now x.now) }
{
    match side {
        Side::Row => place_of(index, k, x),
        Side::Column => place_of(index, x, k),
    }
}

/// The neighbours of a node in its row or its column.
pub(super) fn links_of(node: &CellNode, side: Side) -> Links
    ensures { result ≡ links side node.now }
{
    match side {
        Side::Row => node.in_row,
        Side::Column => node.in_column,
    }
}

/// The column of the node at a place, or from the other side its row.
fn other_of(nodes: &Slab<CellNode>, side: Side, place: Option<usize>) -> Option<Elem>
    ensures { result ≡ other_of side nodes.now place }
{
    let node = nodes.get(place?)?;
    match side {
        Side::Row => Some(node.column),
        Side::Column => Some(node.row),
    }
}
