//! Walks along all cells, each with its row, its column and its value.
ghost use Rattle.std.specs.Prelude.{◌≡◌, ◌+◌, Some, IfSome};
ghost use Rattle.std.specs.Option.{option_map, option_and_then};
ghost use Rattle.elem.specs.Rows.{first_key, last_key, key_after, key_before};
ghost use Rattle.table_base.specs.Cells.{HasCell, is_spot, by_spot, value_in};
ghost use Rattle.table_base.specs.CellNodes.{whole_at};

use super::LinkedCells;
use crate::cell_nodes::CellNode;
use crate::spots::place_of;
use elem::{Elem, Steps};
use slab::Slab;
use std::sync::ledger::Ledger;

impl LinkedCells {
    /// The first cell: its row, its column and its value.
    pub fn first_whole_cell<L: Ledger>(&self, steps: &mut Steps<L>) -> Option<(Elem, Elem, Elem)>
        ensures spot { option_map (λ x. (x.0, x.1)) result ≡ first_key (by_spot self.now.cells) }
        ensures value { IfSome result (λ x. value_in x.0 x.1 self.now.cells ≡ Some x.2) }
        ensures step { steps.new ≡ steps.old + 1 }
    {
        steps.tick();
        cell_at_place(&self.nodes, self.all.first)
    }

    /// The last cell: its row, its column and its value.
    pub fn last_whole_cell<L: Ledger>(&self, steps: &mut Steps<L>) -> Option<(Elem, Elem, Elem)>
        ensures spot { option_map (λ x. (x.0, x.1)) result ≡ last_key (by_spot self.now.cells) }
        ensures value { IfSome result (λ x. value_in x.0 x.1 self.now.cells ≡ Some x.2) }
        ensures step { steps.new ≡ steps.old + 1 }
    {
        steps.tick();
        cell_at_place(&self.nodes, self.all.last)
    }

    /// The cell after that of a row and a column: its row, its column and its value.
    pub fn whole_cell_after<L: Ledger>(
        &self,
        r: Elem,
        c: Elem,
        steps: &mut Steps<L>,
    ) -> Option<(Elem, Elem, Elem)>
        requires { HasCell r c self.now.cells }
        ensures spot { option_map (λ x. (x.0, x.1)) result ≡ key_after (is_spot r c) (by_spot self.now.cells) }
        ensures value { IfSome result (λ x. value_in x.0 x.1 self.now.cells ≡ Some x.2) }
        ensures step { steps.new ≡ steps.old + 1 }
    {
        steps.tick();
        let place = place_of(&self.index, &r, &c).unwrap();
        cell_at_place(&self.nodes, self.nodes[place].all.next)
    }

    /// The cell before that of a row and a column: its row, its column and its value.
    pub fn whole_cell_before<L: Ledger>(
        &self,
        r: Elem,
        c: Elem,
        steps: &mut Steps<L>,
    ) -> Option<(Elem, Elem, Elem)>
        requires { HasCell r c self.now.cells }
        ensures spot { option_map (λ x. (x.0, x.1)) result ≡ key_before (is_spot r c) (by_spot self.now.cells) }
        ensures value { IfSome result (λ x. value_in x.0 x.1 self.now.cells ≡ Some x.2) }
        ensures step { steps.new ≡ steps.old + 1 }
    {
        steps.tick();
        let place = place_of(&self.index, &r, &c).unwrap();
        cell_at_place(&self.nodes, self.nodes[place].all.previous)
    }
}

/// The row, the column and the value of the node at a place.
fn cell_at_place(nodes: &Slab<CellNode>, place: Option<usize>) -> Option<(Elem, Elem, Elem)>
    ensures { result ≡ option_and_then (whole_at nodes.now) place }
{
    let node = nodes.get(place?)?;
    Some((node.row, node.column, node.value))
}
