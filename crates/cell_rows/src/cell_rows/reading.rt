//! Reading the cells of a table by their spots.
ghost use Rattle.std.specs.Prelude.{◌≡◌, ◌≤◌, ◌+◌, List, Some, IfSome, option_and_then, option_map};
ghost use Rattle.cell_rows.specs.CellRows.{items, kind_of, rows_of};
ghost use Rattle.cell_rows.specs.CellSpots as spec;
ghost use Rattle.cell_rows.specs.CellSpots.{cell_line, spots_of_cells};
ghost use Rattle.cell_rows.specs.NextRows.{IsNextIn};
ghost use Rattle.cell_rows.specs.Serving.{ServesCells};
ghost use Rattle.cell_rows.specs.Threads as threads;
ghost use Rattle.table_base.specs.Cells.{value_in, Cell as ACell};
ghost use Rattle.view_laws.specs.Following.{Follows, IsFrom};
ghost use Rattle.view_laws.specs.Spots as spots;
ghost use Rattle.view_laws.specs.declared.lanes.PartAsk.TheVariants as asks;
ghost use Rattle.view_laws.specs.declared.places.RowSpot.TheVariants as spot;

use super::CellRows;
use crate::SpottedRow;
use elem::{Elem, Steps};
use std::sync::ledger::Ledger;
use view_laws::{Lane, PartAsk, RowSpot};
use vocabulary::{Item, Side, key_of, second_of};

/// The other part of a spot in a row or a column.
fn key_at(side: Side, spot: &Option<RowSpot>) -> Option<Elem>
    ensures { result ≡ option_and_then (threads.key_at side) spot.now }
{
    match (side, spot) {
        (Side::First, Some(RowSpot::Cell(_, c))) => Some(*c),
        (Side::Second, Some(RowSpot::Cell(r, _))) => Some(*r),
        _ => None,
    }
}

/// The row and the column that a spot is.
fn parts_at(spot: &Option<RowSpot>) -> Option<(Elem, Elem)>
    ensures { result ≡ option_and_then threads.parts_at spot.now }
{
    match spot {
        Some(RowSpot::Cell(r, c)) => Some((*r, *c)),
        _ => None,
    }
}

/// A cell with its spot.
fn spotted(cell: Option<(Elem, Elem, Elem)>) -> Option<SpottedRow>
    ensures spot { option_map (λ found. found.spot) result ≡ option_map (λ s. spot.Cell s.0 s.1) (threads.spot_in cell) }
    ensures row { (cells : List ACell) → IfSome cell (λ x. value_in x.0 x.1 cells ≡ Some x.2) → IfSome result (λ found. spots.row_at (spots_of_cells (items cells)) (items cells) found.spot ≡ Some found.row) }
{
    match cell {
        Some((r, c, v)) => {
            let row = Item::Cell(r, c, v);
            let spot = RowSpot::Cell(key_of(&row), second_of(&row));
            Some(SpottedRow { spot, row })
        }
        None => None,
    }
}

/// A cell of a row or a column, whole.
fn whole(side: Side, k: &Elem, entry: Option<(Elem, Elem)>) -> Option<(Elem, Elem, Elem)>
    ensures spot { option_map (λ s. spot.Cell s.0 s.1) (threads.spot_in result) ≡ option_map (threads.spot_along side k.now) (threads.key_in entry) }
    ensures cell { (cells : List ACell) → threads.IsOneOf (threads.along side k.now cells) entry → IfSome result (λ x. value_in x.0 x.1 cells ≡ Some x.2) }
{
    match (side, entry) {
        (Side::First, Some((c, v))) => Some((*k, c, v)),
        (Side::Second, Some((r, v))) => Some((r, *k, v)),
        (_, None) => None,
    }
}

impl CellRows {
    /// The row that follows that at a spot in a lane, or the first one, with its spot.
    pub fn next_row<L: Ledger>(
        &self,
        lane: &Lane,
        back: bool,
        from: &Option<RowSpot>,
        steps: &mut Steps<L>,
    ) -> Option<SpottedRow>
        requires serves { ServesCells (kind_of self.now) lane.now }
        requires from { IsFrom (cell_line (rows_of self.now) lane.now back) from.now }
        ensures next { Follows (cell_line (rows_of self.now) lane.now back) from.now (option_map (λ found. found.spot) result) }
        ensures row { IfSome result (λ found. spots.row_at (spots_of_cells (rows_of self.now)) (rows_of self.now) found.spot ≡ Some found.row) }
        ensures step { steps.new ≤ steps.old + 1 }
    {
        match &lane.first {
            PartAsk::Is(r) => self.next_in_row(lane, r, back, from, steps),
            PartAsk::Any => match &lane.second {
                PartAsk::Is(c) => self.next_in_column(lane, c, back, from, steps),
                PartAsk::Any => self.next_of_all(lane, back, from, steps),
                _ => None,
            },
            _ => None,
        }
    }

    /// The row that follows in a lane that asks for one row of the table.
    fn next_in_row<L: Ledger>(
        &self,
        lane: &Lane,
        r: &Elem,
        back: bool,
        from: &Option<RowSpot>,
        steps: &mut Steps<L>,
    ) -> Option<SpottedRow>
        requires serves { ServesCells (kind_of self.now) lane.now }
        requires row { lane.now.first ≡ asks.Is r.now }
        requires from { IsFrom (cell_line (rows_of self.now) lane.now back) from.now }
        ensures next { IsNextIn (rows_of self.now) (cell_line (rows_of self.now) lane.now back) from.now result }
        ensures step { steps.new ≤ steps.old + 1 }
    {
        let from_column = key_at(Side::First, from);
        let entry = self.walk_row(r, &lane.second, back, from_column, steps);
        spotted(whole(Side::First, r, entry))
    }

    /// The row that follows in a lane that asks for one column.
    fn next_in_column<L: Ledger>(
        &self,
        lane: &Lane,
        c: &Elem,
        back: bool,
        from: &Option<RowSpot>,
        steps: &mut Steps<L>,
    ) -> Option<SpottedRow>
        requires rows { lane.now.first ≡ asks.Any }
        requires column { lane.now.second ≡ asks.Is c.now }
        requires from { IsFrom (cell_line (rows_of self.now) lane.now back) from.now }
        ensures next { IsNextIn (rows_of self.now) (cell_line (rows_of self.now) lane.now back) from.now result }
        ensures step { steps.new ≤ steps.old + 1 }
    {
        let from_row = key_at(Side::Second, from);
        let entry = self.walk_line(Side::Second, c, back, from_row, steps);
        spotted(whole(Side::Second, c, entry))
    }

    /// The row that follows in a lane that asks for nothing.
    fn next_of_all<L: Ledger>(
        &self,
        lane: &Lane,
        back: bool,
        from: &Option<RowSpot>,
        steps: &mut Steps<L>,
    ) -> Option<SpottedRow>
        requires rows { lane.now.first ≡ asks.Any }
        requires columns { lane.now.second ≡ asks.Any }
        requires from { IsFrom (cell_line (rows_of self.now) lane.now back) from.now }
        ensures next { IsNextIn (rows_of self.now) (cell_line (rows_of self.now) lane.now back) from.now result }
        ensures step { steps.new ≤ steps.old + 1 }
    {
        let from_cell = parts_at(from);
        let cell = self.walk_cells(back, &from_cell, steps);
        spotted(cell)
    }

    /// The row at a spot.
    pub fn row_at<L: Ledger>(&self, at: &RowSpot, steps: &mut Steps<L>) -> Option<Item>
        requires { IsFrom (spots_of_cells (rows_of self.now)) (Some at.now) }
        ensures row { result ≡ spots.row_at (spots_of_cells (rows_of self.now)) (rows_of self.now) at.now }
        ensures step { steps.new ≤ steps.old + 1 }
    {
        match at {
            RowSpot::Cell(r, c) => self.row_of_cell(r, c, steps),
            _ => None,
        }
    }

    /// The row that has a row and a column of the table.
    pub fn row_of_cell<L: Ledger>(&self, r: &Elem, c: &Elem, steps: &mut Steps<L>) -> Option<Item>
        ensures row { result ≡ spec.row_of_cell (rows_of self.now) r.now c.now }
        ensures step { steps.new ≤ steps.old + 1 }
    {
        match self.value_at(r, c, steps) {
            Some(v) => Some(Item::Cell(*r, *c, v)),
            None => None,
        }
    }
}
