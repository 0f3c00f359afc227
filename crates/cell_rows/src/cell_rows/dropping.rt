//! Cells that go from a table.
ghost use Rattle.std.specs.Prelude.{◌≡◌, ◌≤◌, ◌+◌, ◌*◌, ℕ, List, [], Some, false, filter, is_some, length, not, option_map, true};
ghost use Rattle.cell_rows.specs.CellRows.{kind_of, rows_of};
ghost use Rattle.cell_rows.specs.CellSpots.{cell_line, cell_spot, spots_of_cells, IsRowAt};
ghost use Rattle.cell_rows.specs.Reaches.{but, Reaches};
ghost use Rattle.cell_rows.specs.Serving.{ServesCells};
ghost use Rattle.elem.specs.Keyed.{value_at};
ghost use Rattle.machine.specs.Edits.{without_rows};
ghost use Rattle.view_laws.specs.Following.{Follows, IsFrom};
ghost use Rattle.view_laws.specs.ItemForms.{has_form};
ghost use Rattle.view_laws.specs.Lanes.{takes};
ghost use Rattle.view_laws.specs.Serving as serving;
ghost use Rattle.view_laws.specs.Spots.{same_spot};
ghost use Rattle.vocabulary.specs.Items.{part_of};
ghost use Rattle.vocabulary.specs.Kinds.{shape_of_kind};
ghost use Rattle.vocabulary.specs.declared.items.Item.{Item as AnItem};

use super::CellRows;
use crate::{Reach, RowTest, SpottedRow};
use elem::{Elem, Steps};
use linked_base::FreeLinkedMap;
use std::sync::ledger::Ledger;
use view_laws::{Lane, PartAsk, Pick, RowSpot};
use vocabulary::{Item, Side};

/// The spot of a row that was found.
fn spot_of(found: Option<SpottedRow>) -> Option<RowSpot>
    ensures { result ≡ option_map (λ row. row.spot) found }
{
    match found {
        Some(row) => Some(row.spot),
        None => None,
    }
}

/// The lane of a row or of a column.
fn lane_of(side: Side, k: &Elem) -> Lane
    ensures { result ≡ serving.of_part side k.now }
{
    let pick = Pick::Each;
    match side {
        Side::First => Lane {
            first: PartAsk::Is(*k),
            second: PartAsk::Any,
            pick,
        },
        Side::Second => Lane {
            first: PartAsk::Any,
            second: PartAsk::Is(*k),
            pick,
        },
    }
}

impl CellRows {
    /// Removes the cell at a spot. It takes no memory.
    pub fn remove<L: Ledger>(&mut self, at: &RowSpot, steps: &mut Steps<L>)
        requires { IsFrom (spots_of_cells (rows_of self.old)) (Some at.now) }
        ensures kind { kind_of self.new ≡ kind_of self.old }
        ensures rows { (numbers : List ℕ) → IsRowAt (spots_of_cells (rows_of self.old)) at.now numbers → rows_of self.new ≡ without_rows numbers 0 (rows_of self.old) }
        ensures steps { steps.new ≤ steps.old + 1 }
    {
        let _len = self.len();
        if let RowSpot::Cell(r, c) = at {
            self.remove_cell(r, c, steps);
        }
    }

    /// Removes every cell.
    pub fn clear(&mut self)
        ensures kind { kind_of self.new ≡ kind_of self.old }
        ensures rows { rows_of self.new ≡ [] }
    {
        match self {
            CellRows::Linked(table) => table.cells.clear(),
            CellRows::Sorted(table) => table.clear(),
        }
    }

    /// Removes every row that passes a test. It looks at those within its reach alone, and takes no memory.
    pub fn drop_all<T: RowTest, L: Ledger>(
        &mut self,
        reach: Reach<'_>,
        test: &T,
        steps: &mut Steps<L>,
    )
        requires { Reaches (kind_of self.old) reach (T.passes test.now) }
        ensures kind { kind_of self.new ≡ kind_of self.old }
        ensures rows { rows_of self.new ≡ filter (λ row. not (T.passes test.now row)) (rows_of self.old) }
    {
        match reach {
            Reach::Whole => self.clear(),
            Reach::Along(lane) => self.drop_along(lane, test, steps),
            Reach::At(side, parts) => self.drop_lines(side, parts, test, steps),
        }
    }

    /// Removes every row of a lane that passes a test, from the first to the last.
    pub fn drop_along<T: RowTest, L: Ledger>(&mut self, lane: &Lane, test: &T, steps: &mut Steps<L>)
        requires { ServesCells (kind_of self.old) lane.now }
        ensures kind { kind_of self.new ≡ kind_of self.old }
        ensures rows { rows_of self.new ≡ but (T.passes test.now) (takes lane.now) (rows_of self.old) }
        ensures steps { steps.new ≤ steps.old + 3 * length (cell_line (rows_of self.old) lane.now false) + 1 }
    {
        let count = self.len();
        let mut at = self.next_spot(lane, None, steps);
        for _row in 0..count {
            let Some(spot) = at else {
                return;
            };
            let next = self.next_spot(lane, Some(spot), steps);
            self.drop_at(&spot, test, steps);
            at = next;
        }
    }

    /// The spot that follows another in a lane, or the first one.
    fn next_spot<L: Ledger>(
        &self,
        lane: &Lane,
        from: Option<RowSpot>,
        steps: &mut Steps<L>,
    ) -> Option<RowSpot>
        requires serves { ServesCells (kind_of self.now) lane.now }
        requires from { IsFrom (cell_line (rows_of self.now) lane.now false) from }
        ensures next { Follows (cell_line (rows_of self.now) lane.now false) from result }
        ensures step { steps.new ≤ steps.old + 1 }
    {
        spot_of(self.next_row(lane, false, &from, steps))
    }

    /// Removes every row that passes a test, where each of them stands in one of some rows or columns of the table.
    fn drop_lines<T: RowTest, L: Ledger>(
        &mut self,
        side: Side,
        parts: &FreeLinkedMap<()>,
        test: &T,
        steps: &mut Steps<L>,
    )
        requires { (row : AnItem) → has_form (shape_of_kind (kind_of self.old)) row ≡ true → T.passes test.now row ≡ true → is_some (value_at parts.now (part_of side row)) ≡ true }
        ensures kind { kind_of self.new ≡ kind_of self.old }
        ensures rows { rows_of self.new ≡ filter (λ row. not (T.passes test.now row)) (rows_of self.old) }
    {
        let count = parts.len();
        let mut at = parts.first();
        for _part in 0..count {
            let Some(k) = at else {
                return;
            };
            let lane = lane_of(side, &k);
            self.drop_along(&lane, test, steps);
            at = parts.after(k);
        }
    }

    /// Removes the row at a spot, where there is one and it passes a test.
    fn drop_at<T: RowTest, L: Ledger>(&mut self, at: &RowSpot, test: &T, steps: &mut Steps<L>)
        ensures kind { kind_of self.new ≡ kind_of self.old }
        ensures rows { rows_of self.new ≡ but (T.passes test.now) (λ row. same_spot at.now (cell_spot row)) (rows_of self.old) }
        ensures steps { steps.new ≤ steps.old + 2 }
    {
        let _len = self.len();
        let RowSpot::Cell(r, c) = at else {
            return;
        };
        if let Some(v) = self.value_at(r, c, steps) {
            if test.test(&Item::Cell(*r, *c, v)) {
                self.remove_cell(r, c, steps);
            }
        }
    }
}
