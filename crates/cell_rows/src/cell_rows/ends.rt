//! The ends of the threads of a table, and the neighbours of a cell in them, of both kinds of table.
ghost use Rattle.std.specs.Prelude.{◌≡◌, ◌+◌, cond, Some, IfSome, option_map};
ghost use Rattle.cell_rows.specs.CellRows.{cells_of};
ghost use Rattle.cell_rows.specs.Threads.{along};
ghost use Rattle.elem.specs.Elements.{same};
ghost use Rattle.elem.specs.Keyed.{value_at, IsPresent};
ghost use Rattle.elem.specs.Rows.{first_key, last_key, key_after, key_before};
ghost use Rattle.table_base.specs.Cells.{HasCell, by_spot, is_spot, value_in};

use super::CellRows;
use elem::{Elem, Steps};
use std::sync::ledger::Ledger;
use table_base::{LinkedCells, TreeCells};
use vocabulary::Side;

/// The other part and the value of the first or the last cell of a row or a column.
fn linked_end<L: Ledger>(
    table: &LinkedCells,
    side: Side,
    k: &Elem,
    back: bool,
    steps: &mut Steps<L>,
) -> Option<(Elem, Elem)>
    ensures key { option_map (λ x. x.0) result ≡ cond back (last_key (along side k.now table.now.cells)) (first_key (along side k.now table.now.cells)) }
    ensures value { IfSome result (λ x. value_at (along side k.now table.now.cells) x.0 ≡ Some x.1) }
    ensures step { steps.new ≡ steps.old + 1 }
{
    match side {
        Side::First => {
            if back {
                table.last_entry_in_row(*k, steps)
            } else {
                table.first_entry_in_row(*k, steps)
            }
        }
        Side::Second => {
            if back {
                table.last_entry_in_column(*k, steps)
            } else {
                table.first_entry_in_column(*k, steps)
            }
        }
    }
}

/// The same of a sorted table.
fn sorted_end<L: Ledger>(
    table: &TreeCells,
    side: Side,
    k: &Elem,
    back: bool,
    steps: &mut Steps<L>,
) -> Option<(Elem, Elem)>
    ensures key { option_map (λ x. x.0) result ≡ cond back (last_key (along side k.now table.now)) (first_key (along side k.now table.now)) }
    ensures value { IfSome result (λ x. value_at (along side k.now table.now) x.0 ≡ Some x.1) }
    ensures step { steps.new ≡ steps.old + 1 }
{
    match side {
        Side::First => {
            if back {
                table.last_entry_in_row(*k, steps)
            } else {
                table.first_entry_in_row(*k, steps)
            }
        }
        Side::Second => {
            if back {
                table.last_entry_in_column(*k, steps)
            } else {
                table.first_entry_in_column(*k, steps)
            }
        }
    }
}

/// The other part and the value of the cell after another in a row or a column, or before it.
#[tactic(auto, using(crate::proofs::ThreadCells::column_cell))]
fn linked_next<L: Ledger>(
    table: &LinkedCells,
    side: Side,
    k: &Elem,
    back: bool,
    x: &Elem,
    steps: &mut Steps<L>,
) -> Option<(Elem, Elem)>
    requires { IsPresent (along side k.now table.now.cells) x.now }
    ensures key { option_map (λ y. y.0) result ≡ cond back (key_before (same x.now) (along side k.now table.now.cells)) (key_after (same x.now) (along side k.now table.now.cells)) }
    ensures value { IfSome result (λ y. value_at (along side k.now table.now.cells) y.0 ≡ Some y.1) }
    ensures step { steps.new ≡ steps.old + 1 }
{
    match side {
        Side::First => {
            if back {
                table.entry_before_in_row(*k, *x, steps)
            } else {
                table.entry_after_in_row(*k, *x, steps)
            }
        }
        Side::Second => {
            if back {
                table.entry_before_in_column(*k, *x, steps)
            } else {
                table.entry_after_in_column(*k, *x, steps)
            }
        }
    }
}

/// The same of a sorted table.
#[tactic(auto, using(crate::proofs::ThreadCells::column_cell))]
fn sorted_next<L: Ledger>(
    table: &TreeCells,
    side: Side,
    k: &Elem,
    back: bool,
    x: &Elem,
    steps: &mut Steps<L>,
) -> Option<(Elem, Elem)>
    requires { IsPresent (along side k.now table.now) x.now }
    ensures key { option_map (λ y. y.0) result ≡ cond back (key_before (same x.now) (along side k.now table.now)) (key_after (same x.now) (along side k.now table.now)) }
    ensures value { IfSome result (λ y. value_at (along side k.now table.now) y.0 ≡ Some y.1) }
    ensures step { steps.new ≡ steps.old + 1 }
{
    match side {
        Side::First => {
            if back {
                table.entry_before_in_row(*k, *x, steps)
            } else {
                table.entry_after_in_row(*k, *x, steps)
            }
        }
        Side::Second => {
            if back {
                table.entry_before_in_column(*k, *x, steps)
            } else {
                table.entry_after_in_column(*k, *x, steps)
            }
        }
    }
}

impl CellRows {
    /// The value at a row and a column.
    pub(super) fn value_at<L: Ledger>(
        &self,
        r: &Elem,
        c: &Elem,
        steps: &mut Steps<L>,
    ) -> Option<Elem>
        ensures value { result ≡ value_in r.now c.now (cells_of self.now) }
        ensures step { steps.new ≡ steps.old + 1 }
    {
        match self {
            CellRows::Linked(table) => table.cells.get(*r, *c, steps),
            CellRows::Sorted(table) => table.get(*r, *c, steps),
        }
    }

    /// The other part and the value of the first or the last cell of a row or a column.
    pub(super) fn end_of_line<L: Ledger>(
        &self,
        side: Side,
        k: &Elem,
        back: bool,
        steps: &mut Steps<L>,
    ) -> Option<(Elem, Elem)>
        ensures key { option_map (λ x. x.0) result ≡ cond back (last_key (along side k.now (cells_of self.now))) (first_key (along side k.now (cells_of self.now))) }
        ensures value { IfSome result (λ x. value_at (along side k.now (cells_of self.now)) x.0 ≡ Some x.1) }
        ensures step { steps.new ≡ steps.old + 1 }
    {
        match self {
            CellRows::Linked(table) => linked_end(&table.cells, side, k, back, steps),
            CellRows::Sorted(table) => sorted_end(table, side, k, back, steps),
        }
    }

    /// The other part and the value of the cell after another in a row or a column, or before it.
    pub(super) fn next_of_line<L: Ledger>(
        &self,
        side: Side,
        k: &Elem,
        back: bool,
        x: &Elem,
        steps: &mut Steps<L>,
    ) -> Option<(Elem, Elem)>
        requires { IsPresent (along side k.now (cells_of self.now)) x.now }
        ensures key { option_map (λ y. y.0) result ≡ cond back (key_before (same x.now) (along side k.now (cells_of self.now))) (key_after (same x.now) (along side k.now (cells_of self.now))) }
        ensures value { IfSome result (λ y. value_at (along side k.now (cells_of self.now)) y.0 ≡ Some y.1) }
        ensures step { steps.new ≡ steps.old + 1 }
    {
        match self {
            CellRows::Linked(table) => linked_next(&table.cells, side, k, back, x, steps),
            CellRows::Sorted(table) => sorted_next(table, side, k, back, x, steps),
        }
    }

    /// The first or the last of all cells.
    pub(super) fn end_cell<L: Ledger>(
        &self,
        back: bool,
        steps: &mut Steps<L>,
    ) -> Option<(Elem, Elem, Elem)>
        ensures spot { option_map (λ x. (x.0, x.1)) result ≡ cond back (last_key (by_spot (cells_of self.now))) (first_key (by_spot (cells_of self.now))) }
        ensures value { IfSome result (λ x. value_in x.0 x.1 (cells_of self.now) ≡ Some x.2) }
        ensures step { steps.new ≡ steps.old + 1 }
    {
        match self {
            CellRows::Linked(table) => {
                if back {
                    table.cells.last_whole_cell(steps)
                } else {
                    table.cells.first_whole_cell(steps)
                }
            }
            CellRows::Sorted(table) => {
                if back {
                    table.last_whole_cell(steps)
                } else {
                    table.first_whole_cell(steps)
                }
            }
        }
    }

    /// The cell after another among all, or before it.
    pub(super) fn next_cell<L: Ledger>(
        &self,
        back: bool,
        r: &Elem,
        c: &Elem,
        steps: &mut Steps<L>,
    ) -> Option<(Elem, Elem, Elem)>
        requires { HasCell r.now c.now (cells_of self.now) }
        ensures spot { option_map (λ x. (x.0, x.1)) result ≡ cond back (key_before (is_spot r.now c.now) (by_spot (cells_of self.now))) (key_after (is_spot r.now c.now) (by_spot (cells_of self.now))) }
        ensures value { IfSome result (λ x. value_in x.0 x.1 (cells_of self.now) ≡ Some x.2) }
        ensures step { steps.new ≡ steps.old + 1 }
    {
        match self {
            CellRows::Linked(table) => {
                if back {
                    table.cells.whole_cell_before(*r, *c, steps)
                } else {
                    table.cells.whole_cell_after(*r, *c, steps)
                }
            }
            CellRows::Sorted(table) => {
                if back {
                    table.whole_cell_before(*r, *c, steps)
                } else {
                    table.whole_cell_after(*r, *c, steps)
                }
            }
        }
    }
}
