//! Walks along the threads of a table, from either end: all cells, those of a row, and those of a column.
ghost use Rattle.std.specs.Prelude.{◌≡◌, ◌≤◌, ◌+◌, Bool, Some, IfSome, filter, true};
ghost use Rattle.std.specs.Map.{keys_of};
ghost use Rattle.cell_rows.specs.CellRows.{cells_of, kind_of};
ghost use Rattle.cell_rows.specs.Serving.{ServesColumns};
ghost use Rattle.cell_rows.specs.Threads as spec;
ghost use Rattle.cell_rows.specs.Threads.{along, key_line, key_in, spot_in, IsOneOf};
ghost use Rattle.elem.specs.Cuts.{cut_upto, lies_between};
ghost use Rattle.elem.specs.Orders.{natural_before};
ghost use Rattle.table_base.specs.Cells.{by_spot, value_in};
ghost use Rattle.view_laws.specs.Following.{Follows, IsFrom};
ghost use Rattle.view_laws.specs.Lanes.{turned_if};
ghost use Rattle.view_laws.specs.declared.lanes.PartAsk.TheVariants as asks;
ghost use Rattle.vocabulary.specs.declared.items.Side.TheVariants.{First};

use super::CellRows;
use elem::{Cut, Elem, Steps, Window};
use std::sync::ledger::Ledger;
use table_base::TreeCells;
use view_laws::PartAsk;
use vocabulary::Side;

/// The part of a window behind an element, from the front or from the back, or all of it.
fn rest_of(window: &Window, back: bool, from: Option<Elem>) -> Window
    ensures { result ≡ spec.rest_of window.now back from }
{
    match from {
        None => *window,
        Some(k) => {
            if back {
                Window {
                    lo: window.lo,
                    hi: Cut::Below(k),
                }
            } else {
                Window {
                    lo: Cut::Above(k),
                    hi: window.hi,
                }
            }
        }
    }
}

/// The cell of a row that follows one in a window of columns, or the first: the first in the rest of the window.
fn next_in_window<L: Ledger>(
    table: &TreeCells,
    r: &Elem,
    window: &Window,
    back: bool,
    from: Option<Elem>,
    steps: &mut Steps<L>,
) -> Option<(Elem, Elem)>
    requires window { cut_upto natural_before window.now.lo window.now.hi ≡ true }
    requires from { IsFrom (turned_if back (filter (lies_between natural_before window.now.lo window.now.hi) (keys_of (along First r.now table.now)))) from }
    ensures next { Follows (turned_if back (filter (lies_between natural_before window.now.lo window.now.hi) (keys_of (along First r.now table.now)))) from (key_in result) }
    ensures cell { IsOneOf (along First r.now table.now) result }
    ensures step { steps.new ≤ steps.old + 1 }
{
    let _len = table.len();
    let rest = rest_of(window, back, from);
    if back {
        table.last_entry_in_row_in(*r, &rest, steps)
    } else {
        table.first_entry_in_row_in(*r, &rest, steps)
    }
}

impl CellRows {
    /// The cell that follows one among all cells, or the first.
    pub(super) fn walk_cells<L: Ledger>(
        &self,
        back: bool,
        from: &Option<(Elem, Elem)>,
        steps: &mut Steps<L>,
    ) -> Option<(Elem, Elem, Elem)>
        requires { IsFrom (turned_if back (keys_of (by_spot (cells_of self.now)))) from.now }
        ensures next { Follows (turned_if back (keys_of (by_spot (cells_of self.now)))) from.now (spot_in result) }
        ensures cell { IfSome result (λ x. value_in x.0 x.1 (cells_of self.now) ≡ Some x.2) }
        ensures step { steps.new ≤ steps.old + 1 }
    {
        let _len = self.len();
        match from {
            None => self.end_cell(back, steps),
            Some((r, c)) => self.next_cell(back, r, c, steps),
        }
    }

    /// The cell that follows one in a row or a column, or the first.
    pub(super) fn walk_line<L: Ledger>(
        &self,
        side: Side,
        k: &Elem,
        back: bool,
        from: Option<Elem>,
        steps: &mut Steps<L>,
    ) -> Option<(Elem, Elem)>
        requires { IsFrom (key_line asks.Any back (keys_of (along side k.now (cells_of self.now)))) from }
        ensures next { Follows (key_line asks.Any back (keys_of (along side k.now (cells_of self.now)))) from (key_in result) }
        ensures cell { IsOneOf (along side k.now (cells_of self.now)) result }
        ensures step { steps.new ≤ steps.old + 1 }
    {
        let _len = self.len();
        match from {
            None => self.end_of_line(side, k, back, steps),
            Some(x) => self.next_of_line(side, k, back, &x, steps),
        }
    }

    /// The cell that follows one among those of a row whose columns are as asked, or the first.
    pub(super) fn walk_row<L: Ledger>(
        &self,
        r: &Elem,
        ask: &PartAsk,
        back: bool,
        from: Option<Elem>,
        steps: &mut Steps<L>,
    ) -> Option<(Elem, Elem)>
        requires serves { ServesColumns (kind_of self.now) (asks.Is r.now) ask.now }
        requires from { IsFrom (key_line ask.now back (keys_of (along First r.now (cells_of self.now)))) from }
        ensures next { Follows (key_line ask.now back (keys_of (along First r.now (cells_of self.now)))) from (key_in result) }
        ensures cell { IsOneOf (along First r.now (cells_of self.now)) result }
        ensures step { steps.new ≤ steps.old + 1 }
    {
        match ask {
            PartAsk::Any => self.walk_line(Side::First, r, back, from, steps),
            PartAsk::Is(c) => self.only_cell(r, c, from, steps),
            PartAsk::Within(_, window) => match self {
                CellRows::Linked(_) => None,
                CellRows::Sorted(table) => next_in_window(table, r, window, back, from, steps),
            },
            PartAsk::Nothing => None,
        }
    }

    /// The one cell of a row and a column, where there is one. None follows it.
    fn only_cell<L: Ledger>(
        &self,
        r: &Elem,
        c: &Elem,
        from: Option<Elem>,
        steps: &mut Steps<L>,
    ) -> Option<(Elem, Elem)>
        ensures next { (back : Bool) → Follows (key_line (asks.Is c.now) back (keys_of (along First r.now (cells_of self.now)))) from (key_in result) }
        ensures cell { IsOneOf (along First r.now (cells_of self.now)) result }
        ensures step { steps.new ≤ steps.old + 1 }
    {
        let _len = self.len();
        match from {
            None => match self.value_at(r, c, steps) {
                Some(v) => Some((*c, v)),
                None => None,
            },
            Some(_) => None,
        }
    }
}
