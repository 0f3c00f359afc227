//! Rows: their number, walks along them and along their cells, and the removal of one.
ghost use Rattle.std.specs.Prelude.{◌≡◌, ◌+◌, length};
ghost use Rattle.elem.specs.Elements.{same};
ghost use Rattle.elem.specs.Rows.{first_key, key_after, key_before};
ghost use Rattle.table_base.specs.Cells.{HasCell, HasRow, row, first_of_rows, without_row};

use super::LinkedCells;
use crate::sides::Side;
use elem::{Elem, Steps};
use std::sync::ledger::Ledger;

impl LinkedCells {
    /// The number of cells in a row, 0 where there is no such row.
    pub fn row_len<L: Ledger>(&self, r: Elem, steps: &mut Steps<L>) -> usize
        ensures len { result ≡ length (row r self.now.cells) }
        ensures step { steps.new ≡ steps.old + 1 }
    {
        steps.tick();
        self.count_in(Side::Row, &r)
    }

    /// The first row, in the order of the first cell of each.
    pub fn first_row<L: Ledger>(&self, steps: &mut Steps<L>) -> Option<Elem>
        ensures row { result ≡ first_key (first_of_rows self.now.cells) }
        ensures step { steps.new ≡ steps.old + 1 }
    {
        steps.tick();
        self.first_key(Side::Row)
    }

    /// The row after another, in the order of the first cell of each.
    pub fn after_row<L: Ledger>(&self, r: Elem, steps: &mut Steps<L>) -> Option<Elem>
        requires { HasRow r self.now.cells }
        ensures row { result ≡ key_after (same r) (first_of_rows self.now.cells) }
        ensures step { steps.new ≡ steps.old + 1 }
    {
        steps.tick();
        if self.loose {
            return self.after_key(Side::Row, &r);
        }
        self.row_behind(&r)
    }

    /// The row before another, in the order of the first cell of each.
    pub fn before_row<L: Ledger>(&self, r: Elem, steps: &mut Steps<L>) -> Option<Elem>
        requires { HasRow r self.now.cells }
        ensures row { result ≡ key_before (same r) (first_of_rows self.now.cells) }
        ensures step { steps.new ≡ steps.old + 1 }
    {
        steps.tick();
        if self.loose {
            return self.before_key(Side::Row, &r);
        }
        self.row_ahead(&r)
    }

    /// The column of the first cell in a row.
    pub fn first_in_row<L: Ledger>(&self, r: Elem, steps: &mut Steps<L>) -> Option<Elem>
        ensures column { result ≡ first_key (row r self.now.cells) }
        ensures step { steps.new ≡ steps.old + 1 }
    {
        steps.tick();
        self.first_in(Side::Row, &r)
    }

    /// The column after another in a row.
    pub fn after_in_row<L: Ledger>(&self, r: Elem, c: Elem, steps: &mut Steps<L>) -> Option<Elem>
        requires { HasCell r c self.now.cells }
        ensures column { result ≡ key_after (same c) (row r self.now.cells) }
        ensures step { steps.new ≡ steps.old + 1 }
    {
        steps.tick();
        self.after_in(Side::Row, &r, &c)
    }

    /// The column before another in a row.
    pub fn before_in_row<L: Ledger>(&self, r: Elem, c: Elem, steps: &mut Steps<L>) -> Option<Elem>
        requires { HasCell r c self.now.cells }
        ensures column { result ≡ key_before (same c) (row r self.now.cells) }
        ensures step { steps.new ≡ steps.old + 1 }
    {
        steps.tick();
        self.before_in(Side::Row, &r, &c)
    }

    /// Removes the cells of a row, and tells their number.
    pub fn remove_row<L: Ledger>(&mut self, r: Elem, steps: &mut Steps<L>) -> usize
        ensures answer { result ≡ length (row r self.old.cells) }
        ensures cells { self.new.cells ≡ without_row r self.old.cells }
        ensures kind { self.new.loose ≡ self.old.loose }
        ensures step { steps.new ≡ steps.old + 1 }
    {
        steps.tick();
        self.remove_all(Side::Row, &r)
    }
}
