//! Columns: their number, walks along them and along their cells, and the removal of one.
ghost use Rattle.std.specs.Prelude.{◌≡◌, ◌+◌, length, IsSome};
ghost use Rattle.elem.specs.Elements.{same};
ghost use Rattle.elem.specs.Rows.{first_key, key_after};
ghost use Rattle.table_base.specs.Cells.{HasCell, HasColumn, column, value_in, first_of_columns, without_column};

use super::LinkedCells;
use crate::sides::Side;
use elem::{Elem, Steps};
use std::sync::ledger::Ledger;

impl LinkedCells {
    /// The number of cells in a column, 0 where there is no such column.
    pub fn column_len<L: Ledger>(&self, c: Elem, steps: &mut Steps<L>) -> usize
        ensures len { result ≡ length (column c self.now.cells) }
        ensures step { steps.new ≡ steps.old + 1 }
    {
        steps.tick();
        self.count_in(Side::Column, &c)
    }

    /// The first column, in the order of the first cell of each.
    pub fn first_column<L: Ledger>(&self, steps: &mut Steps<L>) -> Option<Elem>
        ensures column { result ≡ first_key (first_of_columns self.now.cells) }
        ensures step { steps.new ≡ steps.old + 1 }
    {
        steps.tick();
        self.first_key(Side::Column)
    }

    /// The column after another, in the order of the first cell of each. It goes along the cells behind the column's
    /// first up to the next that is the first of a column, so that a walk along all columns passes each cell once.
    pub fn after_column<L: Ledger>(&self, c: Elem, steps: &mut Steps<L>) -> Option<Elem>
        requires { HasColumn c self.now.cells }
        ensures column { result ≡ key_after (same c) (first_of_columns self.now.cells) }
        ensures step { steps.new ≡ steps.old + 1 }
    {
        steps.tick();
        self.after_key(Side::Column, &c)
    }

    /// The row of the first cell in a column.
    pub fn first_in_column<L: Ledger>(&self, c: Elem, steps: &mut Steps<L>) -> Option<Elem>
        ensures row { result ≡ first_key (column c self.now.cells) }
        ensures step { steps.new ≡ steps.old + 1 }
    {
        steps.tick();
        self.first_in(Side::Column, &c)
    }

    /// The row after another in a column.
    pub fn after_in_column<L: Ledger>(&self, c: Elem, r: Elem, steps: &mut Steps<L>) -> Option<Elem>
        requires { HasCell r c self.now.cells }
        ensures row { result ≡ key_after (same r) (column c self.now.cells) }
        ensures step { steps.new ≡ steps.old + 1 }
    {
        steps.tick();
        self.after_in(Side::Column, &c, &r)
    }

    /// Removes the cells of a column, and tells their number.
    pub fn remove_column<L: Ledger>(&mut self, c: Elem, steps: &mut Steps<L>) -> usize
        ensures answer { result ≡ length (column c self.old.cells) }
        ensures cells { self.new.cells ≡ without_column c self.old.cells }
        ensures kind { self.new.loose ≡ self.old.loose }
        ensures step { steps.new ≡ steps.old + 1 }
    {
        steps.tick();
        self.remove_all(Side::Column, &c)
    }
}
