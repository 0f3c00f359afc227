//! Columns: their number, walks along them and along their cells, and the removal of one.
ghost use Rattle.std.specs.Prelude.{◌≡◌, ◌+◌, ◌&&◌, length, is_some};
ghost use Rattle.elem.specs.Elements.{same};
ghost use Rattle.elem.specs.Orders.{natural_before};
ghost use Rattle.elem.specs.Rows.{first_key, key_after};
ghost use Rattle.plain_base.specs.Sorted.{IsLeast};
ghost use Rattle.table_base.specs.Cells.{HasCell, column, without_column};

use super::TreeCells;
use elem::{Elem, Steps};
use std::sync::ledger::Ledger;

impl TreeCells {
    /// The number of cells in a column, 0 where there is no such column.
    pub fn column_len<L: Ledger>(&self, c: Elem, steps: &mut Steps<L>) -> usize
        ensures len { result ≡ length (column c self.now) }
        ensures step { steps.new ≡ steps.old + 1 }
    {
        steps.tick();
        self.count_of_column(&c)
    }

    /// The first column in the natural order.
    pub fn first_column<L: Ledger>(&self, steps: &mut Steps<L>) -> Option<Elem>
        ensures column { IsLeast (λ x. is_some (first_key (column x self.now))) result }
        ensures step { steps.new ≡ steps.old + 1 }
    {
        steps.tick();
        let _len = self.rows.len();
        let _columns_len = self.columns.len();
        self.columns.first()
    }

    /// The first column that comes after `c` in the natural order. It need not be there.
    pub fn after_column<L: Ledger>(&self, c: Elem, steps: &mut Steps<L>) -> Option<Elem>
        ensures column { IsLeast (λ x. natural_before c x && is_some (first_key (column x self.now))) result }
        ensures step { steps.new ≡ steps.old + 1 }
    {
        steps.tick();
        let _len = self.rows.len();
        let _columns_len = self.columns.len();
        self.columns.next_above(&c)
    }

    /// The row of the first cell in a column.
    pub fn first_in_column<L: Ledger>(&self, c: Elem, steps: &mut Steps<L>) -> Option<Elem>
        ensures row { result ≡ first_key (column c self.now) }
        ensures step { steps.new ≡ steps.old + 1 }
    {
        steps.tick();
        self.first_of_column(&c)
    }

    /// The row after another in a column.
    pub fn after_in_column<L: Ledger>(&self, c: Elem, r: Elem, steps: &mut Steps<L>) -> Option<Elem>
        requires { HasCell r c self.now }
        ensures row { result ≡ key_after (same r) (column c self.now) }
        ensures step { steps.new ≡ steps.old + 1 }
    {
        steps.tick();
        let _len = self.rows.len();
        let _columns_len = self.columns.len();
        self.columns.after_in(&c, &r)
    }

    /// Removes the cells of a column, and tells their number.
    pub fn remove_column<L: Ledger>(&mut self, c: Elem, steps: &mut Steps<L>) -> usize
        ensures answer { result ≡ length (column c self.old) }
        ensures cells { self.new ≡ without_column c self.old }
        ensures step { steps.new ≡ steps.old + 1 }
    {
        steps.tick();
        self.drop_column(&c)
    }

    /// Removes the cells of a column one by one, and tells their number.
    fn drop_column(&mut self, c: &Elem) -> usize
        ensures answer { result ≡ length (column c.now self.old) }
        ensures cells { self.new ≡ without_column c.now self.old }
    {
        let count = self.count_of_column(c);
        for _step in 0..count {
            if let Some(r) = self.first_of_column(c) {
                self.take(&r, c);
            }
        }
        count
    }
}
