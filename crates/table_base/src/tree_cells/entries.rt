//! Walks along the cells of a row and along those of a column, each cell with its value.
ghost use Rattle.std.specs.Prelude.{◌≡◌, ◌+◌, true, Some, IfSome};
ghost use Rattle.std.specs.Option.{option_map};
ghost use Rattle.elem.specs.declared.elements.Elem.{Elem as Key};
ghost use Rattle.elem.specs.Cuts.{cut_upto};
ghost use Rattle.elem.specs.Elements.{same};
ghost use Rattle.elem.specs.Keyed.{value_at};
ghost use Rattle.elem.specs.Orders.{natural_before};
ghost use Rattle.elem.specs.Rows.{first_key, last_key, key_after, key_before};
ghost use Rattle.plain_base.specs.Sorted.{rows_between};
ghost use Rattle.table_base.specs.Cells.{HasCell, row, column};

use super::TreeCells;
use elem::{Cut, Elem, Steps, Window};
use std::sync::ledger::Ledger;

impl TreeCells {
    /// The column and the value of the first cell in a row.
    pub fn first_entry_in_row<L: Ledger>(
        &self,
        r: Elem,
        steps: &mut Steps<L>,
    ) -> Option<(Elem, Elem)>
        ensures column { option_map (λ x. x.0) result ≡ first_key (row r self.now) }
        ensures value { IfSome result (λ x. value_at (row r self.now) x.0 ≡ Some x.1) }
        ensures step { steps.new ≡ steps.old + 1 }
    {
        steps.tick();
        self.entry_of_row(&r, self.rows.first_of(&r))
    }

    /// The column and the value of the last cell in a row.
    pub fn last_entry_in_row<L: Ledger>(
        &self,
        r: Elem,
        steps: &mut Steps<L>,
    ) -> Option<(Elem, Elem)>
        ensures column { option_map (λ x. x.0) result ≡ last_key (row r self.now) }
        ensures value { IfSome result (λ x. value_at (row r self.now) x.0 ≡ Some x.1) }
        ensures step { steps.new ≡ steps.old + 1 }
    {
        steps.tick();
        let window = Window {
            lo: Cut::Start,
            hi: Cut::End,
        };
        self.entry_of_row(&r, self.rows.last_of_in(&r, &window))
    }

    /// The column and the value of the cell after another in a row.
    pub fn entry_after_in_row<L: Ledger>(
        &self,
        r: Elem,
        c: Elem,
        steps: &mut Steps<L>,
    ) -> Option<(Elem, Elem)>
        requires { HasCell r c self.now }
        ensures column { option_map (λ x. x.0) result ≡ key_after (same c) (row r self.now) }
        ensures value { IfSome result (λ x. value_at (row r self.now) x.0 ≡ Some x.1) }
        ensures step { steps.new ≡ steps.old + 1 }
    {
        steps.tick();
        self.entry_of_row(&r, self.rows.after_in(&r, &c))
    }

    /// The column and the value of the cell before another in a row.
    pub fn entry_before_in_row<L: Ledger>(
        &self,
        r: Elem,
        c: Elem,
        steps: &mut Steps<L>,
    ) -> Option<(Elem, Elem)>
        requires { HasCell r c self.now }
        ensures column { option_map (λ x. x.0) result ≡ key_before (same c) (row r self.now) }
        ensures value { IfSome result (λ x. value_at (row r self.now) x.0 ≡ Some x.1) }
        ensures step { steps.new ≡ steps.old + 1 }
    {
        steps.tick();
        self.entry_of_row(&r, self.rows.before_in(&r, &c))
    }

    /// The column and the value of the first cell in a row whose column lies in a window. The next one behind `c` is the
    /// first of the window that begins above `c`, and the like from the end.
    pub fn first_entry_in_row_in<L: Ledger>(
        &self,
        r: Elem,
        w: &Window,
        steps: &mut Steps<L>,
    ) -> Option<(Elem, Elem)>
        requires { cut_upto natural_before w.now.lo w.now.hi ≡ true }
        ensures column { option_map (λ x. x.0) result ≡ first_key (rows_between natural_before w.now.lo w.now.hi (row r self.now)) }
        ensures value { IfSome result (λ x. value_at (row r self.now) x.0 ≡ Some x.1) }
        ensures step { steps.new ≡ steps.old + 1 }
    {
        steps.tick();
        self.entry_of_row(&r, self.rows.first_of_in(&r, w))
    }

    /// The column and the value of the last cell in a row whose column lies in a window.
    pub fn last_entry_in_row_in<L: Ledger>(
        &self,
        r: Elem,
        w: &Window,
        steps: &mut Steps<L>,
    ) -> Option<(Elem, Elem)>
        requires { cut_upto natural_before w.now.lo w.now.hi ≡ true }
        ensures column { option_map (λ x. x.0) result ≡ last_key (rows_between natural_before w.now.lo w.now.hi (row r self.now)) }
        ensures value { IfSome result (λ x. value_at (row r self.now) x.0 ≡ Some x.1) }
        ensures step { steps.new ≡ steps.old + 1 }
    {
        steps.tick();
        self.entry_of_row(&r, self.rows.last_of_in(&r, w))
    }

    /// The row and the value of the first cell in a column.
    pub fn first_entry_in_column<L: Ledger>(
        &self,
        c: Elem,
        steps: &mut Steps<L>,
    ) -> Option<(Elem, Elem)>
        ensures row { option_map (λ x. x.0) result ≡ first_key (column c self.now) }
        ensures value { IfSome result (λ x. value_at (column c self.now) x.0 ≡ Some x.1) }
        ensures step { steps.new ≡ steps.old + 1 }
    {
        steps.tick();
        let _len = self.rows.len();
        let _columns_len = self.columns.len();
        self.entry_of_column(&c, self.columns.first_of(&c))
    }

    /// The row and the value of the last cell in a column.
    pub fn last_entry_in_column<L: Ledger>(
        &self,
        c: Elem,
        steps: &mut Steps<L>,
    ) -> Option<(Elem, Elem)>
        ensures row { option_map (λ x. x.0) result ≡ last_key (column c self.now) }
        ensures value { IfSome result (λ x. value_at (column c self.now) x.0 ≡ Some x.1) }
        ensures step { steps.new ≡ steps.old + 1 }
    {
        steps.tick();
        let _len = self.rows.len();
        let _columns_len = self.columns.len();
        let window = Window {
            lo: Cut::Start,
            hi: Cut::End,
        };
        self.entry_of_column(&c, self.columns.last_of_in(&c, &window))
    }

    /// The row and the value of the cell after another in a column.
    pub fn entry_after_in_column<L: Ledger>(
        &self,
        c: Elem,
        r: Elem,
        steps: &mut Steps<L>,
    ) -> Option<(Elem, Elem)>
        requires { HasCell r c self.now }
        ensures row { option_map (λ x. x.0) result ≡ key_after (same r) (column c self.now) }
        ensures value { IfSome result (λ x. value_at (column c self.now) x.0 ≡ Some x.1) }
        ensures step { steps.new ≡ steps.old + 1 }
    {
        steps.tick();
        let _len = self.rows.len();
        let _columns_len = self.columns.len();
        self.entry_of_column(&c, self.columns.after_in(&c, &r))
    }

    /// The row and the value of the cell before another in a column.
    pub fn entry_before_in_column<L: Ledger>(
        &self,
        c: Elem,
        r: Elem,
        steps: &mut Steps<L>,
    ) -> Option<(Elem, Elem)>
        requires { HasCell r c self.now }
        ensures row { option_map (λ x. x.0) result ≡ key_before (same r) (column c self.now) }
        ensures value { IfSome result (λ x. value_at (column c self.now) x.0 ≡ Some x.1) }
        ensures step { steps.new ≡ steps.old + 1 }
    {
        steps.tick();
        let _len = self.rows.len();
        let _columns_len = self.columns.len();
        self.entry_of_column(&c, self.columns.before_in(&c, &r))
    }

    /// A column of a row and the value of their cell.
    fn entry_of_row(&self, r: &Elem, c: Option<Elem>) -> Option<(Elem, Elem)>
        requires { (x : Key) → c ≡ Some x → HasCell r.now x self.now }
        ensures column { option_map (λ x. x.0) result ≡ c }
        ensures value { IfSome result (λ x. value_at (row r.now self.now) x.0 ≡ Some x.1) }
    {
        let column = c?;
        let value = self.rows.get(r, &column)?;
        Some((column, value))
    }

    /// A row of a column and the value of their cell.
    fn entry_of_column(&self, c: &Elem, r: Option<Elem>) -> Option<(Elem, Elem)>
        requires { (x : Key) → r ≡ Some x → HasCell x c.now self.now }
        ensures row { option_map (λ x. x.0) result ≡ r }
        ensures value { IfSome result (λ x. value_at (column c.now self.now) x.0 ≡ Some x.1) }
    {
        let row = r?;
        let value = self.rows.get(&row, c)?;
        Some((row, value))
    }
}
