//! Walks along the cells of a row and along those of a column, each cell with its value.
ghost use Rattle.std.specs.Prelude.{◌≡◌, ◌+◌, Some, IfSome, IsSome};
ghost use Rattle.std.specs.Option.{option_map};
ghost use Rattle.elem.specs.Elements.{same};
ghost use Rattle.elem.specs.Keyed.{value_at};
ghost use Rattle.elem.specs.Rows.{first_key, last_key, key_after, key_before};
ghost use Rattle.table_base.specs.Cells.{HasCell, row, column, value_in};

use super::LinkedCells;
use crate::sides::Side;
use elem::{Elem, Steps};
use std::sync::ledger::Ledger;

impl LinkedCells {
    /// The column and the value of the first cell in a row.
    pub fn first_entry_in_row<L: Ledger>(
        &self,
        r: Elem,
        steps: &mut Steps<L>,
    ) -> Option<(Elem, Elem)>
        ensures column { option_map (λ x. x.0) result ≡ first_key (row r self.now.cells) }
        ensures value { IfSome result (λ x. value_at (row r self.now.cells) x.0 ≡ Some x.1) }
        ensures step { steps.new ≡ steps.old + 1 }
    {
        steps.tick();
        self.first_entry(Side::Row, &r)
    }

    /// The column and the value of the last cell in a row.
    pub fn last_entry_in_row<L: Ledger>(
        &self,
        r: Elem,
        steps: &mut Steps<L>,
    ) -> Option<(Elem, Elem)>
        ensures column { option_map (λ x. x.0) result ≡ last_key (row r self.now.cells) }
        ensures value { IfSome result (λ x. value_at (row r self.now.cells) x.0 ≡ Some x.1) }
        ensures step { steps.new ≡ steps.old + 1 }
    {
        steps.tick();
        self.last_entry(Side::Row, &r)
    }

    /// The column and the value of the cell after another in a row.
    pub fn entry_after_in_row<L: Ledger>(
        &self,
        r: Elem,
        c: Elem,
        steps: &mut Steps<L>,
    ) -> Option<(Elem, Elem)>
        requires { HasCell r c self.now.cells }
        ensures column { option_map (λ x. x.0) result ≡ key_after (same c) (row r self.now.cells) }
        ensures value { IfSome result (λ x. value_at (row r self.now.cells) x.0 ≡ Some x.1) }
        ensures step { steps.new ≡ steps.old + 1 }
    {
        steps.tick();
        self.entry_after(Side::Row, &r, &c)
    }

    /// The column and the value of the cell before another in a row.
    pub fn entry_before_in_row<L: Ledger>(
        &self,
        r: Elem,
        c: Elem,
        steps: &mut Steps<L>,
    ) -> Option<(Elem, Elem)>
        requires { HasCell r c self.now.cells }
        ensures column { option_map (λ x. x.0) result ≡ key_before (same c) (row r self.now.cells) }
        ensures value { IfSome result (λ x. value_at (row r self.now.cells) x.0 ≡ Some x.1) }
        ensures step { steps.new ≡ steps.old + 1 }
    {
        steps.tick();
        self.entry_before(Side::Row, &r, &c)
    }

    /// The row and the value of the first cell in a column.
    pub fn first_entry_in_column<L: Ledger>(
        &self,
        c: Elem,
        steps: &mut Steps<L>,
    ) -> Option<(Elem, Elem)>
        ensures row { option_map (λ x. x.0) result ≡ first_key (column c self.now.cells) }
        ensures value { IfSome result (λ x. value_at (column c self.now.cells) x.0 ≡ Some x.1) }
        ensures step { steps.new ≡ steps.old + 1 }
    {
        steps.tick();
        self.first_entry(Side::Column, &c)
    }

    /// The row and the value of the last cell in a column.
    pub fn last_entry_in_column<L: Ledger>(
        &self,
        c: Elem,
        steps: &mut Steps<L>,
    ) -> Option<(Elem, Elem)>
        ensures row { option_map (λ x. x.0) result ≡ last_key (column c self.now.cells) }
        ensures value { IfSome result (λ x. value_at (column c self.now.cells) x.0 ≡ Some x.1) }
        ensures step { steps.new ≡ steps.old + 1 }
    {
        steps.tick();
        self.last_entry(Side::Column, &c)
    }

    /// The row and the value of the cell after another in a column.
    pub fn entry_after_in_column<L: Ledger>(
        &self,
        c: Elem,
        r: Elem,
        steps: &mut Steps<L>,
    ) -> Option<(Elem, Elem)>
        requires { HasCell r c self.now.cells }
        ensures row { option_map (λ x. x.0) result ≡ key_after (same r) (column c self.now.cells) }
        ensures value { IfSome result (λ x. value_at (column c self.now.cells) x.0 ≡ Some x.1) }
        ensures step { steps.new ≡ steps.old + 1 }
    {
        steps.tick();
        self.entry_after(Side::Column, &c, &r)
    }

    /// The row and the value of the cell before another in a column.
    pub fn entry_before_in_column<L: Ledger>(
        &self,
        c: Elem,
        r: Elem,
        steps: &mut Steps<L>,
    ) -> Option<(Elem, Elem)>
        requires { HasCell r c self.now.cells }
        ensures row { option_map (λ x. x.0) result ≡ key_before (same r) (column c self.now.cells) }
        ensures value { IfSome result (λ x. value_at (column c self.now.cells) x.0 ≡ Some x.1) }
        ensures step { steps.new ≡ steps.old + 1 }
    {
        steps.tick();
        self.entry_before(Side::Column, &c, &r)
    }
}
