//! Walks along all cells, each with its row, its column and its value.
ghost use Rattle.std.specs.Prelude.{◌≡◌, ◌+◌, Some, IfSome};
ghost use Rattle.std.specs.Option.{option_map};
ghost use Rattle.elem.specs.declared.elements.Elem.{Elem as Key};
ghost use Rattle.elem.specs.Rows.{first_key, last_key, key_after, key_before};
ghost use Rattle.table_base.specs.Cells.{HasCell, is_spot, by_spot, value_in};

use super::TreeCells;
use elem::{Elem, Steps};
use std::sync::ledger::Ledger;

impl TreeCells {
    /// The first cell: its row, its column and its value.
    pub fn first_whole_cell<L: Ledger>(&self, steps: &mut Steps<L>) -> Option<(Elem, Elem, Elem)>
        ensures spot { option_map (λ x. (x.0, x.1)) result ≡ first_key (by_spot self.now) }
        ensures value { IfSome result (λ x. value_in x.0 x.1 self.now ≡ Some x.2) }
        ensures step { steps.new ≡ steps.old + 1 }
    {
        steps.tick();
        self.cell_of(self.rows.first_both())
    }

    /// The last cell: its row, its column and its value.
    pub fn last_whole_cell<L: Ledger>(&self, steps: &mut Steps<L>) -> Option<(Elem, Elem, Elem)>
        ensures spot { option_map (λ x. (x.0, x.1)) result ≡ last_key (by_spot self.now) }
        ensures value { IfSome result (λ x. value_in x.0 x.1 self.now ≡ Some x.2) }
        ensures step { steps.new ≡ steps.old + 1 }
    {
        steps.tick();
        self.cell_of(self.rows.last_both())
    }

    /// The cell after that of a row and a column: its row, its column and its value.
    pub fn whole_cell_after<L: Ledger>(
        &self,
        r: Elem,
        c: Elem,
        steps: &mut Steps<L>,
    ) -> Option<(Elem, Elem, Elem)>
        requires { HasCell r c self.now }
        ensures spot { option_map (λ x. (x.0, x.1)) result ≡ key_after (is_spot r c) (by_spot self.now) }
        ensures value { IfSome result (λ x. value_in x.0 x.1 self.now ≡ Some x.2) }
        ensures step { steps.new ≡ steps.old + 1 }
    {
        steps.tick();
        self.cell_of(self.rows.after_both(&r, &c))
    }

    /// The cell before that of a row and a column: its row, its column and its value.
    pub fn whole_cell_before<L: Ledger>(
        &self,
        r: Elem,
        c: Elem,
        steps: &mut Steps<L>,
    ) -> Option<(Elem, Elem, Elem)>
        requires { HasCell r c self.now }
        ensures spot { option_map (λ x. (x.0, x.1)) result ≡ key_before (is_spot r c) (by_spot self.now) }
        ensures value { IfSome result (λ x. value_in x.0 x.1 self.now ≡ Some x.2) }
        ensures step { steps.new ≡ steps.old + 1 }
    {
        steps.tick();
        self.cell_of(self.rows.before_both(&r, &c))
    }

    /// A row and a column and the value of their cell.
    fn cell_of(&self, spot: Option<(Elem, Elem)>) -> Option<(Elem, Elem, Elem)>
        requires { (x : Key × Key) → spot ≡ Some x → HasCell x.0 x.1 self.now }
        ensures spot { option_map (λ x. (x.0, x.1)) result ≡ spot }
        ensures value { IfSome result (λ x. value_in x.0 x.1 self.now ≡ Some x.2) }
    {
        let (row, column) = spot?;
        let value = self.rows.get(&row, &column)?;
        Some((row, column, value))
    }
}
