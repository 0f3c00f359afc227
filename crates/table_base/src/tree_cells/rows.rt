//! Rows: their number, walks along them and along their cells, and the removal of one.
ghost use Rattle.std.specs.Prelude.{◌≡◌, ◌+◌, length};
ghost use Rattle.elem.specs.declared.cuts.Cut.TheVariants.{Start, End};
ghost use Rattle.elem.specs.Elements.{same};
ghost use Rattle.elem.specs.Orders.{natural_before};
ghost use Rattle.elem.specs.Rows.{first_key, last_key, key_after, key_before};
ghost use Rattle.plain_base.specs.Sorted.{rows_above, rows_below, rows_between};
ghost use Rattle.table_base.specs.Cells.{HasCell, row, without_row};

use super::TreeCells;
use elem::{Cut, Elem, Steps, Window};
use std::sync::ledger::Ledger;

impl TreeCells {
    /// The number of cells in a row, 0 where there is no such row.
    pub fn row_len<L: Ledger>(&self, r: Elem, steps: &mut Steps<L>) -> usize
        ensures len { result ≡ length (row r self.now) }
        ensures step { steps.new ≡ steps.old + 1 }
    {
        steps.tick();
        self.rows.count_of(&r)
    }

    /// The first row.
    pub fn first_row<L: Ledger>(&self, steps: &mut Steps<L>) -> Option<Elem>
        ensures row { result ≡ first_key self.now }
        ensures step { steps.new ≡ steps.old + 1 }
    {
        steps.tick();
        self.rows.first()
    }

    /// The last row.
    pub fn last_row<L: Ledger>(&self, steps: &mut Steps<L>) -> Option<Elem>
        ensures row { result ≡ last_key self.now }
        ensures step { steps.new ≡ steps.old + 1 }
    {
        steps.tick();
        self.rows.last()
    }

    /// The first row that comes after `r`, which need not be there.
    pub fn after_row<L: Ledger>(&self, r: Elem, steps: &mut Steps<L>) -> Option<Elem>
        ensures row { result ≡ first_key (rows_above natural_before r self.now) }
        ensures step { steps.new ≡ steps.old + 1 }
    {
        steps.tick();
        self.rows.next_above(&r)
    }

    /// The last row that comes before `r`, which need not be there.
    pub fn before_row<L: Ledger>(&self, r: Elem, steps: &mut Steps<L>) -> Option<Elem>
        ensures row { result ≡ last_key (rows_below natural_before r self.now) }
        ensures step { steps.new ≡ steps.old + 1 }
    {
        steps.tick();
        self.rows.next_below(&r)
    }

    /// The first row above a cut.
    pub fn first_row_from<L: Ledger>(&self, c: &Cut, steps: &mut Steps<L>) -> Option<Elem>
        ensures row { result ≡ first_key (rows_between natural_before c.now End self.now) }
        ensures step { steps.new ≡ steps.old + 1 }
    {
        steps.tick();
        self.rows.first_in(&Window {
            lo: *c,
            hi: Cut::End,
        })
    }

    /// The last row below a cut.
    pub fn last_row_to<L: Ledger>(&self, c: &Cut, steps: &mut Steps<L>) -> Option<Elem>
        ensures row { result ≡ last_key (rows_between natural_before Start c.now self.now) }
        ensures step { steps.new ≡ steps.old + 1 }
    {
        steps.tick();
        self.rows.last_in(&Window {
            lo: Cut::Start,
            hi: *c,
        })
    }

    /// The column of the first cell in a row.
    pub fn first_in_row<L: Ledger>(&self, r: Elem, steps: &mut Steps<L>) -> Option<Elem>
        ensures column { result ≡ first_key (row r self.now) }
        ensures step { steps.new ≡ steps.old + 1 }
    {
        steps.tick();
        self.rows.first_of(&r)
    }

    /// The column after another in a row.
    pub fn after_in_row<L: Ledger>(&self, r: Elem, c: Elem, steps: &mut Steps<L>) -> Option<Elem>
        requires { HasCell r c self.now }
        ensures column { result ≡ key_after (same c) (row r self.now) }
        ensures step { steps.new ≡ steps.old + 1 }
    {
        steps.tick();
        self.rows.after_in(&r, &c)
    }

    /// The column before another in a row.
    pub fn before_in_row<L: Ledger>(&self, r: Elem, c: Elem, steps: &mut Steps<L>) -> Option<Elem>
        requires { HasCell r c self.now }
        ensures column { result ≡ key_before (same c) (row r self.now) }
        ensures step { steps.new ≡ steps.old + 1 }
    {
        steps.tick();
        self.rows.before_in(&r, &c)
    }

    /// The first column above a cut, in a row.
    pub fn first_in_row_from<L: Ledger>(
        &self,
        r: Elem,
        c: &Cut,
        steps: &mut Steps<L>,
    ) -> Option<Elem>
        ensures column { result ≡ first_key (rows_between natural_before c.now End (row r self.now)) }
        ensures step { steps.new ≡ steps.old + 1 }
    {
        steps.tick();
        let window = Window {
            lo: *c,
            hi: Cut::End,
        };
        self.rows.first_of_in(&r, &window)
    }

    /// The last column below a cut, in a row.
    pub fn last_in_row_to<L: Ledger>(&self, r: Elem, c: &Cut, steps: &mut Steps<L>) -> Option<Elem>
        ensures column { result ≡ last_key (rows_between natural_before Start c.now (row r self.now)) }
        ensures step { steps.new ≡ steps.old + 1 }
    {
        steps.tick();
        let window = Window {
            lo: Cut::Start,
            hi: *c,
        };
        self.rows.last_of_in(&r, &window)
    }

    /// Removes the cells of a row, and tells their number.
    pub fn remove_row<L: Ledger>(&mut self, r: Elem, steps: &mut Steps<L>) -> usize
        ensures answer { result ≡ length (row r self.old) }
        ensures cells { self.new ≡ without_row r self.old }
        ensures step { steps.new ≡ steps.old + 1 }
    {
        steps.tick();
        self.drop_row(&r)
    }

    /// Removes the cells of a row one by one, and tells their number.
    fn drop_row(&mut self, r: &Elem) -> usize
        ensures answer { result ≡ length (row r.now self.old) }
        ensures cells { self.new ≡ without_row r.now self.old }
    {
        let count = self.rows.count_of(r);
        for _step in 0..count {
            if let Some(c) = self.first_of_row(r) {
                self.take(r, &c);
            }
        }
        count
    }
}
