ghost use Rattle.std.specs.Prelude.{◌≡◌, ◌+◌, [], length, IsOk, IfOk, OnErr, MatchOption};
ghost use Rattle.elem.specs.Keyed.{AddsRow, HasDistinctKeys};
ghost use Rattle.elem.specs.Rows.{first_key};
ghost use Rattle.plain_base.specs.TwoKeys.{IsInBothOrder};
ghost use Rattle.table_base.specs.Cells.{HasCell, row, column, value_in, without_cell, with_value};

mod columns;
mod entries;
mod rows;
mod whole_cells;

use elem::{Elem, NoMemory, Steps};
use plain_base::FreeTwoKeyRows;
use std::alloc::Global;
use std::marker::Model;
use std::sync::ledger::Ledger;

/// A table of cells by row and then by column in the natural order, as Guava's `TreeBasedTable`, and its columns in the
/// natural order too. Each call that takes `steps` counts one.
#[derive(Drop)]
pub struct TreeCells {
    rows: FreeTwoKeyRows<Elem>,
    columns: FreeTwoKeyRows<()>,
}

impl Model for TreeCells {
    ghost use Rattle.std.specs.Prelude.{List};
    ghost use Rattle.table_base.specs.Cells.{Cell};

    ghost Value = { List Cell };

    ghost use Rattle.table_base.specs.TreeCells.{AreTurned};

    ghost view = { λ t. t.rows };

    ghost invariant = { λ t. AreTurned t.rows t.columns };
}

impl TreeCells {
    /// A table with no cells.
    pub fn new(alloc: Global) -> Result<TreeCells, NoMemory>
        ensures { IfOk result (λ t. t ≡ []) }
    {
        Ok(TreeCells {
            rows: FreeTwoKeyRows::new(alloc),
            columns: FreeTwoKeyRows::new(alloc),
        })
    }

    /// The number of cells.
    pub fn len(&self) -> usize
        ensures len { result ≡ length self.now }
        ensures order { IsInBothOrder self.now }
    {
        self.rows.len()
    }

    /// The value at a row and a column.
    pub fn get<L: Ledger>(&self, r: Elem, c: Elem, steps: &mut Steps<L>) -> Option<Elem>
        ensures value { result ≡ value_in r c self.now }
        ensures step { steps.new ≡ steps.old + 1 }
    {
        steps.tick();
        self.rows.get(&r, &c)
    }

    /// Puts a value at a row and a column, and tells the one before. A cell that is there keeps its place, which takes no
    /// memory. A new one goes to its place in the order.
    pub fn put<L: Ledger>(
        &mut self,
        r: Elem,
        c: Elem,
        v: Elem,
        steps: &mut Steps<L>,
    ) -> Result<Option<Elem>, NoMemory>
        ensures before { IfOk result (λ before. before ≡ value_in r c self.old) }
        ensures ok { IfOk result (λ before. MatchOption before (AddsRow self.old self.new r (c, v)) (λ w. self.new ≡ with_value r c v self.old)) }
        ensures in_place { HasCell r c self.old → IsOk result }
        ensures err { OnErr result (self.new ≡ self.old) }
        ensures step { steps.new ≡ steps.old + 1 }
    {
        steps.tick();
        if self.rows.get(&r, &c).is_some() {
            let before = self.rows.replace(&r, &c, v);
            return Ok(Some(before));
        }
        self.columns.insert(&c, &r, ())?;
        if self.rows.insert(&r, &c, v).is_err() {
            self.columns.remove(&c, &r);
            return Err(NoMemory);
        }
        Ok(None)
    }

    /// Removes the cell at a row and a column, and tells its value.
    pub fn remove<L: Ledger>(&mut self, r: Elem, c: Elem, steps: &mut Steps<L>) -> Option<Elem>
        ensures value { result ≡ value_in r c self.old }
        ensures cells { self.new ≡ without_cell r c self.old }
        ensures step { steps.new ≡ steps.old + 1 }
    {
        steps.tick();
        self.take(&r, &c)
    }

    /// Removes every cell.
    pub fn clear(&mut self)
        ensures { self.new ≡ [] }
    {
        self.rows.clear();
        self.columns.clear();
    }

    /// Takes the cell at a row and a column out, and tells its value.
    fn take(&mut self, r: &Elem, c: &Elem) -> Option<Elem>
        ensures value { result ≡ value_in r.now c.now self.old }
        ensures cells { self.new ≡ without_cell r.now c.now self.old }
    {
        let value = self.rows.remove(r, c);
        self.columns.remove(c, r);
        value
    }

    /// The column of the first cell in a row.
    fn first_of_row(&self, r: &Elem) -> Option<Elem>
        ensures distinct { HasDistinctKeys (row r.now self.now) }
        ensures column { result ≡ first_key (row r.now self.now) }
    {
        let _len = self.rows.len();
        self.rows.first_of(r)
    }

    /// The row of the first cell in a column.
    fn first_of_column(&self, c: &Elem) -> Option<Elem>
        ensures distinct { HasDistinctKeys (column c.now self.now) }
        ensures row { result ≡ first_key (column c.now self.now) }
    {
        let _len = self.rows.len();
        let _columns_len = self.columns.len();
        self.columns.first_of(c)
    }

    /// The number of cells in a column.
    fn count_of_column(&self, c: &Elem) -> usize
        ensures { result ≡ length (column c.now self.now) }
    {
        let _len = self.rows.len();
        let _columns_len = self.columns.len();
        self.columns.count_of(c)
    }
}
