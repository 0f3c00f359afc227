//! Cells that come to a table.
ghost use Rattle.std.specs.Prelude.{◌≡◌, ◌<◌, ◌≤◌, ◌+◌, ◌⊎◌, None, length, IfErr, IfOk, IsOk, OnErr, OnOk};
ghost use Rattle.cell_rows.specs.CellRows.{cells_of, kind_of, rows_of, AreCells, IsCell};
ghost use Rattle.cell_rows.specs.CellSpots.{row_of_cell};
ghost use Rattle.cell_rows.specs.Journals.{all_undone, undone, IsPut};
ghost use Rattle.machine.specs.Edits.{coming, is_structural, placed_all};
ghost use Rattle.machine.specs.Placing.{placed_at};
ghost use Rattle.table_base.specs.Cells.{HasCell, without_cell};
ghost use Rattle.vocabulary.specs.Items as parts;
ghost use Rattle.vocabulary.specs.declared.edits.Spot.TheVariants.{Own};
ghost use Rattle.vocabulary.specs.declared.kinds.Kind.TheVariants as kinds;
ghost use Rattle.vocabulary.specs.declared.refusals.Refusal.TheVariants as refusals;

use super::CellRows;
use crate::GroupedCells;
use crate::journal::Before;
use elem::{Elem, NoMemory, Steps};
use std::alloc::Global;
use std::sync::ledger::Ledger;
use table_base::TreeCells;
use vocabulary::{Item, Refusal, key_of, second_of, value_of};

/// Puts a value in a linked table, and tells the one before.
fn put_linked<L: Ledger>(
    table: &mut GroupedCells,
    r: Elem,
    c: Elem,
    v: Elem,
    steps: &mut Steps<L>,
) -> Result<Option<Elem>, NoMemory>
    ensures ok { IfOk result (λ before. IsPut kinds.LinkedTable table.old.cells.cells r c v before table.new.cells.cells) }
    ensures in_place { HasCell r c table.old.cells.cells → IsOk result }
    ensures err { OnErr result (table.new.cells.cells ≡ table.old.cells.cells) }
    ensures step { steps.new ≡ steps.old + 1 }
{
    let _len = table.cells.len();
    table.cells.put(r, c, v, steps)
}

/// The same of a sorted table.
fn put_sorted<L: Ledger>(
    table: &mut TreeCells,
    r: Elem,
    c: Elem,
    v: Elem,
    steps: &mut Steps<L>,
) -> Result<Option<Elem>, NoMemory>
    ensures ok { IfOk result (λ before. IsPut kinds.TreeBasedTable table.old r c v before table.new) }
    ensures in_place { HasCell r c table.old → IsOk result }
    ensures err { OnErr result (table.new ≡ table.old) }
    ensures step { steps.new ≡ steps.old + 1 }
{
    let _len = table.len();
    let before = table.put(r, c, v, steps)?;
    let _len_then = table.len();
    Ok(before)
}

impl CellRows {
    /// Puts a cell in its place, and tells whether a cell came. It takes memory only where one comes.
    pub fn place<L: Ledger>(&mut self, row: &Item, steps: &mut Steps<L>) -> Result<bool, NoMemory>
        requires fits { IsCell row.now }
        ensures kind { kind_of self.new ≡ kind_of self.old }
        ensures ok { OnOk result (rows_of self.new ≡ placed_at (kind_of self.old) Own (rows_of self.old) row.now) }
        ensures structural { IfOk result (λ changed. changed ≡ is_structural (kind_of self.old) (rows_of self.old) (rows_of self.old) (rows_of self.new)) }
        ensures err { OnErr result (rows_of self.new ≡ rows_of self.old) }
        ensures memory { OnErr result (row_of_cell (rows_of self.old) (parts.key_of row.now) (parts.second_of row.now) ≡ None) }
        ensures steps { steps.new ≤ steps.old + 1 }
    {
        let size = self.len();
        match self.put_row(row, steps) {
            Ok(_) => Ok(size < self.len()),
            Err(NoMemory) => Err(NoMemory),
        }
    }

    /// Puts cells in their places, one after another, where no more than so many new ones come. All or none are put.
    pub fn place_all<L: Ledger>(
        &mut self,
        alloc: Global,
        rows: &[Item],
        room: usize,
        steps: &mut Steps<L>,
    ) -> Result<(), Refusal>
        requires fits { AreCells rows.now }
        ensures kind { kind_of self.new ≡ kind_of self.old }
        ensures ok { OnOk result (rows_of self.new ≡ placed_all (kind_of self.old) (rows_of self.old) (coming Own rows.now)) }
        ensures few { OnOk result (length (rows_of self.new) ≤ length (rows_of self.old) + room) }
        ensures err { OnErr result (rows_of self.new ≡ rows_of self.old) }
        ensures cause { IfErr result (λ why. ((why ≡ refusals.Limit) × (length (rows_of self.old) + room < length (placed_all (kind_of self.old) (rows_of self.old) (coming Own rows.now)))) ⊎ (why ≡ refusals.NoMemory)) }
    {
        let size = self.len();
        let Ok(mut journal) = Vec::with_capacity(alloc, rows.len()) else {
            return Err(Refusal::NoMemory);
        };
        for row in rows {
            let Ok(value) = self.put_row(row, steps) else {
                self.undo_all(journal, steps);
                return Err(Refusal::NoMemory);
            };
            journal.push_reserved(Before {
                row: key_of(row),
                column: second_of(row),
                value,
            });
            if self.len() - size > room {
                self.undo_all(journal, steps);
                return Err(Refusal::Limit);
            }
        }
        Ok(())
    }

    /// Puts a cell in its place, and tells the value before.
    fn put_row<L: Ledger>(
        &mut self,
        row: &Item,
        steps: &mut Steps<L>,
    ) -> Result<Option<Elem>, NoMemory>
        ensures kind { kind_of self.new ≡ kind_of self.old }
        ensures ok { IfOk result (λ before. IsPut (kind_of self.old) (cells_of self.old) (parts.key_of row.now) (parts.second_of row.now) (parts.value_of row.now) before (cells_of self.new)) }
        ensures in_place { HasCell (parts.key_of row.now) (parts.second_of row.now) (cells_of self.old) → IsOk result }
        ensures err { OnErr result (cells_of self.new ≡ cells_of self.old) }
        ensures step { steps.new ≡ steps.old + 1 }
    {
        let r = key_of(row);
        let c = second_of(row);
        let v = value_of(row);
        self.put_cell(r, c, v, steps)
    }

    /// Puts a value at a row and a column, and tells the one before.
    fn put_cell<L: Ledger>(
        &mut self,
        r: Elem,
        c: Elem,
        v: Elem,
        steps: &mut Steps<L>,
    ) -> Result<Option<Elem>, NoMemory>
        ensures kind { kind_of self.new ≡ kind_of self.old }
        ensures ok { IfOk result (λ before. IsPut (kind_of self.old) (cells_of self.old) r c v before (cells_of self.new)) }
        ensures in_place { HasCell r c (cells_of self.old) → IsOk result }
        ensures err { OnErr result (cells_of self.new ≡ cells_of self.old) }
        ensures step { steps.new ≡ steps.old + 1 }
    {
        match self {
            CellRows::Linked(table) => put_linked(table, r, c, v, steps),
            CellRows::Sorted(table) => put_sorted(table, r, c, v, steps),
        }
    }

    /// Takes back what was put at a row and a column. It takes no memory.
    fn undo<L: Ledger>(&mut self, entry: &Before, steps: &mut Steps<L>)
        ensures kind { kind_of self.new ≡ kind_of self.old }
        ensures cells { cells_of self.new ≡ undone (cells_of self.old) entry.now.row entry.now.column entry.now.value }
    {
        let Some(value) = entry.value else {
            self.remove_cell(&entry.row, &entry.column, steps);
            return;
        };
        if self.value_at(&entry.row, &entry.column, steps).is_some() {
            let _before = self.put_cell(entry.row, entry.column, value, steps);
        }
    }

    /// Takes back all that a journal tells of, the last first. It takes no memory.
    fn undo_all<L: Ledger>(&mut self, mut journal: Vec<Before>, steps: &mut Steps<L>)
        ensures kind { kind_of self.new ≡ kind_of self.old }
        ensures cells { cells_of self.new ≡ all_undone (cells_of self.old) journal.items }
    {
        while let Some(entry) = journal.pop() {
            self.undo(&entry, steps);
        }
    }

    /// Removes the cell of a row and a column.
    pub(super) fn remove_cell<L: Ledger>(&mut self, r: &Elem, c: &Elem, steps: &mut Steps<L>)
        ensures kind { kind_of self.new ≡ kind_of self.old }
        ensures cells { cells_of self.new ≡ without_cell r.now c.now (cells_of self.old) }
        ensures step { steps.new ≡ steps.old + 1 }
    {
        match self {
            CellRows::Linked(table) => {
                table.cells.remove(*r, *c, steps);
            }
            CellRows::Sorted(table) => {
                table.remove(*r, *c, steps);
            }
        }
    }
}
