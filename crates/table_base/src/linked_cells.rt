ghost use Rattle.std.specs.Prelude.{◌≡◌, ◌+◌, [], length, true, false, IsOk, IfOk, OnOk, OnErr};
ghost use Rattle.table_base.specs.Cells.{HasCell, HasDistinctCells, IsGrouped, value_in, without_cell, with_put};

mod all_cells;
mod changing;
mod columns;
mod entries;
mod grouped_walks;
mod rows;
mod side_changes;
mod side_entries;
mod side_reads;
mod side_walks;
mod whole_cells;

use crate::cell_nodes::{CellNode, write_value};
use crate::spots::{Spot, place_of};
use elem::{Elem, NoMemory, Steps};
use hash_seed::{Seed, SeededMap};
use linked_base::group::Group;
use linked_base::thread::Ends;
use slab::Slab;
use std::alloc::Global;
use std::marker::Model;
use std::sync::ledger::Ledger;

/// A table of cells, a new cell last in its row and a new row last, as Guava's `Tables.newCustomTable` over linked hash
/// maps. Rows and columns go by their first cell. Each call that takes `steps` counts one.
#[derive(Drop)]
pub struct LinkedCells {
    nodes: Slab<CellNode>,
    all: Ends,
    rows: SeededMap<Elem, Group>,
    columns: SeededMap<Elem, Group>,
    index: SeededMap<Spot, usize>,
    loose: bool,
}

impl Model for LinkedCells {
    ghost use Rattle.std.specs.HashMap as hash;
    ghost use Rattle.elem.specs.Elements.{same};
    ghost use Rattle.table_base.specs.Spots.{same_spot};
    ghost use Rattle.table_base.specs.Cells.{Table};

    ghost Value = { Table };

    ghost use Rattle.table_base.specs.CellNodes.{table_now, IsTable};

    ghost view = { λ m. table_now m.nodes m.all m.loose };

    ghost invariant = { λ m. IsTable m.nodes m.all (hash.get same m.rows) (hash.get same m.columns) (hash.get same_spot m.index) m.loose };
}

impl LinkedCells {
    /// A table with no cells, under the fixed seed.
    pub fn new(alloc: Global) -> Result<LinkedCells, NoMemory>
        ensures cells { IfOk result (λ t. t.cells ≡ []) }
        ensures kind { IfOk result (λ t. t.loose ≡ false) }
    {
        LinkedCells::with_hasher(alloc, Seed::fixed())
    }

    /// A table with no cells, whose rows and columns are hashed by a seed.
    pub fn with_hasher(alloc: Global, seed: Seed) -> Result<LinkedCells, NoMemory>
        ensures cells { IfOk result (λ t. t.cells ≡ []) }
        ensures kind { IfOk result (λ t. t.loose ≡ false) }
    {
        Ok(LinkedCells::empty(alloc, seed, false))
    }

    /// A table with no cells, where a new cell goes last of all. So the cells stay in the order of their putting, as
    /// those of Guava's `ImmutableTable`. The seed is the fixed one.
    pub fn loose(alloc: Global) -> Result<LinkedCells, NoMemory>
        ensures cells { IfOk result (λ t. t.cells ≡ []) }
        ensures kind { IfOk result (λ t. t.loose ≡ true) }
    {
        LinkedCells::loose_with_hasher(alloc, Seed::fixed())
    }

    /// A table with no cells, where a new cell goes last of all, and rows and columns are hashed by a seed.
    pub fn loose_with_hasher(alloc: Global, seed: Seed) -> Result<LinkedCells, NoMemory>
        ensures cells { IfOk result (λ t. t.cells ≡ []) }
        ensures kind { IfOk result (λ t. t.loose ≡ true) }
    {
        Ok(LinkedCells::empty(alloc, seed, true))
    }

    /// The number of cells.
    pub fn len(&self) -> usize
        ensures len { result ≡ length self.now.cells }
        ensures distinct { HasDistinctCells self.now.cells }
        ensures grouped { self.now.loose ≡ false → IsGrouped self.now.cells }
    {
        self.nodes.len()
    }

    /// The value at a row and a column.
    pub fn get<L: Ledger>(&self, r: Elem, c: Elem, steps: &mut Steps<L>) -> Option<Elem>
        ensures value { result ≡ value_in r c self.now.cells }
        ensures step { steps.new ≡ steps.old + 1 }
    {
        steps.tick();
        let place = place_of(&self.index, &r, &c)?;
        Some(self.nodes[place].value)
    }

    /// Puts a value at a row and a column, and tells the one before. A cell that is there keeps its place, which takes no
    /// memory. A new one goes last in its row, or last of all where its row is new or the table loose.
    ///
    /// Where the column has cells and the row is not the last, the new cell's place in the column is sought from the row's
    /// end along the cells, both ways up to the nearer cell of the column. Else a put takes no walk.
    pub fn put<L: Ledger>(
        &mut self,
        r: Elem,
        c: Elem,
        v: Elem,
        steps: &mut Steps<L>,
    ) -> Result<Option<Elem>, NoMemory>
        ensures before { IfOk result (λ before. before ≡ value_in r c self.old.cells) }
        ensures ok { OnOk result (self.new.cells ≡ with_put r c v self.old) }
        ensures kind { self.new.loose ≡ self.old.loose }
        ensures in_place { HasCell r c self.old.cells → IsOk result }
        ensures err { OnErr result (self.new ≡ self.old) }
        ensures step { steps.new ≡ steps.old + 1 }
    {
        steps.tick();
        if let Some(place) = place_of(&self.index, &r, &c) {
            let before = self.nodes[place].value;
            write_value(&mut self.nodes, place, &v);
            return Ok(Some(before));
        }
        self.add(&r, &c, &v)?;
        Ok(None)
    }

    /// Removes the cell at a row and a column, and tells its value.
    pub fn remove<L: Ledger>(&mut self, r: Elem, c: Elem, steps: &mut Steps<L>) -> Option<Elem>
        ensures value { result ≡ value_in r c self.old.cells }
        ensures cells { self.new.cells ≡ without_cell r c self.old.cells }
        ensures kind { self.new.loose ≡ self.old.loose }
        ensures step { steps.new ≡ steps.old + 1 }
    {
        steps.tick();
        self.take(&r, &c)
    }

    /// Removes every cell, and gives the memory back.
    pub fn clear(&mut self)
        ensures cells { self.new.cells ≡ [] }
        ensures kind { self.new.loose ≡ self.old.loose }
    {
        self.nodes.clear();
        self.nodes.shrink_to_fit();
        self.rows.clear();
        self.rows.shrink_to_fit();
        self.columns.clear();
        self.columns.shrink_to_fit();
        self.index.clear();
        self.index.shrink_to_fit();
        self.all = Ends {
            first: None,
            last: None,
        };
    }

    /// A table with no cells, loose or not.
    fn empty(alloc: Global, seed: Seed, loose: bool) -> LinkedCells
        ensures cells { result.cells ≡ [] }
        ensures kind { result.loose ≡ loose }
    {
        LinkedCells {
            nodes: Slab::new(alloc),
            all: Ends {
                first: None,
                last: None,
            },
            rows: SeededMap::with_hasher(alloc, seed),
            columns: SeededMap::with_hasher(alloc, seed),
            index: SeededMap::with_hasher(alloc, seed),
            loose,
        }
    }
}
