//! Rows that come to a base.
ghost use Rattle.std.specs.Prelude.{◌≡◌, ◌<◌, ◌≤◌, ◌+◌, ◌⊎◌, [], ◌∷◌, false, length, true, IfErr, IfOk, OnErr, OnOk};
ghost use Rattle.base_rows.specs.Adding.{is_one_more, IsPlaceFault};
ghost use Rattle.base_rows.specs.BaseRows.{kind_of, rows_of, AreRowsOf, IsFree, IsRowOf, IsSpotIn};
ghost use Rattle.machine.specs.CallEdits.{forcing_at};
ghost use Rattle.machine.specs.Edits.{coming, is_structural, placed_all, without_rows};
ghost use Rattle.machine.specs.Placing.{placed_at, takes_row};
ghost use Rattle.vocabulary.specs.Kinds.{shape_of_kind};
ghost use Rattle.vocabulary.specs.Shapes.{is_bimap};
ghost use Rattle.vocabulary.specs.declared.refusals.Refusal.TheVariants as refusals;

mod keyed;
pub mod listed;
pub mod pairs;
pub mod row_values;
mod sorted;

use self::keyed::{put_all, put_row};
use self::listed::{place_item, place_items};
use self::pairs::{force_pair, place_pair};
use self::sorted::{put_all_sorted, put_sorted};
use super::BaseRows;
use crate::PlaceFault;
use elem::{NoMemory, Steps};
use std::alloc::Global;
use std::sync::ledger::Ledger;
use vocabulary::{Item, Refusal, Spot, key_of};

impl BaseRows {
    /// Puts a row in its spot, and tells whether a row came or a pair of a bimap became another. It takes memory only
    /// where a row is added, and in a bimap.
    pub fn place<L: Ledger>(
        &mut self,
        spot: Spot,
        row: &Item,
        steps: &mut Steps<L>,
    ) -> Result<bool, PlaceFault>
        requires fits { IsRowOf (kind_of self.old) row.now }
        requires spot { IsSpotIn (kind_of self.old) (length (rows_of self.old)) spot }
        ensures kind { kind_of self.new ≡ kind_of self.old }
        ensures ok { OnOk result (rows_of self.new ≡ placed_at (kind_of self.old) spot (rows_of self.old) row.now) }
        ensures taken { OnOk result (takes_row (kind_of self.old) spot (rows_of self.old) row.now ≡ true) }
        ensures structural { IfOk result (λ changed. changed ≡ is_structural (kind_of self.old) (rows_of self.old) (rows_of self.old) (rows_of self.new)) }
        ensures err { OnErr result (rows_of self.new ≡ rows_of self.old) }
        ensures cause { IfErr result (IsPlaceFault (kind_of self.old) spot (rows_of self.old) row.now) }
        ensures steps { steps.new ≤ steps.old + 1 }
    {
        if let BaseRows::HashBiMap(rows) = self {
            return place_pair(rows, spot, row, steps);
        }
        let size = self.len();
        match self.place_row(spot, row, steps) {
            Ok(()) => Ok(size < self.len()),
            Err(NoMemory) => Err(PlaceFault::NoMemory),
        }
    }

    /// Puts a row in its spot of a list, a set or a map. It takes memory only where a row is added.
    fn place_row<L: Ledger>(
        &mut self,
        spot: Spot,
        row: &Item,
        steps: &mut Steps<L>,
    ) -> Result<(), NoMemory>
        requires other { is_bimap (shape_of_kind (kind_of self.old)) ≡ false }
        requires fits { IsRowOf (kind_of self.old) row.now }
        requires spot { IsSpotIn (kind_of self.old) (length (rows_of self.old)) spot }
        ensures kind { kind_of self.new ≡ kind_of self.old }
        ensures ok { OnOk result (rows_of self.new ≡ placed_at (kind_of self.old) spot (rows_of self.old) row.now) }
        ensures err { OnErr result (rows_of self.new ≡ rows_of self.old) }
        ensures memory { OnErr result (is_one_more (kind_of self.old) spot (rows_of self.old) row.now ≡ true) }
        ensures steps { steps.new ≤ steps.old + 1 }
    {
        match self {
            BaseRows::ArrayList(rows) => place_item(rows, spot, key_of(row), steps),
            BaseRows::LinkedHashSet(rows) => put_row(rows, row, steps),
            BaseRows::TreeSet(rows) => put_sorted(rows, row, steps),
            BaseRows::TreeSetReverse(rows) => put_sorted(rows, row, steps),
            BaseRows::TreeSetLength(rows) => put_sorted(rows, row, steps),
            BaseRows::LinkedHashMap(rows) => put_row(rows, row, steps),
            BaseRows::TreeMap(rows) => put_sorted(rows, row, steps),
            BaseRows::TreeMapReverse(rows) => put_sorted(rows, row, steps),
            BaseRows::TreeMapLength(rows) => put_sorted(rows, row, steps),
            BaseRows::HashBiMap(_) => unreachable!(),
        }
    }

    /// Puts a pair in its spot of a bimap, and tells whether a pair came, went or became another. Those go that have a
    /// partner of its own.
    pub fn force<L: Ledger>(
        &mut self,
        spot: Spot,
        row: &Item,
        steps: &mut Steps<L>,
    ) -> Result<bool, NoMemory>
        requires bimap { is_bimap (shape_of_kind (kind_of self.old)) ≡ true }
        requires fits { IsRowOf (kind_of self.old) row.now }
        requires spot { IsSpotIn (kind_of self.old) (length (rows_of self.old)) spot }
        ensures kind { kind_of self.new ≡ kind_of self.old }
        ensures ok { OnOk result (rows_of self.new ≡ placed_at (kind_of self.old) spot (without_rows (forcing_at spot (rows_of self.old) (row.now ∷ [])).gone 0 (rows_of self.old)) row.now) }
        ensures taken { takes_row (kind_of self.old) spot (without_rows (forcing_at spot (rows_of self.old) (row.now ∷ [])).gone 0 (rows_of self.old)) row.now ≡ true }
        ensures structural { IfOk result (λ changed. changed ≡ is_structural (kind_of self.old) (rows_of self.old) (without_rows (forcing_at spot (rows_of self.old) (row.now ∷ [])).gone 0 (rows_of self.old)) (rows_of self.new)) }
        ensures err { OnErr result (rows_of self.new ≡ rows_of self.old) }
        ensures steps { steps.new ≤ steps.old + 1 }
    {
        match self {
            BaseRows::HashBiMap(rows) => force_pair(rows, spot, row, steps),
            _ => unreachable!(),
        }
    }

    /// Puts rows in their spot, one after another, where no more than so many new ones come. All or none are put. It is
    /// for bases other than bimaps, to which no call puts several pairs.
    pub fn place_all<L: Ledger>(
        &mut self,
        alloc: Global,
        spot: Spot,
        rows: &[Item],
        room: usize,
        steps: &mut Steps<L>,
    ) -> Result<(), Refusal>
        requires fits { AreRowsOf (kind_of self.old) rows.now }
        requires spot { IsSpotIn (kind_of self.old) (length (rows_of self.old)) spot }
        requires free { IsFree spot }
        requires other { is_bimap (shape_of_kind (kind_of self.old)) ≡ false }
        ensures kind { kind_of self.new ≡ kind_of self.old }
        ensures ok { OnOk result (rows_of self.new ≡ placed_all (kind_of self.old) (rows_of self.old) (coming spot rows.now)) }
        ensures few { OnOk result (length (rows_of self.new) ≤ length (rows_of self.old) + room) }
        ensures err { OnErr result (rows_of self.new ≡ rows_of self.old) }
        ensures cause { IfErr result (λ why. ((why ≡ refusals.Limit) × (length (rows_of self.old) + room < length (placed_all (kind_of self.old) (rows_of self.old) (coming spot rows.now)))) ⊎ (why ≡ refusals.NoMemory)) }
    {
        match self {
            BaseRows::ArrayList(list) => place_items(list, spot, rows, room, steps),
            BaseRows::LinkedHashSet(set) => put_all(alloc, set, rows, room, steps),
            BaseRows::TreeSet(set) => put_all_sorted(alloc, set, rows, room, steps),
            BaseRows::TreeSetReverse(set) => put_all_sorted(alloc, set, rows, room, steps),
            BaseRows::TreeSetLength(set) => put_all_sorted(alloc, set, rows, room, steps),
            BaseRows::LinkedHashMap(map) => put_all(alloc, map, rows, room, steps),
            BaseRows::TreeMap(map) => put_all_sorted(alloc, map, rows, room, steps),
            BaseRows::TreeMapReverse(map) => put_all_sorted(alloc, map, rows, room, steps),
            BaseRows::TreeMapLength(map) => put_all_sorted(alloc, map, rows, room, steps),
            BaseRows::HashBiMap(_) => unreachable!(),
        }
    }
}
