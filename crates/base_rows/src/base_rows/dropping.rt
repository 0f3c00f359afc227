//! Rows that go from a base.
ghost use Rattle.std.specs.Prelude.{◌≡◌, ◌≤◌, ◌+◌, ℕ, List, [], Some, filter, is_some, not, true};
ghost use Rattle.base_rows.specs.BaseRows.{base_spots, kind_of, rows_of};
ghost use Rattle.base_rows.specs.Reaches.{Reaches};
ghost use Rattle.elem.specs.Keyed.{value_at};
ghost use Rattle.vocabulary.specs.declared.items.Item.{Item as AnItem};
ghost use Rattle.machine.specs.Edits.{without_rows};
ghost use Rattle.vocabulary.specs.Items.{key_of, second_of};
ghost use Rattle.base_rows.specs.BaseSpots.{IsRowAt};
ghost use Rattle.vocabulary.specs.Kinds.{shape_of_kind};
ghost use Rattle.vocabulary.specs.Shapes.{is_bimap};
ghost use Rattle.view_laws.specs.Following.{IsFrom};
ghost use Rattle.view_laws.specs.ItemForms.{has_form};
ghost use Rattle.view_laws.specs.Lanes.{takes};
ghost use Rattle.view_laws.specs.Serving.{Serves};

mod keyed;
mod listed;
mod pairs;
mod windowed;

use self::keyed::{drop_keys, drop_rows, remove_key};
use self::listed::{drop_items, remove_index};
use self::pairs::drop_values;
use self::windowed::drop_sorted;
use super::BaseRows;
use super::found_rows::ByKey;
use crate::RowTest;
use crate::reach::Reach;
use bimap_base::PairRows;
use elem::{Elem, Keyed, Steps};
use linked_base::FreeLinkedMap;
use std::sync::ledger::Ledger;
use view_laws::{Lane, RowSpot};
use vocabulary::Side;

impl BaseRows {
    /// Removes the row at a spot. It takes no memory.
    pub fn remove<L: Ledger>(&mut self, at: &RowSpot, steps: &mut Steps<L>)
        requires { IsFrom (base_spots self.old) (Some at.now) }
        ensures kind { kind_of self.new ≡ kind_of self.old }
        ensures rows { (numbers : List ℕ) → IsRowAt (base_spots self.old) at.now numbers → rows_of self.new ≡ without_rows numbers 0 (rows_of self.old) }
        ensures steps { steps.new ≤ steps.old + 1 }
    {
        match self {
            BaseRows::ArrayList(rows) => remove_index(rows, at, steps),
            BaseRows::LinkedHashSet(rows) => remove_key(rows, at, steps),
            BaseRows::TreeSet(rows) => remove_key(rows, at, steps),
            BaseRows::TreeSetReverse(rows) => remove_key(rows, at, steps),
            BaseRows::TreeSetLength(rows) => remove_key(rows, at, steps),
            BaseRows::LinkedHashMap(rows) => remove_key(rows, at, steps),
            BaseRows::TreeMap(rows) => remove_key(rows, at, steps),
            BaseRows::TreeMapReverse(rows) => remove_key(rows, at, steps),
            BaseRows::TreeMapLength(rows) => remove_key(rows, at, steps),
            BaseRows::HashBiMap(rows) => remove_key(rows, at, steps),
        }
    }

    /// Removes every row.
    pub fn clear(&mut self)
        ensures kind { kind_of self.new ≡ kind_of self.old }
        ensures rows { rows_of self.new ≡ [] }
    {
        match self {
            BaseRows::ArrayList(rows) => rows.clear(),
            BaseRows::LinkedHashSet(rows) => rows.clear(),
            BaseRows::TreeSet(rows) => rows.clear(),
            BaseRows::TreeSetReverse(rows) => rows.clear(),
            BaseRows::TreeSetLength(rows) => rows.clear(),
            BaseRows::LinkedHashMap(rows) => rows.clear(),
            BaseRows::TreeMap(rows) => rows.clear(),
            BaseRows::TreeMapReverse(rows) => rows.clear(),
            BaseRows::TreeMapLength(rows) => rows.clear(),
            BaseRows::HashBiMap(rows) => rows.clear(),
        }
    }

    /// Removes every row that passes a test. It looks at those within its reach alone, and takes no memory.
    pub fn drop_all<T: RowTest, L: Ledger>(
        &mut self,
        reach: Reach<'_>,
        test: &T,
        steps: &mut Steps<L>,
    )
        requires { Reaches (kind_of self.old) reach (T.passes test.now) }
        ensures kind { kind_of self.new ≡ kind_of self.old }
        ensures rows { rows_of self.new ≡ filter (λ row. not (T.passes test.now row)) (rows_of self.old) }
    {
        match reach {
            Reach::Whole => self.clear(),
            Reach::Along(lane) => self.drop_along(lane, test, steps),
            Reach::At(Side::First, keys) => self.drop_at(keys, test, steps),
            Reach::At(Side::Second, values) => self.drop_of_values(values, test, steps),
        }
    }

    /// Removes every row that passes a test, where each of them stands in a lane.
    fn drop_along<T: RowTest, L: Ledger>(&mut self, lane: &Lane, test: &T, steps: &mut Steps<L>)
        requires serves { Serves (kind_of self.old) lane.now }
        requires reach { (row : AnItem) → has_form (shape_of_kind (kind_of self.old)) row ≡ true → T.passes test.now row ≡ true → takes lane.now row ≡ true }
        ensures kind { kind_of self.new ≡ kind_of self.old }
        ensures rows { rows_of self.new ≡ filter (λ row. not (T.passes test.now row)) (rows_of self.old) }
    {
        match self {
            BaseRows::ArrayList(rows) => drop_items(rows, test, steps),
            BaseRows::LinkedHashSet(rows) => drop_rows(rows, test, steps),
            BaseRows::TreeSet(rows) => drop_sorted(rows, &lane.first, test, steps),
            BaseRows::TreeSetReverse(rows) => drop_sorted(rows, &lane.first, test, steps),
            BaseRows::TreeSetLength(rows) => drop_sorted(rows, &lane.first, test, steps),
            BaseRows::LinkedHashMap(rows) => drop_rows(rows, test, steps),
            BaseRows::TreeMap(rows) => drop_sorted(rows, &lane.first, test, steps),
            BaseRows::TreeMapReverse(rows) => drop_sorted(rows, &lane.first, test, steps),
            BaseRows::TreeMapLength(rows) => drop_sorted(rows, &lane.first, test, steps),
            BaseRows::HashBiMap(rows) => drop_rows(rows, test, steps),
        }
    }

    /// Removes every row that passes a test, where each of them has one of some keys. A list is looked through.
    fn drop_at<T: RowTest, L: Ledger>(
        &mut self,
        keys: &FreeLinkedMap<()>,
        test: &T,
        steps: &mut Steps<L>,
    )
        requires { (row : AnItem) → has_form (shape_of_kind (kind_of self.old)) row ≡ true → T.passes test.now row ≡ true → is_some (value_at keys.now (key_of row)) ≡ true }
        ensures kind { kind_of self.new ≡ kind_of self.old }
        ensures rows { rows_of self.new ≡ filter (λ row. not (T.passes test.now row)) (rows_of self.old) }
    {
        match self {
            BaseRows::ArrayList(rows) => drop_items(rows, test, steps),
            BaseRows::LinkedHashSet(rows) => drop_keys(rows, keys, test, steps),
            BaseRows::TreeSet(rows) => drop_keys(rows, keys, test, steps),
            BaseRows::TreeSetReverse(rows) => drop_keys(rows, keys, test, steps),
            BaseRows::TreeSetLength(rows) => drop_keys(rows, keys, test, steps),
            BaseRows::LinkedHashMap(rows) => drop_keys(rows, keys, test, steps),
            BaseRows::TreeMap(rows) => drop_keys(rows, keys, test, steps),
            BaseRows::TreeMapReverse(rows) => drop_keys(rows, keys, test, steps),
            BaseRows::TreeMapLength(rows) => drop_keys(rows, keys, test, steps),
            BaseRows::HashBiMap(rows) => {
                drop_keys::<ByKey, Elem, PairRows, T, L>(rows, keys, test, steps)
            }
        }
    }

    /// Removes every pair that passes a test, where each of them has one of some values.
    fn drop_of_values<T: RowTest, L: Ledger>(
        &mut self,
        values: &FreeLinkedMap<()>,
        test: &T,
        steps: &mut Steps<L>,
    )
        requires bimap { is_bimap (shape_of_kind (kind_of self.old)) ≡ true }
        requires reach { (row : AnItem) → has_form (shape_of_kind (kind_of self.old)) row ≡ true → T.passes test.now row ≡ true → is_some (value_at values.now (second_of row)) ≡ true }
        ensures kind { kind_of self.new ≡ kind_of self.old }
        ensures rows { rows_of self.new ≡ filter (λ row. not (T.passes test.now row)) (rows_of self.old) }
    {
        match self {
            BaseRows::HashBiMap(rows) => drop_values(rows, values, test, steps),
            _ => unreachable!(),
        }
    }
}
