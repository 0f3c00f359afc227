//! Reading the rows of a base by their spots.
ghost use Rattle.std.specs.Prelude.{◌≡◌, ◌≤◌, ◌+◌, Bool, Some, true, not, length, IfSome, option_map};
ghost use Rattle.std.specs.List.{position};
ghost use Rattle.base_rows.specs.BaseRows.{base_line, base_spots, kind_of, rows_of, IsRowOf, IsSpotIn};
ghost use Rattle.base_rows.specs.BaseSpots as spec;
ghost use Rattle.base_rows.specs.KeyLines.{key_line, keys_in};
ghost use Rattle.machine.specs.Placing.{takes_row};
ghost use Rattle.vocabulary.specs.Kinds.{shape_of_kind};
ghost use Rattle.view_laws.specs.Following.{Follows, IsFrom};
ghost use Rattle.view_laws.specs.Spots as spots;
ghost use Rattle.view_laws.specs.Serving.{Serves, ServesPart, of_part};
ghost use Rattle.view_laws.specs.declared.lanes.PartAsk.TheVariants as asks;
ghost use Rattle.vocabulary.specs.Items as items;
ghost use Rattle.vocabulary.specs.Shapes.{is_bimap, is_keyed, is_list, is_unique};
ghost use Rattle.vocabulary.specs.declared.items.Item.TheVariants.{One};
ghost use Rattle.vocabulary.specs.declared.items.Side.TheVariants.{First, Second};

mod indexes;
mod keys;

use super::BaseRows;
use super::placing::pairs::is_bound;
use crate::SpottedRow;
use elem::{Elem, Steps};
use indexes::{index_at, index_of_item, item_at, next_item};
use keys::{entry_of_key, entry_of_value, key_at, member_of_key, next_linked, next_sorted};
use std::sync::ledger::Ledger;
use view_laws::{Lane, PartAsk, RowSpot};
use vocabulary::{Item, Side, Spot, key_of};

impl BaseRows {
    /// The row that follows that at a spot in a lane, or the first one, with its spot.
    pub fn next_row<L: Ledger>(
        &self,
        lane: &Lane,
        back: bool,
        from: &Option<RowSpot>,
        steps: &mut Steps<L>,
    ) -> Option<SpottedRow>
        requires serves { Serves (kind_of self.now) lane.now }
        requires from { IsFrom (base_line self.now lane.now back) from.now }
        ensures next { Follows (base_line self.now lane.now back) from.now (option_map (λ found. found.spot) result) }
        ensures row { IfSome result (λ found. spots.row_at (base_spots self.now) (rows_of self.now) found.spot ≡ Some found.row) }
        ensures step { steps.new ≤ steps.old + 1 }
    {
        match &lane.second {
            PartAsk::Any => self.next_by_first(lane, back, from, steps),
            PartAsk::Is(v) => self.next_of_value(v, from, steps),
            _ => None,
        }
    }

    /// The row that follows in a lane that asks for nothing but the first part.
    fn next_by_first<L: Ledger>(
        &self,
        lane: &Lane,
        back: bool,
        from: &Option<RowSpot>,
        steps: &mut Steps<L>,
    ) -> Option<SpottedRow>
        requires serves { Serves (kind_of self.now) lane.now }
        requires values { lane.now.second ≡ asks.Any }
        requires from { IsFrom (base_line self.now lane.now back) from.now }
        ensures next { Follows (base_line self.now lane.now back) from.now (option_map (λ found. found.spot) result) }
        ensures row { IfSome result (λ found. spots.row_at (base_spots self.now) (rows_of self.now) found.spot ≡ Some found.row) }
        ensures step { steps.new ≤ steps.old + 1 }
    {
        match self {
            BaseRows::ArrayList(rows) => match lane.first {
                PartAsk::Any => next_item(rows, back, index_at(from), steps),
                _ => None,
            },
            _ => self.next_keyed(&lane.first, back, key_at(from), steps),
        }
    }

    /// The one pair of a bimap that has a value, where no spot stands before it. None follows it.
    fn next_of_value<L: Ledger>(
        &self,
        v: &Elem,
        from: &Option<RowSpot>,
        steps: &mut Steps<L>,
    ) -> Option<SpottedRow>
        requires bimap { is_bimap (shape_of_kind (kind_of self.now)) ≡ true }
        ensures next { (back : Bool) → Follows (base_line self.now (of_part Second v.now) back) from.now (option_map (λ found. found.spot) result) }
        ensures row { IfSome result (λ found. spots.row_at (base_spots self.now) (rows_of self.now) found.spot ≡ Some found.row) }
        ensures step { steps.new ≤ steps.old + 1 }
    {
        let _len = self.len();
        match from {
            None => match self.pair_of_value(v, steps) {
                Some(row) => Some(SpottedRow {
                    spot: RowSpot::Key(key_of(&row)),
                    row,
                }),
                None => None,
            },
            Some(_) => None,
        }
    }

    /// The row that follows that of a key in a set or a map, of those whose keys are as asked, or the first one.
    fn next_keyed<L: Ledger>(
        &self,
        ask: &PartAsk,
        back: bool,
        from: Option<Elem>,
        steps: &mut Steps<L>,
    ) -> Option<SpottedRow>
        requires keyed { is_keyed (shape_of_kind (kind_of self.now)) ≡ true }
        requires serves { ServesPart (kind_of self.now) First ask.now }
        requires from { IsFrom (key_line ask.now back (keys_in self.now)) from }
        ensures next { Follows (key_line ask.now back (keys_in self.now)) from (option_map (λ found. items.key_of found.row) result) }
        ensures spot { IfSome result (λ found. found.spot ≡ spec.key_spot found.row) }
        ensures row { IfSome result (λ found. spec.row_of_key (rows_of self.now) (items.key_of found.row) ≡ Some found.row) }
        ensures step { steps.new ≤ steps.old + 1 }
    {
        match self {
            BaseRows::ArrayList(_) => None,
            BaseRows::LinkedHashSet(rows) => next_linked(rows, ask, back, from, steps),
            BaseRows::TreeSet(rows) => next_sorted(rows, ask, back, from, steps),
            BaseRows::TreeSetReverse(rows) => next_sorted(rows, ask, back, from, steps),
            BaseRows::TreeSetLength(rows) => next_sorted(rows, ask, back, from, steps),
            BaseRows::LinkedHashMap(rows) => next_linked(rows, ask, back, from, steps),
            BaseRows::TreeMap(rows) => next_sorted(rows, ask, back, from, steps),
            BaseRows::TreeMapReverse(rows) => next_sorted(rows, ask, back, from, steps),
            BaseRows::TreeMapLength(rows) => next_sorted(rows, ask, back, from, steps),
            BaseRows::HashBiMap(rows) => next_linked(rows, ask, back, from, steps),
        }
    }

    /// The row at a spot.
    pub fn row_at<L: Ledger>(&self, at: &RowSpot, steps: &mut Steps<L>) -> Option<Item>
        requires { IsFrom (base_spots self.now) (Some at.now) }
        ensures row { result ≡ spots.row_at (base_spots self.now) (rows_of self.now) at.now }
        ensures step { steps.new ≤ steps.old + 1 }
    {
        let _len = self.len();
        match at {
            RowSpot::Index(i) => match self {
                BaseRows::ArrayList(rows) => item_at(rows, *i, steps),
                _ => None,
            },
            RowSpot::Key(k) => self.row_of_key(k, steps),
            _ => None,
        }
    }

    /// The row that has an element in a part that no two rows share: the key of a set or a map, and either part of a bimap.
    pub fn row_of_part<L: Ledger>(&self, side: Side, x: &Elem, steps: &mut Steps<L>) -> Option<Item>
        requires { is_unique (shape_of_kind (kind_of self.now)) side ≡ true }
        ensures row { result ≡ spec.row_of_part side (rows_of self.now) x.now }
        ensures step { steps.new ≤ steps.old + 1 }
    {
        match side {
            Side::First => self.row_of_key(x, steps),
            Side::Second => self.pair_of_value(x, steps),
        }
    }

    /// The row of a key.
    fn row_of_key<L: Ledger>(&self, k: &Elem, steps: &mut Steps<L>) -> Option<Item>
        requires { is_keyed (shape_of_kind (kind_of self.now)) ≡ true }
        ensures row { result ≡ spec.row_of_key (rows_of self.now) k.now }
        ensures step { steps.new ≤ steps.old + 1 }
    {
        match self {
            BaseRows::ArrayList(_) => None,
            BaseRows::LinkedHashSet(rows) => member_of_key(rows, k, steps),
            BaseRows::TreeSet(rows) => member_of_key(rows, k, steps),
            BaseRows::TreeSetReverse(rows) => member_of_key(rows, k, steps),
            BaseRows::TreeSetLength(rows) => member_of_key(rows, k, steps),
            BaseRows::LinkedHashMap(rows) => entry_of_key(rows, k, steps),
            BaseRows::TreeMap(rows) => entry_of_key(rows, k, steps),
            BaseRows::TreeMapReverse(rows) => entry_of_key(rows, k, steps),
            BaseRows::TreeMapLength(rows) => entry_of_key(rows, k, steps),
            BaseRows::HashBiMap(rows) => entry_of_key(rows, k, steps),
        }
    }

    /// The pair of a bimap that has a value.
    fn pair_of_value<L: Ledger>(&self, v: &Elem, steps: &mut Steps<L>) -> Option<Item>
        requires { is_bimap (shape_of_kind (kind_of self.now)) ≡ true }
        ensures row { result ≡ spec.row_of_part Second (rows_of self.now) v.now }
        ensures step { steps.new ≤ steps.old + 1 }
    {
        match self {
            BaseRows::HashBiMap(rows) => entry_of_value(rows, v, steps),
            _ => unreachable!(),
        }
    }

    /// Whether a bimap has the partner of a row bound to another, and refuses the row. No other base refuses one.
    pub fn binds_partner<L: Ledger>(&self, spot: Spot, row: &Item, steps: &mut Steps<L>) -> bool
        requires fits { IsRowOf (kind_of self.now) row.now }
        requires spot { IsSpotIn (kind_of self.now) (length (rows_of self.now)) spot }
        ensures bound { result ≡ not (takes_row (kind_of self.now) spot (rows_of self.now) row.now) }
        ensures step { steps.new ≤ steps.old + 1 }
    {
        match self {
            BaseRows::HashBiMap(rows) => is_bound(rows, spot, row, steps),
            _ => false,
        }
    }

    /// The index of the first row of a list that is the same as an element.
    pub fn find_item<L: Ledger>(&self, x: &Elem, steps: &mut Steps<L>) -> Option<usize>
        requires { is_list (shape_of_kind (kind_of self.now)) ≡ true }
        ensures index { result ≡ position (items.same_item (One x.now)) (rows_of self.now) }
        ensures step { steps.new ≤ steps.old + 1 }
    {
        match self {
            BaseRows::ArrayList(rows) => index_of_item(rows, x, steps),
            _ => None,
        }
    }
}
