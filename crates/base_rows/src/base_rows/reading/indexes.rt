//! The items of a list, one after another, and items by their indexes.
ghost use Rattle.std.specs.Prelude.{◌≡◌, ◌≤◌, ◌+◌, IfSome, Some, List, length, slice_get, option_and_then, option_map};
ghost use Rattle.std.specs.List.{position};
ghost use Rattle.base_rows.specs.BaseRows.{items};
ghost use Rattle.base_rows.specs.BaseSpots.{numbered};
ghost use Rattle.base_rows.specs.KeyLines as spec;
ghost use Rattle.view_laws.specs.Following.{Follows, IsFrom};
ghost use Rattle.view_laws.specs.Lanes.{turned_if};
ghost use Rattle.view_laws.specs.Spots.{row_at};
ghost use Rattle.view_laws.specs.declared.places.RowSpot.TheVariants as spot;
ghost use Rattle.vocabulary.specs.Items.{same_item};
ghost use Rattle.vocabulary.specs.declared.items.Item.{Item as AnItem};
ghost use Rattle.vocabulary.specs.declared.items.Item.TheVariants.{One};

use crate::SpottedRow;
use elem::{Elem, Steps};
use plain_base::ArrayRows;
use std::sync::ledger::Ledger;
use view_laws::RowSpot;
use vocabulary::Item;

/// The index that a spot is.
pub fn index_at(spot: &Option<RowSpot>) -> Option<usize>
    ensures { result ≡ option_and_then spec.index_at spot.now }
{
    match spot {
        Some(RowSpot::Index(i)) => Some(*i),
        _ => None,
    }
}

/// The item that follows that at an index of a list, or the first one.
pub fn next_item<L: Ledger>(
    rows: &ArrayRows,
    back: bool,
    from: Option<usize>,
    steps: &mut Steps<L>,
) -> Option<SpottedRow>
    requires { IsFrom (turned_if back (numbered 0 (items rows.now))) (option_map spot.Index from) }
    ensures next { Follows (turned_if back (numbered 0 (items rows.now))) (option_map spot.Index from) (option_map (λ found. found.spot) result) }
    ensures row { IfSome result (λ found. row_at (numbered 0 (items rows.now)) (items rows.now) found.spot ≡ Some found.row) }
    ensures step { steps.new ≤ steps.old + 1 }
{
    let i = next_index(rows, back, from)?;
    let x = rows.at(i, steps)?;
    Some(SpottedRow {
        spot: RowSpot::Index(i),
        row: Item::One(x),
    })
}

/// The index that follows another in a list, or the first one.
fn next_index(rows: &ArrayRows, back: bool, from: Option<usize>) -> Option<usize>
    requires { IsFrom (turned_if back (numbered 0 (items rows.now))) (option_map spot.Index from) }
    ensures { Follows (turned_if back (numbered 0 (items rows.now))) (option_map spot.Index from) (option_map spot.Index result) }
{
    let len = rows.len();
    match from {
        None => first_index(len, back),
        Some(i) => {
            if back {
                if i == 0 { None } else { Some(i - 1) }
            } else if i + 1 < len {
                Some(i + 1)
            } else {
                None
            }
        }
    }
}

/// The first index of a list of so many items, from the front or from the back.
fn first_index(len: usize, back: bool) -> Option<usize>
    ensures { (rows : List AnItem) → length rows ≡ len → slice_get (turned_if back (numbered 0 rows)) 0 ≡ option_map spot.Index result }
{
    if len == 0 {
        None
    } else if back {
        Some(len - 1)
    } else {
        Some(0)
    }
}

/// The item at an index.
pub fn item_at<L: Ledger>(rows: &ArrayRows, i: usize, steps: &mut Steps<L>) -> Option<Item>
    ensures row { result ≡ slice_get (items rows.now) i }
    ensures step { steps.new ≤ steps.old + 1 }
{
    match rows.at(i, steps) {
        Some(x) => Some(Item::One(x)),
        None => None,
    }
}

/// The index of the first item that is the same as an element.
pub fn index_of_item<L: Ledger>(rows: &ArrayRows, x: &Elem, steps: &mut Steps<L>) -> Option<usize>
    ensures index { result ≡ position (same_item (One x.now)) (items rows.now) }
    ensures step { steps.new ≤ steps.old + 1 }
{
    rows.find(*x, steps)
}
