//! The rows of a set or a map, one after another, and rows by their keys.
ghost use Rattle.std.specs.Prelude.{◌≡◌, ◌≤◌, ◌+◌, Bool, List, IfSome, Some, true, filter, option_and_then, option_map};
ghost use Rattle.std.specs.Map.{keys_of};
ghost use Rattle.base_rows.specs.BaseRows.{entries, members};
ghost use Rattle.base_rows.specs.BaseSpots.{key_spot, row_of_key, row_of_part};
ghost use Rattle.base_rows.specs.Journals.{items_by};
ghost use Rattle.elem.specs.declared.elements.Elem.{Elem as Element};
ghost use Rattle.vocabulary.specs.Items as items;
ghost use Rattle.vocabulary.specs.declared.items.Side.TheVariants.{Second};
ghost use Rattle.base_rows.specs.KeyLines as spec;
ghost use Rattle.base_rows.specs.KeyLines.{key_in, key_line, rest_of, HasNoWindow, HasWindowIn, IsOneOf};
ghost use Rattle.view_laws.specs.Following.{Follows, IsFrom};
ghost use Rattle.view_laws.specs.Lanes.{turned_if};
ghost use Rattle.view_laws.specs.declared.lanes.PartAsk.TheVariants as asks;
ghost use Rattle.elem.specs.Cuts.{cut_upto, lies_between};

use super::super::found_rows::{ByKey, FoundRows, WalkedRows};
use super::super::placing::row_values::RowValue;
use crate::SpottedRow;
use bimap_base::PairRows;
use elem::{Compare, Cut, Elem, Keyed, Steps, Window};
use plain_base::TreeMapRows;
use std::sync::ledger::Ledger;
use view_laws::{PartAsk, RowSpot};
use vocabulary::{Item, key_of};

/// The key that a spot is.
pub fn key_at(spot: &Option<RowSpot>) -> Option<Elem>
    ensures { result ≡ option_and_then spec.key_at spot.now }
{
    match spot {
        Some(RowSpot::Key(k)) => Some(*k),
        _ => None,
    }
}

/// The row of a key and of what stands beside it, and its spot, which is the key.
fn spotted<V: RowValue>(row: Option<(Elem, V)>) -> Option<SpottedRow>
    ensures key { option_map (λ found. items.key_of found.row) result ≡ key_in row }
    ensures spot { IfSome result (λ found. found.spot ≡ key_spot found.row) }
    ensures row { (rows : List (Element × V)) → IsOneOf rows row → IfSome result (λ found. row_of_key (items_by V.row_of rows) (items.key_of found.row) ≡ Some found.row) }
{
    match row {
        Some((k, v)) => {
            let row = V::row(k, v);
            let spot = RowSpot::Key(key_of(&row));
            Some(SpottedRow { spot, row })
        }
        None => None,
    }
}

/// The row that follows that of a key in a set or a map, of those whose keys are as asked, or the first one.
pub fn next_linked<V: RowValue, K: WalkedRows<V>, L: Ledger>(
    rows: &K,
    ask: &PartAsk,
    back: bool,
    from: Option<Elem>,
    steps: &mut Steps<L>,
) -> Option<SpottedRow>
    requires ask { HasNoWindow ask.now }
    requires from { IsFrom (key_line ask.now back (keys_of (K.rows rows.now))) from }
    ensures next { Follows (key_line ask.now back (keys_of (K.rows rows.now))) from (option_map (λ found. items.key_of found.row) result) }
    ensures spot { IfSome result (λ found. found.spot ≡ key_spot found.row) }
    ensures row { IfSome result (λ found. row_of_key (items_by V.row_of (K.rows rows.now)) (items.key_of found.row) ≡ Some found.row) }
    ensures step { steps.new ≤ steps.old + 1 }
{
    spotted(linked_row(rows, ask, back, from, steps))
}

/// The same of a sorted set or map.
pub fn next_sorted<V: RowValue, C: Compare, L: Ledger>(
    rows: &TreeMapRows<V, C>,
    ask: &PartAsk,
    back: bool,
    from: Option<Elem>,
    steps: &mut Steps<L>,
) -> Option<SpottedRow>
    requires ask { HasWindowIn C.before ask.now }
    requires from { IsFrom (key_line ask.now back (keys_of rows.now)) from }
    ensures next { Follows (key_line ask.now back (keys_of rows.now)) from (option_map (λ found. items.key_of found.row) result) }
    ensures spot { IfSome result (λ found. found.spot ≡ key_spot found.row) }
    ensures row { IfSome result (λ found. row_of_key (items_by V.row_of rows.now) (items.key_of found.row) ≡ Some found.row) }
    ensures step { steps.new ≤ steps.old + 1 }
{
    spotted(sorted_row(rows, ask, back, from, steps))
}

/// The key and the value of the row that follows, where no window is asked for.
fn linked_row<V: Copy, K: WalkedRows<V>, L: Ledger>(
    rows: &K,
    ask: &PartAsk,
    back: bool,
    from: Option<Elem>,
    steps: &mut Steps<L>,
) -> Option<(Elem, V)>
    requires ask { HasNoWindow ask.now }
    requires from { IsFrom (key_line ask.now back (keys_of (K.rows rows.now))) from }
    ensures next { Follows (key_line ask.now back (keys_of (K.rows rows.now))) from (key_in result) }
    ensures row { IsOneOf (K.rows rows.now) result }
    ensures step { steps.new ≤ steps.old + 1 }
{
    match ask {
        PartAsk::Any => walked_row(rows, back, from, steps),
        PartAsk::Is(k) => only_row(rows, k, from, steps),
        PartAsk::Within(_, _) => None,
        PartAsk::Nothing => None,
    }
}

/// The same of a sorted set or map.
fn sorted_row<V: Copy, C: Compare, L: Ledger>(
    rows: &TreeMapRows<V, C>,
    ask: &PartAsk,
    back: bool,
    from: Option<Elem>,
    steps: &mut Steps<L>,
) -> Option<(Elem, V)>
    requires ask { HasWindowIn C.before ask.now }
    requires from { IsFrom (key_line ask.now back (keys_of rows.now)) from }
    ensures next { Follows (key_line ask.now back (keys_of rows.now)) from (key_in result) }
    ensures row { IsOneOf rows.now result }
    ensures step { steps.new ≤ steps.old + 1 }
{
    match ask {
        PartAsk::Any => walked_row(rows, back, from, steps),
        PartAsk::Is(k) => only_row(rows, k, from, steps),
        PartAsk::Within(_, window) => next_in_window(rows, window, back, from, steps),
        PartAsk::Nothing => None,
    }
}

/// The row that follows that of a key in the order of the rows, or the first one.
fn walked_row<V: Copy, K: WalkedRows<V>, L: Ledger>(
    rows: &K,
    back: bool,
    from: Option<Elem>,
    steps: &mut Steps<L>,
) -> Option<(Elem, V)>
    requires { IsFrom (key_line asks.Any back (keys_of (K.rows rows.now))) from }
    ensures next { Follows (key_line asks.Any back (keys_of (K.rows rows.now))) from (key_in result) }
    ensures row { IsOneOf (K.rows rows.now) result }
    ensures step { steps.new ≤ steps.old + 1 }
{
    let _count = rows.count();
    match from {
        None => rows.end_row(back, steps),
        Some(k) => rows.next_row(back, &k, steps),
    }
}

/// The one row of a key, where the rows have it. None follows it.
fn only_row<V: Copy, K: FoundRows<ByKey, V>, L: Ledger>(
    rows: &K,
    k: &Elem,
    from: Option<Elem>,
    steps: &mut Steps<L>,
) -> Option<(Elem, V)>
    ensures next { (back : Bool) → Follows (key_line (asks.Is k.now) back (keys_of (K.rows rows.now))) from (key_in result) }
    ensures row { IsOneOf (K.rows rows.now) result }
    ensures step { steps.new ≤ steps.old + 1 }
{
    let _count = rows.count();
    match from {
        None => match rows.find(k, steps) {
            Some(v) => Some((*k, v)),
            None => None,
        },
        Some(_) => None,
    }
}

/// The part of a window behind a key, from the front or from the back, or all of it.
fn rest_of(window: &Window, back: bool, from: Option<Elem>) -> Window
    ensures { result ≡ spec.rest_of window.now back from }
{
    match from {
        None => *window,
        Some(k) => {
            if back {
                Window {
                    lo: window.lo,
                    hi: Cut::Below(k),
                }
            } else {
                Window {
                    lo: Cut::Above(k),
                    hi: window.hi,
                }
            }
        }
    }
}

/// The row that follows that of a key in a window of sorted rows, or the first one: the first in the rest of the window.
fn next_in_window<V: Copy, C: Compare, L: Ledger>(
    rows: &TreeMapRows<V, C>,
    window: &Window,
    back: bool,
    from: Option<Elem>,
    steps: &mut Steps<L>,
) -> Option<(Elem, V)>
    requires window { cut_upto C.before window.now.lo window.now.hi ≡ true }
    requires from { IsFrom (turned_if back (filter (lies_between C.before window.now.lo window.now.hi) (keys_of rows.now))) from }
    ensures next { Follows (turned_if back (filter (lies_between C.before window.now.lo window.now.hi) (keys_of rows.now))) from (key_in result) }
    ensures row { IsOneOf rows.now result }
    ensures step { steps.new ≤ steps.old + 1 }
{
    let _len = rows.len();
    let rest = rest_of(window, back, from);
    if back {
        rows.last_row_in(&rest, steps)
    } else {
        rows.first_row_in(&rest, steps)
    }
}

/// The member of a set that has a key.
#[tactic(auto, using(crate::proofs::KeyedRows::member_found))]
pub fn member_of_key<K: FoundRows<ByKey, ()>, L: Ledger>(
    rows: &K,
    k: &Elem,
    steps: &mut Steps<L>,
) -> Option<Item>
    ensures row { result ≡ row_of_key (members (K.rows rows.now)) k.now }
    ensures step { steps.new ≤ steps.old + 1 }
{
    match rows.find(k, steps) {
        Some(_) => Some(Item::One(*k)),
        None => None,
    }
}

/// The entry of a map that has a key.
#[tactic(auto, using(crate::proofs::KeyedRows::entry_found))]
pub fn entry_of_key<K: FoundRows<ByKey, Elem>, L: Ledger>(
    rows: &K,
    k: &Elem,
    steps: &mut Steps<L>,
) -> Option<Item>
    ensures row { result ≡ row_of_key (entries (K.rows rows.now)) k.now }
    ensures step { steps.new ≤ steps.old + 1 }
{
    match rows.find(k, steps) {
        Some(v) => Some(Item::Entry(*k, v)),
        None => None,
    }
}

/// The pair of a bimap that has a value.
#[tactic(auto, using(crate::proofs::PairLemmas::pair_found))]
pub fn entry_of_value<L: Ledger>(rows: &PairRows, v: &Elem, steps: &mut Steps<L>) -> Option<Item>
    ensures row { result ≡ row_of_part Second (entries rows.now) v.now }
    ensures step { steps.new ≤ steps.old + 1 }
{
    match rows.by_value(*v, steps) {
        Some(k) => Some(Item::Entry(k, *v)),
        None => None,
    }
}
