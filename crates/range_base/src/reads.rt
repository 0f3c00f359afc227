//! Rows in a tree, read by a place.
ghost use Rattle.std.specs.Prelude.{◌≡◌, ◌↔◌, ◌<◌, false};
ghost use Rattle.range_base.specs.Edits.{end_of, start_of, touching, without_units};
ghost use Rattle.range_base.specs.Reads.{first_after, first_row, last_up_to, spanning};
ghost use Rattle.range_base.specs.Rows.{IsApart, IsDisjoint};

use crate::part::Part;
use std::collections::BTreeMap;
use std::ops::Bound;

/// The last row that begins at a place or before it.
pub(crate) fn row_up_to<V: Copy>(
    rows: &BTreeMap<u128, Part<V>>,
    place: u128,
) -> Option<(u128, Part<V>)>
    requires { IsDisjoint rows.now.entries }
    ensures { result ≡ last_up_to place rows.now.entries }
{
    match rows.range(..=place).next_back() {
        Some((start, part)) => Some((*start, *part)),
        None => None,
    }
}

/// The first row.
pub(crate) fn first_row<V: Copy>(rows: &BTreeMap<u128, Part<V>>) -> Option<(u128, Part<V>)>
    ensures { result ≡ first_row rows.now.entries }
{
    match rows.first_key_value() {
        Some((start, part)) => Some((*start, *part)),
        None => None,
    }
}

/// The first row that begins after a place.
pub(crate) fn row_after<V: Copy>(
    rows: &BTreeMap<u128, Part<V>>,
    place: u128,
) -> Option<(u128, Part<V>)>
    requires { IsDisjoint rows.now.entries }
    ensures { result ≡ first_after place rows.now.entries }
{
    match rows
        .range((Bound::Excluded(place), Bound::Unbounded))
        .next()
    {
        Some((start, part)) => Some((*start, *part)),
        None => None,
    }
}

/// The row that has units on both sides of a place.
#[tactic(auto, using(crate::proofs::Lookups::spanning_is))]
pub(crate) fn row_across<V: Copy>(
    rows: &BTreeMap<u128, Part<V>>,
    place: u128,
) -> Option<(u128, Part<V>)>
    requires { IsDisjoint rows.now.entries }
    ensures { result ≡ spanning place rows.now.entries }
{
    match row_up_to(rows, place) {
        Some((start, part)) if start < place && place < part.end => Some((start, part)),
        _ => None,
    }
}

/// The row of a range set that a place lies in or at an end of.
#[tactic(auto, using(crate::proofs::Lookups::touching_is))]
pub(crate) fn row_touching<V: Copy>(
    rows: &BTreeMap<u128, Part<V>>,
    place: u128,
) -> Option<(u128, Part<V>)>
    requires { IsApart rows.now.entries }
    ensures { result ≡ touching place rows.now.entries }
{
    match row_up_to(rows, place) {
        Some((start, part)) if place <= part.end => Some((start, part)),
        _ => None,
    }
}

/// The lower place of that row, or the place itself.
pub(crate) fn start_at<V: Copy>(rows: &BTreeMap<u128, Part<V>>, place: u128) -> u128
    requires { IsApart rows.now.entries }
    ensures { result ≡ start_of place (touching place rows.now.entries) }
{
    match row_touching(rows, place) {
        Some((start, _)) => start,
        None => place,
    }
}

/// The upper place of that row, or the place itself.
pub(crate) fn end_at<V: Copy>(rows: &BTreeMap<u128, Part<V>>, place: u128) -> u128
    requires { IsApart rows.now.entries }
    ensures { result ≡ end_of place (touching place rows.now.entries) }
{
    match row_touching(rows, place) {
        Some((_, part)) => part.end,
        None => place,
    }
}

/// Whether a row has a unit from `lo` on and before `hi`.
pub(crate) fn overlaps<V: Copy>(rows: &BTreeMap<u128, Part<V>>, lo: u128, hi: u128) -> bool
    requires order { lo < hi }
    requires disjoint { IsDisjoint rows.now.entries }
    ensures { (result ≡ false) ↔ (without_units lo hi rows.now.entries ≡ rows.now.entries) }
{
    match row_up_to(rows, hi - 1) {
        Some((_, part)) => lo < part.end,
        None => false,
    }
}
