//! Rows in a tree, written one at a time.
ghost use Rattle.std.specs.Prelude.{◌≡◌, ℕ, ◌<◌, ◌≤◌, true, cond, Some, None, IsSome, IfSome, IfNone, OnOk, OnErr, is_ok, is_some, ◌&&◌, ◌==◌};
ghost use Rattle.std.specs.BTreeMap.{IsOrdered};
ghost use Rattle.std.specs.Ordering.{nat_cmp};
ghost use Rattle.range_base.specs.Reads.{at, head, tail, with_row};
ghost use Rattle.range_base.specs.Rows.{in_units};

use crate::part::Part;
use elem::NoMemory;
use std::collections::BTreeMap;

/// Where a row begins, from one place on and before another.
fn first_between<V: Copy>(rows: &BTreeMap<u128, Part<V>>, from: u128, to: u128) -> Option<u128>
    requires { from ≤ to }
    ensures found { IfSome result (λ a. (from ≤ a) × (a < to) × IsSome (at a rows.now.entries)) }
    ensures none { IfNone result ((q : ℕ) → from ≤ q → q < to → at q rows.now.entries ≡ None) }
    ensures ordered { IsOrdered nat_cmp rows.now }
{
    match rows.range(from..to).next() {
        Some((start, _)) => Some(*start),
        None => None,
    }
}

/// Takes away the rows that begin from one place on and before another.
pub(crate) fn remove_between<V: Copy>(rows: &mut BTreeMap<u128, Part<V>>, from: u128, to: u128)
    requires { from ≤ to }
    ensures at { (q : ℕ) → at q rows.new.entries ≡ cond (in_units from to q) None (at q rows.old.entries) }
    ensures ordered { IsOrdered nat_cmp rows.new }
{
    while let Some(start) = first_between(rows, from, to) {
        rows.remove(&start);
    }
}

/// Writes a row. Only one that begins where none did takes memory.
pub(crate) fn write_row<V: Copy>(
    rows: &mut BTreeMap<u128, Part<V>>,
    row: (u128, Part<V>),
) -> Result<(), NoMemory>
    ensures ok { OnOk result ((q : ℕ) → at q rows.new.entries ≡ with_row (Some row) q (at q rows.old.entries)) }
    ensures err { OnErr result (rows.new.entries ≡ rows.old.entries) }
    ensures present { IsSome (at row.0 rows.old.entries) → is_ok result ≡ true }
    ensures ordered { IsOrdered nat_cmp rows.new }
{
    match rows.insert(row.0, row.1) {
        Ok(_) => Ok(()),
        Err(_) => Err(NoMemory),
    }
}

/// Writes what is left of a row after a place in it, if there is a row.
pub(crate) fn write_tail<V: Copy>(
    rows: &mut BTreeMap<u128, Part<V>>,
    row: Option<(u128, Part<V>)>,
    place: u128,
) -> Result<(), NoMemory>
    ensures ok { OnOk result ((q : ℕ) → at q rows.new.entries ≡ with_row (tail place row) q (at q rows.old.entries)) }
    ensures err { OnErr result (rows.new.entries ≡ rows.old.entries) }
    ensures ordered { IsOrdered nat_cmp rows.old → IsOrdered nat_cmp rows.new }
{
    match row {
        Some((_, part)) => write_row(rows, (place, part)),
        None => Ok(()),
    }
}

/// Takes away again what `write_tail` wrote.
pub(crate) fn take_back<V: Copy>(
    rows: &mut BTreeMap<u128, Part<V>>,
    row: Option<(u128, Part<V>)>,
    place: u128,
)
    ensures at { (q : ℕ) → at q rows.new.entries ≡ cond (is_some row && q == place) None (at q rows.old.entries) }
    ensures ordered { IsOrdered nat_cmp rows.old → IsOrdered nat_cmp rows.new }
{
    if row.is_some() {
        rows.remove(&place);
    }
}

/// Ends a row at a place in it, if there is a row.
pub(crate) fn shorten<V: Copy>(
    rows: &mut BTreeMap<u128, Part<V>>,
    row: Option<(u128, Part<V>)>,
    place: u128,
)
    requires { IfSome row (λ r. at r.0 rows.old.entries ≡ Some r.1) }
    ensures at { (q : ℕ) → at q rows.new.entries ≡ with_row (head place row) q (at q rows.old.entries) }
    ensures ordered { IsOrdered nat_cmp rows.old → IsOrdered nat_cmp rows.new }
{
    if let Some((start, _)) = row {
        if let Some(part) = rows.get_mut(&start) {
            part.end = place;
        }
    }
}
