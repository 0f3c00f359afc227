//! The rows of a range set and of a range map after all ranges were added.
ghost use Rattle.std.specs.Prelude.{◌≡◌, ◌≢◌, map, true, false, Some, Err, IfOk, OnOk};
ghost use Rattle.std.specs.List.{All};
ghost use Rattle.elem.specs.declared.build_kinds.BuildKind.TheVariants as kind;
ghost use Rattle.build_base.specs.Rows.{Fits};
ghost use Rattle.build_base.specs.Kept.{has_twice};
ghost use Rattle.build_base.specs.Ranges.{overlap, with_range, with_entry, range_set_of, range_map_of, range_of, entry_of, IsWholeRow};
ghost use Rattle.build_base.specs.Units.{CoversMore, IsFilledRow, IsFreeOf, IsLongRow};
ghost use Rattle.build_base.specs.Built.{AllFit};

use crate::firsts::push;
use crate::meets::{meets_map, meets_set};
use crate::{BuildFault, Row};
use range_base::{FreeRangeMapRows, FreeRangeRows};
use std::alloc::Global;

/// The rows of a range set to which all ranges were added.
pub fn range_set(alloc: Global, items: &[Row]) -> Result<Vec<Row>, BuildFault>
    requires fit { AllFit kind.RangeSet items.now }
    requires filled { All IsFilledRow items.now }
    ensures rows { IfOk result (λ rows. map range_of rows.items ≡ map Some (range_set_of items.now)) }
    ensures whole { IfOk result (λ rows. All IsWholeRow rows.items) }
    ensures allowed { OnOk result (has_twice overlap items.now ≡ false) }
    ensures refused { result ≡ Err BuildFault.Refused → has_twice overlap items.now ≡ true }
{
    let joined = all_ranges(alloc, items)?;
    spans(alloc, &joined)
}

/// The range set to which all ranges were added, where none overlaps an earlier one.
fn all_ranges(alloc: Global, items: &[Row]) -> Result<FreeRangeRows, BuildFault>
    requires fit { AllFit kind.RangeSet items.now }
    requires filled { All IsFilledRow items.now }
    ensures rows { IfOk result (λ rows. rows ≡ range_set_of items.now) }
    ensures allowed { OnOk result (has_twice overlap items.now ≡ false) }
    ensures refused { result ≡ Err BuildFault.Refused → has_twice overlap items.now ≡ true }
{
    let mut joined = FreeRangeRows::new(alloc);
    for item in items {
        add_range(&mut joined, item)?;
    }
    Ok(joined)
}

/// Adds the range of a row, where it has nothing in common with the range set.
fn add_range(rows: &mut FreeRangeRows, item: &Row) -> Result<(), BuildFault>
    requires fits { Fits kind.RangeSet item.now }
    requires filled { IsFilledRow item.now }
    ensures long { IsLongRow item.now }
    ensures ok { OnOk result (rows.new ≡ with_range rows.old item.now) }
    ensures units { OnOk result (CoversMore item.now rows.old rows.new) }
    ensures allowed { OnOk result (IsFreeOf item.now rows.old) }
    ensures refused { result ≡ Err BuildFault.Refused → IsFreeOf item.now rows.old → ⊥ }
{
    if let Row::Range(span) = item {
        if meets_set(rows, span) {
            return Err(BuildFault::Refused);
        }
        if rows.add(span).is_err() {
            return Err(BuildFault::NoMemory);
        }
    }
    Ok(())
}

/// The rows of a range set in order.
fn spans(alloc: Global, ranges: &FreeRangeRows) -> Result<Vec<Row>, BuildFault>
    ensures rows { IfOk result (λ rows. map range_of rows.items ≡ map Some ranges.now) }
    ensures whole { IfOk result (λ rows. All IsWholeRow rows.items) }
    ensures never { result ≢ Err BuildFault.Refused }
{
    let mut rows = Vec::new(alloc);
    let mut next = ranges.first();
    for _ in 0..ranges.len() {
        let Some(span) = next else {
            return Ok(rows);
        };
        push(&mut rows, &Row::Range(span))?;
        next = ranges.after(&span);
    }
    Ok(rows)
}

/// The rows of a range map to which all ranges were added.
pub fn range_map(alloc: Global, items: &[Row]) -> Result<Vec<Row>, BuildFault>
    requires fit { AllFit kind.RangeMap items.now }
    requires filled { All IsFilledRow items.now }
    ensures rows { IfOk result (λ rows. map entry_of rows.items ≡ map Some (range_map_of items.now)) }
    ensures whole { IfOk result (λ rows. All IsWholeRow rows.items) }
    ensures allowed { OnOk result (has_twice overlap items.now ≡ false) }
    ensures refused { result ≡ Err BuildFault.Refused → has_twice overlap items.now ≡ true }
{
    let placed = all_entries(alloc, items)?;
    entries(alloc, &placed)
}

/// The range map to which all ranges were added, where none overlaps an earlier one.
fn all_entries(alloc: Global, items: &[Row]) -> Result<FreeRangeMapRows, BuildFault>
    requires fit { AllFit kind.RangeMap items.now }
    requires filled { All IsFilledRow items.now }
    ensures rows { IfOk result (λ rows. rows ≡ range_map_of items.now) }
    ensures allowed { OnOk result (has_twice overlap items.now ≡ false) }
    ensures refused { result ≡ Err BuildFault.Refused → has_twice overlap items.now ≡ true }
{
    let mut placed = FreeRangeMapRows::new(alloc);
    for item in items {
        put_range(&mut placed, item)?;
    }
    Ok(placed)
}

/// Gives the range of a row its value, where it has nothing in common with the range map.
fn put_range(rows: &mut FreeRangeMapRows, item: &Row) -> Result<(), BuildFault>
    requires fits { Fits kind.RangeMap item.now }
    requires filled { IsFilledRow item.now }
    ensures long { IsLongRow item.now }
    ensures ok { OnOk result (rows.new ≡ with_entry rows.old item.now) }
    ensures units { OnOk result (CoversMore item.now rows.old rows.new) }
    ensures allowed { OnOk result (IsFreeOf item.now rows.old) }
    ensures refused { result ≡ Err BuildFault.Refused → IsFreeOf item.now rows.old → ⊥ }
{
    if let Row::RangeValue(span, value) = item {
        if meets_map(rows, span) {
            return Err(BuildFault::Refused);
        }
        if rows.put(span, *value).is_err() {
            return Err(BuildFault::NoMemory);
        }
    }
    Ok(())
}

/// The rows of a range map in order.
fn entries(alloc: Global, ranges: &FreeRangeMapRows) -> Result<Vec<Row>, BuildFault>
    ensures rows { IfOk result (λ rows. map entry_of rows.items ≡ map Some ranges.now) }
    ensures whole { IfOk result (λ rows. All IsWholeRow rows.items) }
    ensures never { result ≢ Err BuildFault.Refused }
{
    let mut rows = Vec::new(alloc);
    let mut next = ranges.first();
    for _ in 0..ranges.len() {
        let Some(entry) = next else {
            return Ok(rows);
        };
        push(&mut rows, &Row::RangeValue(entry.0, entry.1))?;
        next = ranges.after(&entry.0);
    }
    Ok(rows)
}
