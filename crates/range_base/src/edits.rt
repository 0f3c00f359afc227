//! The edits of rows in a tree. What may find no memory is written first.
ghost use Rattle.std.specs.Prelude.{◌≡◌, ◌+◌, ◌<◌, ◌^◌, OnOk, OnErr};
ghost use Rattle.range_base.specs.Rows.{IsDisjoint, part as part_of};
ghost use Rattle.range_base.specs.Edits.{without_units, put};

use crate::part::Part;
use crate::reads::row_across;
use crate::writes::{remove_between, shorten, take_back, write_row, write_tail};
use elem::NoMemory;
use std::collections::BTreeMap;

/// Takes the units from `lo` on and before `hi` from every row.
pub(crate) fn cut_rows<V: Copy>(
    rows: &mut BTreeMap<u128, Part<V>>,
    lo: u128,
    hi: u128,
) -> Result<(), NoMemory>
    requires order { lo < hi }
    requires disjoint { IsDisjoint rows.old.entries }
    ensures ok { OnOk result (rows.new.entries ≡ without_units lo hi rows.old.entries) }
    ensures err { OnErr result (rows.new.entries ≡ rows.old.entries) }
{
    let before = row_across(rows, lo);
    let after = row_across(rows, hi);
    write_tail(rows, after, hi)?;
    shorten(rows, before, lo);
    remove_between(rows, lo, hi);
    Ok(())
}

/// Takes the units from `lo` on and before `hi` from every row, and makes them a row.
pub(crate) fn put_rows<V: Copy>(
    rows: &mut BTreeMap<u128, Part<V>>,
    lo: u128,
    hi: u128,
    value: V,
) -> Result<(), NoMemory>
    requires order { lo < hi }
    requires disjoint { IsDisjoint rows.old.entries }
    ensures ok { OnOk result (rows.new.entries ≡ put lo hi value rows.old.entries) }
    ensures err { OnErr result (rows.new.entries ≡ rows.old.entries) }
{
    let before = row_across(rows, lo);
    let after = row_across(rows, hi);
    write_tail(rows, after, hi)?;
    if let Err(fault) = write_row(rows, (lo, Part { end: hi, value })) {
        take_back(rows, after, hi);
        return Err(fault);
    }
    shorten(rows, before, lo);
    remove_between(rows, lo + 1, hi);
    Ok(())
}
