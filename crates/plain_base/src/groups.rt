//! The groups of rows of two keys: that of one key made, changed or dropped.
ghost use Rattle.std.specs.Prelude.{◌≡◌, length, OnOk, OnErr};
ghost use Rattle.elem.specs.Keyed.{value_at, IsPresent, IsAbsent, without};
ghost use Rattle.elem.specs.Orders.{natural_before};
ghost use Rattle.plain_base.specs.Sorted.{placed};
ghost use Rattle.plain_base.specs.Groups.{rows_in, some_rows, with_own};

use crate::FreeTreeMapRows;
use elem::{Elem, NoMemory};
use std::alloc::Global;

/// Groups by their keys.
pub(crate) type Groups<V> = FreeTreeMapRows<FreeTreeMapRows<V>>;

/// The number of rows of a key.
pub(crate) fn count_in<V: Copy>(groups: &Groups<V>, k: &Elem) -> usize
    ensures { result ≡ length (rows_in (value_at groups.now k.now)) }
{
    match groups.get(k) {
        Some(group) => group.len(),
        None => 0,
    }
}

/// Adds a row to those of `k`.
pub(crate) fn add_row<V: Copy>(
    groups: &mut Groups<V>,
    k: &Elem,
    x: &Elem,
    v: V,
    alloc: Global,
) -> Result<(), NoMemory>
    requires { IsAbsent (rows_in (value_at groups.old k.now)) x.now }
    ensures ok { OnOk result (groups.new ≡ with_own k.now (some_rows (placed natural_before (rows_in (value_at groups.old k.now)) x.now v)) groups.old) }
    ensures err { OnErr result (groups.new ≡ groups.old) }
{
    let _len = groups.len();
    if groups.contains(k) {
        return groups.insert_in(k, x, v);
    }
    let mut group = FreeTreeMapRows::new(alloc);
    group.insert(*x, v)?;
    groups.insert(*k, group)
}

/// Drops a row of `k`, and the group where it was the last.
pub(crate) fn drop_row<V: Copy>(groups: &mut Groups<V>, k: &Elem, x: &Elem)
    requires { IsPresent (rows_in (value_at groups.old k.now)) x.now }
    ensures { groups.new ≡ with_own k.now (some_rows (without (rows_in (value_at groups.old k.now)) x.now)) groups.old }
{
    let _len = groups.len();
    if count_in(groups, k) == 1 {
        groups.remove(*k);
    } else {
        groups.remove_in(k, x);
    }
}

/// Gives a key these rows in place of its own.
pub(crate) fn put_rows<V: Copy>(
    groups: &mut Groups<V>,
    k: &Elem,
    rows: FreeTreeMapRows<V>,
) -> Result<(), NoMemory>
    ensures ok { OnOk result (groups.new ≡ with_own k.now (some_rows rows) groups.old) }
    ensures err { OnErr result (groups.new ≡ groups.old) }
{
    let _len = groups.len();
    if rows.len() == 0 {
        groups.remove(*k);
        return Ok(());
    }
    if groups.contains(k) {
        groups.replace(*k, rows);
        return Ok(());
    }
    groups.insert(*k, rows)
}
