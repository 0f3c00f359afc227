//! Rows of a sorted map, each with a copy of its value.
ghost use Rattle.std.specs.Prelude.{◌≡◌, true, Some, IfSome};
ghost use Rattle.std.specs.Option.{option_map};
ghost use Rattle.std.specs.Bound.{IsForward};
ghost use Rattle.std.specs.BTreeMap.Range.{IsLeBy, IsLtBy, entries_between};
ghost use Rattle.elem.specs.Cuts.{cut_upto};
ghost use Rattle.elem.specs.Elements.{same};
ghost use Rattle.elem.specs.Keyed.{value_at, IsPresent};
ghost use Rattle.elem.specs.Rows.{first_key, last_key, key_after, key_before};
ghost use Rattle.plain_base.specs.Ordered.{order_of};
ghost use Rattle.plain_base.specs.Sorted.{IsInOrder, rows_between};

use super::FreeTreeMapRows;
use crate::bounds::{first_entry_between, last_entry_between, lower_bound, upper_bound};
use crate::ranked::Ranked;
use elem::{Compare, Cut, Elem, Window, same_cut};
use std::collections::BTreeMap;
use std::ops::Bound;

impl<V: Copy, C: Compare> FreeTreeMapRows<V, C> {
    /// The first row.
    pub fn first_row(&self) -> Option<(Elem, V)>
        ensures key { option_map (λ row. row.0) result ≡ first_key self.now }
        ensures value { IfSome result (λ row. value_at self.now row.0 ≡ Some row.1) }
    {
        first_row_between(&self.rows, Bound::Unbounded, Bound::Unbounded)
    }

    /// The last row.
    pub fn last_row(&self) -> Option<(Elem, V)>
        ensures key { option_map (λ row. row.0) result ≡ last_key self.now }
        ensures value { IfSome result (λ row. value_at self.now row.0 ≡ Some row.1) }
    {
        last_row_between(&self.rows, Bound::Unbounded, Bound::Unbounded)
    }

    /// The row after that of `k`.
    pub fn row_after(&self, k: Elem) -> Option<(Elem, V)>
        requires { IsPresent self.now k }
        ensures key { option_map (λ row. row.0) result ≡ key_after (same k) self.now }
        ensures value { IfSome result (λ row. value_at self.now row.0 ≡ Some row.1) }
    {
        first_row_between(
            &self.rows,
            Bound::Excluded(Ranked::new(k)),
            Bound::Unbounded,
        )
    }

    /// The row before that of `k`.
    pub fn row_before(&self, k: Elem) -> Option<(Elem, V)>
        requires { IsPresent self.now k }
        ensures key { option_map (λ row. row.0) result ≡ key_before (same k) self.now }
        ensures value { IfSome result (λ row. value_at self.now row.0 ≡ Some row.1) }
    {
        last_row_between(
            &self.rows,
            Bound::Unbounded,
            Bound::Excluded(Ranked::new(k)),
        )
    }

    /// The first row in a window, whose cuts are read in the order `C`.
    pub fn first_row_in(&self, w: &Window) -> Option<(Elem, V)>
        requires { cut_upto C.before w.now.lo w.now.hi ≡ true }
        ensures key { option_map (λ row. row.0) result ≡ first_key (rows_between C.before w.now.lo w.now.hi self.now) }
        ensures value { IfSome result (λ row. value_at self.now row.0 ≡ Some row.1) }
    {
        if same_cut(&w.lo, &Cut::End) || same_cut(&w.hi, &Cut::Start) {
            return None;
        }
        first_row_between(&self.rows, lower_bound(&w.lo), upper_bound(&w.hi))
    }

    /// The last row in a window, whose cuts are read in the order `C`.
    pub fn last_row_in(&self, w: &Window) -> Option<(Elem, V)>
        requires { cut_upto C.before w.now.lo w.now.hi ≡ true }
        ensures key { option_map (λ row. row.0) result ≡ last_key (rows_between C.before w.now.lo w.now.hi self.now) }
        ensures value { IfSome result (λ row. value_at self.now row.0 ≡ Some row.1) }
    {
        if same_cut(&w.lo, &Cut::End) || same_cut(&w.hi, &Cut::Start) {
            return None;
        }
        last_row_between(&self.rows, lower_bound(&w.lo), upper_bound(&w.hi))
    }
}

/// The first row between two bounds.
fn first_row_between<V: Copy, C: Compare>(
    rows: &BTreeMap<Ranked<C>, V>,
    from: Bound<Ranked<C>>,
    to: Bound<Ranked<C>>,
) -> Option<(Elem, V)>
    requires { IsForward (IsLeBy (order_of C.before)) (IsLtBy (order_of C.before)) from to }
    ensures key { option_map (λ row. row.0) result ≡ first_key (entries_between (order_of C.before) from to rows.now.entries) }
    ensures value { IfSome result (λ row. value_at rows.now.entries row.0 ≡ Some row.1) }
    ensures order { IsInOrder C.before rows.now.entries }
{
    match first_entry_between(rows, from, to) {
        Some((key, value)) => Some((key, *value)),
        None => None,
    }
}

/// The last row between two bounds.
fn last_row_between<V: Copy, C: Compare>(
    rows: &BTreeMap<Ranked<C>, V>,
    from: Bound<Ranked<C>>,
    to: Bound<Ranked<C>>,
) -> Option<(Elem, V)>
    requires { IsForward (IsLeBy (order_of C.before)) (IsLtBy (order_of C.before)) from to }
    ensures key { option_map (λ row. row.0) result ≡ last_key (entries_between (order_of C.before) from to rows.now.entries) }
    ensures value { IfSome result (λ row. value_at rows.now.entries row.0 ≡ Some row.1) }
    ensures order { IsInOrder C.before rows.now.entries }
{
    match last_entry_between(rows, from, to) {
        Some((key, value)) => Some((key, *value)),
        None => None,
    }
}
