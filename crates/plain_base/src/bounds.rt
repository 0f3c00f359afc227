//! The first and the last row of the part of a tree between two bounds.
ghost use Rattle.std.specs.Prelude.{◌≡◌, Some, IfSome};
ghost use Rattle.std.specs.Option.{option_map};
ghost use Rattle.std.specs.Bound.{IsForward};
ghost use Rattle.std.specs.BTreeMap.Range.{IsLeBy, IsLtBy, entries_between};
ghost use Rattle.elem.specs.Keyed.{value_at};
ghost use Rattle.elem.specs.Rows.{first_key, last_key};
ghost use Rattle.plain_base.specs.Ordered.{order_of};
ghost use Rattle.plain_base.specs.Sorted.{IsInOrder, lower_bound, upper_bound};

use crate::ranked::Ranked;
use elem::{Compare, Cut, Elem};
use std::collections::BTreeMap;
use std::ops::Bound;

/// Where the keys above a cut begin.
pub(crate) fn lower_bound<C: Compare>(cut: &Cut) -> Bound<Ranked<C>>
    ensures { result ≡ lower_bound cut.now }
{
    match cut {
        Cut::Below(k) => Bound::Included(Ranked::new(*k)),
        Cut::Above(k) => Bound::Excluded(Ranked::new(*k)),
        _ => Bound::Unbounded,
    }
}

/// Where the keys below a cut end.
pub(crate) fn upper_bound<C: Compare>(cut: &Cut) -> Bound<Ranked<C>>
    ensures { result ≡ upper_bound cut.now }
{
    match cut {
        Cut::Below(k) => Bound::Excluded(Ranked::new(*k)),
        Cut::Above(k) => Bound::Included(Ranked::new(*k)),
        _ => Bound::Unbounded,
    }
}

/// The first row between two bounds, its value where it stands.
pub(crate) fn first_entry_between<V, C: Compare>(
    rows: &BTreeMap<Ranked<C>, V>,
    from: Bound<Ranked<C>>,
    to: Bound<Ranked<C>>,
) -> Option<(Elem, &V)>
    requires { IsForward (IsLeBy (order_of C.before)) (IsLtBy (order_of C.before)) from to }
    ensures key { option_map (λ row. row.0) result ≡ first_key (entries_between (order_of C.before) from to rows.now.entries) }
    ensures value { IfSome result (λ row. value_at rows.now.entries row.0 ≡ Some row.1.now) }
    ensures order { IsInOrder C.before rows.now.entries }
{
    match rows.range((from, to)).next() {
        Some((key, value)) => Some((key.elem(), value)),
        None => None,
    }
}

/// The first key between two bounds.
pub(crate) fn first_between<V, C: Compare>(
    rows: &BTreeMap<Ranked<C>, V>,
    from: Bound<Ranked<C>>,
    to: Bound<Ranked<C>>,
) -> Option<Elem>
    requires { IsForward (IsLeBy (order_of C.before)) (IsLtBy (order_of C.before)) from to }
    ensures key { result ≡ first_key (entries_between (order_of C.before) from to rows.now.entries) }
    ensures order { IsInOrder C.before rows.now.entries }
{
    match first_entry_between(rows, from, to) {
        Some((key, _)) => Some(key),
        None => None,
    }
}

/// The last row between two bounds, its value where it stands.
pub(crate) fn last_entry_between<V, C: Compare>(
    rows: &BTreeMap<Ranked<C>, V>,
    from: Bound<Ranked<C>>,
    to: Bound<Ranked<C>>,
) -> Option<(Elem, &V)>
    requires { IsForward (IsLeBy (order_of C.before)) (IsLtBy (order_of C.before)) from to }
    ensures key { option_map (λ row. row.0) result ≡ last_key (entries_between (order_of C.before) from to rows.now.entries) }
    ensures value { IfSome result (λ row. value_at rows.now.entries row.0 ≡ Some row.1.now) }
    ensures order { IsInOrder C.before rows.now.entries }
{
    match rows.range((from, to)).next_back() {
        Some((key, value)) => Some((key.elem(), value)),
        None => None,
    }
}

/// The last key between two bounds.
pub(crate) fn last_between<V, C: Compare>(
    rows: &BTreeMap<Ranked<C>, V>,
    from: Bound<Ranked<C>>,
    to: Bound<Ranked<C>>,
) -> Option<Elem>
    requires { IsForward (IsLeBy (order_of C.before)) (IsLtBy (order_of C.before)) from to }
    ensures key { result ≡ last_key (entries_between (order_of C.before) from to rows.now.entries) }
    ensures order { IsInOrder C.before rows.now.entries }
{
    match last_entry_between(rows, from, to) {
        Some((key, _)) => Some(key),
        None => None,
    }
}
