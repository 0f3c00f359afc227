//! What a view answers from what it shows.
ghost use Rattle.std.specs.Prelude.{◌≡◌, ◌<◌, ◌≤◌, ◌+◌, length, not, slice_get, true};
ghost use Rattle.std.specs.List.{list_all, list_any, position};
ghost use Rattle.base_store.specs.Stored.{view_in};
ghost use Rattle.read_chain.specs.ListLookUps as lists;
ghost use Rattle.read_chain.specs.Reads as reads;
ghost use Rattle.read_chain.specs.Reads.{shown_in};
ghost use Rattle.machine.specs.Shown as found;
ghost use Rattle.vocabulary.specs.Items.{same_item as same_items};
ghost use Rattle.vocabulary.specs.Shapes.{is_list};
ghost use Rattle.vocabulary.specs.Shapes.{is_bimap, is_keyed};
ghost use Rattle.machine.specs.Views.{shape_at};

use crate::finding::{ItemTest, find};
use crate::indexes::item_index;
use crate::list_look_ups::{is_found_at_once, is_indexed_at_once, item_index_of, shows_item};
use crate::look_ups::{goes_by_key, goes_by_value, shown_with};
use crate::places::{at_spot, found_at};
use crate::walks::Walk;
use base_store::{AnyRef, Node, Store};
use elem::{Elem, Steps};
use std::sync::ledger::Ledger;
use view_laws::RowSpot;
use vocabulary::{Family, Item, Side, family_of, key_of, same_item, value_of};

/// Whether the steps of a family leave no item out.
fn keeps_all(family: Family) -> bool
    ensures { result ≡ not (reads.leaves_out family) }
{
    matches!(
        family,
        Family::Same | Family::Changed | Family::Turned | Family::Keyed
    )
}

/// Whether no step of a view leaves an item out.
pub(crate) fn shows_all(store: &Store, n: AnyRef) -> bool
    requires { n < length store.now.nodes }
    ensures { result ≡ reads.shows_all (view_in store.now n) }
{
    match store.node(n) {
        Node::Base(_) => true,
        Node::Step { step, parent } => { keeps_all(family_of(&step)) && shows_all(store, parent) }
    }
}

/// How many items a view shows. It walks only where a step leaves some out.
pub fn size<L: Ledger>(store: &Store, n: AnyRef, steps: &mut Steps<L>) -> usize
    requires { n < length store.now.nodes }
    ensures { result ≡ length (shown_in store.now n) }
{
    let rows = store.len(store.base_of(n));
    if shows_all(store, n) {
        return rows;
    }
    let mut walk = Walk::over(store, n, false);
    let mut count = 0;
    while let Some(_item) = walk.next(store, steps) {
        count += 1;
    }
    count
}

/// Whether a view shows nothing.
pub fn is_empty<L: Ledger>(store: &Store, n: AnyRef, steps: &mut Steps<L>) -> bool
    requires { n < length store.now.nodes }
    ensures { result ≡ found.is_empty (shown_in store.now n) }
{
    first(store, n, steps).is_none()
}

/// Whether a view shows an item. A set, a set of entries, and a view that makes no other items of a list ask their base
/// once at most.
pub fn contains<L: Ledger>(store: &Store, n: AnyRef, item: &Item, steps: &mut Steps<L>) -> bool
    requires { n < length store.now.nodes }
    ensures shown { result ≡ found.is_shown (shown_in store.now n) item.now }
    ensures step { is_keyed (shape_at store.now.world (view_in store.now n)) ≡ true → steps.new ≤ steps.old + 1 }
    ensures at_once { lists.is_found_at_once store.now.world (view_in store.now n) item.now ≡ true → steps.new ≤ steps.old + 1 }
{
    if goes_by_key(store.shape(n)) {
        match shown_with(store, n, Side::First, &key_of(item), steps) {
            Some(shown) => same_item(item, &shown),
            None => false,
        }
    } else if is_found_at_once(store, n, item) {
        shows_item(store, n, item, steps)
    } else {
        find(store, n, &ItemTest::Same(*item), steps).is_some()
    }
}

/// Whether a view shows each item that another one shows.
pub fn contains_all<L: Ledger>(
    store: &Store,
    n: AnyRef,
    other: AnyRef,
    steps: &mut Steps<L>,
) -> bool
    requires node { n < length store.now.nodes }
    requires other { other < length store.now.nodes }
    ensures { result ≡ list_all (found.is_shown (shown_in store.now n)) (shown_in store.now other) }
{
    let mut walk = Walk::over(store, other, false);
    while let Some(item) = walk.next(store, steps) {
        if !contains(store, n, &item, steps) {
            return false;
        }
    }
    true
}

/// The item at an index of a list.
pub fn item_at<L: Ledger>(store: &Store, n: AnyRef, i: usize, steps: &mut Steps<L>) -> Option<Item>
    requires node { n < length store.now.nodes }
    requires list { is_list (shape_at store.now.world (view_in store.now n)) ≡ true }
    ensures { result ≡ slice_get (shown_in store.now n) i }
{
    store.is_lawful(n);
    let size = store.len(store.base_of(n));
    if i >= size {
        return None;
    }
    let at = at_spot(RowSpot::Index(item_index(store, n, size, i)));
    match found_at(store, n, &at, steps) {
        Some(found) => Some(found.item),
        None => None,
    }
}

/// The index of the first item that is the same. A list that is not turned round asks its base once.
pub fn index_of<L: Ledger>(
    store: &Store,
    n: AnyRef,
    item: &Item,
    steps: &mut Steps<L>,
) -> Option<usize>
    requires { n < length store.now.nodes }
    ensures index { result ≡ position (same_items item.now) (shown_in store.now n) }
    ensures at_once { lists.is_indexed_at_once store.now.world (view_in store.now n) item.now ≡ true → steps.new ≤ steps.old + 1 }
{
    if is_indexed_at_once(store, n, item) {
        item_index_of(store, n, item, steps)
    } else {
        walk_to(store, n, item, steps)
    }
}

/// The same, by a walk over what is shown.
fn walk_to<L: Ledger>(store: &Store, n: AnyRef, item: &Item, steps: &mut Steps<L>) -> Option<usize>
    requires { n < length store.now.nodes }
    ensures { result ≡ position (same_items item.now) (shown_in store.now n) }
{
    let _rows = store.len(store.base_of(n));
    let mut walk = Walk::over(store, n, false);
    let mut passed = 0;
    while let Some(shown) = walk.next(store, steps) {
        if same_item(item, &shown) {
            return Some(passed);
        }
        passed += 1;
    }
    None
}

/// The value shown at a key. It asks the base once at most.
pub fn map_get<L: Ledger>(store: &Store, n: AnyRef, k: &Elem, steps: &mut Steps<L>) -> Option<Elem>
    requires node { n < length store.now.nodes }
    requires keyed { is_keyed (shape_at store.now.world (view_in store.now n)) ≡ true }
    ensures value { result ≡ found.value_shown (shown_in store.now n) k.now }
    ensures step { steps.new ≤ steps.old + 1 }
{
    match shown_with(store, n, Side::First, k, steps) {
        Some(item) => Some(value_of(&item)),
        None => None,
    }
}

/// Whether a key is shown. It asks the base once at most.
pub fn has_key<L: Ledger>(store: &Store, n: AnyRef, k: &Elem, steps: &mut Steps<L>) -> bool
    requires node { n < length store.now.nodes }
    requires keyed { is_keyed (shape_at store.now.world (view_in store.now n)) ≡ true }
    ensures key { result ≡ list_any (found.has_key k.now) (shown_in store.now n) }
    ensures step { steps.new ≤ steps.old + 1 }
{
    shown_with(store, n, Side::First, k, steps).is_some()
}

/// Whether a value is shown. A bimap asks its base once at most.
pub fn has_value<L: Ledger>(store: &Store, n: AnyRef, v: &Elem, steps: &mut Steps<L>) -> bool
    requires { n < length store.now.nodes }
    ensures value { result ≡ list_any (found.has_value v.now) (shown_in store.now n) }
    ensures step { is_bimap (shape_at store.now.world (view_in store.now n)) ≡ true → steps.new ≤ steps.old + 1 }
{
    if goes_by_value(store.shape(n)) {
        store.is_lawful(n);
        shown_with(store, n, Side::Second, v, steps).is_some()
    } else {
        find(store, n, &ItemTest::OfValue(*v), steps).is_some()
    }
}

/// The first item shown.
pub fn first<L: Ledger>(store: &Store, n: AnyRef, steps: &mut Steps<L>) -> Option<Item>
    requires { n < length store.now.nodes }
    ensures { result ≡ found.first_shown (shown_in store.now n) }
{
    let mut walk = Walk::over(store, n, false);
    walk.next(store, steps)
}

/// The last item shown.
pub fn last<L: Ledger>(store: &Store, n: AnyRef, steps: &mut Steps<L>) -> Option<Item>
    requires { n < length store.now.nodes }
    ensures { result ≡ found.last_shown (shown_in store.now n) }
{
    let mut walk = Walk::over(store, n, true);
    walk.next(store, steps)
}
