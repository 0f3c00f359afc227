//! Looking up elements in views of lists: one call of the base, where no step on the way makes other items.
ghost use Rattle.std.specs.Prelude.{◌≡◌, ◌<◌, ◌≤◌, ◌+◌, length, not, true, IfNone, IfSome, []};
ghost use Rattle.std.specs.List.{position};
ghost use Rattle.base_store.specs.Stored.{view_in};
ghost use Rattle.machine.specs.CallEdits.{first_hit};
ghost use Rattle.machine.specs.Leaves.{leaf_at};
ghost use Rattle.machine.specs.Shown.{is_shown};
ghost use Rattle.machine.specs.Views.{base_under, candidates, root};
ghost use Rattle.read_chain.specs.ListLookUps as spec;
ghost use Rattle.read_chain.specs.Reads.{shown_in, StandsAt};
ghost use Rattle.vocabulary.specs.Items.{same_item};
ghost use Rattle.vocabulary.specs.Kinds as kinds;
ghost use Rattle.vocabulary.specs.Shapes.{is_list};

use crate::places::{at_spot, found_of_row};
use crate::reads::shows_all;
use base_store::{AnyRef, Node, Store};
use elem::Steps;
use std::sync::ledger::Ledger;
use view_laws::{Place, RowSpot};
use vocabulary::{Family, Item, Shape, family_of, key_of, shape_of_kind};

/// Whether the views by a family of steps show the items of the views below them.
fn keeps_each(family: Family) -> bool
    ensures { result ≡ not (spec.makes_others family) }
{
    matches!(family, Family::Same | Family::Turned | Family::Hidden)
}

/// Whether no step of a view makes other items.
fn keeps_items(store: &Store, n: AnyRef) -> bool
    requires { n < length store.now.nodes }
    ensures { result ≡ spec.keeps_items (view_in store.now n) }
{
    match store.node(n) {
        Node::Base(_) => true,
        Node::Step { step, parent } => keeps_each(family_of(&step)) && keeps_items(store, parent),
    }
}

/// Whether the base under a view is a list.
fn stands_on_list(store: &Store, n: AnyRef) -> bool
    requires { n < length store.now.nodes }
    ensures { result ≡ is_list (kinds.shape_of_kind (root store.now.world (view_in store.now n)).kind) }
{
    matches!(shape_of_kind(store.kind(store.base_of(n))), Shape::List)
}

/// Whether one look-up in a list tells if a view shows an item.
pub(crate) fn is_found_at_once(store: &Store, n: AnyRef, item: &Item) -> bool
    requires { n < length store.now.nodes }
    ensures { result ≡ spec.is_found_at_once store.now.world (view_in store.now n) item.now }
{
    match item {
        Item::One(_) => stands_on_list(store, n) && keeps_items(store, n),
        _ => false,
    }
}

/// Whether that look-up tells, too, where the first such item stands.
pub(crate) fn is_placed_at_once(store: &Store, n: AnyRef, item: &Item) -> bool
    requires { n < length store.now.nodes }
    ensures { result ≡ spec.is_placed_at_once store.now.world (view_in store.now n) item.now }
{
    is_found_at_once(store, n, item) && !store.is_turned(n)
}

/// Whether it tells, besides, at which index that item is shown.
pub(crate) fn is_indexed_at_once(store: &Store, n: AnyRef, item: &Item) -> bool
    requires { n < length store.now.nodes }
    ensures { result ≡ spec.is_indexed_at_once store.now.world (view_in store.now n) item.now }
{
    is_placed_at_once(store, n, item) && shows_all(store, n)
}

/// The index of the first row that is the same as an item that is found at once.
fn first_row<L: Ledger>(
    store: &Store,
    n: AnyRef,
    item: &Item,
    steps: &mut Steps<L>,
) -> Option<usize>
    requires node { n < length store.now.nodes }
    requires at_once { spec.is_found_at_once store.now.world (view_in store.now n) item.now ≡ true }
    ensures index { result ≡ position (same_item item.now) (leaf_at store.now.world (base_under (view_in store.now n))).rows }
    ensures step { steps.new ≤ steps.old + 1 }
{
    store.find_item(store.base_of(n), &key_of(item), steps)
}

/// Whether a view shows an item that is found at once.
pub(crate) fn shows_item<L: Ledger>(
    store: &Store,
    n: AnyRef,
    item: &Item,
    steps: &mut Steps<L>,
) -> bool
    requires node { n < length store.now.nodes }
    requires at_once { spec.is_found_at_once store.now.world (view_in store.now n) item.now ≡ true }
    ensures shown { result ≡ is_shown (shown_in store.now n) item.now }
    ensures step { steps.new ≤ steps.old + 1 }
{
    let _base = store.base_of(n);
    match first_row(store, n, item, steps) {
        Some(_) => found_of_row(store, n, item).seen,
        None => false,
    }
}

/// The index at which a view shows the first item that is the same.
pub(crate) fn item_index_of<L: Ledger>(
    store: &Store,
    n: AnyRef,
    item: &Item,
    steps: &mut Steps<L>,
) -> Option<usize>
    requires node { n < length store.now.nodes }
    requires at_once { spec.is_indexed_at_once store.now.world (view_in store.now n) item.now ≡ true }
    ensures index { result ≡ position (same_item item.now) (shown_in store.now n) }
    ensures step { steps.new ≤ steps.old + 1 }
{
    let _base = store.base_of(n);
    first_row(store, n, item, steps)
}

/// The place of the first item that is the same.
pub(crate) fn item_place<L: Ledger>(
    store: &Store,
    n: AnyRef,
    item: &Item,
    steps: &mut Steps<L>,
) -> Option<Place>
    requires node { n < length store.now.nodes }
    requires at_once { spec.is_placed_at_once store.now.world (view_in store.now n) item.now ≡ true }
    ensures none { IfNone result (first_hit (same_item item.now) (candidates store.now.world (view_in store.now n)) ≡ []) }
    ensures some { IfSome result (λ p. StandsAt store.now.world (view_in store.now n) p (first_hit (same_item item.now) (candidates store.now.world (view_in store.now n)))) }
    ensures step { steps.new ≤ steps.old + 1 }
{
    let _base = store.base_of(n);
    match first_row(store, n, item, steps) {
        Some(i) => {
            if found_of_row(store, n, item).seen {
                Some(at_spot(RowSpot::Index(i)))
            } else {
                None
            }
        }
        None => None,
    }
}
