//! The place of an item, by its key or as an element of a list: one call of the base.
ghost use Rattle.std.specs.Prelude.{◌≡◌, ◌<◌, ◌≤◌, ◌+◌, length, true, IfNone, IfSome, [], option_map};
ghost use Rattle.base_store.specs.Stored.{view_in};
ghost use Rattle.read_chain.specs.ListLookUps as lists;
ghost use Rattle.read_chain.specs.Reads.{shown_in, StandsAt};
ghost use Rattle.machine.specs.CallEdits.{first_hit};
ghost use Rattle.machine.specs.Shown.{has_key, value_shown};
ghost use Rattle.vocabulary.specs.Items as items;
ghost use Rattle.vocabulary.specs.Shapes.{is_keyed};
ghost use Rattle.machine.specs.Views.{candidates, shape_at};
ghost use Rattle.vocabulary.specs.declared.items.Item as spec;

use crate::finding::{ItemTest, find_place, is_hit};
use crate::list_look_ups::{is_placed_at_once, item_place};
use crate::look_ups::{goes_by_key, look_up};
use crate::places::at_spot;
use base_rows::RowTest;
use base_store::{AnyRef, Store};
use elem::{Elem, Steps};
use std::sync::ledger::Ledger;
use view_laws::Place;
use vocabulary::{Item, Side, key_of, value_of};

/// The place of the first item that is the same. In a set, in a set of entries, and in a view that makes no other items of
/// a list and is not turned round, it asks the base once at most.
pub fn place_of<L: Ledger>(
    store: &Store,
    n: AnyRef,
    item: &Item,
    steps: &mut Steps<L>,
) -> Option<Place>
    requires { n < length store.now.nodes }
    ensures none { IfNone result (first_hit (items.same_item item.now) (candidates store.now.world (view_in store.now n)) ≡ []) }
    ensures some { IfSome result (λ p. StandsAt store.now.world (view_in store.now n) p (first_hit (items.same_item item.now) (candidates store.now.world (view_in store.now n)))) }
    ensures step { is_keyed (shape_at store.now.world (view_in store.now n)) ≡ true → steps.new ≤ steps.old + 1 }
    ensures at_once { lists.is_placed_at_once store.now.world (view_in store.now n) item.now ≡ true → steps.new ≤ steps.old + 1 }
{
    if goes_by_key(store.shape(n)) {
        place_at_key(store, n, &key_of(item), &ItemTest::Same(*item), steps)
    } else if is_placed_at_once(store, n, item) {
        item_place(store, n, item, steps)
    } else {
        find_place(store, n, &ItemTest::Same(*item), steps)
    }
}

/// The place of the item shown at a key, and the value in it. It asks the base once at most.
pub fn place_and_value<L: Ledger>(
    store: &Store,
    n: AnyRef,
    k: &Elem,
    steps: &mut Steps<L>,
) -> Option<(Place, Elem)>
    requires node { n < length store.now.nodes }
    requires keyed { is_keyed (shape_at store.now.world (view_in store.now n)) ≡ true }
    ensures none { IfNone result (first_hit (has_key k.now) (candidates store.now.world (view_in store.now n)) ≡ []) }
    ensures some { IfSome result (λ found. StandsAt store.now.world (view_in store.now n) found.0 (first_hit (has_key k.now) (candidates store.now.world (view_in store.now n)))) }
    ensures value { option_map (λ found. found.1) result ≡ value_shown (shown_in store.now n) k.now }
    ensures step { steps.new ≤ steps.old + 1 }
{
    match look_up(store, n, Side::First, k, steps) {
        Some(there) => {
            if there.found.seen {
                Some((at_spot(there.spot), value_of(&there.found.item)))
            } else {
                None
            }
        }
        None => None,
    }
}

/// The place of the item that is shown at a key and passes a test, which items of no other key pass.
fn place_at_key<T: RowTest, L: Ledger>(
    store: &Store,
    n: AnyRef,
    k: &Elem,
    test: &T,
    steps: &mut Steps<L>,
) -> Option<Place>
    requires node { n < length store.now.nodes }
    requires keyed { is_keyed (shape_at store.now.world (view_in store.now n)) ≡ true }
    requires narrow { (item : spec.Item) → T.passes test.now item ≡ true → has_key k.now item ≡ true }
    ensures none { IfNone result (first_hit (T.passes test.now) (candidates store.now.world (view_in store.now n)) ≡ []) }
    ensures some { IfSome result (λ p. StandsAt store.now.world (view_in store.now n) p (first_hit (T.passes test.now) (candidates store.now.world (view_in store.now n)))) }
    ensures step { steps.new ≤ steps.old + 1 }
{
    match look_up(store, n, Side::First, k, steps) {
        Some(there) => {
            if is_hit(test, &there.found) {
                Some(at_spot(there.spot))
            } else {
                None
            }
        }
        None => None,
    }
}
