//! The first item that passes a test, and its place.
ghost use Rattle.std.specs.Prelude.{◌≡◌, ◌<◌, ◌&&◌, length, IfNone, IfSome, [], find as first_that};
ghost use Rattle.base_store.specs.Stored.{view_in};
ghost use Rattle.read_chain.specs.Reads.{shown_in, StandsAt};
ghost use Rattle.machine.specs.CallEdits.{first_hit};
ghost use Rattle.machine.specs.Views.{candidates};

use crate::places::at_spot;
use crate::walks::Walk;
use base_rows::RowTest;
use base_store::{AnyRef, Store};
use elem::{Elem, Steps, same};
use std::sync::ledger::Ledger;
use view_laws::{Found, Place};
use vocabulary::{Item, key_of, same_item, value_of};

/// A test of items.
#[derive(Clone, Copy)]
pub enum ItemTest {
    Any,
    /// It is this item.
    Same(Item),
    /// It has this key.
    OfKey(Elem),
    /// It has this value.
    OfValue(Elem),
}

impl RowTest for ItemTest {
    ghost use Rattle.read_chain.specs.Tests.{item_passes};

    ghost passes = { item_passes };

    fn test(&self, item: &Item) -> bool {
        match self {
            ItemTest::Any => true,
            ItemTest::Same(other) => same_item(other, item),
            ItemTest::OfKey(k) => same(k, &key_of(item)),
            ItemTest::OfValue(v) => same(v, &value_of(item)),
        }
    }

    fn takes_all(&self) -> bool {
        matches!(self, ItemTest::Any)
    }
}

/// Whether what is found is seen, and its item passes.
pub(crate) fn is_hit<T: RowTest>(test: &T, found: &Found) -> bool
    ensures { result ≡ found.now.seen && T.passes test.now found.now.item }
{
    found.seen && test.test(&found.item)
}

/// The first item that a view shows and that passes a test.
pub fn find<T: RowTest, L: Ledger>(
    store: &Store,
    n: AnyRef,
    test: &T,
    steps: &mut Steps<L>,
) -> Option<Item>
    requires { n < length store.now.nodes }
    ensures { result ≡ first_that (T.passes test.now) (shown_in store.now n) }
{
    let mut walk = Walk::over(store, n, false);
    while let Some(item) = walk.next(store, steps) {
        if test.test(&item) {
            return Some(item);
        }
    }
    None
}

/// The place of the first item that a view shows and that passes a test.
pub fn find_place<T: RowTest, L: Ledger>(
    store: &Store,
    n: AnyRef,
    test: &T,
    steps: &mut Steps<L>,
) -> Option<Place>
    requires { n < length store.now.nodes }
    ensures none { IfNone result (first_hit (T.passes test.now) (candidates store.now.world (view_in store.now n)) ≡ []) }
    ensures some { IfSome result (λ p. StandsAt store.now.world (view_in store.now n) p (first_hit (T.passes test.now) (candidates store.now.world (view_in store.now n)))) }
{
    let _base = store.base_of(n);
    store.is_lawful(n);
    let mut walk = Walk::starting(store, n, false);
    while let Some(found) = walk.pass(store, steps) {
        if is_hit(test, &found) {
            return match walk.last() {
                Some(spot) => Some(at_spot(spot)),
                None => None,
            };
        }
    }
    None
}
