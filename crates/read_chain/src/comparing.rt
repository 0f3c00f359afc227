//! Whether two views show the same.
ghost use Rattle.std.specs.Prelude.{◌≡◌, ◌<◌, length, true};
ghost use Rattle.std.specs.Cmp.Lexicographic.{pointwise};
ghost use Rattle.base_store.specs.Stored.{view_in};
ghost use Rattle.machine.specs.Answers.{are_equal};
ghost use Rattle.machine.specs.Views.{shape_at};
ghost use Rattle.read_chain.specs.Reads.{shown_in};
ghost use Rattle.vocabulary.specs.Fits.{compares};
ghost use Rattle.vocabulary.specs.Items.{same_item as same_items};

use crate::reads::contains_all;
use crate::walks::Walk;
use base_store::{AnyRef, Store};
use elem::Steps;
use std::sync::ledger::Ledger;
use vocabulary::{Shape, same_item};

/// Whether two views of shapes that compare show the same, as `equals` of java.util's lists, sets and maps says it: two lists
/// item by item, sets and maps whatever their orders.
///
/// Two lists are walked side by side, up to the first difference. Of sets and maps each is walked and its items are looked
/// up in the other, up to the first that is not there: no more of either than the smaller one shows, and one.
pub fn equals<L: Ledger>(store: &Store, n: AnyRef, other: AnyRef, steps: &mut Steps<L>) -> bool
    requires node { n < length store.now.nodes }
    requires other { other < length store.now.nodes }
    requires compares { compares (shape_at store.now.world (view_in store.now n)) (shape_at store.now.world (view_in store.now other)) ≡ true }
    ensures { result ≡ are_equal (shape_at store.now.world (view_in store.now n)) (shown_in store.now n) (shown_in store.now other) }
{
    let _base = store.base_of(n);
    let _other_base = store.base_of(other);
    store.is_lawful(n);
    store.is_lawful(other);
    match store.shape(n) {
        Shape::List => same_in_order(store, n, other, steps),
        _ => contains_all(store, other, n, steps) && contains_all(store, n, other, steps),
    }
}

/// Whether two views show the same items in the same order.
fn same_in_order<L: Ledger>(store: &Store, n: AnyRef, other: AnyRef, steps: &mut Steps<L>) -> bool
    requires node { n < length store.now.nodes }
    requires other { other < length store.now.nodes }
    ensures { result ≡ pointwise same_items (shown_in store.now n) (shown_in store.now other) }
{
    let mut walk = Walk::over(store, n, false);
    let mut beside = Walk::over(store, other, false);
    while let Some(item) = walk.next(store, steps) {
        match beside.next(store, steps) {
            Some(shown) => {
                if !same_item(&item, &shown) {
                    return false;
                }
            }
            None => return false,
        }
    }
    beside.next(store, steps).is_none()
}
