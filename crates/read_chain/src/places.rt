//! What a view has of the rows of its base.
ghost use Rattle.std.specs.Prelude.{◌≡◌, ◌<◌, ◌≤◌, ◌+◌, Some, length};
ghost use Rattle.base_store.specs.Courses.{spots_in};
ghost use Rattle.base_store.specs.Stored.{view_in};
ghost use Rattle.view_laws.specs.Following.{IsFrom};
ghost use Rattle.view_laws.specs.RowForm.{form_of, found_row_by};
ghost use Rattle.view_laws.specs.ViewPlaces.{place_of, places, show};
ghost use Rattle.view_steps.specs.Founds.{found_through_steps};

use base_store::{AnyRef, Node, Store};
use elem::Steps;
use std::sync::ledger::Ledger;
use view_laws::{Found, Place, RowSpot};
use view_steps::raise;
use vocabulary::Item;

/// What a view makes of a row of its base that stands at one of its places.
pub(crate) fn found_of_row(store: &Store, n: AnyRef, row: &Item) -> Found
    requires { n < length store.now.nodes }
    ensures { result ≡ found_row_by (form_of (view_in store.now n)) row.now }
{
    let _base = store.base_of(n);
    let mut found = Found {
        item: *row,
        seen: true,
    };
    raise_all(store, n, &mut found);
    found
}

/// The same in place, step by step from the base.
fn raise_all(store: &Store, n: AnyRef, found: &mut Found)
    requires { n < length store.now.nodes }
    ensures { found.new ≡ found_through_steps (view_in store.now n) found.old }
{
    match store.node(n) {
        Node::Base(_) => {}
        Node::Step { step, parent } => {
            raise_all(store, parent, found);
            raise(&step, found);
        }
    }
}

/// What a view has at one of its places.
pub(crate) fn found_at<L: Ledger>(
    store: &Store,
    n: AnyRef,
    at: &Place,
    steps: &mut Steps<L>,
) -> Option<Found>
    requires node { n < length store.now.nodes }
    requires place { IsFrom (places store.now.world (spots_in store.now.world) (view_in store.now n)) (Some at.now) }
    ensures found { result ≡ show store.now.world (spots_in store.now.world) (view_in store.now n) at.now }
    ensures step { steps.new ≤ steps.old + 1 }
{
    store.is_lawful(n);
    match store.row_at(store.base_of(n), &at.spot, steps) {
        Some(row) => Some(found_of_row(store, n, &row)),
        None => None,
    }
}

/// The place of a row of the one base under a view.
pub(crate) fn at_spot(spot: RowSpot) -> Place
    ensures { result ≡ place_of spot }
{
    Place { leaf: 0, spot }
}
