//! From one candidate of a view to the next.
ghost use Rattle.std.specs.Prelude.{◌≡◌, ◌<◌, ◌≤◌, ◌+◌, IfSome, Some, length, option_map};
ghost use Rattle.base_store.specs.Courses.{spots_in};
ghost use Rattle.base_store.specs.Stored.{view_in};
ghost use Rattle.read_chain.specs.Walks.{shown_there};
ghost use Rattle.view_laws.specs.Following.{Follows, IsFrom};
ghost use Rattle.view_laws.specs.RowForm.{form_of, found_row_by};
ghost use Rattle.view_laws.specs.ViewPlaces.{places, show};
ghost use Rattle.view_steps.specs.Founds.{found_through_steps};

use base_store::{AnyRef, Node, Store};
use elem::Steps;
use std::sync::ledger::Ledger;
use view_laws::{Found, Place, RowSpot};
use view_steps::raise;
use vocabulary::Item;

/// A candidate that was passed: its place, and its item where it is shown.
#[derive(Clone, Copy)]
pub struct Passed {
    pub place: Place,
    pub item: Option<Item>,
}

/// Passes the candidate behind that at a place, or the first one, in one call of the base. There is none behind the last.
pub(crate) fn pass<L: Ledger>(
    store: &Store,
    n: AnyRef,
    last: &Option<Place>,
    steps: &mut Steps<L>,
) -> Option<Passed>
    requires node { n < length store.now.nodes }
    requires last { IsFrom (places store.now.world (spots_in store.now.world) (view_in store.now n)) last.now }
    ensures next { Follows (places store.now.world (spots_in store.now.world) (view_in store.now n)) last.now (option_map (λ it. it.place) result) }
    ensures item { IfSome result (λ it. it.item ≡ shown_there (show store.now.world (spots_in store.now.world) (view_in store.now n) it.place)) }
    ensures steps { steps.new ≤ steps.old + 1 }
{
    let _base = store.base_of(n);
    store.is_lawful(n);
    let course = store.course(n, false);
    let from = spot_of(last);
    match store.next_row(&course, &from, steps) {
        Some(next) => Some(Passed {
            place: Place {
                leaf: 0,
                spot: next.spot,
            },
            item: shown_of_row(store, n, &next.row),
        }),
        None => None,
    }
}

/// The spot of a place, where there is one.
fn spot_of(at: &Option<Place>) -> Option<RowSpot>
    ensures { result ≡ option_map (λ p. p.spot) at.now }
{
    match at {
        Some(place) => Some(place.spot),
        None => None,
    }
}

/// The item that a view makes of a row of its base, where it shows it.
fn shown_of_row(store: &Store, n: AnyRef, row: &Item) -> Option<Item>
    requires { n < length store.now.nodes }
    ensures { result ≡ shown_there (Some (found_row_by (form_of (view_in store.now n)) row.now)) }
{
    let found = found_of_row(store, n, row);
    if found.seen { Some(found.item) } else { None }
}

/// What a view makes of a row of its base that stands at one of its places.
fn found_of_row(store: &Store, n: AnyRef, row: &Item) -> Found
    requires { n < length store.now.nodes }
    ensures { result ≡ found_row_by (form_of (view_in store.now n)) row.now }
{
    let _base = store.base_of(n);
    let mut found = Found {
        item: *row,
        seen: true,
    };
    raise_all(store, n, &mut found);
    found
}

/// The same in place, step by step from the base.
fn raise_all(store: &Store, n: AnyRef, found: &mut Found)
    requires { n < length store.now.nodes }
    ensures { found.new ≡ found_through_steps (view_in store.now n) found.old }
{
    match store.node(n) {
        Node::Base(_) => {}
        Node::Step { step, parent } => {
            raise_all(store, parent, found);
            raise(&step, found);
        }
    }
}
