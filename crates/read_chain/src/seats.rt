//! From place to place of a view, in the open: what an iterator stands on.
ghost use Rattle.std.specs.Prelude.{◌≡◌, ◌<◌, ◌≤◌, ◌+◌, None, Some, length, option_map};
ghost use Rattle.base_store.specs.Courses.{spots_in};
ghost use Rattle.base_store.specs.Stored.{view_in};
ghost use Rattle.read_chain.specs.Walks.{shown_there};
ghost use Rattle.view_laws.specs.Following.{Follows, IsFrom};
ghost use Rattle.view_laws.specs.ViewPlaces.{place_of, places, show};

use crate::places::{at_spot, found_at};
use base_store::{AnyRef, Store};
use elem::Steps;
use std::sync::ledger::Ledger;
use view_laws::{Place, RowSpot};
use vocabulary::Item;

/// The place of a view's first candidate, shown or hidden. There is none where the view has no candidate.
pub fn walk_first<L: Ledger>(store: &Store, n: AnyRef, steps: &mut Steps<L>) -> Option<Place>
    requires { n < length store.now.nodes }
    ensures first { Follows (places store.now.world (spots_in store.now.world) (view_in store.now n)) None result }
    ensures step { steps.new ≤ steps.old + 1 }
{
    place_behind(store, n, &None, steps)
}

/// The place of the candidate behind that at a place of the view. There is none behind the last one.
pub fn walk_after<L: Ledger>(
    store: &Store,
    n: AnyRef,
    at: &Place,
    steps: &mut Steps<L>,
) -> Option<Place>
    requires node { n < length store.now.nodes }
    requires place { IsFrom (places store.now.world (spots_in store.now.world) (view_in store.now n)) (Some at.now) }
    ensures next { Follows (places store.now.world (spots_in store.now.world) (view_in store.now n)) (Some at.now) result }
    ensures step { steps.new ≤ steps.old + 1 }
{
    store.is_lawful(n);
    place_behind(store, n, &Some(at.spot), steps)
}

/// The place behind a spot in the base under a view, or the first one.
fn place_behind<L: Ledger>(
    store: &Store,
    n: AnyRef,
    from: &Option<RowSpot>,
    steps: &mut Steps<L>,
) -> Option<Place>
    requires node { n < length store.now.nodes }
    requires from { IsFrom (places store.now.world (spots_in store.now.world) (view_in store.now n)) (option_map place_of from.now) }
    ensures next { Follows (places store.now.world (spots_in store.now.world) (view_in store.now n)) (option_map place_of from.now) result }
    ensures step { steps.new ≤ steps.old + 1 }
{
    let _base = store.base_of(n);
    store.is_lawful(n);
    let course = store.course(n, false);
    match store.next_row(&course, from, steps) {
        Some(next) => Some(at_spot(next.spot)),
        None => None,
    }
}

/// The item of the candidate at a place of the view, where it is shown.
pub fn shown_at<L: Ledger>(
    store: &Store,
    n: AnyRef,
    at: &Place,
    steps: &mut Steps<L>,
) -> Option<Item>
    requires node { n < length store.now.nodes }
    requires place { IsFrom (places store.now.world (spots_in store.now.world) (view_in store.now n)) (Some at.now) }
    ensures shown { result ≡ shown_there (show store.now.world (spots_in store.now.world) (view_in store.now n) at.now) }
    ensures step { steps.new ≤ steps.old + 1 }
{
    let found = found_at(store, n, at, steps)?;
    if found.seen { Some(found.item) } else { None }
}
