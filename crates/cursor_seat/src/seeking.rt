//! The first shown candidate behind a place.
ghost use Rattle.std.specs.Prelude.{◌≡◌, ◌<◌, ◌≤◌, ◌+◌, IfNone, IfSome, None, drop, length};
ghost use Rattle.base_store.specs.Stored.{view_in};
ghost use Rattle.cursor_seat.specs.Seats.{IsSought, hidden_ahead, places_in};
ghost use Rattle.cursor_seat.specs.Stands.{IsLast};
ghost use Rattle.machine.specs.Iterators.{first_seen};
ghost use Rattle.machine.specs.Views.{candidates};

use crate::passing::{Passed, pass};
use crate::stand::Stand;
use crate::there::is_there;
use base_store::{AnyRef, Store};
use elem::Steps;
use std::sync::ledger::Ledger;
use view_laws::Place;
use vocabulary::Item;

/// What comes next: its item, how many candidates were passed with it, and where a seat stands behind it.
#[derive(Clone, Copy)]
pub struct Sought {
    pub item: Item,
    pub passed: usize,
    pub stand: Stand,
}

/// The first shown candidate behind so many, the last of which stands at a place.
pub(crate) fn seek<L: Ledger>(
    store: &Store,
    n: AnyRef,
    from: usize,
    last: Option<Place>,
    steps: &mut Steps<L>,
) -> Option<Sought>
    requires node { n < length store.now.nodes }
    requires last { IsLast (places_in store.now n) from last }
    ensures none { IfNone result (first_seen from (drop from (candidates store.now.world (view_in store.now n))) ≡ None) }
    ensures some { IfSome result (λ it. IsSought store.now n from it) }
    ensures steps { steps.new ≤ steps.old + hidden_ahead (drop from (candidates store.now.world (view_in store.now n))) + 1 }
{
    is_there(store, n);
    let _rows = store.len(store.base_of(n));
    let mut passed = from;
    let mut before = last;
    while let Some(Passed { place, item }) = pass(store, n, &before, steps) {
        passed += 1;
        match item {
            Some(item) => {
                return Some(Sought {
                    item,
                    passed,
                    stand: Stand::Gave { before, at: place },
                });
            }
            None => before = Some(place),
        }
    }
    None
}
