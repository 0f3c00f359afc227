//! Looking up by key, and by the value of a bimap: one call of the base.
ghost use Rattle.std.specs.Prelude.{◌≡◌, ◌<◌, ◌≤◌, ◌+◌, length, true, filter, map, option_map, option_to_list, IfSome};
ghost use Rattle.base_store.specs.Stored.{view_in};
ghost use Rattle.read_chain.specs.LookUps.{has_part, IsFoundAt};
ghost use Rattle.read_chain.specs.Reads.{shown_in};
ghost use Rattle.view_laws.specs.Places.{found_in};
ghost use Rattle.vocabulary.specs.Shapes.{is_bimap, is_keyed, is_unique};
ghost use Rattle.machine.specs.Views.{candidates, shape_at};

use crate::places::found_of_row;
use base_store::{AnyRef, Store};
use elem::{Elem, Steps};
use std::sync::ledger::Ledger;
use view_laws::{Found, RowSpot};
use vocabulary::{Item, RowSort, Shape, Side};

/// What a view has of a row, and the spot of the row.
#[derive(Clone, Copy)]
pub(crate) struct SpottedFound {
    pub(crate) spot: RowSpot,
    pub(crate) found: Found,
}

/// What a view has of an element in a part that no two of its items share, shown or hidden, and where. It asks the base
/// once at most.
pub(crate) fn look_up<L: Ledger>(
    store: &Store,
    n: AnyRef,
    side: Side,
    x: &Elem,
    steps: &mut Steps<L>,
) -> Option<SpottedFound>
    requires node { n < length store.now.nodes }
    requires unique { is_unique (shape_at store.now.world (view_in store.now n)) side ≡ true }
    ensures found { filter (λ d. has_part side x.now d.item) (map found_in (candidates store.now.world (view_in store.now n))) ≡ option_to_list (option_map (λ s. s.found) result) }
    ensures spot { IfSome result (λ s. IsFoundAt store.now.world (view_in store.now n) side x.now s.spot) }
    ensures step { steps.new ≤ steps.old + 1 }
{
    let _base = store.base_of(n);
    store.is_lawful(n);
    let course = store.course_of_part(n, side, x);
    match store.next_row(&course, &None, steps) {
        Some(next) => Some(SpottedFound {
            spot: next.spot,
            found: found_of_row(store, n, &next.row),
        }),
        None => None,
    }
}

/// The item shown that has an element in such a part. It asks the base once at most.
pub(crate) fn shown_with<L: Ledger>(
    store: &Store,
    n: AnyRef,
    side: Side,
    x: &Elem,
    steps: &mut Steps<L>,
) -> Option<Item>
    requires node { n < length store.now.nodes }
    requires unique { is_unique (shape_at store.now.world (view_in store.now n)) side ≡ true }
    ensures item { filter (has_part side x.now) (shown_in store.now n) ≡ option_to_list result }
    ensures step { steps.new ≤ steps.old + 1 }
{
    match look_up(store, n, side, x, steps) {
        Some(there) => {
            if there.found.seen {
                Some(there.found.item)
            } else {
                None
            }
        }
        None => None,
    }
}

/// Whether no two items of a view of the shape have the same key.
pub fn goes_by_key(shape: Shape) -> bool
    ensures { result ≡ is_keyed shape }
{
    matches!(
        shape,
        Shape::Set { .. }
            | Shape::Rows(RowSort::Entry | RowSort::Group | RowSort::Counted)
            | Shape::Map { .. }
            | Shape::Groups(_)
            | Shape::BiMap
    )
}

/// Whether no two items of a view of the shape have the same value.
pub(crate) fn goes_by_value(shape: Shape) -> bool
    ensures { result ≡ is_bimap shape }
{
    matches!(shape, Shape::BiMap)
}
