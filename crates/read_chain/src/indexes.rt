//! Indexes of a list view, as indexes of its base.
ghost use Rattle.std.specs.Prelude.{◌≡◌, ◌<◌, ◌≤◌, length, true};
ghost use Rattle.base_store.specs.Stored.{view_in};
ghost use Rattle.read_chain.specs.Reads.{shown_in, StandsAt};
ghost use Rattle.machine.specs.CallEdits.{hit_at};
ghost use Rattle.view_steps.specs.Indexes as spec;
ghost use Rattle.vocabulary.specs.Shapes.{is_list};
ghost use Rattle.machine.specs.Views.{candidates, shape_at};

use crate::places::at_spot;
use base_store::{AnyRef, Node, Store};
use view_laws::{Place, RowSpot};
use view_steps::{gap_index_over, item_index_over};

/// The index in its base of item `i` of a view, where there are so many rows.
pub fn item_index(store: &Store, n: AnyRef, size: usize, i: usize) -> usize
    requires node { n < length store.now.nodes }
    requires index { i < size }
    ensures index { result ≡ spec.item_index (view_in store.now n) size i }
    ensures within { result < size }
{
    match store.node(n) {
        Node::Base(_) => i,
        Node::Step { step, parent } => {
            item_index(store, parent, size, item_index_over(&step, size, i))
        }
    }
}

/// The index in its base before which a row goes that is to be item `i` of a view, where there are so many rows.
pub fn gap_index(store: &Store, n: AnyRef, size: usize, i: usize) -> usize
    requires node { n < length store.now.nodes }
    requires index { i ≤ size }
    ensures index { result ≡ spec.gap_index (view_in store.now n) size i }
    ensures within { result ≤ size }
{
    match store.node(n) {
        Node::Base(_) => i,
        Node::Step { step, parent } => {
            gap_index(store, parent, size, gap_index_over(&step, size, i))
        }
    }
}

/// The place of item `i` of a list view.
pub fn place_of_item(store: &Store, n: AnyRef, i: usize) -> Place
    requires node { n < length store.now.nodes }
    requires list { is_list (shape_at store.now.world (view_in store.now n)) ≡ true }
    requires index { i < length (shown_in store.now n) }
    ensures { StandsAt store.now.world (view_in store.now n) result (hit_at i (candidates store.now.world (view_in store.now n))) }
{
    store.is_lawful(n);
    let size = store.len(store.base_of(n));
    at_spot(RowSpot::Index(item_index(store, n, size, i)))
}
