//! Whether items that are added pass each step down to the base.
ghost use Rattle.std.specs.Prelude.{◌≡◌, ◌<◌, length, is_some};
ghost use Rattle.std.specs.List.{list_all};
ghost use Rattle.base_store.specs.Stored.{view_in};
ghost use Rattle.machine.specs.Views.{lift as lifted_item};

use base_store::{AnyRef, Node, Store};
use vocabulary::{Item, lifted};

/// The row of the base that an added item is, where it passes each step on its way down.
pub(crate) fn lift(store: &Store, n: AnyRef, item: &Item) -> Option<Item>
    requires { n < length store.now.nodes }
    ensures { result ≡ lifted_item (view_in store.now n) item.now }
{
    match store.node(n) {
        Node::Base(_) => Some(*item),
        Node::Step { step, parent } => match lifted(&step, item) {
            Some(below) => lift(store, parent, &below),
            None => None,
        },
    }
}

/// Whether each of some items does.
pub(crate) fn all_lift(store: &Store, n: AnyRef, items: &[Item]) -> bool
    requires { n < length store.now.nodes }
    ensures { result ≡ list_all (λ item. is_some (lifted_item (view_in store.now n) item)) items.now }
{
    items.iter().all(|item| lift(store, n, item).is_some())
}
