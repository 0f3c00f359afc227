//! The changes that a seat has seen.
ghost use Rattle.std.specs.Prelude.{◌≡◌, ◌<◌, length, nat_eq};
ghost use Rattle.std.specs.Cmp.Lexicographic.{pointwise};
ghost use Rattle.base_store.specs.Stored.{view_in};
ghost use Rattle.machine.specs.Iterators.{changes};

use base_store::{AnyRef, Store};
use std::marker::Model;

/// One change number of each base of a view, from left to right. Contracts see the list of them.
///
/// The views that there are stand on one base each.
#[derive(Clone, Copy)]
pub struct Seen {
    change: u64,
}

impl Model for Seen {
    ghost use Rattle.std.specs.Prelude.{ℕ, List, [], ◌∷◌, get_or};

    ghost Value = { List ℕ };

    ghost view = { λ s. s.change ∷ [] };

    ghost inverse = { λ numbers. record { change = get_or numbers 0 0 } };
}

impl Seen {
    /// The numbers as they are now.
    pub(crate) fn of(store: &Store, n: AnyRef) -> Seen
        requires { n < length store.now.nodes }
        ensures { result ≡ changes store.now.world (view_in store.now n) }
    {
        Seen {
            change: store.change(store.base_of(n)),
        }
    }

    /// Whether these are the numbers now.
    pub(crate) fn is_last(&self, store: &Store, n: AnyRef) -> bool
        requires { n < length store.now.nodes }
        ensures { result ≡ pointwise nat_eq (changes store.now.world (view_in store.now n)) self.now }
    {
        store.change(store.base_of(n)) == self.change
    }
}
