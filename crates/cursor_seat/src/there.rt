//! What a store keeps of its nodes.
ghost use Rattle.std.specs.Prelude.{◌<◌, length};
ghost use Rattle.cursor_seat.specs.Seats.{IsThere};

use base_store::{AnyRef, Store};

/// Does nothing; its contract says what is known of each node of a store.
pub(crate) fn is_there(store: &Store, n: AnyRef)
    requires { n < length store.now.nodes }
    ensures { IsThere store.now n }
{
    let _base = store.base_of(n);
    store.is_lawful(n);
}
