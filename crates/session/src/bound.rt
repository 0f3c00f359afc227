//! What a name stands for.

use base_store::AnyRef;
use cursor_seat::Seat;

/// What a name stands for: a view, or an iterator of its own.
#[derive(Clone, Copy)]
pub enum Bound {
    View(AnyRef),
    Iterator(Seat),
}
