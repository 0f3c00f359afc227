//! Iterators over views: where one stands, and which changes of its bases it has seen.
//!
//! A seat is a small value, and none of its calls takes memory. It goes from candidate to candidate of its view by their
//! places, and fails where a base of the view has changed under it other than by its own removal.
#![tactic(auto)]

mod dropped;
mod laws;
mod passing;
mod seat;
mod seeking;
mod seen;
mod stand;
mod there;

pub use laws::{edit_leaves, gives_in_order, stale_after, still_fits};
pub use seat::Seat;
