//! Writing through nested views: a call on a view changes the rows of the base under it, and nothing else.
//!
//! A call is refused before anything changes: for what the view allows, then for its argument, then for an item that
//! does not pass a step on its way down to the base, then for want of room. Another view, which may be the same one, is
//! read whole first.
#![tactic(auto)]

mod adding;
mod calling;
mod clearing;
mod lifting;
mod members;
mod others;
mod places;
mod putting;
mod removing;
mod spots;

pub use calling::{call, call_with};
pub use places::drop_place;
