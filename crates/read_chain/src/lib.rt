//! Reading through nested views: what a view shows is read from the rows of its base at the moment of the call.
//!
//! No list is built and no memory is taken: a walk goes from row to row of the base, one call each, and a look-up by key
//! asks the base once.
#![tactic(auto)]

mod comparing;
mod finding;
mod indexes;
mod key_places;
mod list_look_ups;
mod look_ups;
mod making;
mod places;
mod reading;
mod reads;
mod seats;
mod walks;

pub use comparing::equals;
pub use finding::{ItemTest, find, find_place};
pub use indexes::{gap_index, item_index, place_of_item};
pub use key_places::{place_and_value, place_of};
pub use look_ups::goes_by_key;
pub use making::make_view;
pub use reading::read;
pub use reads::{
    contains, contains_all, first, has_key, has_value, index_of, is_empty, item_at, last, map_get,
    size,
};
pub use seats::{shown_at, walk_after, walk_first};
pub use walks::Walk;
