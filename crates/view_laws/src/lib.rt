//! The laws on which reading views lazily rests: where each candidate of a view stands in the bases, what a walk along
//! part of a view asks of the view below it, and how each answer comes down to the bases step by step.
//!
//! Each law holds for families of steps, never step by step: a step is told by the columns of its table. A law is the
//! contract of a function that does nothing.
#![tactic(auto)]

mod base_laws;
mod down_laws;
mod form_laws;
mod group_orders;
mod lanes;
mod laws;
mod line_laws;
mod look_laws;
mod look_ups;
mod narrowing;
mod passing;
mod places;
mod row_laws;
mod row_place_laws;
mod search_laws;
mod shape_narrowing;

pub use base_laws::{line_of_base, takes_down};
pub use down_laws::{each_down, line_down, order_at, told_on_shape};
pub use form_laws::{items_fit, show_fits};
pub use group_orders::order_on;
pub use lanes::{GroupOrder, Lane, PartAsk, Pick, Run, all, meets, takes};
pub use laws::{as_many_places, labels, leaves_in_view};
pub use line_laws::{found_in_lane, line_hidden, line_joined, line_over, whole_line};
pub use look_laws::{groups_there, shows_both, shows_first, shows_hidden, shows_over, shows_row};
pub use look_ups::{decided, found_over, look_below};
pub use narrowing::{flipped, narrow, source_of};
pub use passing::{leaves_lane, pass_down};
pub use places::{Found, Place, RowSpot, same_spot, shifted, unshifted};
pub use row_laws::{
    candidates_of_rows, found_of_rows, lift_undone, lifted_is_shown, shown_of_rows,
};
pub use row_place_laws::{
    few_candidates, places_of_rows, places_with, places_without, row_at_place, row_shown,
};
pub use search_laws::{alike_in_lane, element_shown, first_decides, one_alike, one_in_lane};
pub use shape_narrowing::{asks_part, narrow_on, tells_on};

#[cfg(test)]
mod tests;
