//! Where what stood at a place stands once another candidate went.
ghost use Rattle.std.specs.Prelude.{◌≡◌, option_map};
ghost use Rattle.cursor_seat.specs.Dropped as spec;

use view_laws::{Place, RowSpot};

/// The place of the candidate before the one that went, if there is one. In a list, what stood behind the row that went
/// moves up.
pub(crate) fn before_gone(gone: &Place, before: &Option<Place>) -> Option<Place>
    ensures { result ≡ option_map (spec.after_drop gone.now.spot) before.now }
{
    match before {
        Some(place) => Some(Place {
            leaf: place.leaf,
            spot: spot_after(&gone.spot, &place.spot),
        }),
        None => None,
    }
}

/// The spot of a row, once the row at another spot went.
fn spot_after(gone: &RowSpot, spot: &RowSpot) -> RowSpot
    ensures { result ≡ spec.spot_after gone.now spot.now }
{
    match (gone, spot) {
        (RowSpot::Index(i), RowSpot::Index(j)) => {
            if *i < *j {
                RowSpot::Index(*j - 1)
            } else {
                *spot
            }
        }
        _ => *spot,
    }
}
