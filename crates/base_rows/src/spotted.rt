//! Rows and what tells them from the others.
ghost use Rattle.base_rows.specs.BaseSpots.{SpotsTell};

use view_laws::RowSpot;
use vocabulary::Item;

/// A row of a base, and its spot.
#[derive(Clone, Copy)]
pub struct SpottedRow {
    pub spot: RowSpot,
    pub row: Item,
}

/// The spots of the rows of a base tell them apart.
pub fn spots_tell()
    ensures { SpotsTell }
{}
