//! Rows and what tells them from the others.
ghost use Rattle.cell_rows.specs.CellSpots.{SpotsTell};

use view_laws::RowSpot;
use vocabulary::Item;

/// A row of a table, and its spot.
#[derive(Clone, Copy)]
pub struct SpottedRow {
    pub spot: RowSpot,
    pub row: Item,
}

/// The spots of the rows of a table tell them apart.
pub fn spots_tell()
    ensures { SpotsTell }
{}
