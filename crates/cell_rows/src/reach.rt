//! Where a removal looks for the rows that go.

use linked_base::FreeLinkedMap;
use view_laws::Lane;
use vocabulary::Side;

/// The rows at which a removal looks. Outside of them none goes.
#[derive(Clone, Copy)]
pub enum Reach<'a> {
    /// All of them, and all go.
    Whole,
    /// Those of a lane.
    Along(&'a Lane),
    /// Those of some rows of the table, or of some columns.
    At(Side, &'a FreeLinkedMap<()>),
}
