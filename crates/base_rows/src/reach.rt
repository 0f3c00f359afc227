//! Where a removal looks for the rows that go.

use linked_base::FreeLinkedMap;
use view_laws::Lane;
use vocabulary::Side;

/// The rows at which a removal looks. Outside of them none goes.
#[derive(Clone, Copy)]
pub enum Reach<'a> {
    /// All of them, and all go.
    Whole,
    /// Those of a lane.
    Along(&'a Lane),
    /// Those that have one of some elements in a part: the key, or the value of a bimap.
    At(Side, &'a FreeLinkedMap<()>),
}
