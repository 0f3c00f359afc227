ghost use Rattle.std.specs.Prelude.{◌≡◌};
ghost use Rattle.network_base.specs.Sides.{way_of};

use graph_base::Way;

/// The edges of a node that are counted: all that are at it, those that enter it, or those that leave it.
#[derive(Clone, Copy, Debug, PartialEq, Eq)]
pub enum Side {
    At,
    Into,
    Out,
}

/// The way of a graph's edges that a side is.
pub fn way_of(side: Side) -> Way
    ensures { result ≡ way_of side }
{
    match side {
        Side::At => Way::Both,
        Side::Into => Way::Into,
        Side::Out => Way::Out,
    }
}
