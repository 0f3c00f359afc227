//! Where the candidates of a view stand, and what is found there.
ghost use Rattle.std.specs.Prelude.{◌≡◌, ◌+◌, ◌<◌, ◌≤◌, ◌^◌};
ghost use Rattle.view_laws.specs.Spots as spots;
ghost use Rattle.view_laws.specs.Places as spec;

use elem::{Elem, same};
use vocabulary::Item;

/// What tells a row of a base from the others. It stays while that row stays.
#[derive(Clone, Copy)]
pub enum RowSpot {
    /// The index of a row of a list, and the number of a piece of a partition.
    Index(usize),
    /// The key of a row of a set, a map or a bimap.
    Key(Elem),
    /// The number that a multimap gives to one of its pairs.
    Pair(usize),
    /// The row and the column of a cell of a table.
    Cell(Elem, Elem),
    /// An element of a bag, and which of its occurrences.
    Nth(Elem, u128),
}

/// A place in the bases under a view, in which a candidate stands: the base, as its number among those under the view
/// from the left, and a row there. A group stands where its first member stands.
#[derive(Clone, Copy)]
pub struct Place {
    pub leaf: usize,
    pub spot: RowSpot,
}

/// What a view has at a place: an item, which is shown where it is seen, and hidden else.
#[derive(Clone, Copy)]
pub struct Found {
    pub item: Item,
    pub seen: bool,
}

/// Whether two spots are of the same row.
pub fn same_spot(a: &RowSpot, b: &RowSpot) -> bool
    ensures { result ≡ spots.same_spot a.now b.now }
{
    match (a, b) {
        (RowSpot::Index(i), RowSpot::Index(j)) | (RowSpot::Pair(i), RowSpot::Pair(j)) => *i == *j,
        (RowSpot::Key(k), RowSpot::Key(l)) => same(k, l),
        (RowSpot::Cell(r, c), RowSpot::Cell(s, d)) => same(r, s) && same(c, d),
        (RowSpot::Nth(x, i), RowSpot::Nth(y, j)) => same(x, y) && *i == *j,
        _ => false,
    }
}

/// A place of the second of two views, among those of both, where the first stands over n bases.
pub fn shifted(n: usize, place: &Place) -> Place
    requires { place.now.leaf + n < 2 ^ 64 }
    ensures { result ≡ spec.shifted n place.now }
{
    Place {
        leaf: place.leaf + n,
        spot: place.spot,
    }
}

/// The place in the second view.
pub fn unshifted(n: usize, place: &Place) -> Place
    requires { n ≤ place.now.leaf }
    ensures { result ≡ spec.unshifted n place.now }
{
    Place {
        leaf: place.leaf - n,
        spot: place.spot,
    }
}
