//! Where a cell stands, and the index from there to the place of its node.
ghost use Rattle.std.specs.Prelude.{◌≡◌, ◌<◌, Some, None, cond};
ghost use Rattle.std.specs.HashMap.{spare};
ghost use Rattle.std.specs.HashMap as hash;
ghost use Rattle.std.specs.Cmp.{partial_equiv_from_equiv};
ghost use Rattle.table_base.specs.declared.spots.Spot.{Spot as TheSpot};
ghost use Rattle.table_base.specs.Spots.{spot_at, same_spot, hashed_spot, same_spot_equiv, hashed_spot-same};

use elem::{Elem, same};
use hash_seed::SeededMap;
use std::hash::{Hash, Hasher};

/// The row and the column of a cell.
#[derive(Clone, Copy)]
pub struct Spot {
    pub row: Elem,
    pub column: Elem,
}

impl PartialEq for Spot {
    ghost eq = { same_spot };

    ghost laws = { partial_equiv_from_equiv same_spot_equiv };

    #[tactic(auto, unfolding(crate::specs::Spots::same_spot))]
    fn eq(&self, other: &Spot) -> bool {
        same(&self.row, &other.row) && same(&self.column, &other.column)
    }
}

impl Eq for Spot {
    ghost laws = { same_spot_equiv };
}

impl Hash for Spot {
    ghost hash_input = { hashed_spot };

    ghost respects_eq = { hashed_spot-same };

    fn hash<H: Hasher>(&self, state: &mut H) {
        self.row.hash(state);
        self.column.hash(state);
    }
}

/// The spot of a row and a column.
fn spot_at(row: &Elem, column: &Elem) -> Spot
    ensures { result ≡ spot_at row.now column.now }
{
    Spot {
        row: *row,
        column: *column,
    }
}

/// The place of the cell of a row and a column.
pub fn place_of(index: &SeededMap<Spot, usize>, row: &Elem, column: &Elem) -> Option<usize>
    ensures { result ≡ hash.get same_spot index.now (spot_at row.now column.now) }
{
    index.get(&spot_at(row, column)).copied()
}

/// Gives a row and a column a place, for which there is room.
pub fn write_place(index: &mut SeededMap<Spot, usize>, row: &Elem, column: &Elem, place: usize)
    requires { 0 < spare index.old }
    ensures { (q : TheSpot) → hash.get same_spot index.new q ≡ cond (same_spot (spot_at row.now column.now) q) (Some place) (hash.get same_spot index.old q) }
{
    let at = spot_at(row, column);
    let _before = index.insert(at, place);
}

/// Takes the place of a row and a column out of the index.
pub fn take_place(index: &mut SeededMap<Spot, usize>, row: &Elem, column: &Elem)
    ensures { (q : TheSpot) → hash.get same_spot index.new q ≡ cond (same_spot (spot_at row.now column.now) q) None (hash.get same_spot index.old q) }
{
    let at = spot_at(row, column);
    index.remove(&at);
}
