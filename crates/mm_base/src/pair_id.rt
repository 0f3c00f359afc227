ghost use Rattle.std.specs.Prelude.{◌≡◌};

use std::marker::Model;

/// The name of a pair, which it keeps as long as it is there. Contracts see a number.
#[derive(Clone, Copy, Debug, PartialEq, Eq)]
pub struct PairId {
    place: usize,
}

impl Model for PairId {
    ghost use Rattle.std.specs.Prelude.{ℕ};

    ghost Value = { ℕ };

    ghost view = { λ id. id.place };

    ghost inverse = { λ n. record { place = n } };
}

/// The id of the pair whose node is at `place`.
pub fn id_at(place: usize) -> PairId
    ensures { result ≡ place }
{
    PairId { place }
}

/// The id of the pair at `place`, where there is one.
pub fn some_id(place: Option<usize>) -> Option<PairId>
    ensures { result ≡ place }
{
    match place {
        None => None,
        Some(place) => Some(PairId { place }),
    }
}

/// The place of an id's node.
pub fn place_of(id: PairId) -> usize
    ensures { result ≡ id }
{
    id.place
}
