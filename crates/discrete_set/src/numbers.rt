//! Numbers of 64 bits as ranks, and places as numbers of ranks.
ghost use Rattle.std.specs.Prelude.{◌≡◌, ◌^◌, ◌<◌, ◌≤◌};
ghost use Rattle.elem.specs.Places.{IsPlace};
ghost use Rattle.discrete_set.specs.Numbers.{number, numbers_below as below, rank};

/// The number of numbers of 64 bits.
pub const RANKS: u128 = 1 << 64;

/// The rank of 0.
const ZERO: i128 = 1 << 63;

/// The place of the cut below the least number.
const LEAST: u128 = (1 << 66) - (1 << 64);

/// How many numbers lie below a number.
pub fn rank_of(x: i64) -> u64
    ensures { result ≡ rank x }
{
    (i128::from(x) + ZERO) as u64
}

/// The number of a rank.
pub fn number_at(rank: u64) -> i64
    ensures { result ≡ number rank }
{
    (i128::from(rank) - ZERO) as i64
}

/// How many numbers have their units below a place.
pub fn numbers_below(place: u128) -> u128
    requires { IsPlace place }
    ensures value { result ≡ below place }
    ensures bound { result ≤ 2 ^ 64 }
{
    RANKS.min((place.saturating_sub(LEAST) + 1) / 2)
}
