use elem::NoMemory;
use thiserror::Error;

/// Why a bimap took no pair. It is as before.
#[derive(Clone, Copy, Debug, PartialEq, Eq, Drop, Error)]
pub enum BiFault {
    /// The new partner is bound to another: Guava's `IllegalArgumentException`.
    #[error("bound to another")]
    Bound,
    /// Want of memory.
    #[error("out of memory")]
    NoMemory,
}
