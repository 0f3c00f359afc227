use thiserror::Error;

/// Why a row did not come to a base. The base is as before.
#[derive(Clone, Copy, Debug, PartialEq, Eq, Drop, Error)]
pub enum PlaceFault {
    /// The base does not take it: a pair whose partner is another's, in a bimap.
    #[error("refused")]
    Refused,
    /// Want of memory.
    #[error("out of memory")]
    NoMemory,
}
