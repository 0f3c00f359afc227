use thiserror::Error;

/// Why a builder took no item, or made nothing. It is as before.
#[derive(Clone, Copy, Debug, PartialEq, Eq, Drop, Error)]
pub enum BuildFault {
    /// The item, or the items together, are none that the kind allows: Java's `IllegalArgumentException`.
    #[error("not allowed by the builder")]
    Refused,
    /// Want of memory.
    #[error("out of memory")]
    NoMemory,
}
