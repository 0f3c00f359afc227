//! What a sublist keeps.

/// A run of a list: `List.subList`. It is stale once its base has changed, but for writes through it.
#[derive(Clone, Copy)]
pub struct Sublist {
    /// Where it starts in the list below.
    pub start: usize,
    /// How many items it has.
    pub len: usize,
    /// The change number of the base that it has seen.
    pub seen: u64,
}
