/// The word by which a builder is asked for its collection.
#[derive(Clone, Copy, Debug, PartialEq, Eq)]
pub enum Finish {
    /// `build`.
    Plain,
    /// `buildOrThrow`, which refuses what was added twice.
    OrThrow,
    /// `buildKeepingLast`, which keeps the last pair of each key.
    KeepingLast,
}
