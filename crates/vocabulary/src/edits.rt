//! Where rows go that come to a base.

/// Where a row goes that comes to a base.
#[derive(Clone, Copy)]
pub enum Spot {
    /// In the place that the kind of the base gives it.
    Own,
    /// In that place, where the row is a pair of a bimap and its value tells the place.
    Swapped,
    /// Before the row of this number, or behind all where there is none.
    Before(usize),
    /// In the place of the row of this number, which goes.
    Instead(usize),
    /// Before the row of this number among those of its key, or in its own place where there is none.
    InKey(usize),
}
