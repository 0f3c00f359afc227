use elem::{Elem, Span};

/// An item of a builder, or a row of what it made.
#[derive(Clone, Copy, Debug, PartialEq, Eq)]
pub enum Row {
    /// An element of a list or a set.
    One(Elem),
    /// An element of a multiset with a number of occurrences: Guava's `Multiset.Entry`.
    Counted(Elem, u32),
    /// A key and a value.
    Pair(Elem, Elem),
    /// A row, a column and the value of a table's cell.
    Cell(Elem, Elem, Elem),
    /// A range of a range set.
    Range(Span),
    /// A range of a range map, and its value.
    RangeValue(Span, Elem),
    /// Two nodes of a graph, and the value of the edge from the first to the second. No builder takes one.
    Edge(Elem, Elem, Elem),
}
