ghost use Rattle.std.specs.Prelude.{◌≡◌};
ghost use Rattle.vocabulary.specs.Shapes as spec;

use elem::BuildKind;

/// What a view is to its caller: the interface of Guava or `java.util` that it has.
#[derive(Clone, Copy)]
pub enum Shape {
    /// A `List`.
    List,
    /// A `Set`; a sorted one is a `NavigableSet`.
    Set { sorted: bool },
    /// A `Collection` that is neither a list nor a set, as a map's values are.
    Coll,
    /// A collection of rows that are no elements.
    Rows(RowSort),
    /// A `Map`; a sorted one is a `NavigableMap`.
    Map { sorted: bool },
    /// A map from keys to collections or maps, as `Multimap.asMap` and `Table.rowMap` are.
    Groups(GroupSort),
    /// A `Multiset`; a sorted one is a `SortedMultiset`.
    Bag { sorted: bool },
    /// A `BiMap`.
    BiMap,
    /// A `Multimap`; a sorted one has sorted keys.
    Multimap { values: ValueShape, sorted: bool },
    /// A `Table`; a mirrored one has rows and columns exchanged, a sorted one has sorted rows.
    Table { mirrored: bool, sorted: bool },
    /// A list of the lists that `Lists.partition` makes.
    Pieces,
    /// A `RangeSet` of whole numbers.
    RangeSet,
    /// A `RangeMap` of whole numbers.
    RangeMap,
    /// A `ValueGraph`.
    Graph { directed: bool },
    /// A builder of an immutable collection.
    Builder(BuildKind),
}

/// What rows are rows of.
#[derive(Clone, Copy)]
pub enum RowSort {
    /// `Map.Entry` of a map, where each key stands once.
    Entry,
    /// `Map.Entry` of a multimap, where a key may stand again.
    MultiEntry,
    /// A key with its group.
    Group,
    /// `Multiset.Entry`.
    Counted,
    /// `Table.Cell`.
    Cell,
    /// `Range`.
    Range,
    /// A range with its value.
    RangeEntry,
    /// `EndpointPair`.
    Pair { directed: bool },
}

/// What the values of one key of a multimap are.
#[derive(Clone, Copy)]
pub enum ValueShape {
    List,
    Set,
    SortedSet,
    Coll,
}

/// What stands in a group.
#[derive(Clone, Copy)]
pub enum GroupSort {
    /// The values of a key of a multimap.
    Values(ValueShape),
    /// The cells of a row of a table that is not mirrored, or of a column of one that is.
    RowCells { sorted: bool },
    /// The cells of a column of a table that is not mirrored, or of a row of one that is.
    ColumnCells,
}

/// A shape as far as the words of the language ask for it.
#[derive(Clone, Copy)]
pub enum Sort {
    List,
    Set,
    SortedSet,
    Coll,
    EntryRows,
    GroupRows,
    CountedRows,
    CellRows,
    Map,
    SortedMap,
    Groups,
    Bag,
    SortedBag,
    BiMap,
    Multimap,
    Table,
    Pieces,
    RangeSet,
    RangeRows,
    RangeMap,
    RangeEntryRows,
    Graph,
    PairRows,
    Builder(BuildKind),
}

/// The sort of a shape.
pub fn sort_of(shape: Shape) -> Sort
    ensures { result ≡ spec.sort_of shape }
{
    match shape {
        Shape::List => Sort::List,
        Shape::Set { sorted: false } => Sort::Set,
        Shape::Set { sorted: true } => Sort::SortedSet,
        Shape::Coll => Sort::Coll,
        Shape::Rows(RowSort::Entry | RowSort::MultiEntry) => Sort::EntryRows,
        Shape::Rows(RowSort::Group) => Sort::GroupRows,
        Shape::Rows(RowSort::Counted) => Sort::CountedRows,
        Shape::Rows(RowSort::Cell) => Sort::CellRows,
        Shape::Map { sorted: false } => Sort::Map,
        Shape::Map { sorted: true } => Sort::SortedMap,
        Shape::Groups(_) => Sort::Groups,
        Shape::Bag { sorted: false } => Sort::Bag,
        Shape::Bag { sorted: true } => Sort::SortedBag,
        Shape::BiMap => Sort::BiMap,
        Shape::Multimap { .. } => Sort::Multimap,
        Shape::Table { .. } => Sort::Table,
        Shape::Pieces => Sort::Pieces,
        Shape::RangeSet => Sort::RangeSet,
        Shape::Rows(RowSort::Range) => Sort::RangeRows,
        Shape::RangeMap => Sort::RangeMap,
        Shape::Rows(RowSort::RangeEntry) => Sort::RangeEntryRows,
        Shape::Graph { .. } => Sort::Graph,
        Shape::Rows(RowSort::Pair { .. }) => Sort::PairRows,
        Shape::Builder(kind) => Sort::Builder(kind),
    }
}

/// A collection of elements.
pub fn is_elements(shape: Shape) -> bool
    ensures { result ≡ spec.is_elements shape }
{
    matches!(
        shape,
        Shape::List | Shape::Set { .. } | Shape::Coll | Shape::Bag { .. }
    )
}

/// A map or a bimap.
pub fn is_map(shape: Shape) -> bool
    ensures { result ≡ spec.is_map shape }
{
    matches!(shape, Shape::Map { .. } | Shape::BiMap)
}

/// Whether equal items stand in such a view once.
pub fn has_each_once(shape: Shape) -> bool
    ensures { result ≡ spec.has_each_once shape }
{
    matches!(
        shape,
        Shape::Set { .. }
            | Shape::Multimap {
                values: ValueShape::Set | ValueShape::SortedSet,
                ..
            }
    )
}

/// What the values of a key of a multimap are.
pub fn shape_of_values(values: ValueShape) -> Shape
    ensures { result ≡ spec.shape_of_values values }
{
    match values {
        ValueShape::List => Shape::List,
        ValueShape::Set => Shape::Set { sorted: false },
        ValueShape::SortedSet => Shape::Set { sorted: true },
        ValueShape::Coll => Shape::Coll,
    }
}

/// What stands in a group.
pub fn shape_of_group(groups: GroupSort) -> Shape
    ensures { result ≡ spec.shape_of_group groups }
{
    match groups {
        GroupSort::Values(values) => shape_of_values(values),
        GroupSort::RowCells { sorted } => Shape::Map { sorted },
        GroupSort::ColumnCells => Shape::Map { sorted: false },
    }
}

pub fn is_bag(shape: Shape) -> bool
    ensures { result ≡ spec.is_bag shape }
{
    matches!(shape, Shape::Bag { .. })
}

pub fn is_multimap(shape: Shape) -> bool
    ensures { result ≡ spec.is_multimap shape }
{
    matches!(shape, Shape::Multimap { .. })
}

pub fn is_table(shape: Shape) -> bool
    ensures { result ≡ spec.is_table shape }
{
    matches!(shape, Shape::Table { .. })
}

pub fn is_groups(shape: Shape) -> bool
    ensures { result ≡ spec.is_groups shape }
{
    matches!(shape, Shape::Groups(_))
}

/// A range set or a range map.
pub fn is_ranges(shape: Shape) -> bool
    ensures { result ≡ spec.is_ranges shape }
{
    matches!(shape, Shape::RangeSet | Shape::RangeMap)
}

/// A value graph.
pub fn is_graph(shape: Shape) -> bool
    ensures { result ≡ spec.is_graph shape }
{
    matches!(shape, Shape::Graph { .. })
}

/// Whether edges have directions in such a view.
pub fn is_directed(shape: Shape) -> bool
    ensures { result ≡ spec.is_directed shape }
{
    match shape {
        Shape::Graph { directed } | Shape::Rows(RowSort::Pair { directed }) => directed,
        _ => false,
    }
}
