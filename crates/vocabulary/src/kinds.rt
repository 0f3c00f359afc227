//! The kinds of base, and their names.
ghost use Rattle.std.specs.Prelude.{◌≡◌, map};
ghost use Rattle.vocabulary.specs.Kinds as spec;

use crate::{Order, RowSort, Shape, ValueShape};
use elem::BuildKind;

/// A kind of base.
#[derive(Clone, Copy)]
pub enum Kind {
    /// `java.util.ArrayList`.
    ArrayList,
    /// `java.util.LinkedHashSet`: members in the order in which they first came.
    LinkedHashSet,
    /// `java.util.TreeSet`.
    TreeSet,
    /// A `TreeSet` in the reverse order.
    TreeSetReverse,
    /// A `TreeSet` by the length of spellings.
    TreeSetLength,
    /// `java.util.LinkedHashMap`: entries in the order in which their keys first came.
    LinkedHashMap,
    /// `java.util.TreeMap`.
    TreeMap,
    /// A `TreeMap` whose keys are in the reverse order.
    TreeMapReverse,
    /// A `TreeMap` whose keys go by the length of their spellings.
    TreeMapLength,
    /// Guava's `LinkedHashMultiset`: elements in the order in which they first came, equal ones together.
    LinkedHashMultiset,
    /// Guava's `TreeMultiset`.
    TreeMultiset,
    /// A `TreeMultiset` in the reverse order.
    TreeMultisetReverse,
    /// A `TreeMultiset` by the length of spellings.
    TreeMultisetLength,
    /// Guava's `LinkedListMultimap`: pairs in the order in which they came, keys by their first pairs.
    LinkedListMultimap,
    /// A multimap of lists whose pairs are grouped by key, keys in the order in which they first came.
    LinkedArrayListMultimap,
    /// Guava's `LinkedHashMultimap`: pairs in the order in which they came, beside an order of the keys.
    LinkedHashMultimap,
    /// Guava's `TreeMultimap`: pairs by key, and then by value.
    TreeMultimap,
    /// Guava's `HashBiMap`, with the pairs in the order in which they came.
    HashBiMap,
    /// A table whose cells are grouped by row, rows and cells in the order in which they came.
    LinkedTable,
    /// Guava's `TreeBasedTable`: cells by row, and then by column.
    TreeBasedTable,
    /// Guava's `TreeRangeSet` of whole numbers: ranges that are connected are one.
    TreeRangeSet,
    /// Guava's `TreeRangeMap` of whole numbers.
    TreeRangeMap,
    /// Guava's `MutableValueGraph`, with nodes and edges in the order in which they came.
    ValueGraph { directed: bool, loops: bool },
    /// What was added to a collection that is to be built.
    Builder(BuildKind),
    /// Rows that are no elements, derived from those of a base. No base is of this kind.
    Rows(RowSort),
}

/// The kinds by the words that stand behind `new`.
pub const KINDS: [(&[u8], Kind); 36] = [
    (b"ArrayList", Kind::ArrayList),
    (b"LinkedHashSet", Kind::LinkedHashSet),
    (b"TreeSet", Kind::TreeSet),
    (b"TreeSetReverse", Kind::TreeSetReverse),
    (b"TreeSetLength", Kind::TreeSetLength),
    (b"LinkedHashMap", Kind::LinkedHashMap),
    (b"TreeMap", Kind::TreeMap),
    (b"TreeMapReverse", Kind::TreeMapReverse),
    (b"TreeMapLength", Kind::TreeMapLength),
    (b"LinkedHashMultiset", Kind::LinkedHashMultiset),
    (b"TreeMultiset", Kind::TreeMultiset),
    (b"TreeMultisetReverse", Kind::TreeMultisetReverse),
    (b"TreeMultisetLength", Kind::TreeMultisetLength),
    (b"LinkedListMultimap", Kind::LinkedListMultimap),
    (b"LinkedArrayListMultimap", Kind::LinkedArrayListMultimap),
    (b"LinkedHashMultimap", Kind::LinkedHashMultimap),
    (b"TreeMultimap", Kind::TreeMultimap),
    (b"HashBiMap", Kind::HashBiMap),
    (b"LinkedTable", Kind::LinkedTable),
    (b"TreeBasedTable", Kind::TreeBasedTable),
    (b"TreeRangeSet", Kind::TreeRangeSet),
    (b"TreeRangeMap", Kind::TreeRangeMap),
    (
        b"DirectedValueGraph",
        Kind::ValueGraph {
            directed: true,
            loops: false,
        },
    ),
    (
        b"UndirectedValueGraph",
        Kind::ValueGraph {
            directed: false,
            loops: false,
        },
    ),
    (
        b"DirectedValueGraphLoops",
        Kind::ValueGraph {
            directed: true,
            loops: true,
        },
    ),
    (
        b"UndirectedValueGraphLoops",
        Kind::ValueGraph {
            directed: false,
            loops: true,
        },
    ),
    (b"ImmutableListBuilder", Kind::Builder(BuildKind::List)),
    (b"ImmutableSetBuilder", Kind::Builder(BuildKind::Set)),
    (
        b"ImmutableMultisetBuilder",
        Kind::Builder(BuildKind::Multiset),
    ),
    (b"ImmutableMapBuilder", Kind::Builder(BuildKind::Map)),
    (b"ImmutableBiMapBuilder", Kind::Builder(BuildKind::BiMap)),
    (
        b"ImmutableListMultimapBuilder",
        Kind::Builder(BuildKind::ListMultimap),
    ),
    (
        b"ImmutableSetMultimapBuilder",
        Kind::Builder(BuildKind::SetMultimap),
    ),
    (b"ImmutableTableBuilder", Kind::Builder(BuildKind::Table)),
    (
        b"ImmutableRangeSetBuilder",
        Kind::Builder(BuildKind::RangeSet),
    ),
    (
        b"ImmutableRangeMapBuilder",
        Kind::Builder(BuildKind::RangeMap),
    ),
];

/// The kind that a word names, where it names one.
pub fn kind_named(word: &[u8]) -> Option<Kind>
    ensures { result ≡ spec.kind_named word.now }
{
    chosen(&KINDS, word)
}

#[tactic(auto, unfolding(crate::specs::Kinds::chosen))]
fn chosen(mut rows: &[(&[u8], Kind)], word: &[u8]) -> Option<Kind>
    ensures { result ≡ spec.chosen word.now (map (λ row. (row.0.now, row.1)) rows.entry.now) }
{
    while let [row, rest @ ..] = rows {
        if row.0 == word {
            return Some(row.1);
        }
        rows = rest;
    }
    None
}

/// The shape of a base of a kind.
pub fn shape_of_kind(kind: Kind) -> Shape
    ensures { result ≡ spec.shape_of_kind kind }
{
    match kind {
        Kind::ArrayList => Shape::List,
        Kind::LinkedHashSet => Shape::Set { sorted: false },
        Kind::TreeSet | Kind::TreeSetReverse | Kind::TreeSetLength => Shape::Set { sorted: true },
        Kind::LinkedHashMap => Shape::Map { sorted: false },
        Kind::TreeMap | Kind::TreeMapReverse | Kind::TreeMapLength => Shape::Map { sorted: true },
        Kind::LinkedHashMultiset => Shape::Bag { sorted: false },
        Kind::TreeMultiset | Kind::TreeMultisetReverse | Kind::TreeMultisetLength => Shape::Bag {
            sorted: true,
        },
        Kind::LinkedListMultimap | Kind::LinkedArrayListMultimap => Shape::Multimap {
            values: ValueShape::List,
            sorted: false,
        },
        Kind::LinkedHashMultimap => Shape::Multimap {
            values: ValueShape::Set,
            sorted: false,
        },
        Kind::TreeMultimap => Shape::Multimap {
            values: ValueShape::SortedSet,
            sorted: true,
        },
        Kind::HashBiMap => Shape::BiMap,
        Kind::LinkedTable => Shape::Table {
            mirrored: false,
            sorted: false,
        },
        Kind::TreeBasedTable => Shape::Table {
            mirrored: false,
            sorted: true,
        },
        Kind::TreeRangeSet => Shape::RangeSet,
        Kind::TreeRangeMap => Shape::RangeMap,
        Kind::ValueGraph { directed, .. } => Shape::Graph { directed },
        Kind::Builder(kind) => Shape::Builder(kind),
        Kind::Rows(sort) => Shape::Rows(sort),
    }
}

/// The order in which the views of a base of a kind read their windows. Only the rows of a sorted kind are in it.
pub fn order_of_kind(kind: Kind) -> Order
    ensures { result ≡ spec.order_of_kind kind }
{
    match kind {
        Kind::TreeSetReverse | Kind::TreeMapReverse | Kind::TreeMultisetReverse => Order::Reverse,
        Kind::TreeSetLength | Kind::TreeMapLength | Kind::TreeMultisetLength => Order::ByLength,
        _ => Order::Natural,
    }
}

/// Whether the rows of a kind that is not sorted stand together by their keys.
pub fn groups_rows(kind: Kind) -> bool
    ensures { result ≡ spec.groups_rows kind }
{
    matches!(
        kind,
        Kind::LinkedHashMultiset | Kind::LinkedArrayListMultimap | Kind::LinkedTable
    )
}

/// Whether a base of a kind keeps an order of its keys beside its rows.
pub fn keeps_keys(kind: Kind) -> bool
    ensures { result ≡ spec.keeps_keys kind }
{
    matches!(kind, Kind::LinkedHashMultimap)
}
