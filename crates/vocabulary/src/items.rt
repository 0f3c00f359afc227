//! Items: what a view shows in one place. A row of a base is an item, too.
ghost use Rattle.std.specs.Prelude.{◌≡◌};
ghost use Rattle.vocabulary.specs.Items as spec;

use elem::{Elem, Span, same, same_cut};

/// What a view shows in one place. A row of a base is an item, too.
#[derive(Clone, Copy)]
pub enum Item {
    /// An element of a list, a set, a bag or a collection; a node of a graph.
    One(Elem),
    /// A key and its value.
    Entry(Elem, Elem),
    /// An element of a bag, and how often the bag shows it.
    Counted(Elem, u32),
    /// A row and a column of a table, and the value there.
    Cell(Elem, Elem, Elem),
    /// A key of groups. What stands in the group is read from the view under the groups.
    Group(Elem),
    /// A piece of a partition, by its number. What stands in it is read from the list under the partition.
    Piece(usize),
    /// A range of a range set.
    Range(Span),
    /// A range of a range map, and its value.
    RangeEntry(Span, Elem),
    /// The two ends of an edge.
    Pair(Elem, Elem),
    /// The two ends of an edge, and its value.
    Edge(Elem, Elem, Elem),
}

/// One of the two parts of an item that tell it from others: its key or row, and its value or column.
#[derive(Clone, Copy)]
pub enum Side {
    First,
    Second,
}

/// The key of an item. An element is its own key; that of a cell is its row. What has no key counts as having the
/// number 0.
pub fn key_of(item: &Item) -> Elem
    ensures { result ≡ spec.key_of item.now }
{
    match item {
        Item::One(x) | Item::Counted(x, _) | Item::Group(x) => *x,
        Item::Entry(k, _) => *k,
        Item::Cell(r, _, _) => *r,
        Item::Piece(_)
        | Item::Range(_)
        | Item::RangeEntry(_, _)
        | Item::Pair(_, _)
        | Item::Edge(_, _, _) => Elem::Int(0),
    }
}

/// The value of an item. An element is its own value. What has no value counts as having the number 0.
pub fn value_of(item: &Item) -> Elem
    ensures { result ≡ spec.value_of item.now }
{
    match item {
        Item::One(x) | Item::Counted(x, _) | Item::Group(x) => *x,
        Item::Entry(_, v) | Item::Cell(_, _, v) | Item::RangeEntry(_, v) | Item::Edge(_, _, v) =>
            *v,
        Item::Piece(_) | Item::Range(_) | Item::Pair(_, _) => Elem::Int(0),
    }
}

/// What tells items of one key apart: the value of an entry, the column of a cell.
pub fn second_of(item: &Item) -> Elem
    ensures { result ≡ spec.second_of item.now }
{
    match item {
        Item::Cell(_, c, _) => *c,
        _ => value_of(item),
    }
}

/// A part of an item.
pub fn part_of(side: Side, item: &Item) -> Elem
    ensures { result ≡ spec.part_of side item.now }
{
    match side {
        Side::First => key_of(item),
        Side::Second => second_of(item),
    }
}

/// An entry or a cell with another value. Any other item stays as it is.
pub fn with_value(item: &Item, value: Elem) -> Item
    ensures { result ≡ spec.with_value item.now value }
{
    match item {
        Item::Entry(k, _) => Item::Entry(*k, value),
        Item::Cell(r, c, _) => Item::Cell(*r, *c, value),
        _ => *item,
    }
}

/// An entry without one of its parts is an element, and a cell an entry.
pub fn without_part(side: Side, item: &Item) -> Item
    ensures { result ≡ spec.without_part side item.now }
{
    match (side, item) {
        (Side::First, Item::Entry(_, v)) => Item::One(*v),
        (Side::First, Item::Cell(_, c, v)) => Item::Entry(*c, *v),
        (Side::Second, Item::Entry(k, _)) => Item::One(*k),
        (Side::Second, Item::Cell(r, _, v)) => Item::Entry(*r, *v),
        _ => *item,
    }
}

/// The item with a part given back.
pub fn with_part(side: Side, x: Elem, item: &Item) -> Item
    ensures { result ≡ spec.with_part side x item.now }
{
    match (side, item) {
        (Side::First, Item::One(v)) => Item::Entry(x, *v),
        (Side::First, Item::Entry(c, v)) => Item::Cell(x, *c, *v),
        (Side::Second, Item::One(k)) => Item::Entry(*k, x),
        (Side::Second, Item::Entry(r, v)) => Item::Cell(*r, x, *v),
        _ => *item,
    }
}

/// The item with both parts exchanged.
pub fn swapped(item: &Item) -> Item
    ensures { result ≡ spec.swapped item.now }
{
    match item {
        Item::Entry(k, v) => Item::Entry(*v, *k),
        Item::Cell(r, c, v) => Item::Cell(*c, *r, *v),
        _ => *item,
    }
}

fn same_span(s: &Span, t: &Span) -> bool
    ensures { result ≡ spec.same_span s.now t.now }
{
    same_cut(&s.lo, &t.lo) && same_cut(&s.hi, &t.hi)
}

/// Whether two items are the same.
pub fn same_item(a: &Item, b: &Item) -> bool
    ensures { result ≡ spec.same_item a.now b.now }
{
    match (a, b) {
        (Item::One(x), Item::One(y)) | (Item::Group(x), Item::Group(y)) => same(x, y),
        (Item::Entry(k, v), Item::Entry(l, w)) | (Item::Pair(k, v), Item::Pair(l, w)) => {
            same(k, l) && same(v, w)
        }
        (Item::Counted(x, m), Item::Counted(y, n)) => same(x, y) && *m == *n,
        (Item::Cell(r, c, v), Item::Cell(s, d, w)) | (Item::Edge(r, c, v), Item::Edge(s, d, w)) => {
            same(r, s) && same(c, d) && same(v, w)
        }
        (Item::Piece(i), Item::Piece(j)) => *i == *j,
        (Item::Range(s), Item::Range(t)) => same_span(s, t),
        (Item::RangeEntry(s, v), Item::RangeEntry(t, w)) => same_span(s, t) && same(v, w),
        _ => false,
    }
}
