//! The calls on views, by what they take.

ghost use Rattle.std.specs.Prelude.{◌≡◌};
ghost use Rattle.vocabulary.specs.Known.{form_of_call};

use crate::Item;
use build_base::Finish;
use elem::{Elem, Span};

/// The calls that take nothing.
#[derive(Clone, Copy)]
pub enum Ask {
    /// How many items are shown.
    Size,
    /// Whether none is shown.
    IsEmpty,
    /// `Collection.clear`, `Map.clear`: what is shown goes.
    Clear,
    /// `SortedSet.first`.
    First,
    /// `SortedSet.last`.
    Last,
    /// `SortedMap.firstKey`.
    FirstKey,
    /// `SortedMap.lastKey`.
    LastKey,
    /// `SortedMultiset.firstEntry`.
    FirstEntry,
    /// `SortedMultiset.lastEntry`.
    LastEntry,
    /// `RangeSet.span`, `RangeMap.span`.
    SpanOf,
}

/// The calls that take an element.
#[derive(Clone, Copy)]
pub enum OnElement {
    /// `Collection.contains`.
    Contains,
    /// `Collection.add`.
    Add,
    /// `Collection.remove`: the first item that is the same goes.
    Remove,
    /// `List.indexOf`.
    IndexOf,
    /// `Map.get`.
    ValueOf,
    /// `Map.containsKey`, `Multimap.containsKey`, `Table.containsRow`.
    ContainsKey,
    /// `Table.containsColumn`.
    ContainsColumn,
    /// `Map.containsValue`, `Multimap.containsValue`, `Table.containsValue`.
    ContainsValue,
    /// `Map.remove`.
    RemoveKey,
    /// `Map.remove` of groups.
    RemoveGroup,
    /// `Multimap.removeAll`.
    RemoveValues,
    /// `Multiset.count`.
    Count,
    /// `RangeSet.contains`.
    Covers,
    /// `RangeSet.rangeContaining`, `RangeMap.getEntry`.
    RangeAt,
    /// `RangeMap.get`.
    RangeValue,
    /// `ValueGraph.degree`.
    Degree,
    /// `ValueGraph.inDegree`.
    InDegree,
    /// `ValueGraph.outDegree`.
    OutDegree,
    /// `MutableValueGraph.addNode`.
    AddNode,
    /// `MutableValueGraph.removeNode`: the edges at the node go with it.
    RemoveNode,
}

/// The calls that take an index.
#[derive(Clone, Copy)]
pub enum OnIndex {
    /// `List.get`.
    ItemAt,
    /// `List.remove` of an index.
    RemoveAt,
}

/// The calls that take an index and an element.
#[derive(Clone, Copy)]
pub enum OnIndexed {
    /// `List.add` at an index.
    AddAt,
    /// `List.set`.
    SetAt,
}

/// The calls that take an element and a number of times.
#[derive(Clone, Copy)]
pub enum OnCounted {
    /// `Multiset.add` of several.
    AddSome,
    /// `Multiset.remove` of several.
    RemoveSome,
    /// `Multiset.setCount`.
    SetCount,
    /// `Set.contains` of a counted element.
    ContainsCounted,
    /// `Set.remove` of a counted element: all of it goes.
    RemoveCounted,
}

/// The calls that take two elements.
#[derive(Clone, Copy)]
pub enum OnPair {
    /// `Map.put`.
    Put,
    /// `BiMap.forcePut`.
    ForcePut,
    /// `Multimap.put`.
    PutPair,
    /// `Set.contains` of an entry, `Multimap.containsEntry`.
    ContainsEntry,
    /// `Set.remove` of an entry, `Multimap.remove`.
    RemoveEntry,
    /// `Table.get`.
    ValueAt,
    /// `Table.contains`.
    ContainsAt,
    /// `Table.remove`.
    RemoveAtCell,
    /// `ValueGraph.hasEdgeConnecting`.
    HasEdge,
    /// `ValueGraph.edgeValueOrDefault`.
    EdgeValue,
    /// `MutableValueGraph.removeEdge`.
    RemoveEdge,
    /// `Set.contains` of the ends of an edge.
    ContainsEnds,
    /// `Set.remove` of the ends of an edge.
    RemoveEnds,
}

/// The calls that take three elements.
#[derive(Clone, Copy)]
pub enum OnTriple {
    /// `Table.put`.
    PutCell,
    /// `Set.contains` of a cell.
    ContainsCell,
    /// `Set.remove` of a cell.
    RemoveCell,
    /// `MutableValueGraph.putEdgeValue`.
    PutEdge,
}

/// The calls that take a range.
#[derive(Clone, Copy)]
pub enum OnSpan {
    /// `RangeSet.encloses`: whether one range of the set encloses it.
    Encloses,
    /// `RangeSet.intersects`.
    Intersects,
    /// `RangeSet.add`.
    AddSpan,
    /// `RangeSet.remove`, `RangeMap.remove`.
    RemoveSpan,
    /// `Set.contains` of a range.
    ContainsSpan,
    /// `Set.remove` of a range.
    DropSpan,
}

/// The calls that take a range and a value.
#[derive(Clone, Copy)]
pub enum OnSpanValue {
    /// `RangeMap.put`.
    PutSpan,
    /// `RangeMap.putCoalescing`.
    PutCoalescing,
    /// `Set.contains` of a range and its value.
    ContainsSpanValue,
    /// `Set.remove` of a range and its value.
    DropSpanValue,
}

/// The calls that add an item to a builder.
#[derive(Clone, Copy)]
pub enum OnBuilder {
    /// An element.
    AddOne,
    /// An element so many times.
    AddCopies,
    /// A key and a value.
    PutEntry,
    /// A row, a column and a value.
    PutCell,
    /// A range.
    AddSpan,
    /// A range and a value.
    PutSpan,
}

/// The calls that take another view. It is read whole before anything changes, so a view may be its own argument.
#[derive(Clone, Copy)]
pub enum OnOther {
    /// `Collection.containsAll`.
    ContainsAll,
    /// `Collection.addAll`: every item is tested before one is added.
    AddAll,
    /// `Collection.removeAll`.
    RemoveAll,
    /// `Collection.retainAll`.
    RetainAll,
    /// `Map.putAll`: every entry is tested before one is put.
    PutAll,
    /// `equals`.
    Equals,
    /// `RangeSet.addAll`.
    AddSpans,
    /// `RangeSet.removeAll`.
    RemoveSpans,
}

/// The calls that take a key and another view, which is read whole before anything changes.
#[derive(Clone, Copy)]
pub enum OnValues {
    /// `Multimap.putAll` of values.
    PutValues,
    /// `Multimap.replaceValues`.
    ReplaceValues,
}

/// What a call takes, and which one it is.
#[derive(Clone, Copy)]
pub enum CallForm {
    Ask(Ask),
    Element(OnElement),
    Index(OnIndex),
    Indexed(OnIndexed),
    Counted(OnCounted),
    Pair(OnPair),
    Triple(OnTriple),
    Span(OnSpan),
    SpanValue(OnSpanValue),
    Build(OnBuilder),
    Other(OnOther),
    Values(OnValues),
}

/// A call with its arguments, where none of them is another view. An index or a number of times is none where it is
/// negative.
#[derive(Clone, Copy)]
pub enum Call {
    Ask(Ask),
    Element(OnElement, Elem),
    Index(OnIndex, Option<usize>),
    Indexed(OnIndexed, Option<usize>, Elem),
    Counted(OnCounted, Elem, Option<usize>),
    Pair(OnPair, Elem, Elem),
    Triple(OnTriple, Elem, Elem, Elem),
    Span(OnSpan, Span),
    SpanValue(OnSpanValue, Span, Elem),
    /// What is added to a builder: none where an element comes a negative number of times.
    Build(OnBuilder, Option<Item>),
}

impl Call {
    /// The call without its arguments.
    pub fn form(&self) -> CallForm
        ensures { result ≡ form_of_call self.now }
    {
        match self {
            Call::Ask(word) => CallForm::Ask(*word),
            Call::Element(word, _) => CallForm::Element(*word),
            Call::Index(word, _) => CallForm::Index(*word),
            Call::Indexed(word, _, _) => CallForm::Indexed(*word),
            Call::Counted(word, _, _) => CallForm::Counted(*word),
            Call::Pair(word, _, _) => CallForm::Pair(*word),
            Call::Triple(word, _, _, _) => CallForm::Triple(*word),
            Call::Span(word, _) => CallForm::Span(*word),
            Call::SpanValue(word, _, _) => CallForm::SpanValue(*word),
            Call::Build(word, _) => CallForm::Build(*word),
        }
    }
}

/// The words that make a base of which nothing changes any more. They stand last in a line that gives a name.
#[derive(Clone, Copy)]
pub enum Making {
    /// A copy of what a view shows, as `ImmutableList.copyOf` makes it.
    Copy,
    /// What a builder builds.
    Build(Finish),
}
