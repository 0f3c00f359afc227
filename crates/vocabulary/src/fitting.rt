//! Which shapes have a call.
ghost use Rattle.std.specs.Prelude.{◌≡◌};
ghost use Rattle.vocabulary.specs.Fits as spec;

use crate::{
    Ask, Call, OnCounted, OnElement, OnOther, OnPair, OnSpan, OnSpanValue, OnTriple, OnValues,
    RowSort, Shape, is_bag, is_elements, is_graph, is_groups, is_map, is_multimap, is_ranges,
    is_table,
};

/// Whether views of a shape have a call.
pub fn fits(shape: Shape, call: &Call) -> bool
    ensures { result ≡ spec.fits shape call.now }
{
    match call {
        Call::Ask(word) => fits_ask(shape, *word),
        Call::Element(word, _) => fits_element(shape, *word),
        Call::Index(_, _) | Call::Indexed(_, _, _) => matches!(shape, Shape::List),
        Call::Counted(word, _, _) => fits_counted(shape, *word),
        Call::Pair(word, _, _) => fits_pair(shape, *word),
        Call::Triple(word, _, _, _) => fits_triple(shape, *word),
        Call::Span(word, _) => fits_span(shape, *word),
        Call::SpanValue(word, _, _) => fits_span_value(shape, *word),
        Call::Build(_, _) => matches!(shape, Shape::Builder(_)),
    }
}

fn is_entries(shape: Shape) -> bool
    ensures { result ≡ spec.is_entries shape }
{
    matches!(shape, Shape::Rows(RowSort::Entry | RowSort::MultiEntry))
}

fn fits_ask(shape: Shape, word: Ask) -> bool
    ensures { result ≡ spec.fits_ask shape word }
{
    match word {
        Ask::Size => has_size(shape),
        Ask::IsEmpty => has_size(shape) || matches!(shape, Shape::RangeSet),
        Ask::Clear => has_clear(shape),
        Ask::SpanOf => is_ranges(shape),
        Ask::First | Ask::Last => matches!(shape, Shape::Set { sorted: true }),
        Ask::FirstKey | Ask::LastKey => matches!(shape, Shape::Map { sorted: true }),
        Ask::FirstEntry | Ask::LastEntry => matches!(shape, Shape::Bag { sorted: true }),
    }
}

fn fits_element(shape: Shape, word: OnElement) -> bool
    ensures { result ≡ spec.fits_element shape word }
{
    match word {
        OnElement::Contains | OnElement::Add | OnElement::Remove => is_elements(shape),
        OnElement::IndexOf => matches!(shape, Shape::List),
        OnElement::ValueOf | OnElement::RemoveKey => is_map(shape),
        OnElement::ContainsKey => {
            is_map(shape) || is_groups(shape) || is_multimap(shape) || is_table(shape)
        }
        OnElement::ContainsColumn => is_table(shape),
        OnElement::ContainsValue => is_map(shape) || is_multimap(shape) || is_table(shape),
        OnElement::RemoveGroup => is_groups(shape),
        OnElement::RemoveValues => is_multimap(shape),
        OnElement::Count => is_bag(shape),
        OnElement::Covers => matches!(shape, Shape::RangeSet),
        OnElement::RangeAt => is_ranges(shape),
        OnElement::RangeValue => matches!(shape, Shape::RangeMap),
        OnElement::Degree
        | OnElement::InDegree
        | OnElement::OutDegree
        | OnElement::AddNode
        | OnElement::RemoveNode => is_graph(shape),
    }
}

fn fits_counted(shape: Shape, word: OnCounted) -> bool
    ensures { result ≡ spec.fits_counted shape word }
{
    match word {
        OnCounted::AddSome | OnCounted::RemoveSome | OnCounted::SetCount => is_bag(shape),
        OnCounted::ContainsCounted | OnCounted::RemoveCounted => {
            matches!(shape, Shape::Rows(RowSort::Counted))
        }
    }
}

fn fits_pair(shape: Shape, word: OnPair) -> bool
    ensures { result ≡ spec.fits_pair shape word }
{
    match word {
        OnPair::Put => is_map(shape),
        OnPair::ForcePut => matches!(shape, Shape::BiMap),
        OnPair::PutPair => is_multimap(shape),
        OnPair::ContainsEntry | OnPair::RemoveEntry => is_entries(shape) || is_multimap(shape),
        OnPair::ValueAt | OnPair::ContainsAt | OnPair::RemoveAtCell => is_table(shape),
        OnPair::HasEdge | OnPair::EdgeValue | OnPair::RemoveEdge => is_graph(shape),
        OnPair::ContainsEnds | OnPair::RemoveEnds => {
            matches!(shape, Shape::Rows(RowSort::Pair { .. }))
        }
    }
}

fn fits_triple(shape: Shape, word: OnTriple) -> bool
    ensures { result ≡ spec.fits_triple shape word }
{
    match word {
        OnTriple::PutCell => is_table(shape),
        OnTriple::ContainsCell | OnTriple::RemoveCell => matches!(
            shape,
            Shape::Rows(RowSort::Cell)
        ),
        OnTriple::PutEdge => is_graph(shape),
    }
}

fn fits_span(shape: Shape, word: OnSpan) -> bool
    ensures { result ≡ spec.fits_span shape word }
{
    match word {
        OnSpan::Encloses | OnSpan::Intersects | OnSpan::AddSpan => matches!(shape, Shape::RangeSet),
        OnSpan::RemoveSpan => is_ranges(shape),
        OnSpan::ContainsSpan | OnSpan::DropSpan => matches!(shape, Shape::Rows(RowSort::Range)),
    }
}

fn fits_span_value(shape: Shape, word: OnSpanValue) -> bool
    ensures { result ≡ spec.fits_span_value shape word }
{
    match word {
        OnSpanValue::PutSpan | OnSpanValue::PutCoalescing => matches!(shape, Shape::RangeMap),
        OnSpanValue::ContainsSpanValue | OnSpanValue::DropSpanValue => {
            matches!(shape, Shape::Rows(RowSort::RangeEntry))
        }
    }
}

fn has_clear(shape: Shape) -> bool
    ensures { result ≡ spec.has_clear shape }
{
    !matches!(
        shape,
        Shape::Pieces | Shape::Graph { .. } | Shape::Builder(_)
    )
}

fn has_size(shape: Shape) -> bool
    ensures { result ≡ spec.has_size shape }
{
    !matches!(
        shape,
        Shape::RangeSet | Shape::RangeMap | Shape::Graph { .. } | Shape::Builder(_)
    )
}

fn compares(shape: Shape, other: Shape) -> bool
    ensures { result ≡ spec.compares shape other }
{
    match shape {
        Shape::List => matches!(other, Shape::List),
        Shape::Set { .. } => matches!(other, Shape::Set { .. }),
        Shape::Bag { .. } => is_bag(other),
        Shape::RangeSet => matches!(other, Shape::RangeSet),
        _ => is_map(shape) && is_map(other),
    }
}

/// Whether views of a shape have a call with a view of another shape.
pub fn fits_with(shape: Shape, word: OnOther, other: Shape) -> bool
    ensures { result ≡ spec.fits_with shape word other }
{
    match word {
        OnOther::ContainsAll | OnOther::AddAll | OnOther::RemoveAll | OnOther::RetainAll => {
            is_elements(shape) && is_elements(other)
        }
        OnOther::PutAll => matches!(shape, Shape::Map { .. }) && is_map(other),
        OnOther::Equals => compares(shape, other),
        OnOther::AddSpans | OnOther::RemoveSpans => {
            matches!(shape, Shape::RangeSet) && matches!(other, Shape::RangeSet)
        }
    }
}

/// Whether views of a shape have a call with a key and a view of another shape.
pub fn fits_values(shape: Shape, word: OnValues, other: Shape) -> bool
    ensures { result ≡ spec.fits_values shape word other }
{
    is_multimap(shape) && is_elements(other)
}
