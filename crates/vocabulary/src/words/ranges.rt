//! The words of range sets, range maps and their rows.

use crate::Action::{self, Call, Step};
use crate::{
    Ask, CallForm as On, LeafForm, OnElement, OnOther, OnSpan, OnSpanValue, StepForm as By,
};

/// The words of what can be locked at the foot of a path.
pub const LEAVES: [(&[u8], Action); 1] = [(b"unmodifiable", Step(By::Leaf(LeafForm::Lock)))];

/// The steps of a range set.
pub const RANGE_SET_STEPS: [(&[u8], Action); 3] = [
    (b"complement", Step(By::Leaf(LeafForm::Complement))),
    (b"subRangeSet", Step(By::Leaf(LeafForm::Part))),
    (b"asRanges", Step(By::Leaf(LeafForm::Ranges))),
];

/// The calls of a range set that write.
pub const RANGE_SET_WRITES: [(&[u8], Action); 4] = [
    (b"add", Call(On::Span(OnSpan::AddSpan))),
    (b"addAll", Call(On::Other(OnOther::AddSpans))),
    (b"remove", Call(On::Span(OnSpan::RemoveSpan))),
    (b"removeAll", Call(On::Other(OnOther::RemoveSpans))),
];

/// The calls of a range set that read.
pub const RANGE_SETS: [(&[u8], Action); 6] = [
    (b"isEmpty", Call(On::Ask(Ask::IsEmpty))),
    (b"contains", Call(On::Element(OnElement::Covers))),
    (b"encloses", Call(On::Span(OnSpan::Encloses))),
    (b"intersects", Call(On::Span(OnSpan::Intersects))),
    (b"rangeContaining", Call(On::Element(OnElement::RangeAt))),
    (b"span", Call(On::Ask(Ask::SpanOf))),
];

/// The words of a range map.
pub const RANGE_MAPS: [(&[u8], Action); 8] = [
    (b"subRangeMap", Step(By::Leaf(LeafForm::Part))),
    (b"asMapOfRanges", Step(By::Leaf(LeafForm::Ranges))),
    (b"get", Call(On::Element(OnElement::RangeValue))),
    (b"getEntry", Call(On::Element(OnElement::RangeAt))),
    (b"span", Call(On::Ask(Ask::SpanOf))),
    (b"put", Call(On::SpanValue(OnSpanValue::PutSpan))),
    (
        b"putCoalescing",
        Call(On::SpanValue(OnSpanValue::PutCoalescing)),
    ),
    (b"remove", Call(On::Span(OnSpan::RemoveSpan))),
];

/// The words of a set of ranges.
pub const RANGE_ROWS: [(&[u8], Action); 2] = [
    (b"contains", Call(On::Span(OnSpan::ContainsSpan))),
    (b"remove", Call(On::Span(OnSpan::DropSpan))),
];

/// The words of a set of ranges with values.
pub const RANGE_ENTRIES: [(&[u8], Action); 2] = [
    (
        b"contains",
        Call(On::SpanValue(OnSpanValue::ContainsSpanValue)),
    ),
    (b"remove", Call(On::SpanValue(OnSpanValue::DropSpanValue))),
];
