//! The words of lists, sets, bags and other collections.

use crate::Action::{self, Call, Make, Step};
use crate::{
    Ask, CallForm as On, ChangeStep, FilterStep, GroupForm, JoinStep, Making, OnCounted, OnElement,
    OnIndex, OnIndexed, OnOther, PlainStep, Side, StepForm as By,
};

/// The words of a list.
pub const LISTS: [(&[u8], Action); 8] = [
    (b"reverse", Step(By::Plain(PlainStep::Reverse))),
    (b"sub", Step(By::Sub)),
    (b"partition", Step(By::Partition)),
    (b"get", Call(On::Index(OnIndex::ItemAt))),
    (b"indexOf", Call(On::Element(OnElement::IndexOf))),
    (b"add", Call(On::Indexed(OnIndexed::AddAt))),
    (b"set", Call(On::Indexed(OnIndexed::SetAt))),
    (b"removeAt", Call(On::Index(OnIndex::RemoveAt))),
];

/// The words of a set.
pub const SETS: [(&[u8], Action); 5] = [
    (b"asMap", Step(By::Change(ChangeStep::AsMap))),
    (b"union", Step(By::Join(JoinStep::Union))),
    (b"intersection", Step(By::Join(JoinStep::Intersection))),
    (b"difference", Step(By::Join(JoinStep::Difference))),
    (
        b"symmetricDifference",
        Step(By::Join(JoinStep::SymmetricDifference)),
    ),
];

/// The words of a sorted set.
pub const SORTED_SETS: [(&[u8], Action); 2] = [
    (b"first", Call(On::Ask(Ask::First))),
    (b"last", Call(On::Ask(Ask::Last))),
];

/// The words of an element collection.
pub const ELEMENTS: [(&[u8], Action); 8] = [
    (b"filter", Step(By::Filter(FilterStep::Filter))),
    (b"contains", Call(On::Element(OnElement::Contains))),
    (b"containsAll", Call(On::Other(OnOther::ContainsAll))),
    (b"add", Call(On::Element(OnElement::Add))),
    (b"remove", Call(On::Element(OnElement::Remove))),
    (b"addAll", Call(On::Other(OnOther::AddAll))),
    (b"removeAll", Call(On::Other(OnOther::RemoveAll))),
    (b"retainAll", Call(On::Other(OnOther::RetainAll))),
];

/// The words of an element collection whose items can be made others.
pub const CHANGEABLE: [(&[u8], Action); 1] = [(
    b"transform",
    Step(By::Change(ChangeStep::Transform)),
)];

/// The words of a bag.
pub const BAGS: [(&[u8], Action); 10] = [
    (b"elementSet", Step(By::Group(Side::First, GroupForm::Keys))),
    (b"entrySet", Step(By::Group(Side::First, GroupForm::Counts))),
    (b"union", Step(By::Join(JoinStep::BagUnion))),
    (b"sum", Step(By::Join(JoinStep::BagSum))),
    (b"intersection", Step(By::Join(JoinStep::BagIntersection))),
    (b"difference", Step(By::Join(JoinStep::BagDifference))),
    (b"count", Call(On::Element(OnElement::Count))),
    (b"add", Call(On::Counted(OnCounted::AddSome))),
    (b"remove", Call(On::Counted(OnCounted::RemoveSome))),
    (b"setCount", Call(On::Counted(OnCounted::SetCount))),
];

/// The words of a sorted bag.
pub const SORTED_BAGS: [(&[u8], Action); 2] = [
    (b"firstEntry", Call(On::Ask(Ask::FirstEntry))),
    (b"lastEntry", Call(On::Ask(Ask::LastEntry))),
];

/// The words of whatever is sorted.
pub const SORTED: [(&[u8], Action); 2] = [
    (b"within", Step(By::Within)),
    (b"descending", Step(By::Plain(PlainStep::Descending))),
];

/// The words of whatever can be equal to another.
pub const COMPARED: [(&[u8], Action); 1] = [(b"equals", Call(On::Other(OnOther::Equals)))];

/// The words of whatever can be locked.
pub const LOCKED: [(&[u8], Action); 1] = [(
    b"unmodifiable",
    Step(By::Plain(PlainStep::Unmodifiable)),
)];

/// The words of whatever has a size.
pub const SIZED: [(&[u8], Action); 2] = [
    (b"size", Call(On::Ask(Ask::Size))),
    (b"isEmpty", Call(On::Ask(Ask::IsEmpty))),
];

/// The words of a set of counted elements.
pub const COUNTED_ROWS: [(&[u8], Action); 2] = [
    (b"contains", Call(On::Counted(OnCounted::ContainsCounted))),
    (b"remove", Call(On::Counted(OnCounted::RemoveCounted))),
];

/// The words of a partition.
pub const PIECES: [(&[u8], Action); 1] = [(b"get", Step(By::Piece))];

/// The words of whatever can be cleared.
pub const CLEARED: [(&[u8], Action); 1] = [(b"clear", Call(On::Ask(Ask::Clear)))];

/// The words of whatever can be copied.
pub const COPIED: [(&[u8], Action); 1] = [(b"immutable", Make(Making::Copy))];
