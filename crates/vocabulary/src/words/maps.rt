//! The words of maps, multimaps, tables and their rows.

use crate::Action::{self, Call, Step};
use crate::{
    Ask, CallForm as On, ChangeStep, FilterStep, GroupForm, OnElement, OnOther, OnPair, OnTriple,
    OnValues, PlainStep, Side, StepForm as By,
};

/// The words of a map or a bimap.
pub const MAPS: [(&[u8], Action); 13] = [
    (b"keySet", Step(By::Plain(PlainStep::KeySet))),
    (b"values", Step(By::Plain(PlainStep::Values))),
    (b"entrySet", Step(By::Plain(PlainStep::EntrySet))),
    (b"filterKeys", Step(By::Filter(FilterStep::FilterKeys))),
    (b"filterValues", Step(By::Filter(FilterStep::FilterValues))),
    (b"filterEntries", Step(By::FilterPairs)),
    (
        b"transformValues",
        Step(By::Change(ChangeStep::TransformValues)),
    ),
    (b"forMap", Step(By::Plain(PlainStep::ForMap))),
    (b"get", Call(On::Element(OnElement::ValueOf))),
    (b"containsKey", Call(On::Element(OnElement::ContainsKey))),
    (
        b"containsValue",
        Call(On::Element(OnElement::ContainsValue)),
    ),
    (b"put", Call(On::Pair(OnPair::Put))),
    (b"remove", Call(On::Element(OnElement::RemoveKey))),
];

/// The words of a map that is no bimap.
pub const PLAIN_MAPS: [(&[u8], Action); 1] = [(b"putAll", Call(On::Other(OnOther::PutAll)))];

/// The words of a sorted map.
pub const SORTED_MAPS: [(&[u8], Action); 2] = [
    (b"firstKey", Call(On::Ask(Ask::FirstKey))),
    (b"lastKey", Call(On::Ask(Ask::LastKey))),
];

/// The words of a bimap.
pub const BIMAPS: [(&[u8], Action); 2] = [
    (b"inverse", Step(By::Plain(PlainStep::Inverse))),
    (b"forcePut", Call(On::Pair(OnPair::ForcePut))),
];

/// The words of a multimap.
pub const MULTIMAPS: [(&[u8], Action); 18] = [
    (b"get", Step(By::At(Side::First))),
    (b"keySet", Step(By::Group(Side::First, GroupForm::Keys))),
    (b"keys", Step(By::Plain(PlainStep::Keys))),
    (b"values", Step(By::Plain(PlainStep::Values))),
    (b"entries", Step(By::Plain(PlainStep::EntrySet))),
    (b"asMap", Step(By::Group(Side::First, GroupForm::Members))),
    (b"filterKeys", Step(By::Filter(FilterStep::FilterKeys))),
    (b"filterValues", Step(By::Filter(FilterStep::FilterValues))),
    (b"filterEntries", Step(By::FilterPairs)),
    (
        b"transformValues",
        Step(By::Change(ChangeStep::TransformValues)),
    ),
    (b"containsKey", Call(On::Element(OnElement::ContainsKey))),
    (
        b"containsValue",
        Call(On::Element(OnElement::ContainsValue)),
    ),
    (b"containsEntry", Call(On::Pair(OnPair::ContainsEntry))),
    (b"put", Call(On::Pair(OnPair::PutPair))),
    (b"putAll", Call(On::Values(OnValues::PutValues))),
    (b"remove", Call(On::Pair(OnPair::RemoveEntry))),
    (b"removeAll", Call(On::Element(OnElement::RemoveValues))),
    (b"replaceValues", Call(On::Values(OnValues::ReplaceValues))),
];

/// The words of groups.
pub const GROUPS: [(&[u8], Action); 6] = [
    (b"keySet", Step(By::Plain(PlainStep::KeySet))),
    (b"entrySet", Step(By::Plain(PlainStep::EntrySet))),
    (b"filterKeys", Step(By::Filter(FilterStep::FilterKeys))),
    (b"get", Step(By::Member)),
    (b"containsKey", Call(On::Element(OnElement::ContainsKey))),
    (b"remove", Call(On::Element(OnElement::RemoveGroup))),
];

/// The words of a table.
pub const TABLES: [(&[u8], Action); 17] = [
    (b"row", Step(By::At(Side::First))),
    (b"column", Step(By::At(Side::Second))),
    (b"rowKeySet", Step(By::Group(Side::First, GroupForm::Keys))),
    (
        b"columnKeySet",
        Step(By::Group(Side::Second, GroupForm::Keys)),
    ),
    (b"rowMap", Step(By::Group(Side::First, GroupForm::Members))),
    (
        b"columnMap",
        Step(By::Group(Side::Second, GroupForm::Members)),
    ),
    (b"cellSet", Step(By::Plain(PlainStep::EntrySet))),
    (b"values", Step(By::Plain(PlainStep::Values))),
    (b"transpose", Step(By::Plain(PlainStep::Transpose))),
    (
        b"transformValues",
        Step(By::Change(ChangeStep::TransformValues)),
    ),
    (b"get", Call(On::Pair(OnPair::ValueAt))),
    (b"contains", Call(On::Pair(OnPair::ContainsAt))),
    (b"containsRow", Call(On::Element(OnElement::ContainsKey))),
    (
        b"containsColumn",
        Call(On::Element(OnElement::ContainsColumn)),
    ),
    (
        b"containsValue",
        Call(On::Element(OnElement::ContainsValue)),
    ),
    (b"put", Call(On::Triple(OnTriple::PutCell))),
    (b"remove", Call(On::Pair(OnPair::RemoveAtCell))),
];

/// The words of a collection of entries.
pub const ENTRIES: [(&[u8], Action); 2] = [
    (b"contains", Call(On::Pair(OnPair::ContainsEntry))),
    (b"remove", Call(On::Pair(OnPair::RemoveEntry))),
];

/// The words of a set of cells.
pub const CELL_ROWS: [(&[u8], Action); 2] = [
    (b"contains", Call(On::Triple(OnTriple::ContainsCell))),
    (b"remove", Call(On::Triple(OnTriple::RemoveCell))),
];
