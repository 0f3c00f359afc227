//! The table of words, in parts: each part has the words that some sorts of view share. A word is one line in one part.
ghost use Rattle.std.specs.Prelude.{◌≡◌, ◌≤◌, length, map};
ghost use Rattle.vocabulary.specs.Words as spec;

mod builders;
mod collections;
mod graphs;
mod maps;
mod ranges;

use crate::{CallForm as On, LeafForm, Making, OnBuilder, Sort, StepForm as By};
use builders::*;
use collections::*;
use elem::BuildKind;
use graphs::*;
use maps::*;
use ranges::*;

/// What a word does.
#[derive(Clone, Copy)]
pub enum Action {
    /// It leads to another view.
    Step(By),
    /// It asks the view, or changes what stands behind it.
    Call(On),
    /// It makes a base of which nothing changes any more.
    Make(Making),
}

use Action::{Call, Make, Step};

/// The parts of the table.
#[derive(Clone, Copy)]
pub enum Table {
    Lists,
    Pieces,
    Sets,
    SortedSets,
    Elements,
    Changeable,
    Bags,
    SortedBags,
    Sorted,
    Compared,
    Locked,
    Copied,
    Sized,
    Cleared,
    CountedRows,
    Maps,
    PlainMaps,
    SortedMaps,
    Bimaps,
    Multimaps,
    Groups,
    Tables,
    Entries,
    CellRows,
    Leaves,
    RangeSetSteps,
    RangeSetWrites,
    RangeSets,
    RangeMaps,
    RangeRows,
    RangeEntries,
    GraphSteps,
    Graphs,
    Pairs,
    OneBuilders,
    CountedBuilders,
    EntryBuilders,
    CellBuilders,
    SpanBuilders,
    SpanValueBuilders,
    Built,
    BuiltOrThrown,
    BuiltKeepingLast,
}

/// The parts that have the words of a sort.
pub fn tables_of(sort: Sort) -> &'static [Table]
    ensures { result.now ≡ spec.tables_of sort }
{
    match sort {
        Sort::List => &[
            Table::Sized,
            Table::Cleared,
            Table::Lists,
            Table::Elements,
            Table::Changeable,
            Table::Compared,
            Table::Locked,
            Table::Copied,
        ],
        Sort::Set => &[
            Table::Sized,
            Table::Cleared,
            Table::Sets,
            Table::Elements,
            Table::Changeable,
            Table::Compared,
            Table::Locked,
            Table::Copied,
        ],
        Sort::SortedSet => &[
            Table::Sized,
            Table::Cleared,
            Table::SortedSets,
            Table::Sorted,
            Table::Sets,
            Table::Elements,
            Table::Changeable,
            Table::Compared,
            Table::Locked,
            Table::Copied,
        ],
        Sort::Coll => &[
            Table::Sized,
            Table::Cleared,
            Table::Elements,
            Table::Changeable,
            Table::Locked,
            Table::Copied,
        ],
        Sort::EntryRows => &[Table::Sized, Table::Cleared, Table::Entries],
        Sort::GroupRows => &[Table::Sized, Table::Cleared],
        Sort::CountedRows => &[Table::Sized, Table::Cleared, Table::CountedRows],
        Sort::CellRows => &[Table::Sized, Table::Cleared, Table::CellRows],
        Sort::Map => &[
            Table::Sized,
            Table::Cleared,
            Table::Maps,
            Table::PlainMaps,
            Table::Compared,
            Table::Locked,
            Table::Copied,
        ],
        Sort::SortedMap => &[
            Table::Sized,
            Table::Cleared,
            Table::SortedMaps,
            Table::Sorted,
            Table::Maps,
            Table::PlainMaps,
            Table::Compared,
            Table::Locked,
            Table::Copied,
        ],
        Sort::Groups => &[Table::Sized, Table::Cleared, Table::Groups],
        Sort::Bag => &[
            Table::Sized,
            Table::Cleared,
            Table::Bags,
            Table::Elements,
            Table::Compared,
            Table::Locked,
            Table::Copied,
        ],
        Sort::SortedBag => &[
            Table::Sized,
            Table::Cleared,
            Table::SortedBags,
            Table::Sorted,
            Table::Bags,
            Table::Elements,
            Table::Compared,
            Table::Locked,
            Table::Copied,
        ],
        Sort::BiMap => &[
            Table::Sized,
            Table::Cleared,
            Table::Bimaps,
            Table::Maps,
            Table::Compared,
            Table::Locked,
            Table::Copied,
        ],
        Sort::Multimap => &[
            Table::Sized,
            Table::Cleared,
            Table::Multimaps,
            Table::Locked,
            Table::Copied,
        ],
        Sort::Table => &[
            Table::Sized,
            Table::Cleared,
            Table::Tables,
            Table::Locked,
            Table::Copied,
        ],
        Sort::Pieces => &[Table::Pieces, Table::Sized],
        Sort::RangeSet => &[
            Table::RangeSetSteps,
            Table::RangeSets,
            Table::RangeSetWrites,
            Table::Compared,
            Table::Leaves,
            Table::Copied,
            Table::Cleared,
        ],
        Sort::RangeRows => &[Table::Sized, Table::Cleared, Table::RangeRows],
        Sort::RangeMap => &[
            Table::RangeMaps,
            Table::Leaves,
            Table::Copied,
            Table::Cleared,
        ],
        Sort::RangeEntryRows => &[Table::Sized, Table::Cleared, Table::RangeEntries],
        Sort::Graph => &[
            Table::GraphSteps,
            Table::Graphs,
            Table::Leaves,
            Table::Copied,
        ],
        Sort::PairRows => &[Table::Sized, Table::Cleared, Table::Pairs],
        Sort::Builder(kind) => tables_of_builder(kind),
    }
}

fn tables_of_builder(kind: BuildKind) -> &'static [Table]
    ensures { result.now ≡ spec.tables_of_builder kind }
{
    match kind {
        BuildKind::List | BuildKind::Set => &[Table::OneBuilders, Table::Built],
        BuildKind::Multiset => &[Table::CountedBuilders, Table::Built],
        BuildKind::Map => &[
            Table::EntryBuilders,
            Table::BuiltOrThrown,
            Table::BuiltKeepingLast,
        ],
        BuildKind::BiMap => &[Table::EntryBuilders, Table::BuiltOrThrown],
        BuildKind::ListMultimap | BuildKind::SetMultimap => &[Table::EntryBuilders, Table::Built],
        BuildKind::Table => &[Table::CellBuilders, Table::Built],
        BuildKind::RangeSet => &[Table::SpanBuilders, Table::Built],
        BuildKind::RangeMap => &[Table::SpanValueBuilders, Table::Built],
    }
}

/// How many arguments an action takes.
pub fn count_of(action: Action) -> usize
    ensures { result ≡ spec.count_of action }
{
    match action {
        Step(step) => count_of_step(step),
        Call(call) => count_of_call(call),
        Make(_) => 0,
    }
}

fn count_of_step(step: By) -> usize
    ensures { result ≡ spec.count_of_step step }
{
    match step {
        By::Plain(_) | By::Group(_, _) => 0,
        By::Leaf(LeafForm::Part | LeafForm::Near(_)) => 1,
        By::Leaf(_) => 0,
        By::Sub => 2,
        _ => 1,
    }
}

fn count_of_call(call: On) -> usize
    ensures { result ≡ spec.count_of_call call }
{
    match call {
        On::Ask(_) => 0,
        On::Element(_) | On::Index(_) | On::Other(_) | On::Span(_) => 1,
        On::Indexed(_) | On::Counted(_) | On::Pair(_) | On::SpanValue(_) | On::Values(_) => 2,
        On::Triple(_) => 3,
        On::Build(word) => count_of_item(word),
    }
}

fn count_of_item(word: OnBuilder) -> usize
    ensures { result ≡ spec.count_of_item word }
{
    match word {
        OnBuilder::AddOne | OnBuilder::AddSpan => 1,
        OnBuilder::AddCopies | OnBuilder::PutEntry | OnBuilder::PutSpan => 2,
        OnBuilder::PutCell => 3,
    }
}

/// What a word with so many arguments does on a view of a sort, where it has a meaning there.
#[tactic(auto, unfolding(crate::specs::Words::signature))]
pub fn signature(sort: Sort, word: &[u8], count: usize) -> Option<Action>
    ensures { result ≡ spec.signature sort word.now count }
{
    in_tables(tables_of(sort), word, count)
}

fn in_tables(mut tables: &[Table], word: &[u8], count: usize) -> Option<Action>
    ensures { result ≡ spec.in_tables word.now count tables.entry.now }
{
    while let [table, rest @ ..] = tables {
        let found = in_table(*table, word, count);
        if found.is_some() {
            return found;
        }
        tables = rest;
    }
    None
}

#[tactic(auto, unfolding(crate::specs::Words::rows_of))]
fn in_table(table: Table, word: &[u8], count: usize) -> Option<Action>
    ensures { result ≡ spec.chosen word.now count (spec.rows_of table) }
{
    match table {
        Table::Lists => chosen(&LISTS, word, count),
        Table::Pieces => chosen(&PIECES, word, count),
        Table::Sets => chosen(&SETS, word, count),
        Table::SortedSets => chosen(&SORTED_SETS, word, count),
        Table::Elements => chosen(&ELEMENTS, word, count),
        Table::Changeable => chosen(&CHANGEABLE, word, count),
        Table::Bags => chosen(&BAGS, word, count),
        Table::SortedBags => chosen(&SORTED_BAGS, word, count),
        Table::Sorted => chosen(&SORTED, word, count),
        Table::Compared => chosen(&COMPARED, word, count),
        Table::Locked => chosen(&LOCKED, word, count),
        Table::Copied => chosen(&COPIED, word, count),
        Table::Sized => chosen(&SIZED, word, count),
        Table::Cleared => chosen(&CLEARED, word, count),
        Table::CountedRows => chosen(&COUNTED_ROWS, word, count),
        Table::Maps => chosen(&MAPS, word, count),
        Table::PlainMaps => chosen(&PLAIN_MAPS, word, count),
        Table::SortedMaps => chosen(&SORTED_MAPS, word, count),
        Table::Bimaps => chosen(&BIMAPS, word, count),
        Table::Multimaps => chosen(&MULTIMAPS, word, count),
        Table::Groups => chosen(&GROUPS, word, count),
        Table::Tables => chosen(&TABLES, word, count),
        Table::Entries => chosen(&ENTRIES, word, count),
        Table::CellRows => chosen(&CELL_ROWS, word, count),
        Table::Leaves => chosen(&LEAVES, word, count),
        Table::RangeSetSteps => chosen(&RANGE_SET_STEPS, word, count),
        Table::RangeSetWrites => chosen(&RANGE_SET_WRITES, word, count),
        Table::RangeSets => chosen(&RANGE_SETS, word, count),
        Table::RangeMaps => chosen(&RANGE_MAPS, word, count),
        Table::RangeRows => chosen(&RANGE_ROWS, word, count),
        Table::RangeEntries => chosen(&RANGE_ENTRIES, word, count),
        Table::GraphSteps => chosen(&GRAPH_STEPS, word, count),
        Table::Graphs => chosen(&GRAPHS, word, count),
        Table::Pairs => chosen(&PAIRS, word, count),
        Table::OneBuilders => chosen(&ONE_BUILDERS, word, count),
        Table::CountedBuilders => chosen(&COUNTED_BUILDERS, word, count),
        Table::EntryBuilders => chosen(&ENTRY_BUILDERS, word, count),
        Table::CellBuilders => chosen(&CELL_BUILDERS, word, count),
        Table::SpanBuilders => chosen(&SPAN_BUILDERS, word, count),
        Table::SpanValueBuilders => chosen(&SPAN_VALUE_BUILDERS, word, count),
        Table::Built => chosen(&BUILT, word, count),
        Table::BuiltOrThrown => chosen(&BUILT_OR_THROWN, word, count),
        Table::BuiltKeepingLast => chosen(&BUILT_KEEPING_LAST, word, count),
    }
}

#[tactic(auto, unfolding(crate::specs::Words::chosen))]
fn chosen(mut rows: &[(&[u8], Action)], word: &[u8], count: usize) -> Option<Action>
    ensures { result ≡ spec.chosen word.now count (map (λ row. (row.0.now, row.1)) rows.entry.now) }
{
    while let [row, rest @ ..] = rows {
        if row.0 == word && count_of(row.1) == count {
            return Some(row.1);
        }
        rows = rest;
    }
    None
}
