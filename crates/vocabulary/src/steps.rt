//! Steps from one view to the next, and what a view allows.

ghost use Rattle.std.specs.Prelude.{◌≡◌};
ghost use Rattle.vocabulary.specs.Steps as spec;

use crate::{LeafForm, Order, Side, Sublist};
use elem::{Elem, Window};
use fn_lang::{FuncRef, PairPredRef, PredRef};

/// The steps that take nothing.
#[derive(Clone, Copy)]
pub enum PlainStep {
    /// `Lists.reverse`: live; the opposite order, written through.
    Reverse,
    /// `Map.keySet` of a map or of groups: live; removing a key removes its entry or group, adding is refused.
    KeySet,
    /// `Map.values`, `Multimap.values`, `Table.values`: live; removing a value removes its first row, adding is refused.
    Values,
    /// `Map.entrySet`, `Multimap.entries`, `Table.cellSet`: live; removing a row removes it below, adding is refused.
    EntrySet,
    /// `Multimap.keys`: live; the key of each pair, in the order of the keys; adding is refused.
    Keys,
    /// `NavigableSet.descendingSet`, `NavigableMap.descendingMap`, `SortedMultiset.descendingMultiset`: live; the
    /// opposite order, written through.
    Descending,
    /// `BiMap.inverse`: live; keys and values exchanged, written through.
    Inverse,
    /// `Tables.transpose`: live; rows and columns exchanged, written through.
    Transpose,
    /// `Multimaps.forMap`: live; each entry as a pair; adding is refused.
    ForMap,
    /// `Collections.unmodifiableList` and its kin: live; each write is refused.
    Unmodifiable,
}

/// The steps that take a predicate: live; what does not pass is hidden, stays where it is, and cannot be added.
#[derive(Clone, Copy)]
pub enum FilterStep {
    /// `Collections2.filter`, `Sets.filter`, `Multisets.filter`.
    Filter,
    /// `Maps.filterKeys`, `Multimaps.filterKeys`; of groups, those whose keys pass.
    FilterKeys,
    /// `Maps.filterValues`, `Multimaps.filterValues`.
    FilterValues,
}

/// The steps that take a function: live; removing is written through, adding is refused.
#[derive(Clone, Copy)]
pub enum ChangeStep {
    /// `Lists.transform`, `Collections2.transform`.
    Transform,
    /// `Maps.transformValues`, `Multimaps.transformValues`, `Tables.transformValues`.
    TransformValues,
    /// `Maps.asMap`: each member of a set as a key, with the function's value for it.
    AsMap,
}

/// What a grouping makes of each group: live; removing is written through to all items shown, adding is refused.
#[derive(Clone, Copy)]
pub enum GroupForm {
    /// Its key: `Multimap.keySet`, `Multiset.elementSet`, `Table.rowKeySet`, `Table.columnKeySet`.
    Keys,
    /// Its key and the number of its items: `Multiset.entrySet`.
    Counts,
    /// Its key and its items: `Multimap.asMap`, `Table.rowMap`, `Table.columnMap`.
    Members,
}

/// The steps that take another view: live; each write is refused.
#[derive(Clone, Copy)]
pub enum JoinStep {
    /// `Sets.union`.
    Union,
    /// `Sets.intersection`.
    Intersection,
    /// `Sets.difference`.
    Difference,
    /// `Sets.symmetricDifference`: what only the first has, then what only the second has.
    SymmetricDifference,
    /// `Multisets.union`: the larger of both counts.
    BagUnion,
    /// `Multisets.sum`: the sum of both counts, at most 2147483647.
    BagSum,
    /// `Multisets.intersection`: the smaller of both counts.
    BagIntersection,
    /// `Multisets.difference`: by how much the first count is the larger.
    BagDifference,
}

/// What a step takes, and which one it is.
#[derive(Clone, Copy)]
pub enum StepForm {
    Plain(PlainStep),
    Filter(FilterStep),
    FilterPairs,
    Change(ChangeStep),
    Within,
    At(Side),
    Member,
    Group(Side, GroupForm),
    Join(JoinStep),
    Sub,
    Partition,
    Piece,
    Leaf(LeafForm),
}

/// A step with its arguments, where none of them is another view. The parts of a predicate or a function stand elsewhere.
#[derive(Drop)]
pub enum Step<'a> {
    Plain(PlainStep),
    Filter(FilterStep, PredRef<'a>),
    /// `Maps.filterEntries`, `Multimaps.filterEntries`: as the other filters.
    FilterPairs(PairPredRef<'a>),
    Change(ChangeStep, FuncRef<'a>),
    /// `NavigableSet.subSet`, `NavigableMap.subMap`, `SortedMultiset.subMultiset` and their kin: live; what lies in a
    /// window that is read in an order, written through. What lies outside cannot be added.
    Within(Order, Window),
    /// `Multimap.get`, `Table.row`, `Table.column`: live; the items with one part given, without that part, which an
    /// added item gets back. The number says how many steps of groups led to it besides.
    At(Side, Elem, usize),
    /// The items grouped by one of their parts.
    Group(Side, GroupForm),
    /// `List.subList`: live; a run of the list, written through, which is stale after other changes of its base. The
    /// number tells it from other sublists.
    Sub(usize, Sublist),
    /// `Lists.partition`: live; runs of so many items, the last of which may be shorter. Each write is refused.
    Partition(usize),
    /// A list of `Lists.partition`, as a step over the list under it: the sublist of its run.
    Piece(usize, Sublist),
}

impl<'a> Step<'a> {
    /// The step without its arguments.
    pub fn form(&self) -> StepForm
        ensures { result ≡ spec.form_of_step self.now }
    {
        match self {
            Step::Plain(word) => StepForm::Plain(*word),
            Step::Filter(word, _) => StepForm::Filter(*word),
            Step::FilterPairs(_) => StepForm::FilterPairs,
            Step::Change(word, _) => StepForm::Change(*word),
            Step::Within(_, _) => StepForm::Within,
            Step::At(side, _, _) => StepForm::At(*side),
            Step::Group(side, made) => StepForm::Group(*side, *made),
            Step::Sub(_, _) => StepForm::Sub,
            Step::Partition(_) => StepForm::Partition,
            Step::Piece(_, _) => StepForm::Piece,
        }
    }
}

/// What a view allows.
#[derive(Clone, Copy)]
pub struct Flags {
    /// Adding and replacing.
    pub add: bool,
    /// Removing.
    pub remove: bool,
    /// Removing by an iterator.
    pub iterate: bool,
}

/// What a call asks of its receiver.
#[derive(Clone, Copy)]
pub enum Needs {
    Nothing,
    Add,
    Remove,
    AddAndRemove,
}
