/// What a builder builds: Guava's immutable collections that have one.
#[derive(Clone, Copy, Debug, PartialEq, Eq)]
pub enum BuildKind {
    List,
    Set,
    Multiset,
    Map,
    BiMap,
    ListMultimap,
    SetMultimap,
    Table,
    RangeSet,
    RangeMap,
}
