use crate::Cut;

/// The part of a sorted collection from one cut to another, in an order of the elements that its reader names:
/// what `java.util`'s `subMap`, `headMap` and `tailMap` show.
#[derive(Clone, Copy, Debug)]
pub struct Window {
    pub lo: Cut,
    pub hi: Cut,
}
