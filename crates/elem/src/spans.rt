ghost use Rattle.std.specs.Prelude.{◌≡◌, ◌↔◌, IsTrue};
ghost use Rattle.elem.specs.Cuts.{IsWholeCut};
ghost use Rattle.elem.specs.Spans.{encloses, connected, holds, IsSpan, IsWhole};

use crate::{Cut, Elem, Natural, lies_between, same_cut};

/// The elements from one cut to another: Guava's `Range`.
#[derive(Clone, Copy, Debug, PartialEq, Eq)]
pub struct Span {
    pub lo: Cut,
    pub hi: Cut,
}

impl Span {
    /// Whether nothing lies between the two cuts: they are the same.
    pub fn is_empty(&self) -> bool
        ensures { IsTrue result ↔ (self.now.lo ≡ self.now.hi) }
    {
        same_cut(&self.lo, &self.hi)
    }

    /// Whether both ends are numbers or unbounded.
    pub fn whole(&self) -> bool
        ensures ends { IsTrue result ↔ (IsWholeCut self.now.lo × IsWholeCut self.now.hi) }
        ensures span { IsSpan self.now → IsTrue result → IsWhole self.now }
    {
        self.lo.is_whole() && self.hi.is_whole()
    }

    /// Whether both cuts of the other range stand at or between those of this one.
    pub fn encloses(&self, other: &Span) -> bool
        ensures { result ≡ encloses self.now other.now }
    {
        !other.lo.is_before::<Natural>(&self.lo) && !self.hi.is_before::<Natural>(&other.hi)
    }

    /// Whether the lower cut of each of the two ranges stands at or before the upper cut of the other.
    pub fn connected(&self, other: &Span) -> bool
        ensures { result ≡ connected self.now other.now }
    {
        !other.hi.is_before::<Natural>(&self.lo) && !self.hi.is_before::<Natural>(&other.lo)
    }

    /// Whether the element lies in the range.
    pub fn holds(&self, x: Elem) -> bool
        ensures { result ≡ holds self.now x }
    {
        lies_between::<Natural>(&self.lo, &self.hi, &x)
    }
}
