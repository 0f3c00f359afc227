ghost use Rattle.std.specs.Prelude.{◌≡◌, ◌↔◌, IsTrue};
ghost use Rattle.std.specs.Cmp.{partial_equiv_from_equiv};
ghost use Rattle.elem.specs.Cuts.{same_cut, cut_before, lies_between, IsWholeCut};
ghost use Rattle.elem.specs.CutLaws.{same_cut_equiv};

use crate::{Compare, Elem, same};

/// A place between elements, or at an end of their order, as Guava's `Range` has them at its two ends.
///
/// In the order of cuts, `Start` comes first, then for each element the cut below it and the cut above it, then
/// `End`.
#[derive(Clone, Copy, Debug)]
pub enum Cut {
    /// Before every element.
    Start,
    /// Just before an element.
    Below(Elem),
    /// Just after an element.
    Above(Elem),
    /// After every element.
    End,
}

impl Cut {
    /// Whether this cut comes before the other, where the elements are in the order `C`.
    pub fn is_before<C: Compare>(&self, other: &Cut) -> bool
        ensures { result ≡ cut_before C.before self.now other.now }
    {
        match (self, other) {
            (_, Cut::Start) | (Cut::End, _) => false,
            (Cut::Start, _) | (_, Cut::End) => true,
            (Cut::Below(a), Cut::Above(b)) => !C::before(*b, *a),
            (Cut::Below(a) | Cut::Above(a), Cut::Below(b) | Cut::Above(b)) => C::before(*a, *b),
        }
    }

    /// Whether the cut stands beside a number, or at an end of the order.
    pub fn is_whole(&self) -> bool
        ensures { IsTrue result ↔ IsWholeCut self.now }
    {
        !matches!(self, Cut::Below(Elem::Text(_)) | Cut::Above(Elem::Text(_)))
    }
}

/// Whether an element lies between two cuts, where the elements are in the order `C`.
pub fn lies_between<C: Compare>(lo: &Cut, hi: &Cut, x: &Elem) -> bool
    ensures { result ≡ lies_between C.before lo.now hi.now x.now }
{
    let below = Cut::Below(*x);
    let above = Cut::Above(*x);
    !below.is_before::<C>(lo) && !hi.is_before::<C>(&above)
}

/// Whether two cuts are the same.
#[tactic(auto, unfolding(crate::specs::Cuts::same_cut), using(crate::specs::CutLaws::same_cut_is))]
pub fn same_cut(c: &Cut, d: &Cut) -> bool
    ensures test { result ≡ same_cut c.now d.now }
    ensures exact { IsTrue result ↔ (c.now ≡ d.now) }
{
    match (c, d) {
        (Cut::Start, Cut::Start) | (Cut::End, Cut::End) => true,
        (Cut::Below(a), Cut::Below(b)) | (Cut::Above(a), Cut::Above(b)) => same(a, b),
        _ => false,
    }
}

impl PartialEq for Cut {
    ghost eq = { same_cut };

    ghost laws = { partial_equiv_from_equiv same_cut_equiv };

    fn eq(&self, other: &Cut) -> bool {
        same_cut(self, other)
    }
}

impl Eq for Cut {
    ghost laws = { same_cut_equiv };
}
