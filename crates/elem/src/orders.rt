ghost use Rattle.std.specs.Prelude.{◌≡◌, length};
ghost use Rattle.elem.specs.Elements.{natural_order};
ghost use Rattle.elem.specs.Orders.{natural_before, reverse_before, length_before};
ghost use Rattle.elem.specs.OrderLaws.{natural_before_strict, reverse_before_strict, length_before_strict};
ghost use Rattle.elem.specs.Spelling.{spelling};

use crate::spelling::text_length;
use crate::{Elem, natural_order};
use std::cmp::Ordering;

/// An order of the elements: `java.util.Comparator`, as far as it tells which of two elements comes first.
pub trait Compare {
    ghost use Rattle.std.specs.Prelude.{◌≡◌, Bool};
    ghost use Rattle.elem.specs.Orders.{IsStrictOrder};
    ghost use Rattle.elem.specs.declared.elements.Elem.{Elem};

    /// Whether one element comes before another.
    ghost before: { Elem → Elem → Bool };

    fn before(a: Elem, b: Elem) -> bool
        ensures { result ≡ before a b };

    /// No element is before itself, of two different elements exactly one is before the other, and before is transitive.
    ghost strict: { IsStrictOrder before };
}

/// The natural order: numbers before words, numbers by value, words by their bytes.
#[derive(Clone, Copy, Debug)]
pub struct Natural;

impl Compare for Natural {
    ghost before = { natural_before };

    ghost strict = { natural_before_strict };

    fn before(a: Elem, b: Elem) -> bool {
        natural_order(&a, &b) == Ordering::Less
    }
}

/// The natural order turned round: `Comparator.reverseOrder()`.
#[derive(Clone, Copy, Debug)]
pub struct Reverse;

impl Compare for Reverse {
    ghost before = { reverse_before };

    ghost strict = { reverse_before_strict };

    fn before(a: Elem, b: Elem) -> bool {
        Natural::before(b, a)
    }
}

/// Elements whose spelling has fewer bytes first, and the natural order among those of one length.
#[derive(Clone, Copy, Debug)]
pub struct ByLength;

impl Compare for ByLength {
    ghost before = { length_before };

    ghost strict = { length_before_strict };

    #[tactic(auto, unfolding(crate::specs::Orders::length_order))]
    fn before(a: Elem, b: Elem) -> bool {
        let one = text_length(&a);
        let other = text_length(&b);
        one < other || one == other && Natural::before(a, b)
    }
}
