ghost use Rattle.std.specs.Prelude.{◌≡◌, ◌↔◌, IsTrue};
ghost use Rattle.std.specs.Ordering.{as_partial_cmp};
ghost use Rattle.std.specs.Cmp.{partial_equiv_from_equiv, partial_order_from_agreeing_total};
ghost use Rattle.std.proofs.Common.{refl};
ghost use Rattle.elem.specs.Elements.{same, natural_order, hashed};
ghost use Rattle.elem.specs.ElementLaws.{same_equiv, hashed-same, natural_order_total, natural_ties};

use crate::Word;
use std::cmp::Ordering;
use std::hash::{Hash, Hasher};

/// An element of a collection: a whole number, as a Java `long`, or a word.
///
/// The order of `Ord` is the natural one: numbers before words, numbers by value, words by their bytes.
#[derive(Clone, Copy, Debug)]
pub enum Elem {
    Int(i64),
    Text(Word),
}

/// Whether two elements are the same.
#[tactic(auto, unfolding(crate::specs::Elements::same), using(crate::specs::ElementLaws::same_is))]
pub fn same(a: &Elem, b: &Elem) -> bool
    ensures test { result ≡ same a.now b.now }
    ensures exact { IsTrue result ↔ (a.now ≡ b.now) }
{
    match (a, b) {
        (Elem::Int(m), Elem::Int(n)) => *m == *n,
        (Elem::Text(v), Elem::Text(w)) => *v == *w,
        _ => false,
    }
}

/// How two elements stand in the natural order.
#[tactic(auto, unfolding(crate::specs::Elements::natural_order))]
pub fn natural_order(a: &Elem, b: &Elem) -> Ordering
    ensures { result ≡ natural_order a.now b.now }
{
    match (a, b) {
        (Elem::Int(m), Elem::Int(n)) => m.cmp(n),
        (Elem::Int(_), Elem::Text(_)) => Ordering::Less,
        (Elem::Text(_), Elem::Int(_)) => Ordering::Greater,
        (Elem::Text(v), Elem::Text(w)) => v.bytes().cmp(w.bytes()),
    }
}

impl PartialEq for Elem {
    ghost eq = { same };

    ghost laws = { partial_equiv_from_equiv same_equiv };

    fn eq(&self, other: &Elem) -> bool {
        same(self, other)
    }
}

impl Eq for Elem {
    ghost laws = { same_equiv };
}

impl PartialOrd for Elem {
    ghost partial_cmp = { as_partial_cmp natural_order };

    ghost laws = { partial_order_from_agreeing_total natural_order natural_order_total (λ a b. refl) natural_ties };

    fn partial_cmp(&self, other: &Elem) -> Option<Ordering> {
        Some(natural_order(self, other))
    }
}

impl Ord for Elem {
    ghost cmp = { natural_order };

    ghost total = { natural_order_total };

    ghost matches_partial_cmp = { λ a b. refl };

    ghost matches_eq = { natural_ties };

    fn cmp(&self, other: &Elem) -> Ordering {
        natural_order(self, other)
    }
}

impl Hash for Elem {
    ghost hash_input = { hashed };

    ghost respects_eq = { hashed-same };

    fn hash<H: Hasher>(&self, state: &mut H) {
        match self {
            Elem::Int(number) => number.hash(state),
            Elem::Text(word) => word.hash(state),
        }
    }
}
