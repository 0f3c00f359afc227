ghost use Rattle.std.specs.Prelude.{◌≡◌};
ghost use Rattle.std.specs.Ordering.{as_partial_cmp};
ghost use Rattle.std.specs.Cmp.{partial_equiv_from_equiv, partial_order_from_agreeing_total};
ghost use Rattle.std.proofs.Common.{refl};
ghost use Rattle.elem.specs.Elements.{same};
ghost use Rattle.elem.specs.ElementLaws.{same_equiv};
ghost use Rattle.plain_base.specs.Ordered.{order_of, order_of_total, order_of-ties};

use elem::{Compare, Elem, same};
use std::cmp::Ordering;
use std::marker::{Model, PhantomData};

/// An element as a key of a tree in the order `C`.
#[derive(Drop)]
pub(crate) struct Ranked<C> {
    elem: Elem,
    order: PhantomData<C>,
}

impl<C> Model for Ranked<C> {
    ghost use Rattle.elem.specs.declared.elements.Elem.{Elem as Element};

    ghost Value = { Element };

    ghost view = { λ r. r.elem };
}

impl<C> Ranked<C> {
    pub(crate) fn new(elem: Elem) -> Ranked<C>
        ensures { result ≡ elem }
    {
        Ranked {
            elem,
            order: PhantomData,
        }
    }

    pub(crate) fn elem(&self) -> Elem
        ensures { result ≡ self.now }
    {
        self.elem
    }
}

impl<C> PartialEq for Ranked<C> {
    ghost eq = { same };

    ghost laws = { partial_equiv_from_equiv same_equiv };

    fn eq(&self, other: &Ranked<C>) -> bool {
        same(&self.elem, &other.elem)
    }
}

impl<C> Eq for Ranked<C> {
    ghost laws = { same_equiv };
}

impl<C: Compare> PartialOrd for Ranked<C> {
    ghost partial_cmp = { as_partial_cmp (order_of C.before) };

    ghost laws = { partial_order_from_agreeing_total (order_of C.before) (order_of_total C.strict) (λ a b. refl) (order_of-ties C.before) };

    fn partial_cmp(&self, other: &Ranked<C>) -> Option<Ordering> {
        Some(self.cmp(other))
    }
}

impl<C: Compare> Ord for Ranked<C> {
    ghost cmp = { order_of C.before };

    ghost total = { order_of_total C.strict };

    ghost matches_partial_cmp = { λ a b. refl };

    ghost matches_eq = { order_of-ties C.before };

    fn cmp(&self, other: &Ranked<C>) -> Ordering {
        if same(&self.elem, &other.elem) {
            Ordering::Equal
        } else if C::before(self.elem, other.elem) {
            Ordering::Less
        } else {
            Ordering::Greater
        }
    }
}
