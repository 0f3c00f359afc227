ghost use Rattle.std.specs.Prelude.{◌≡◌};
ghost use Rattle.vocabulary.specs.Orders as spec;

use elem::{ByLength, Cut, Elem, Natural, Reverse, Window, lies_between};

/// The order of a sorted base: its `java.util.Comparator`, as a value.
#[derive(Clone, Copy)]
pub enum Order {
    /// Numbers before words, numbers by value, words by their bytes.
    Natural,
    /// The natural order turned round.
    Reverse,
    /// Elements of a shorter spelling first, and the natural order among those of one length.
    ByLength,
}

/// Whether two orders are the same.
pub fn same_order(a: Order, b: Order) -> bool
    ensures { result ≡ spec.same_order a b }
{
    match (a, b) {
        (Order::Natural, Order::Natural)
        | (Order::Reverse, Order::Reverse)
        | (Order::ByLength, Order::ByLength) => true,
        _ => false,
    }
}

/// Whether a cut stands at or before another.
pub fn upto(order: Order, c: &Cut, d: &Cut) -> bool
    ensures { result ≡ spec.upto order c.now d.now }
{
    match order {
        Order::Natural => !d.is_before::<Natural>(c),
        Order::Reverse => !d.is_before::<Reverse>(c),
        Order::ByLength => !d.is_before::<ByLength>(c),
    }
}

/// Whether an element lies in a window.
pub fn lies_in(order: Order, window: &Window, x: &Elem) -> bool
    ensures { result ≡ spec.lies_in order window.now x.now }
{
    match order {
        Order::Natural => lies_between::<Natural>(&window.lo, &window.hi, x),
        Order::Reverse => lies_between::<Reverse>(&window.lo, &window.hi, x),
        Order::ByLength => lies_between::<ByLength>(&window.lo, &window.hi, x),
    }
}

/// Whether both cuts of a window stand at or between those of another.
pub fn encloses(order: Order, outer: &Window, inner: &Window) -> bool
    ensures { result ≡ spec.encloses order outer.now inner.now }
{
    upto(order, &outer.lo, &inner.lo) && upto(order, &inner.hi, &outer.hi)
}
