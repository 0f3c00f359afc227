//! The rule of `within`.
ghost use Rattle.std.specs.Prelude.{◌≡◌};
ghost use Rattle.vocabulary.specs.Windows as spec;

use crate::{Order, Step, upto};
use elem::{Cut, Window};

fn stands_in(order: Order, window: &Window, c: &Cut) -> bool
    ensures { result ≡ spec.stands_in order window.now c.now }
{
    upto(order, &window.lo, c) && upto(order, c, &window.hi)
}

fn low_fits(order: Order, below: &Window, c: &Cut) -> bool
    ensures { result ≡ spec.low_fits order below.now c.now }
{
    match c {
        Cut::Start => true,
        _ => stands_in(order, below, c),
    }
}

fn high_fits(order: Order, below: &Window, c: &Cut) -> bool
    ensures { result ≡ spec.high_fits order below.now c.now }
{
    match c {
        Cut::End => true,
        _ => stands_in(order, below, c),
    }
}

/// Whether a view with a window takes a range: its ends are in order, and each end that is given stands in the window.
pub fn takes_range(order: Order, below: &Window, range: &Window) -> bool
    ensures { result ≡ spec.takes_range order below.now range.now }
{
    upto(order, &range.lo, &range.hi)
        && low_fits(order, below, &range.lo)
        && high_fits(order, below, &range.hi)
}

/// The window of a range on a view with a window: an end that the range leaves open is that of the view.
pub fn resulting(below: &Window, range: &Window) -> Window
    ensures { result ≡ spec.resulting below.now range.now }
{
    let lo = match range.lo {
        Cut::Start => below.lo,
        given => given,
    };
    let hi = match range.hi {
        Cut::End => below.hi,
        given => given,
    };
    Window { lo, hi }
}

/// The window of a step over a view that has the window `below`.
pub fn window_over(step: &Step, below: &Window) -> Window
    ensures { result ≡ spec.window_over step.now below.now }
{
    match step {
        Step::Within(_, window) => *window,
        _ => *below,
    }
}

/// Whether a view takes a step's argument, where its base has this order and its window is `below`.
pub fn takes_argument(order: Order, below: &Window, step: &Step) -> bool
    ensures { result ≡ spec.takes_argument order below.now step.now }
{
    match step {
        Step::Within(_, range) => takes_range(order, below, range),
        _ => true,
    }
}

/// A step as such a view keeps it: a `within` has the order of the base, and both cuts of the resulting window.
pub fn kept_on<'a>(order: Order, below: &Window, step: Step<'a>) -> Step<'a>
    ensures { result ≡ spec.kept_on order below.now step.entry }
{
    match step {
        Step::Within(_, range) => Step::Within(order, resulting(below, &range)),
        other => other,
    }
}
