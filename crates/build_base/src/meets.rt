//! Whether a range has something in common with rows, which is told by the two rows nearest to its lower end.
ghost use Rattle.std.specs.Prelude.{◌≡◌, ◌↔◌, true, false, IfSome};
ghost use Rattle.std.specs.Option.{option_map};
ghost use Rattle.elem.specs.Places.{place};
ghost use Rattle.elem.specs.Spans.{IsWhole};
ghost use Rattle.build_base.specs.Units.{IsFree, IsLong, has_length, overlaps};

use elem::{Elem, Span};
use range_base::{FreeRangeMapRows, FreeRangeRows};

/// Whether a range begins before one place and ends after another.
fn overlaps(span: Option<Span>, lo: u128, hi: u128) -> bool
    requires { IfSome span IsWhole }
    ensures { result ≡ overlaps lo hi span }
{
    match span {
        Some(span) => span.lo.place() < hi && lo < span.hi.place(),
        None => false,
    }
}

/// Whether a range has something in common with a range set.
pub fn meets_set(rows: &FreeRangeRows, span: &Span) -> bool
    requires whole { IsWhole span.now }
    requires length { has_length span.now ≡ true }
    ensures free { (result ≡ false) ↔ IsFree (place span.now.lo) (place span.now.hi) rows.now }
    ensures long { IsLong span.now }
{
    // No more than the clause of `len`: the rows are in order.
    let _in_order = rows.len();
    let lo = span.lo.place();
    let hi = span.hi.place();
    let before = overlaps(rows.probe(&span.lo), lo, hi);
    let after = overlaps(rows.after(span), lo, hi);
    before || after
}

/// The range of a row of a range map.
fn range_of(row: Option<(Span, Elem)>) -> Option<Span>
    ensures { result ≡ option_map (λ t. t.0) row }
{
    match row {
        Some((span, _)) => Some(span),
        None => None,
    }
}

/// Whether a range has something in common with the ranges of a range map.
pub fn meets_map(rows: &FreeRangeMapRows, span: &Span) -> bool
    requires whole { IsWhole span.now }
    requires length { has_length span.now ≡ true }
    ensures free { (result ≡ false) ↔ IsFree (place span.now.lo) (place span.now.hi) rows.now }
    ensures long { IsLong span.now }
{
    // No more than the clause of `len`: the rows are in order.
    let _in_order = rows.len();
    let lo = span.lo.place();
    let hi = span.hi.place();
    let before = overlaps(range_of(rows.probe(&span.lo)), lo, hi);
    let after = overlaps(range_of(rows.after(span)), lo, hi);
    before || after
}
