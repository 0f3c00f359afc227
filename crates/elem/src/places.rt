//! Cuts between whole numbers as places: natural numbers in the order of the cuts.
ghost use Rattle.std.specs.Prelude.{◌≡◌, ◌+◌, ◌<◌, ◌≤◌};
ghost use Rattle.elem.specs.Cuts.{IsCut, IsWholeCut};
ghost use Rattle.elem.specs.Places.{IsPlace, place as place_of, place_below};
ghost use Rattle.elem.specs.Spans.{IsSpan, IsWhole};

use crate::{Cut, Elem, Span};

/// The place of the cut below 0.
const ORIGIN: u128 = 1 << 66;

fn place_below_number(number: i64) -> u128
    ensures value { result ≡ place_below number }
    ensures place { IsPlace result }
    ensures next { IsPlace (result + 1) }
{
    (number as i128 * 2 + ORIGIN as i128) as u128
}

impl Cut {
    /// The place of a cut beside a whole number or at an end: the cut below a number lies at twice the number and the
    /// cut above it one further, counted from `Start`, which lies 2^66 below 0 as `End` lies 2^66 above.
    pub fn place(&self) -> u128
        requires { IsWholeCut self.now }
        ensures value { result ≡ place_of self.now }
        ensures place { IsPlace result }
        ensures cut { IsCut self.now }
    {
        match self {
            Cut::Start => 0,
            Cut::Below(Elem::Int(number)) => place_below_number(*number),
            Cut::Above(Elem::Int(number)) => place_below_number(*number) + 1,
            _ => 2 * ORIGIN,
        }
    }

    /// The cut at a place.
    pub fn at(place: u128) -> Cut
        requires { IsPlace place }
        ensures whole { IsWholeCut result }
        ensures cut { IsCut result }
        ensures value { place_of result ≡ place }
    {
        if place == 0 {
            return Cut::Start;
        }
        if place == 2 * ORIGIN {
            return Cut::End;
        }
        let number = ((place / 2) as i128 - (ORIGIN / 2) as i128) as i64;
        if place % 2 == 0 {
            Cut::Below(Elem::Int(number))
        } else {
            Cut::Above(Elem::Int(number))
        }
    }
}

impl Span {
    /// The places of the two cuts of a range of whole numbers.
    pub fn places(&self) -> (u128, u128)
        requires { IsWhole self.now }
        ensures lo { result.0 ≡ place_of self.now.lo }
        ensures hi { result.1 ≡ place_of self.now.hi }
        ensures lo_place { IsPlace result.0 }
        ensures hi_place { IsPlace result.1 }
        ensures in_order { result.0 ≤ result.1 }
    {
        (self.lo.place(), self.hi.place())
    }

    /// The range of whole numbers from one place to another.
    pub fn at(lo: u128, hi: u128) -> Span
        requires lo { IsPlace lo }
        requires hi { IsPlace hi }
        requires in_order { lo ≤ hi }
        ensures whole { IsWhole result }
        ensures span { lo < hi → IsSpan result }
        ensures lo { place_of result.lo ≡ lo }
        ensures hi { place_of result.hi ≡ hi }
    {
        Span {
            lo: Cut::at(lo),
            hi: Cut::at(hi),
        }
    }
}
