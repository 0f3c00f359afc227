//! Predicates and functions are evaluated along their list of parts, to a depth of at most its length.
ghost use Rattle.std.specs.Prelude.{◌≡◌, ◌≤◌, length};
ghost use Rattle.fn_lang.specs.Meaning.{HoldsAlong, PairHoldsAlong, GivesAlong};

use crate::parts::{Part, first_part};
use elem::Elem;

/// Whether the predicate at the front holds, and the parts behind it.
pub fn holds(parts: &[Part], x: Elem) -> (bool, &[Part])
    ensures value { HoldsAlong x parts.now result.0 result.1.now }
    ensures shorter { length result.1.now ≤ length parts.now }
{
    let Some((first, rest)) = first_part(parts) else {
        return (false, parts);
    };
    match first {
        Part::Test(test) => (test.holds(&x), rest),
        Part::And => {
            let (left, rest) = holds(rest, x);
            let (right, rest) = holds(rest, x);
            (left && right, rest)
        }
        Part::Or => {
            let (left, rest) = holds(rest, x);
            let (right, rest) = holds(rest, x);
            (left || right, rest)
        }
        Part::Not => {
            let (inner, rest) = holds(rest, x);
            (!inner, rest)
        }
        _ => (false, rest),
    }
}

/// Whether the predicate on pairs at the front holds, and the parts behind it.
pub fn pair_holds(parts: &[Part], k: Elem, v: Elem) -> (bool, &[Part])
    ensures value { PairHoldsAlong k v parts.now result.0 result.1.now }
    ensures shorter { length result.1.now ≤ length parts.now }
{
    let Some((first, rest)) = first_part(parts) else {
        return (false, parts);
    };
    match first {
        Part::Key => holds(rest, k),
        Part::Value => holds(rest, v),
        Part::And => {
            let (left, rest) = pair_holds(rest, k, v);
            let (right, rest) = pair_holds(rest, k, v);
            (left && right, rest)
        }
        Part::Or => {
            let (left, rest) = pair_holds(rest, k, v);
            let (right, rest) = pair_holds(rest, k, v);
            (left || right, rest)
        }
        Part::Not => {
            let (inner, rest) = pair_holds(rest, k, v);
            (!inner, rest)
        }
        _ => (false, rest),
    }
}

/// The value of the function at the front, and the parts behind it.
pub fn apply(parts: &[Part], x: Elem) -> (Elem, &[Part])
    ensures value { GivesAlong x parts.now result.0 result.1.now }
    ensures shorter { length result.1.now ≤ length parts.now }
{
    let Some((first, rest)) = first_part(parts) else {
        return (x, parts);
    };
    match first {
        Part::Map(map) => (map.of(&x), rest),
        Part::Then => {
            let (middle, rest) = apply(rest, x);
            apply(rest, middle)
        }
        Part::When => {
            let (test, rest) = holds(rest, x);
            let (yes, rest) = apply(rest, x);
            let (no, rest) = apply(rest, x);
            (if test { yes } else { no }, rest)
        }
        _ => (x, rest),
    }
}
