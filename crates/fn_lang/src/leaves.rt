//! Predicates and functions that have no others in their brackets.
ghost use Rattle.std.specs.Prelude.{◌≡◌, ◌≤◌, ◌++◌, ◌+ℤ◌, ◌-ℤ◌, ◌*ℤ◌, length, take};
ghost use Rattle.std.specs.Int.{w64, int_wrap};
ghost use Rattle.fn_lang.specs.Meaning.{test_holds, mapped, prefixed, begins_with, is_even};

use arrayvec::ArrayVec;
use elem::{Compare, Elem, Natural, Word, known, same, write_elem};

/// A predicate that has no predicates in its brackets.
#[derive(Clone, Copy, Debug)]
pub enum Test {
    /// `any`
    Any,
    /// `isInt`
    IsInt,
    /// `even`
    Even,
    /// `odd`
    Odd,
    /// `lt(x)`
    Below(Elem),
    /// `gt(x)`
    Above(Elem),
    /// `eq(x)`
    Same(Elem),
    /// `starts(t)`
    Starts(Word),
}

/// A function that has no functions in its brackets.
#[derive(Clone, Copy, Debug)]
pub enum Map {
    /// `plus(n)`
    Plus(i64),
    /// `times(n)`
    Times(i64),
    /// `neg`
    Negate,
    /// `len`
    Length,
    /// `const(x)`
    Const(Elem),
    /// `prefix(t)`
    Prefix(Word),
}

fn is_even(number: i64) -> bool
    ensures { result ≡ is_even number }
{
    number.rem_euclid(2) == 0
}

fn begins_with(text: &[u8], front: &[u8]) -> bool
    ensures { result ≡ begins_with text.now front.now }
{
    front.len() <= text.len() && &text[..front.len()] == front
}

impl Test {
    /// Whether the predicate holds for an element.
    pub fn holds(&self, y: &Elem) -> bool
        ensures { result ≡ test_holds self.now y.now }
    {
        match (self, y) {
            (Test::Any, _) => true,
            (Test::IsInt, Elem::Int(_)) => true,
            (Test::Even, Elem::Int(number)) => is_even(*number),
            (Test::Odd, Elem::Int(number)) => !is_even(*number),
            (Test::Below(x), _) => Natural::before(*y, *x),
            (Test::Above(x), _) => Natural::before(*x, *y),
            (Test::Same(x), _) => same(y, x),
            (Test::Starts(front), Elem::Text(text)) => begins_with(text.bytes(), front.bytes()),
            _ => false,
        }
    }
}

/// Two texts of at most 24 bytes, one behind the other.
fn joined(front: &[u8], behind: &[u8]) -> ArrayVec<u8, 48>
    requires front { length front.now ≤ 24 }
    requires behind { length behind.now ≤ 24 }
    ensures { result.items ≡ front.now ++ behind.now }
{
    let mut text = ArrayVec::new();
    let _ = text.try_extend_from_slice(front);
    let _ = text.try_extend_from_slice(behind);
    text
}

/// The first 24 bytes.
fn cut(text: &[u8]) -> &[u8]
    ensures { result.now ≡ take 24 text.now }
{
    if text.len() <= 24 { text } else { &text[..24] }
}

/// A text with another before it, cut after 24 bytes.
fn prefixed(front: &Word, y: &Elem) -> Elem
    ensures { result ≡ prefixed front.now y.now }
{
    known(y);
    let behind = write_elem(*y);
    let text = joined(front.bytes(), behind.as_slice());
    match Word::new(cut(text.as_slice())) {
        Some(word) => Elem::Text(word),
        None => *y,
    }
}

fn sum(a: i64, b: i64) -> i64
    ensures { result ≡ int_wrap w64 (a +ℤ b) }
{
    a.wrapping_add(b)
}

fn product(a: i64, b: i64) -> i64
    ensures { result ≡ int_wrap w64 (a *ℤ b) }
{
    a.wrapping_mul(b)
}

fn difference(a: i64, b: i64) -> i64
    ensures { result ≡ int_wrap w64 (a -ℤ b) }
{
    a.wrapping_sub(b)
}

impl Map {
    /// The value of the function for an element.
    pub fn of(&self, y: &Elem) -> Elem
        ensures { result ≡ mapped self.now y.now }
    {
        match (self, y) {
            (Map::Plus(number), Elem::Int(value)) => Elem::Int(sum(*value, *number)),
            (Map::Times(number), Elem::Int(value)) => Elem::Int(product(*value, *number)),
            (Map::Negate, Elem::Int(value)) => Elem::Int(difference(0, *value)),
            (Map::Length, _) => Elem::Int(write_elem(*y).len() as i64),
            (Map::Const(x), _) => *x,
            (Map::Prefix(front), _) => prefixed(front, y),
            _ => *y,
        }
    }
}
