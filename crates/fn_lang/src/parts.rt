//! The parts of predicates and functions.
ghost use Rattle.std.specs.Prelude.{◌≡◌, ◌<◌, length, IfSome};
ghost use Rattle.std.specs.Option.{option_map};
ghost use Rattle.fn_lang.specs.Trees.{uncons};

use crate::leaves::{Map, Test};

/// A name in a predicate or function. A name stands before what is in its brackets.
#[derive(Clone, Copy, Debug)]
pub enum Part {
    /// A predicate that has none in its brackets.
    Test(Test),
    /// `and(p, p2)`
    And,
    /// `or(p, p2)`
    Or,
    /// `not(p)`
    Not,
    /// `key(p)`
    Key,
    /// `value(p)`
    Value,
    /// A function that has none in its brackets.
    Map(Map),
    /// `then(f, g)`
    Then,
    /// `when(p, f, g)`
    When,
}

impl Default for Part {
    ghost use Rattle.std.specs.Prelude.{◌≡◌};
    ghost use Rattle.fn_lang.specs.Flat.{blank};

    ghost is_default = { λ p. p ≡ blank };

    /// `any`
    fn default() -> Self {
        Part::Test(Test::Any)
    }
}

/// The first part, and those behind it.
#[tactic(auto, unfolding(crate::specs::Trees::uncons))]
pub fn first_part(parts: &[Part]) -> Option<(Part, &[Part])>
    ensures first { option_map (λ p. (p.0, p.1.now)) result ≡ uncons parts.now }
    ensures shorter { IfSome result (λ p. length p.1.now < length parts.now) }
{
    match parts {
        [] => None,
        [first, rest @ ..] => Some((*first, rest)),
    }
}
