//! The numbers by which a store's bases and views are named, and how a view was made.

use std::marker::Model;
use vocabulary::Step;

/// A view of a store. Contracts see its number.
#[derive(Clone, Copy, Debug)]
pub struct AnyRef {
    number: usize,
}

impl Model for AnyRef {
    ghost use Rattle.std.specs.Prelude.{ℕ};

    ghost Value = { ℕ };

    ghost view = { λ n. n.number };

    ghost inverse = { λ n. record { number = n } };
}

/// A base of a store. Contracts see its number.
#[derive(Clone, Copy, Debug)]
pub struct BaseId {
    number: usize,
}

impl Model for BaseId {
    ghost use Rattle.std.specs.Prelude.{ℕ};

    ghost Value = { ℕ };

    ghost view = { λ b. b.number };

    ghost inverse = { λ b. record { number = b } };
}

/// How a view was made.
#[derive(Drop)]
pub enum Node<'a> {
    /// It is a base.
    Base(BaseId),
    /// It is a step over another view.
    Step { step: Step<'a>, parent: AnyRef },
}

ghost use Rattle.std.specs.Prelude.{◌≡◌};

impl AnyRef {
    pub(crate) fn at(number: usize) -> AnyRef
        ensures { result ≡ number }
    {
        AnyRef { number }
    }

    pub(crate) fn number(self) -> usize
        ensures { result ≡ self }
    {
        self.number
    }
}

impl BaseId {
    pub(crate) fn at(number: usize) -> BaseId
        ensures { result ≡ number }
    {
        BaseId { number }
    }

    pub(crate) fn number(self) -> usize
        ensures { result ≡ self }
    {
        self.number
    }
}
