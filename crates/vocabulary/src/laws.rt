//! The laws of the tables, each the contract of a function that does nothing.
ghost use Rattle.vocabulary.specs.WordLaws.{CallsFit};

/// A word gives on a view no call that the view does not have.
pub fn calls_fit()
    ensures { CallsFit }
{}
