//! The laws of walks along a lane of a base, each the contract of a function that does nothing.
ghost use Rattle.view_laws.specs.BaseLines.{LineOfBase, TakesDown};

/// A walk along a lane of a base goes from spot to spot.
pub fn line_of_base()
    ensures { LineOfBase }
{}

/// A row that a view has in a lane stands in the lane of the base to which that comes down.
pub fn takes_down()
    ensures { TakesDown }
{}
