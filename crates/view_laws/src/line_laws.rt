//! The laws of lines, each the contract of a function that does nothing.
ghost use Rattle.view_laws.specs.LineLaws.{FoundInLane, LineHidden, LineJoined, LineOver, WholeLine};

/// A walk along a lane of a step over a view is a walk along the narrower lane of that view.
pub fn line_over()
    ensures { LineOver }
{}

/// Where the second view only hides, a walk along a lane of both is one of the first.
pub fn line_hidden()
    ensures { LineHidden }
{}

/// Where the second view comes behind the first, so do the walks along a lane.
pub fn line_joined()
    ensures { LineJoined }
{}

/// The lane that takes all is the whole walk.
pub fn whole_line()
    ensures { WholeLine }
{}

/// What a view has at the places that a lane takes is what the candidates show whose items the lane takes.
pub fn found_in_lane()
    ensures { FoundInLane }
{}
