//! The laws of searches, each the contract of a function that does nothing.
ghost use Rattle.view_laws.specs.Searches.{AlikeInLane, ElementShown, FirstDecides, OneAlike, OneInLane};

/// Where all that is found in a lane is alike, the first decides whether the view shows what the lane asks for.
pub fn first_decides()
    ensures { FirstDecides }
{}

/// Whether a view of elements shows an element is told by the lane of that element.
pub fn element_shown()
    ensures { ElementShown }
{}

/// What is found in a lane that comes down to one element is alike.
pub fn alike_in_lane()
    ensures { AlikeInLane }
{}

/// A lane that comes down to one key has one place, if any, where no two rows have the same key.
pub fn one_in_lane()
    ensures { OneInLane }
{}

/// What is found at one place is alike.
pub fn one_alike()
    ensures { OneAlike }
{}
