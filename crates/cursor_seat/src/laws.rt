//! The laws of seats, each the contract of a function that does nothing.
ghost use Rattle.cursor_seat.specs.Later.{EditLeaves, StaleAfter, StillFits};
ghost use Rattle.cursor_seat.specs.Lives.{GivesInOrder};

/// Over bases that stay as they are an iterator gives what its view shows, in order, each item once.
pub fn gives_in_order()
    ensures { GivesInOrder }
{}

/// A seat goes on fitting while others change the bases: where no change number rose, it stands where it stood.
pub fn still_fits()
    ensures { StillFits }
{}

/// A seat is stale exactly where it was, or where a change number of a base of its view rose.
pub fn stale_after()
    ensures { StaleAfter }
{}

/// An edit of a base raises its change number exactly where rows come or go, and else leaves each row at its spot.
pub fn edit_leaves()
    ensures { EditLeaves }
{}
