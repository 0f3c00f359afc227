//! The laws of look-ups, each the contract of a function that does nothing: whether a view shows what is asked for is
//! told by what the views below it show, down to one search of a base.
ghost use Rattle.view_laws.specs.LookUps.{GroupsThere, ShowsBoth, ShowsFirst, ShowsHidden, ShowsOver, ShowsRow};

/// A step shows what the view below shows of the parts from which its own come.
pub fn shows_over()
    ensures { ShowsOver }
{}

/// A step that hides shows what the view below shows, where what is asked for passes.
pub fn shows_hidden()
    ensures { ShowsHidden }
{}

/// What two sets show together, of which the second hides some of the first.
pub fn shows_first()
    ensures { ShowsFirst }
{}

/// What two sets show together, one behind the other.
pub fn shows_both()
    ensures { ShowsBoth }
{}

/// A base shows its rows.
pub fn shows_row()
    ensures { ShowsRow }
{}

/// A step that groups has a group for each candidate, unless the base keeps the keys.
pub fn groups_there()
    ensures { GroupsThere }
{}
