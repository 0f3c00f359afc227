//! The laws of the row form, each the contract of a function that does nothing: a view of families that go row by row
//! shows its leaf so, and an item that is added to it is shown as it was added.
ghost use Rattle.view_laws.specs.RowForm.{FoundLaw, LiftLaw, LiftUndone, RowLaw, ShownLaw};

/// The candidates of a view are made row by row.
pub fn candidates_of_rows()
    ensures { RowLaw }
{}

/// So is what they show.
pub fn found_of_rows()
    ensures { FoundLaw }
{}

/// A view shows the items of the rows that its form shows.
pub fn shown_of_rows()
    ensures { ShownLaw }
{}

/// What a step makes of an added item, as it is below the step, is that item.
pub fn lift_undone()
    ensures { LiftUndone }
{}

/// The row that an added item means is shown as that item.
pub fn lifted_is_shown()
    ensures { LiftLaw }
{}
