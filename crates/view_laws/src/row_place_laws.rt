//! The laws of the rows behind places, each the contract of a function that does nothing.
ghost use Rattle.view_laws.specs.RowChanges.{PlacesWith, PlacesWithout};
ghost use Rattle.view_laws.specs.RowPlaces.{FewCandidates, PlacesOfRows, RowAtPlace, RowShown};

/// A candidate of a view that goes row by row stands for the row at the spot of its place.
pub fn row_at_place()
    ensures { RowAtPlace }
{}

/// Such a view has no more candidates than its base has rows.
pub fn few_candidates()
    ensures { FewCandidates }
{}

/// What such a view has at the place of a row is told by that row.
pub fn row_shown()
    ensures { RowShown }
{}

/// The places of such a view are those of the rows that its form takes.
pub fn places_of_rows()
    ensures { PlacesOfRows }
{}

/// Where a row goes, the place of that row goes.
pub fn places_without()
    ensures { PlacesWithout }
{}

/// Where a row comes, its place comes, or none.
pub fn places_with()
    ensures { PlacesWith }
{}
