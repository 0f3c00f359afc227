//! The laws of places, each the contract of a function that does nothing.
ghost use Rattle.view_laws.specs.PlaceLaws.{AsManyPlaces, Labels, LeavesInView};

/// What a view has at its places, in order, is what its candidates show.
pub fn labels()
    ensures { Labels }
{}

/// A view has as many places as candidates.
pub fn as_many_places()
    ensures { AsManyPlaces }
{}

/// Each place of a view stands in one of the bases under it.
pub fn leaves_in_view()
    ensures { LeavesInView }
{}
