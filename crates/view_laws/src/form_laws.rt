//! The laws of forms, each the contract of a function that does nothing: a view shows only items that one of its shape
//! may show.
ghost use Rattle.view_laws.specs.ItemForms.{ItemsFit, ShowFits};

/// The item of each candidate has the form of the view's shape.
pub fn items_fit()
    ensures { ItemsFit }
{}

/// So has what the view has at a place.
pub fn show_fits()
    ensures { ShowFits }
{}
