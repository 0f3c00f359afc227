//! The laws of lanes that come down to the base, each the contract of a function that does nothing.
ghost use Rattle.view_laws.specs.GroupOrders.{OrderAt};
ghost use Rattle.view_laws.specs.LanesDown.{EachDown, LineDown};
ghost use Rattle.view_laws.specs.ShapeNarrowing.{ToldOnShape};

/// What a step tells of a shape it tells of each of its items.
pub fn told_on_shape()
    ensures { ToldOnShape }
{}

/// The order of keys over a view is told by the view.
pub fn order_at()
    ensures { OrderAt }
{}

/// A walk along a lane of a view is the walk along the lane of its base to which that comes down.
pub fn line_down()
    ensures { LineDown }
{}

/// A lane of each candidate comes down to a lane of each.
pub fn each_down()
    ensures { EachDown }
{}
