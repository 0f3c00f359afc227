//! In which order a step puts keys, by what code can ask of the view below it.
ghost use Rattle.std.specs.Prelude.{◌≡◌};
ghost use Rattle.view_laws.specs.GroupOrders as spec;

use crate::GroupOrder;
use vocabulary::{Kind, Order, PlainStep, Shape, Side, Step, is_columns};

fn order_of_keys(kind: Kind, for_map: bool) -> GroupOrder
    ensures { result ≡ spec.order_of_keys kind for_map }
{
    match (kind, for_map) {
        (Kind::LinkedHashMultimap, false) => GroupOrder::OfBase,
        (Kind::LinkedListMultimap, false) => GroupOrder::AsTheyCome,
        _ => GroupOrder::ByFirst,
    }
}

fn order_of_lines(kind: Kind, is_column: bool) -> GroupOrder
    ensures { result ≡ spec.order_of_lines kind is_column }
{
    match (kind, is_column) {
        (Kind::TreeBasedTable, true) => GroupOrder::Sorted(Order::Natural),
        _ => GroupOrder::ByFirst,
    }
}

fn order_of_groups(kind: Kind, for_map: bool, shape: Shape, side: Side) -> GroupOrder
    ensures { result ≡ spec.order_of_groups kind for_map shape side }
{
    match shape {
        Shape::Multimap { .. } => order_of_keys(kind, for_map),
        Shape::Table { mirrored, .. } => order_of_lines(kind, is_columns(mirrored, side)),
        _ => GroupOrder::ByFirst,
    }
}

/// In which order a step puts keys over a view of a shape, whose base is of a kind, and where a map was made a multimap
/// on the way or not.
pub fn order_on(kind: Kind, for_map: bool, shape: Shape, step: &Step) -> GroupOrder
    ensures { result ≡ spec.order_on kind for_map shape step.now }
{
    match step {
        Step::Plain(PlainStep::Keys) => order_of_keys(kind, for_map),
        Step::Group(side, _) => order_of_groups(kind, for_map, shape, *side),
        _ => GroupOrder::ByFirst,
    }
}
