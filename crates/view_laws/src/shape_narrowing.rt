//! What a step tells of the items of a view, by the view's shape alone; and the narrowing of lanes by what is told so.
ghost use Rattle.std.specs.Prelude.{◌≡◌};
ghost use Rattle.view_laws.specs.Narrowing as narrowing;
ghost use Rattle.view_laws.specs.ShapeNarrowing as spec;
ghost use Rattle.vocabulary.specs.Steps.{run_in as run_of};

use crate::{GroupOrder, Lane, PartAsk, Pick, narrow};
use vocabulary::{ChangeStep, PlainStep, RowSort, Shape, Side, Step};

fn may_have_cells(shape: Shape) -> bool
    ensures { result ≡ spec.may_have_cells shape }
{
    matches!(
        shape,
        Shape::Table { .. } | Shape::Rows(RowSort::Cell) | Shape::Builder(_)
    )
}

fn may_have_entries(shape: Shape) -> bool
    ensures { result ≡ spec.may_have_entries shape }
{
    matches!(
        shape,
        Shape::Map { .. }
            | Shape::BiMap
            | Shape::Multimap { .. }
            | Shape::Rows(RowSort::Entry | RowSort::MultiEntry)
            | Shape::Builder(_)
    )
}

fn may_lack_keys(shape: Shape) -> bool
    ensures { result ≡ spec.may_lack_keys shape }
{
    matches!(
        shape,
        Shape::RangeMap | Shape::Rows(RowSort::RangeEntry) | Shape::Graph { .. } | Shape::Builder(_)
    )
}

/// Whether a part above a step comes from the part below that `source_of` says, for each item of a view of a shape.
pub fn tells_on(shape: Shape, step: &Step, side: Side) -> bool
    ensures { result ≡ spec.tells_on shape step.now side }
{
    match (step, side) {
        (Step::Plain(PlainStep::Values), _) | (Step::At(Side::First, _, _), Side::Second) =>
            !may_have_cells(shape),
        (Step::Plain(PlainStep::Inverse | PlainStep::Transpose), _)
        | (Step::At(Side::First, _, _), Side::First) => !may_lack_keys(shape),
        (Step::Change(ChangeStep::TransformValues, _), Side::Second) => !may_have_entries(shape),
        (Step::At(Side::Second, _, _), Side::Second) => {
            !(may_have_cells(shape) || may_lack_keys(shape))
        }
        _ => true,
    }
}

fn is_any(ask: &PartAsk) -> bool
    ensures { result ≡ narrowing.is_any ask.now }
{
    matches!(ask, PartAsk::Any)
}

fn is_by(pick: Pick, side: Side) -> bool
    ensures { result ≡ narrowing.is_by pick side }
{
    matches!(
        (pick, side),
        (
            Pick::Firsts(Side::First, _) | Pick::Lasts(Side::First),
            Side::First
        ) | (
            Pick::Firsts(Side::Second, _) | Pick::Lasts(Side::Second),
            Side::Second
        )
    )
}

/// Whether a lane tells items apart by a part.
pub fn asks_part(lane: &Lane, side: Side) -> bool
    ensures { result ≡ narrowing.asks_part lane.now side }
{
    let any = match side {
        Side::First => is_any(&lane.first),
        Side::Second => is_any(&lane.second),
    };
    !any || is_by(lane.pick, side)
}

fn told_if_asked(shape: Shape, step: &Step, lane: &Lane, side: Side) -> bool
    ensures { result ≡ spec.told_if_asked shape step.now lane.now side }
{
    !asks_part(lane, side) || tells_on(shape, step, side)
}

/// The lane below a step on a view of a shape, where each part that the lane above asks of is told.
pub fn narrow_on(shape: Shape, order: GroupOrder, step: &Step, lane: &Lane) -> Option<Lane>
    requires fits { narrowing.StartFits lane.now.pick (run_of step.now).start }
    ensures { result ≡ spec.narrow_on shape order step.now lane.now }
{
    let first = told_if_asked(shape, step, lane, Side::First);
    let second = told_if_asked(shape, step, lane, Side::Second);
    if first && second {
        narrow(order, step, lane)
    } else {
        None
    }
}
