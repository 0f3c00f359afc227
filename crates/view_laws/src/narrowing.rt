//! What a lane of a step over a view asks of that view, by the step's family and by the columns of its parts.
ghost use Rattle.std.specs.Prelude.{◌≡◌};
ghost use Rattle.view_laws.specs.Narrowing as spec;
ghost use Rattle.vocabulary.specs.Steps.{run_in as run_of};

use crate::{GroupOrder, Lane, PartAsk, Pick, Run};
use elem::same;
use vocabulary::{
    ChangeStep, Family, PlainStep, Side, Step, Sublist, encloses, family_of, lies_in, same_order,
    side_of,
};

/// From which part of the item below a step a part of its item comes, where one tells it.
pub fn source_of(step: &Step, side: Side) -> Option<Side>
    ensures { result ≡ spec.source_of step.now side }
{
    match step {
        Step::Plain(PlainStep::KeySet | PlainStep::Keys) => Some(Side::First),
        Step::Plain(PlainStep::Values) => Some(Side::Second),
        Step::Plain(PlainStep::Inverse | PlainStep::Transpose) => Some(other(side)),
        Step::Change(ChangeStep::Transform, _) => None,
        Step::Change(ChangeStep::AsMap, _) => match side {
            Side::First => Some(Side::First),
            Side::Second => None,
        },
        Step::At(given, _, _) => Some(other(*given)),
        _ => Some(side),
    }
}

fn other(side: Side) -> Side
    ensures { result ≡ spec.other side }
{
    match side {
        Side::First => Side::Second,
        Side::Second => Side::First,
    }
}

/// What a step that leaves items out asks of those that it leaves, and of which part.
fn asked_by(step: &Step) -> Lane
    ensures { result ≡ spec.asked_by step.now }
{
    match step {
        Step::At(Side::First, k, _) => asking(PartAsk::Is(*k), PartAsk::Any),
        Step::At(Side::Second, k, _) => asking(PartAsk::Any, PartAsk::Is(*k)),
        Step::Within(order, window) => asking(PartAsk::Within(*order, *window), PartAsk::Any),
        _ => asking(PartAsk::Any, PartAsk::Any),
    }
}

pub(crate) fn asking(first: PartAsk, second: PartAsk) -> Lane
    ensures { result ≡ spec.asking first second }
{
    Lane {
        first,
        second,
        pick: Pick::Each,
    }
}

/// What both ask, where one of the four kinds of asks says it.
fn both_asks(a: &PartAsk, b: &PartAsk) -> Option<PartAsk>
    ensures { result ≡ spec.both_asks a.now b.now }
{
    match (a, b) {
        (PartAsk::Any, _) => Some(*b),
        (PartAsk::Nothing, _) => Some(PartAsk::Nothing),
        (_, PartAsk::Any) => Some(*a),
        (_, PartAsk::Nothing) => Some(PartAsk::Nothing),
        (PartAsk::Is(x), PartAsk::Is(y)) => Some(if same(x, y) { *a } else { PartAsk::Nothing }),
        (PartAsk::Is(x), PartAsk::Within(order, window)) => {
            Some(if lies_in(*order, window, x) {
                *a
            } else {
                PartAsk::Nothing
            })
        }
        (PartAsk::Within(order, window), PartAsk::Is(y)) => {
            Some(if lies_in(*order, window, y) {
                *b
            } else {
                PartAsk::Nothing
            })
        }
        (PartAsk::Within(order, outer), PartAsk::Within(other, inner)) => {
            if !same_order(*order, *other) {
                None
            } else if encloses(*order, outer, inner) {
                Some(*b)
            } else if encloses(*order, inner, outer) {
                Some(*a)
            } else {
                None
            }
        }
    }
}

/// A lane that asks one thing more.
fn with_ask(side: Side, ask: &PartAsk, lane: &Lane) -> Option<Lane>
    ensures { result ≡ spec.with_ask side ask.now lane.now }
{
    match side {
        Side::First => match both_asks(ask, &lane.first) {
            Some(first) => Some(Lane {
                first,
                second: lane.second,
                pick: lane.pick,
            }),
            None => None,
        },
        Side::Second => match both_asks(ask, &lane.second) {
            Some(second) => Some(Lane {
                first: lane.first,
                second,
                pick: lane.pick,
            }),
            None => None,
        },
    }
}

/// A lane below that asks, too, what is asked above of a part that comes from a part below.
fn moved(source: Option<Side>, ask: &PartAsk, lane: &Lane) -> Option<Lane>
    ensures { result ≡ spec.moved source ask.now lane.now }
{
    match (source, ask) {
        (_, PartAsk::Any) => Some(*lane),
        (_, PartAsk::Nothing) => with_ask(Side::First, &PartAsk::Nothing, lane),
        (None, _) => None,
        (Some(side), _) => with_ask(side, ask, lane),
    }
}

/// A lane below that asks, too, what a lane above asks of both parts.
pub(crate) fn asks_moved(
    first: Option<Side>,
    second: Option<Side>,
    lane: &Lane,
    start: &Lane,
) -> Option<Lane>
    ensures { result ≡ spec.asks_moved first second lane.now start.now }
{
    match moved(first, &lane.first, start) {
        Some(below) => moved(second, &lane.second, &below),
        None => None,
    }
}

fn pick_moved(step: &Step, pick: Pick) -> Option<Pick>
    ensures { result ≡ spec.pick_moved step.now pick }
{
    match pick {
        Pick::Firsts(side, order) => match source_of(step, side) {
            Some(below) => Some(Pick::Firsts(below, order)),
            None => None,
        },
        Pick::Lasts(side) => match source_of(step, side) {
            Some(below) => Some(Pick::Lasts(below)),
            None => None,
        },
        Pick::Each | Pick::Run(_) => Some(pick),
    }
}

fn pick_turned(pick: Pick) -> Option<Pick>
    ensures { result ≡ spec.pick_turned pick }
{
    match pick {
        Pick::Each => Some(Pick::Each),
        Pick::Firsts(side, GroupOrder::ByFirst) => Some(Pick::Lasts(side)),
        Pick::Firsts(_, _) => None,
        Pick::Lasts(side) => Some(Pick::Firsts(side, GroupOrder::ByFirst)),
        Pick::Run(run) => Some(Pick::Run(Run {
            start: run.start,
            len: run.len,
            from_back: !run.from_back,
        })),
    }
}

fn with_pick(lane: &Lane, pick: Pick) -> Lane
    ensures { result ≡ spec.with_pick lane.now pick }
{
    Lane {
        first: lane.first,
        second: lane.second,
        pick,
    }
}

fn narrow_changed(step: &Step, lane: &Lane) -> Option<Lane>
    ensures { result ≡ spec.narrow_changed step.now lane.now }
{
    match pick_moved(step, lane.pick) {
        Some(pick) => asks_moved(
            source_of(step, Side::First),
            source_of(step, Side::Second),
            lane,
            &with_pick(&asking(PartAsk::Any, PartAsk::Any), pick),
        ),
        None => None,
    }
}

fn narrow_turned(lane: &Lane) -> Option<Lane>
    ensures { result ≡ spec.narrow_turned lane.now }
{
    match pick_turned(lane.pick) {
        Some(pick) => Some(with_pick(lane, pick)),
        None => None,
    }
}

/// A lane below, where each candidate is walked.
fn only_each(pick: Pick, below: Option<Lane>) -> Option<Lane>
    ensures { result ≡ spec.only_each pick below }
{
    match pick {
        Pick::Each => below,
        _ => None,
    }
}

/// What a lane asks below a step that leaves items out: what it asks above, and what the step asks.
pub(crate) fn cut_asks(step: &Step, lane: &Lane) -> Option<Lane>
    ensures { result ≡ spec.cut_asks step.now lane.now }
{
    let start = asked_by(step);
    let first = source_of(step, Side::First);
    let second = source_of(step, Side::Second);
    asks_moved(first, second, lane, &start)
}

fn narrow_cut(step: &Step, lane: &Lane) -> Option<Lane>
    ensures { result ≡ spec.narrow_cut step.now lane.now }
{
    only_each(lane.pick, cut_asks(step, lane))
}

fn narrow_grouped(order: GroupOrder, side: Side, lane: &Lane) -> Option<Lane>
    ensures { result ≡ spec.narrow_grouped order side lane.now }
{
    let start = with_pick(
        &asking(PartAsk::Any, PartAsk::Any),
        Pick::Firsts(side, order),
    );
    only_each(lane.pick, asks_moved(Some(side), Some(side), lane, &start))
}

/// A run of the view below that is what a pick takes of a sublist.
fn run_within(sublist: &Sublist, pick: Pick) -> Option<Run>
    requires fits { spec.StartFits pick sublist.now.start }
    ensures { result ≡ spec.run_within sublist.now pick }
{
    match pick {
        Pick::Each => Some(Run {
            start: sublist.start,
            len: sublist.len,
            from_back: false,
        }),
        Pick::Run(run) => {
            if run.from_back {
                None
            } else {
                let rest = sublist.len.saturating_sub(run.start);
                Some(Run {
                    start: run.start + sublist.start,
                    len: run.len.min(rest),
                    from_back: false,
                })
            }
        }
        _ => None,
    }
}

fn narrow_run(sublist: &Sublist, lane: &Lane) -> Option<Lane>
    requires fits { spec.StartFits lane.now.pick sublist.now.start }
    ensures { result ≡ spec.narrow_run sublist.now lane.now }
{
    match (lane.first, lane.second) {
        (PartAsk::Any, PartAsk::Any) => match run_within(sublist, lane.pick) {
            Some(run) => Some(with_pick(&asking(PartAsk::Any, PartAsk::Any), Pick::Run(run))),
            None => None,
        },
        _ => None,
    }
}

fn run_in(step: &Step) -> Sublist
    ensures { result ≡ run_of step.now }
{
    match step {
        Step::Sub(_, sublist) | Step::Piece(_, sublist) => *sublist,
        _ => Sublist {
            start: 0,
            len: 0,
            seen: 0,
        },
    }
}

/// The lane below a step that gives what the lane above it takes, where there is one, and where the step puts keys in
/// this order.
pub fn narrow(order: GroupOrder, step: &Step, lane: &Lane) -> Option<Lane>
    requires fits { spec.StartFits lane.now.pick (run_of step.now).start }
    ensures { result ≡ spec.narrow order step.now lane.now }
{
    match family_of(step) {
        Family::Same => Some(*lane),
        Family::Changed => narrow_changed(step, lane),
        Family::Turned => narrow_turned(lane),
        Family::Keyed => match order {
            GroupOrder::AsTheyCome => narrow_changed(step, lane),
            _ => None,
        },
        Family::Hidden => match lane.pick {
            Pick::Run(_) => None,
            _ => Some(*lane),
        },
        Family::Cut => narrow_cut(step, lane),
        Family::Grouped => narrow_grouped(order, side_of(step), lane),
        Family::Run => narrow_run(&run_in(step), lane),
        Family::Pieces => None,
    }
}

/// Whether a walk comes from the back below a step, where it does or does not above it.
pub fn flipped(step: &Step, back: bool) -> bool
    ensures { result ≡ spec.flipped step.now back }
{
    match family_of(step) {
        Family::Turned => !back,
        _ => back,
    }
}
