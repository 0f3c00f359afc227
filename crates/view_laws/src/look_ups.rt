//! What a look-up on a step over a view asks of that view, and which tests it decides.
ghost use Rattle.std.specs.Prelude.{◌≡◌, Bool, false};
ghost use Rattle.elem.specs.declared.elements.Elem.{Elem as AnElem};
ghost use Rattle.machine.specs.Candidates.{Candidate};
ghost use Rattle.std.specs.Prelude.{List};
ghost use Rattle.view_laws.specs.LookUps as spec;
ghost use Rattle.view_laws.specs.Places as places;
ghost use Rattle.vocabulary.specs.Steps.{family_of as family};

use crate::narrowing::{asking, asks_moved, cut_asks};
use crate::{Found, Lane, PartAsk, source_of};
use vocabulary::{Family, FilterStep, Side, Step, family_of, item_of, passes, side_of};

/// The parts that a look-up on a step asks of the view below, where that view alone tells.
pub fn look_below(step: &Step, lane: &Lane) -> Option<Lane>
    ensures { result ≡ spec.look_below step.now lane.now }
{
    let first = source_of(step, Side::First);
    let second = source_of(step, Side::Second);
    let side = Some(side_of(step));
    let all = asking(PartAsk::Any, PartAsk::Any);
    match family_of(step) {
        Family::Same | Family::Turned => Some(*lane),
        Family::Changed => asks_moved(first, second, lane, &all),
        Family::Cut => cut_asks(step, lane),
        Family::Grouped => asks_moved(side, side, lane, &all),
        Family::Keyed | Family::Hidden | Family::Run | Family::Pieces => None,
    }
}

/// Whether what is asked for passes a step that hides, where that tells.
pub fn decided(step: &Step, lane: &Lane) -> Option<bool>
    ensures { result ≡ spec.decided step.now lane.now }
{
    match step {
        Step::Filter(FilterStep::FilterKeys, p) => match lane.first {
            PartAsk::Is(k) => Some(p.eval(k)),
            _ => None,
        },
        Step::Filter(FilterStep::Filter | FilterStep::FilterValues, p) => match lane.second {
            PartAsk::Is(v) => Some(p.eval(v)),
            _ => None,
        },
        Step::FilterPairs(q) => match (lane.first, lane.second) {
            (PartAsk::Is(k), PartAsk::Is(v)) => Some(q.eval(k, v)),
            _ => None,
        },
        _ => Some(true),
    }
}

/// What a view by a step that makes no groups and no pieces has at a place, by what the view below has there.
pub fn found_over(step: &Step, found: &Found) -> Found
    requires single { places.makes_groups (family step.now) ≡ false }
    ensures { (cs : List Candidate) → result ≡ places.found_over (family step.now) step.now cs found.now }
{
    match family_of(step) {
        Family::Same | Family::Turned | Family::Run | Family::Grouped | Family::Pieces => *found,
        Family::Hidden => {
            let visible = passes(step, &found.item);
            Found {
                item: found.item,
                seen: found.seen && visible,
            }
        }
        Family::Changed | Family::Keyed | Family::Cut => Found {
            item: item_of(step, &found.item),
            seen: found.seen,
        },
    }
}
