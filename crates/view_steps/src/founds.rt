//! What a view makes of a row, step by step in place.
ghost use Rattle.std.specs.Prelude.{◌≡◌};
ghost use Rattle.view_steps.specs.Founds as spec;
ghost use Rattle.view_steps.specs.Turning as views;

use view_laws::Found;
use vocabulary::{Family, PlainStep, Step, family_of, item_of, passes};

/// Makes of what a view has of a row what a view by a known step over it has of that row.
pub fn raise(step: &Step, found: &mut Found)
    ensures { found.new ≡ spec.found_above step.now found.old }
{
    match family_of(step) {
        Family::Changed | Family::Cut => found.item = item_of(step, &found.item),
        Family::Hidden => found.seen = found.seen && passes(step, &found.item),
        _ => {}
    }
}

/// Whether a step turns the walk round.
pub fn turns(step: &Step) -> bool
    ensures { result ≡ views.turns step.now }
{
    matches!(
        step,
        Step::Plain(PlainStep::Reverse | PlainStep::Descending)
    )
}
