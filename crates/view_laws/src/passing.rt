//! Lanes passed down a step in place.
ghost use Rattle.std.specs.Prelude.{◌≡◌, true, false, Some};
ghost use Rattle.view_laws.specs.ShapeNarrowing as spec;
ghost use Rattle.view_laws.specs.declared.lanes.GroupOrder.{GroupOrder as AnyOrder};
ghost use Rattle.view_laws.specs.declared.lanes.Lane.{Lane as AnyLane};
ghost use Rattle.view_laws.specs.declared.lanes.Pick.TheVariants as pick;
ghost use Rattle.vocabulary.specs.declared.shapes.Shape.{Shape as AnyShape};

use crate::{GroupOrder, Lane, Pick, narrow_on};
use vocabulary::{Family, Shape, Step, family_of};

/// Whether a step leaves each lane as it is that visits each candidate, whatever the view below it is.
pub fn leaves_lane(step: &Step) -> bool
    ensures { result ≡ true → (of : AnyShape) (order : AnyOrder) (lane : AnyLane) → lane.pick ≡ pick.Each → spec.narrow_on of order step.now lane ≡ Some lane }
{
    matches!(
        family_of(step),
        Family::Same | Family::Turned | Family::Hidden
    )
}

/// Makes of a lane that visits each candidate of a step over a view of a shape the lane of that view, and tells whether
/// there is one. Most steps leave the lane as it is.
pub fn pass_down(shape: Shape, order: GroupOrder, step: &Step, lane: &mut Lane) -> bool
    requires each { lane.old.pick ≡ pick.Each }
    ensures some { result ≡ true → spec.narrow_on shape order step.now lane.old ≡ Some lane.new }
    ensures none { result ≡ false → spec.narrow_on shape order step.now lane.old ≡ None }
{
    if leaves_lane(step) {
        return true;
    }
    match narrow_on(shape, order, step, lane) {
        Some(below) => {
            *lane = below;
            true
        }
        None => false,
    }
}
