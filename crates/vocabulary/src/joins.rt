//! The table of steps with another view.
ghost use Rattle.std.specs.Prelude.{◌≡◌, ◌≤◌};
ghost use Rattle.vocabulary.specs.Joins as spec;
ghost use Rattle.vocabulary.specs.Limits.{most_count};

use crate::{JoinFamily, JoinStep};

/// The family of a step.
pub fn join_family(step: JoinStep) -> JoinFamily
    ensures { result ≡ spec.join_family step }
{
    match step {
        JoinStep::Union | JoinStep::SymmetricDifference => JoinFamily::Joined,
        JoinStep::Intersection | JoinStep::Difference => JoinFamily::Hidden,
        _ => JoinFamily::Counted,
    }
}

/// Whether an item of the first stays seen, which the second shows or not.
pub fn stays(step: JoinStep, shown: bool) -> bool
    ensures { result ≡ spec.stays step shown }
{
    match step {
        JoinStep::Intersection => shown,
        JoinStep::Difference | JoinStep::SymmetricDifference => !shown,
        _ => true,
    }
}

/// How many candidates of an element are seen, where some are in the first and so many in the second.
pub fn count_in(step: JoinStep, first: u32, second: u32) -> u32
    requires first { first ≤ most_count }
    requires second { second ≤ most_count }
    ensures { result ≡ spec.count_in step first second }
{
    match step {
        JoinStep::BagUnion => first.max(second),
        JoinStep::BagSum => (first + second).min(2147483647),
        JoinStep::BagIntersection => first.min(second),
        JoinStep::BagDifference => first.saturating_sub(second),
        _ => first,
    }
}

/// Whether the elements of the second come, too.
pub fn has_second(step: JoinStep) -> bool
    ensures { result ≡ spec.has_second step }
{
    matches!(step, JoinStep::BagUnion | JoinStep::BagSum)
}
