//! Runs as ranges.
ghost use Rattle.std.specs.Prelude.{◌≡◌, ◌^◌, ◌<◌};
ghost use Rattle.discrete_set.specs.Counted.{row_of};
ghost use Rattle.discrete_set.specs.Ranges.{canonical, closed};

use crate::numbers::number_at;
use crate::run::Run;
use elem::{Cut, Elem, Span};

/// The range from the first number of a run to the last.
pub fn closed_range(run: &Run) -> Span
    ensures { result ≡ closed (row_of run.now) }
{
    Span {
        lo: Cut::Below(Elem::Int(number_at(run.first))),
        hi: Cut::Above(Elem::Int(number_at(run.last))),
    }
}

/// The range from the first number of a run to the number just above the last, or to the end where there is none.
pub fn canonical_range(run: &Run) -> Span
    ensures { result ≡ canonical (row_of run.now) }
{
    Span {
        lo: Cut::Below(Elem::Int(number_at(run.first))),
        hi: if run.last == u64::MAX {
            Cut::End
        } else {
            Cut::Below(Elem::Int(number_at(run.last + 1)))
        },
    }
}
