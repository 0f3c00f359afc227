//! The numbers of a range set as runs.
ghost use Rattle.std.specs.Prelude.{◌≡◌, ℕ, ◌^◌, ◌<◌, IfOk, is_some};
ghost use Rattle.range_base.specs.Rows.{cover};
ghost use Rattle.discrete_set.specs.Numbers.{unit_at};
ghost use Rattle.discrete_set.specs.Runs.{has};
ghost use Rattle.discrete_set.specs.Ranges.{IsRangeSet, rows_of};
ghost use Rattle.discrete_set.specs.Counted.{IsCounted, rows_of_runs};

use crate::numbers::numbers_below;
use crate::run::{Run, add_run};
use elem::{NoMemory, Span};
use std::alloc::Global;

/// The runs of the numbers in the ranges.
pub fn joined(alloc: Global, ranges: &[Span]) -> Result<Vec<Run>, NoMemory>
    requires { IsRangeSet ranges.now }
    ensures counted { IfOk result (λ runs. IsCounted 0 0 runs.items) }
    ensures members { IfOk result (λ runs. (n : ℕ) → n < 2 ^ 64 → has (rows_of_runs runs.items) n ≡ is_some (cover (rows_of ranges.now) (unit_at n))) }
{
    let mut runs = Vec::new(alloc);
    for range in ranges {
        let (lo, hi) = range.places();
        add_run(&mut runs, numbers_below(lo), numbers_below(hi))?;
    }
    Ok(runs)
}
