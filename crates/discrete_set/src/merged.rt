//! The members that two lists of runs have in common.
ghost use Rattle.std.specs.Prelude.{◌≡◌, ℕ, ◌&&◌, ◌^◌, ◌≤◌, IfOk};
ghost use Rattle.range_base.specs.Rows.{in_units};
ghost use Rattle.discrete_set.specs.Runs.{has};
ghost use Rattle.discrete_set.specs.Counted.{IsCounted, rows_of_runs};

use crate::run::{Run, add_run};
use elem::NoMemory;
use std::alloc::Global;

/// The runs of the common members.
pub fn merged(alloc: Global, runs: &[Run], others: &[Run]) -> Result<Vec<Run>, NoMemory>
    requires runs { IsCounted 0 0 runs.now }
    requires others { IsCounted 0 0 others.now }
    ensures counted { IfOk result (λ found. IsCounted 0 0 found.items) }
    ensures members { IfOk result (λ found. (n : ℕ) → has (rows_of_runs found.items) n ≡ has (rows_of_runs runs.now) n && has (rows_of_runs others.now) n) }
{
    let mut found = Vec::new(alloc);
    let mut i = 0;
    let mut j = 0;
    while i < runs.len() && j < others.len() {
        let (run, other) = (runs[i], others[j]);
        let first = run.first.max(other.first);
        let last = run.last.min(other.last);
        add_run(&mut found, u128::from(first), u128::from(last) + 1)?;
        if run.last <= other.last {
            i += 1;
        } else {
            j += 1;
        }
    }
    Ok(found)
}

/// The runs of the members from one rank on and before another.
pub fn windowed(alloc: Global, runs: &[Run], first: u128, end: u128) -> Result<Vec<Run>, NoMemory>
    requires runs { IsCounted 0 0 runs.now }
    requires bound { end ≤ 2 ^ 64 }
    ensures counted { IfOk result (λ found. IsCounted 0 0 found.items) }
    ensures members { IfOk result (λ found. (n : ℕ) → has (rows_of_runs found.items) n ≡ has (rows_of_runs runs.now) n && in_units first end n) }
{
    if first >= end {
        return Ok(Vec::new(alloc));
    }
    let window = Run {
        first: first as u64,
        last: (end - 1) as u64,
        before: 0,
    };
    merged(alloc, runs, &[window])
}
