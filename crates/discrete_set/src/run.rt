//! A run of members, and lists of runs that grow at their end.
ghost use Rattle.std.specs.Prelude.{◌≡◌, ◌↔◌, ◌+◌, ◌-◌, ◌++◌, ◌∷◌, [], ◌^◌, ◌<◌, ◌≤◌, max, Some, OnOk, IsTrue, length};
ghost use Rattle.range_base.specs.Rows.{CoverChanges};
ghost use Rattle.discrete_set.specs.Counted.{IsCounted, next_start, rows_of_runs, total};

use elem::NoMemory;

/// Consecutive members: the ranks of the first and of the last, and the number of members before them.
#[derive(Clone, Copy, Debug)]
pub struct Run {
    pub first: u64,
    pub last: u64,
    pub before: u64,
}

/// The number of members.
pub fn members_of(runs: &[Run]) -> u128
    requires { IsCounted 0 0 runs.now }
    ensures { result ≡ total 0 runs.now }
{
    match runs.last() {
        Some(run) => u128::from(run.before) + u128::from(run.last - run.first) + 1,
        None => 0,
    }
}

/// Adds the numbers from one rank on and before another: to the last run where they follow it, else as a run of their
/// own.
pub fn add_run(runs: &mut Vec<Run>, first: u128, end: u128) -> Result<(), NoMemory>
    requires counted { IsCounted 0 0 runs.old.items }
    requires after { next_start 0 runs.old.items ≤ first + 1 }
    requires bound { end ≤ 2 ^ 64 }
    ensures counted { OnOk result (IsCounted 0 0 runs.new.items) }
    ensures after { OnOk result (next_start 0 runs.new.items ≤ max (next_start 0 runs.old.items) (end + 1)) }
    ensures units { OnOk result (CoverChanges first end (Some tt) (rows_of_runs runs.old.items) (rows_of_runs runs.new.items)) }
{
    if first >= end {
        return Ok(());
    }
    let last = (end - 1) as u64;
    if follows(runs, first) {
        extend_last(runs, last);
        return Ok(());
    }
    push_run(runs, first as u64, last)
}

/// Whether a rank is the one after the last run.
fn follows(runs: &[Run], rank: u128) -> bool
    requires { IsCounted 0 0 runs.now }
    ensures { IsTrue result ↔ (next_start 0 runs.now ≡ rank + 1) }
{
    match runs.last() {
        Some(run) => u128::from(run.last) + 1 == rank,
        None => false,
    }
}

/// Adds the numbers after the last run, up to a rank, to that run.
fn extend_last(runs: &mut Vec<Run>, last: u64)
    requires counted { IsCounted 0 0 runs.old.items }
    requires some { 0 < length runs.old.items }
    requires after { next_start 0 runs.old.items ≤ last + 1 }
    ensures counted { IsCounted 0 0 runs.new.items }
    ensures after { next_start 0 runs.new.items ≡ last + 2 }
    ensures units { CoverChanges (next_start 0 runs.old.items - 1) (last + 1) (Some tt) (rows_of_runs runs.old.items) (rows_of_runs runs.new.items) }
{
    let end = runs.len() - 1;
    runs[end].last = last;
}

/// Appends a run.
fn push_run(runs: &mut Vec<Run>, first: u64, last: u64) -> Result<(), NoMemory>
    requires counted { IsCounted 0 0 runs.old.items }
    requires after { next_start 0 runs.old.items ≤ first }
    ensures { OnOk result (runs.new.items ≡ runs.old.items ++ record { first = first; last = last; before = total 0 runs.old.items } ∷ []) }
{
    let before = members_of(runs) as u64;
    let run = Run {
        first,
        last,
        before,
    };
    match runs.push(run) {
        Ok(()) => Ok(()),
        Err(_) => Err(NoMemory),
    }
}
