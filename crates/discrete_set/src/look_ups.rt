//! Runs looked up by a rank and by a number of members.
ghost use Rattle.std.specs.Prelude.{◌≡◌, ◌-◌, ◌^◌};
ghost use Rattle.discrete_set.specs.Counted.{IsCounted, rows_of_runs};
ghost use Rattle.discrete_set.specs.Runs.{count_below, has, item};

use crate::run::Run;

/// Whether the number of a rank is a member.
pub fn holds(runs: &[Run], rank: u64) -> bool
    requires { IsCounted 0 0 runs.now }
    ensures { result ≡ has (rows_of_runs runs.now) rank }
{
    let after = runs.partition_point(|run| run.first <= rank);
    after > 0 && rank <= runs[after - 1].last
}

/// The rank of the member that comes after `i` others.
pub fn rank_of_item(runs: &[Run], i: u64) -> Option<u64>
    requires { IsCounted 0 0 runs.now }
    ensures { result ≡ item (rows_of_runs runs.now) i }
{
    let after = runs.partition_point(|run| run.before <= i);
    if after == 0 {
        return None;
    }
    let run = runs[after - 1];
    let skipped = i - run.before;
    if skipped <= run.last - run.first {
        Some(run.first + skipped)
    } else {
        None
    }
}

/// The rank of the first member.
pub fn first_rank(runs: &[Run]) -> Option<u64>
    requires { IsCounted 0 0 runs.now }
    ensures { result ≡ item (rows_of_runs runs.now) 0 }
{
    match runs.first() {
        Some(run) => Some(run.first),
        None => None,
    }
}

/// The rank of the last member.
pub fn last_rank(runs: &[Run]) -> Option<u64>
    requires { IsCounted 0 0 runs.now }
    ensures { result ≡ item (rows_of_runs runs.now) (count_below (rows_of_runs runs.now) (2 ^ 64) - 1) }
{
    match runs.last() {
        Some(run) => Some(run.last),
        None => None,
    }
}
