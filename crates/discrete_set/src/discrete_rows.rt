ghost use Rattle.std.specs.Prelude.{◌≡◌, ◌↔◌, ℕ, ℤ, pos, ◌+◌, ◌-◌, ◌&&◌, ◌^◌, ◌≤◌, min, length, slice_get, [], true, FitsSigned, IfOk, IfNone, IfSome, IsNone};
ghost use Rattle.std.specs.Int.{w64};
ghost use Rattle.std.specs.Option.{option_map};
ghost use Rattle.elem.specs.declared.elements.Elem.TheVariants.{Int};
ghost use Rattle.elem.specs.Places.{place};
ghost use Rattle.elem.specs.Spans.{IsWhole, holds};
ghost use Rattle.discrete_set.specs.Numbers.{number, numbers_below, rank};
ghost use Rattle.discrete_set.specs.Runs.{AreRuns, IsItem, common, count_below, has, item, runs_of, within};
ghost use Rattle.discrete_set.specs.Ranges.{IsRangeSet, canonical, closed, is_member, rows_of};

use crate::joined::joined;
use crate::look_ups::{first_rank, holds, last_rank, rank_of_item};
use crate::merged::{merged, windowed};
use crate::numbers::{number_at, numbers_below, rank_of};
use crate::ranges::{canonical_range, closed_range};
use crate::run::{Run, members_of};
use elem::{NoMemory, Span, Steps};
use std::alloc::Global;
use std::marker::Model;
use std::sync::ledger::Ledger;

/// The greatest size that is told.
const MOST: u128 = 2147483647;

/// Whole numbers of 64 bits in rising order, which never change: Guava's `ContiguousSet`, with gaps.
///
/// It keeps runs of consecutive members, so a range takes the same room whatever it holds. `contains` and `item` are
/// binary searches over the runs; `of`, `within` and `intersection` take time in proportion to the ranges and runs; the
/// other calls take O(1). Each call that takes `steps` counts one. What makes a set copies, so neither set changes the
/// other, and `NoMemory` is its only error.
#[derive(Drop)]
pub struct DiscreteRows {
    runs: Vec<Run>,
}

impl Model for DiscreteRows {
    ghost use Rattle.std.specs.Prelude.{List, ⊤};
    ghost use Rattle.range_base.specs.Rows.{Row};
    ghost use Rattle.discrete_set.specs.Counted.{IsCounted, rows_of_runs};

    ghost Value = { List (Row ⊤) };

    ghost view = { λ s. rows_of_runs s.runs.items };

    ghost invariant = { λ s. IsCounted 0 0 s.runs.items };
}

impl DiscreteRows {
    /// The whole numbers in the ranges of a range set: Guava's `ImmutableRangeSet.asSet` over the domain of longs.
    pub fn of<L: Ledger>(
        alloc: Global,
        rows: &[Span],
        steps: &mut Steps<L>,
    ) -> Result<DiscreteRows, NoMemory>
        requires { IsRangeSet rows.now }
        ensures runs { IfOk result (λ set. set ≡ runs_of (rows_of rows.now)) }
        ensures members { IfOk result (λ set. (v : ℤ) → FitsSigned w64 v → has set (rank v) ≡ is_member rows.now v) }
        ensures step { steps.new ≡ steps.old + 1 }
    {
        steps.tick();
        Ok(DiscreteRows {
            runs: joined(alloc, rows)?,
        })
    }

    /// The number of runs.
    pub fn runs(&self) -> usize
        ensures len { result ≡ length self.now }
        ensures valid { AreRuns self.now }
    {
        self.runs.len()
    }

    /// Run number `i`, counted from 0, as the closed range from its least member to its greatest, or none where there is no
    /// such run.
    pub fn run_at<L: Ledger>(&self, i: usize, steps: &mut Steps<L>) -> Option<Span>
        ensures value { result ≡ option_map closed (slice_get self.now i) }
        ensures step { steps.new ≡ steps.old + 1 }
    {
        steps.tick();
        match self.runs.get(i) {
            Some(run) => Some(closed_range(run)),
            None => None,
        }
    }

    /// Run number `i` as a canonical range over the domain of longs, as Guava's `Range.canonical` gives it: from its least
    /// member to the number just above its greatest, which is left out, or without an upper end where there is no such number.
    pub fn canonical_at<L: Ledger>(&self, i: usize, steps: &mut Steps<L>) -> Option<Span>
        ensures value { result ≡ option_map canonical (slice_get self.now i) }
        ensures step { steps.new ≡ steps.old + 1 }
    {
        steps.tick();
        match self.runs.get(i) {
            Some(run) => Some(canonical_range(run)),
            None => None,
        }
    }

    /// Whether a number is a member.
    pub fn contains<L: Ledger>(&self, x: i64, steps: &mut Steps<L>) -> bool
        ensures value { result ≡ has self.now (rank x) }
        ensures step { steps.new ≡ steps.old + 1 }
    {
        steps.tick();
        holds(&self.runs, rank_of(x))
    }

    /// The number of members, which stops at 2147483647, as `Collection.size` does.
    pub fn size<L: Ledger>(&self, steps: &mut Steps<L>) -> i32
        ensures value { result ≡ pos (min (count_below self.now (2 ^ 64)) 2147483647) }
        ensures step { steps.new ≡ steps.old + 1 }
    {
        steps.tick();
        members_of(&self.runs).min(MOST) as i32
    }

    /// The least member, or none where there is no member.
    pub fn first<L: Ledger>(&self, steps: &mut Steps<L>) -> Option<i64>
        ensures value { result ≡ option_map number (item self.now 0) }
        ensures least { IfSome result (λ v. IsItem self.now 0 (rank v)) }
        ensures none { IsNone result ↔ (self.now ≡ []) }
        ensures step { steps.new ≡ steps.old + 1 }
    {
        steps.tick();
        numbered(first_rank(&self.runs))
    }

    /// The greatest member, or none where there is no member.
    pub fn last<L: Ledger>(&self, steps: &mut Steps<L>) -> Option<i64>
        ensures value { result ≡ option_map number (item self.now (count_below self.now (2 ^ 64) - 1)) }
        ensures greatest { IfSome result (λ v. IsItem self.now (count_below self.now (2 ^ 64) - 1) (rank v)) }
        ensures none { IsNone result ↔ (self.now ≡ []) }
        ensures step { steps.new ≡ steps.old + 1 }
    {
        steps.tick();
        numbered(last_rank(&self.runs))
    }

    /// The member below which exactly `i` members lie, or none where there are no more than `i`.
    pub fn item<L: Ledger>(&self, i: u64, steps: &mut Steps<L>) -> Option<i64>
        ensures value { result ≡ option_map number (item self.now i) }
        ensures member { IfSome result (λ v. IsItem self.now i (rank v)) }
        ensures none { IsNone result ↔ (count_below self.now (2 ^ 64) ≤ i) }
        ensures step { steps.new ≡ steps.old + 1 }
    {
        steps.tick();
        numbered(rank_of_item(&self.runs, i))
    }

    /// The members in a range: Guava's `ContiguousSet.subSet`.
    pub fn within<L: Ledger>(
        &self,
        alloc: Global,
        r: &Span,
        steps: &mut Steps<L>,
    ) -> Result<DiscreteRows, NoMemory>
        requires { IsWhole r.now }
        ensures runs { IfOk result (λ set. set ≡ within (numbers_below (place r.now.lo)) (numbers_below (place r.now.hi)) self.now) }
        ensures members { IfOk result (λ set. (v : ℤ) → FitsSigned w64 v → has set (rank v) ≡ has self.now (rank v) && holds r.now (Int v)) }
        ensures step { steps.new ≡ steps.old + 1 }
    {
        steps.tick();
        let first = numbers_below(r.lo.place());
        let end = numbers_below(r.hi.place());
        Ok(DiscreteRows {
            runs: windowed(alloc, &self.runs, first, end)?,
        })
    }

    /// The members of both sets: Guava's `ContiguousSet.intersection`.
    pub fn intersection<L: Ledger>(
        &self,
        alloc: Global,
        other: &DiscreteRows,
        steps: &mut Steps<L>,
    ) -> Result<DiscreteRows, NoMemory>
        ensures runs { IfOk result (λ set. set ≡ common self.now other.now) }
        ensures members { IfOk result (λ set. (n : ℕ) → has set n ≡ has self.now n && has other.now n) }
        ensures step { steps.new ≡ steps.old + 1 }
    {
        steps.tick();
        Ok(DiscreteRows {
            runs: merged(alloc, &self.runs, &other.runs)?,
        })
    }
}

/// A rank as its number.
fn numbered(rank: Option<u64>) -> Option<i64>
    ensures { result ≡ option_map number rank }
{
    match rank {
        Some(rank) => Some(number_at(rank)),
        None => None,
    }
}
