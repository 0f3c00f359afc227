ghost use Rattle.std.specs.Prelude.{◌≡◌, ◌↔◌, ◌+◌, ℕ, ⊤, false, length, List, [], Some, None, IfOk, IfSome, OnOk, OnErr};
ghost use Rattle.std.specs.Option.{option_map};
ghost use Rattle.elem.specs.Cuts.{IsWholeCut};
ghost use Rattle.elem.specs.Places.{place};
ghost use Rattle.elem.specs.Spans.{IsSpan, IsWhole};
ghost use Rattle.range_base.specs.Edits.{add, cut_out};
ghost use Rattle.range_base.specs.Ends.{IsSetRows};
ghost use Rattle.range_base.specs.Reads.{at, first_after, first_row, last_up_to};
ghost use Rattle.range_base.specs.Rows.{CoverChanges, IsApart, IsMaximalRun, Row, cover, part as part_of};
ghost use Rattle.range_base.specs.Spans.{row_of_span};

use crate::FreeRangeRows;
use elem::{Cut, NoMemory, Span, Steps};
use std::alloc::Global;
use std::marker::Model;
use std::sync::ledger::Ledger;

/// The ranges of a range set, in order: Guava's `TreeRangeSet` of whole numbers.
///
/// Ranges that touch are one row, so `[1..3]` and `(3..6]` are `[1..6]`; `[1..3]` and `[4..6]` stay apart, since the gap
/// `(3..4)` between them is not covered. Each call that takes `steps` counts one. Only `add` and `cut_out` take
/// memory, and where they find none the rows are as before.
#[derive(Drop)]
pub struct RangeRows {
    free: FreeRangeRows,
}

impl Model for RangeRows {
    ghost use Rattle.std.specs.Prelude.{List, ⊤};
    ghost use Rattle.range_base.specs.Rows.{Row};

    ghost Value = { List (Row ⊤) };

    ghost view = { λ s. s.free };
}

impl RangeRows {
    /// No rows.
    pub fn new(alloc: Global) -> RangeRows
        ensures { result ≡ [] }
    {
        RangeRows {
            free: FreeRangeRows::new(alloc),
        }
    }

    /// The number of rows.
    pub fn len(&self) -> usize
        ensures len { result ≡ length self.now }
        ensures valid { IsSetRows self.now }
    {
        self.free.len()
    }

    /// The same rows beside these.
    pub fn copy(&self) -> Result<RangeRows, NoMemory>
        ensures { IfOk result (λ rows. rows ≡ self.now) }
    {
        Ok(RangeRows {
            free: self.free.copy()?,
        })
    }

    /// Adds a range: what it touches becomes one row with it. The answer is whether the rows differ.
    pub fn add<L: Ledger>(&mut self, s: &Span, steps: &mut Steps<L>) -> Result<bool, NoMemory>
        requires { IsWhole s.now }
        ensures ok { OnOk result (self.new ≡ add (place s.now.lo) (place s.now.hi) tt self.old) }
        ensures units { OnOk result (CoverChanges (place s.now.lo) (place s.now.hi) (Some tt) self.old self.new) }
        ensures err { OnErr result (self.new ≡ self.old) }
        ensures changed { IfOk result (λ b. (b ≡ false) ↔ (self.new ≡ self.old)) }
        ensures step { steps.new ≡ steps.old + 1 }
    {
        steps.tick();
        self.free.add(s)
    }

    /// Takes a range from every row. The answer is whether the rows differ.
    pub fn cut_out<L: Ledger>(&mut self, s: &Span, steps: &mut Steps<L>) -> Result<bool, NoMemory>
        requires { IsWhole s.now }
        ensures ok { OnOk result (self.new ≡ cut_out (place s.now.lo) (place s.now.hi) self.old) }
        ensures units { OnOk result (CoverChanges (place s.now.lo) (place s.now.hi) None self.old self.new) }
        ensures err { OnErr result (self.new ≡ self.old) }
        ensures changed { IfOk result (λ b. (b ≡ false) ↔ (self.new ≡ self.old)) }
        ensures step { steps.new ≡ steps.old + 1 }
    {
        steps.tick();
        self.free.cut_out(s)
    }

    /// The row whose lower cut is the greatest at or below a cut.
    pub fn probe<L: Ledger>(&self, c: &Cut, steps: &mut Steps<L>) -> Option<Span>
        requires { IsWholeCut c.now }
        ensures row { option_map row_of_span result ≡ last_up_to (place c.now) self.now }
        ensures whole { IfSome result IsWhole }
        ensures span { IfSome result IsSpan }
        ensures step { steps.new ≡ steps.old + 1 }
    {
        steps.tick();
        self.free.probe(c)
    }

    /// The first row.
    pub fn first<L: Ledger>(&self, steps: &mut Steps<L>) -> Option<Span>
        ensures row { option_map row_of_span result ≡ first_row self.now }
        ensures whole { IfSome result IsWhole }
        ensures span { IfSome result IsSpan }
        ensures step { steps.new ≡ steps.old + 1 }
    {
        steps.tick();
        self.free.first()
    }

    /// The row after a row: the first that begins after its lower cut.
    pub fn after<L: Ledger>(&self, s: &Span, steps: &mut Steps<L>) -> Option<Span>
        requires { IsWhole s.now }
        ensures row { option_map row_of_span result ≡ first_after (place s.now.lo) self.now }
        ensures whole { IfSome result IsWhole }
        ensures span { IfSome result IsSpan }
        ensures step { steps.new ≡ steps.old + 1 }
    {
        steps.tick();
        self.free.after(s)
    }

    /// The rows are the longest runs of the units that they cover, and no other rows that are apart cover the same.
    pub fn runs_law(&self)
        ensures runs { (lo : ℕ) (hi : ℕ) → at lo self.now ≡ Some (part_of hi tt) → IsMaximalRun self.now (lo, part_of hi tt) }
        ensures told { (rows : List (Row ⊤)) → IsApart rows → ((u : ℕ) → cover rows u ≡ cover self.now u) → rows ≡ self.now }
    {
        self.free.runs_law();
    }
}
