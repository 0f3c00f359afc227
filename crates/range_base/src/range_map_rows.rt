ghost use Rattle.std.specs.Prelude.{◌≡◌, ◌↔◌, ◌+◌, false, length, [], Some, None, IfOk, IfSome, OnOk, OnErr};
ghost use Rattle.std.specs.Option.{option_map};
ghost use Rattle.elem.specs.Cuts.{IsWholeCut};
ghost use Rattle.elem.specs.Places.{place};
ghost use Rattle.elem.specs.Spans.{IsSpan, IsWhole};
ghost use Rattle.range_base.specs.Edits.{cut_out, put};
ghost use Rattle.range_base.specs.Ends.{IsMapRows};
ghost use Rattle.range_base.specs.Reads.{first_after, first_row, last_up_to};
ghost use Rattle.range_base.specs.Rows.{CoverChanges};
ghost use Rattle.range_base.specs.Spans.{row_of_entry};

use crate::FreeRangeMapRows;
use elem::{Cut, Elem, NoMemory, Span, Steps};
use std::alloc::Global;
use std::marker::Model;
use std::sync::ledger::Ledger;

/// The ranges of a range map and their values, in order: Guava's `TreeRangeMap` of whole numbers.
///
/// `put` takes the range from every row first and joins nothing. Each call that takes `steps` counts one. Only `put`
/// and `cut_out` take memory, and where they find none the rows are as before.
#[derive(Drop)]
pub struct RangeMapRows {
    free: FreeRangeMapRows,
}

impl Model for RangeMapRows {
    ghost use Rattle.std.specs.Prelude.{List};
    ghost use Rattle.elem.specs.declared.elements.Elem.{Elem as Element};
    ghost use Rattle.range_base.specs.Rows.{Row};

    ghost Value = { List (Row Element) };

    ghost view = { λ s. s.free };
}

impl RangeMapRows {
    /// No rows.
    pub fn new(alloc: Global) -> RangeMapRows
        ensures { result ≡ [] }
    {
        RangeMapRows {
            free: FreeRangeMapRows::new(alloc),
        }
    }

    /// The number of rows.
    pub fn len(&self) -> usize
        ensures len { result ≡ length self.now }
        ensures valid { IsMapRows self.now }
    {
        self.free.len()
    }

    /// The same rows beside these.
    pub fn copy(&self) -> Result<RangeMapRows, NoMemory>
        ensures { IfOk result (λ rows. rows ≡ self.now) }
    {
        Ok(RangeMapRows {
            free: self.free.copy()?,
        })
    }

    /// Gives the units of a range a value, in a row of its own. The answer is whether the rows differ.
    pub fn put<L: Ledger>(
        &mut self,
        s: &Span,
        v: Elem,
        steps: &mut Steps<L>,
    ) -> Result<bool, NoMemory>
        requires { IsWhole s.now }
        ensures ok { OnOk result (self.new ≡ put (place s.now.lo) (place s.now.hi) v self.old) }
        ensures units { OnOk result (CoverChanges (place s.now.lo) (place s.now.hi) (Some v) self.old self.new) }
        ensures err { OnErr result (self.new ≡ self.old) }
        ensures changed { IfOk result (λ b. (b ≡ false) ↔ (self.new ≡ self.old)) }
        ensures step { steps.new ≡ steps.old + 1 }
    {
        steps.tick();
        self.free.put(s, v)
    }

    /// Takes a range from every row. The answer is whether the rows differ.
    pub fn cut_out<L: Ledger>(&mut self, s: &Span, steps: &mut Steps<L>) -> Result<bool, NoMemory>
        requires { IsWhole s.now }
        ensures ok { OnOk result (self.new ≡ cut_out (place s.now.lo) (place s.now.hi) self.old) }
        ensures units { OnOk result (CoverChanges (place s.now.lo) (place s.now.hi) None self.old self.new) }
        ensures err { OnErr result (self.new ≡ self.old) }
        ensures changed { IfOk result (λ b. (b ≡ false) ↔ (self.new ≡ self.old)) }
        ensures step { steps.new ≡ steps.old + 1 }
    {
        steps.tick();
        self.free.cut_out(s)
    }

    /// The row whose lower cut is the greatest at or below a cut.
    pub fn probe<L: Ledger>(&self, c: &Cut, steps: &mut Steps<L>) -> Option<(Span, Elem)>
        requires { IsWholeCut c.now }
        ensures row { option_map row_of_entry result ≡ last_up_to (place c.now) self.now }
        ensures whole { IfSome result (λ t. IsWhole t.0) }
        ensures span { IfSome result (λ t. IsSpan t.0) }
        ensures step { steps.new ≡ steps.old + 1 }
    {
        steps.tick();
        self.free.probe(c)
    }

    /// The first row.
    pub fn first<L: Ledger>(&self, steps: &mut Steps<L>) -> Option<(Span, Elem)>
        ensures row { option_map row_of_entry result ≡ first_row self.now }
        ensures whole { IfSome result (λ t. IsWhole t.0) }
        ensures span { IfSome result (λ t. IsSpan t.0) }
        ensures step { steps.new ≡ steps.old + 1 }
    {
        steps.tick();
        self.free.first()
    }

    /// The row after a row: the first that begins after its lower cut.
    pub fn after<L: Ledger>(&self, s: &Span, steps: &mut Steps<L>) -> Option<(Span, Elem)>
        requires { IsWhole s.now }
        ensures row { option_map row_of_entry result ≡ first_after (place s.now.lo) self.now }
        ensures whole { IfSome result (λ t. IsWhole t.0) }
        ensures span { IfSome result (λ t. IsSpan t.0) }
        ensures step { steps.new ≡ steps.old + 1 }
    {
        steps.tick();
        self.free.after(s)
    }
}
