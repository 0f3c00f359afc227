ghost use Rattle.std.specs.Prelude.{◌≡◌, ◌↔◌, ℕ, ⊤, false, length, List, [], Some, None, IsTrue, IfOk, IfSome, OnOk, OnErr};
ghost use Rattle.std.specs.Option.{option_map};
ghost use Rattle.elem.specs.Cuts.{IsWholeCut};
ghost use Rattle.elem.specs.Places.{place};
ghost use Rattle.elem.specs.Spans.{IsSpan, IsWhole};
ghost use Rattle.range_base.specs.Edits.{add, cut_out};
ghost use Rattle.range_base.specs.Ends.{IsSetRows, IsShowable};
ghost use Rattle.range_base.specs.Reads.{at, first_after, first_row, last_up_to};
ghost use Rattle.range_base.specs.Rows.{CoverChanges, IsApart, IsMaximalRun, Row, cover, part as part_of};
ghost use Rattle.range_base.specs.Spans.{row_of_span};

use crate::edits::{cut_rows, put_rows};
use crate::part::Part;
use crate::reads::{end_at, first_row, overlaps, row_after, row_up_to, start_at};
use elem::{Cut, NoMemory, Span};
use std::alloc::Global;
use std::collections::BTreeMap;
use std::marker::Model;

/// The ranges of a range set, as `RangeRows`, with no count of steps.
#[derive(Drop)]
pub struct FreeRangeRows {
    rows: BTreeMap<u128, Part<()>>,
}

impl Model for FreeRangeRows {
    ghost use Rattle.std.specs.Prelude.{List, ⊤};
    ghost use Rattle.range_base.specs.Rows.{Row};
    ghost use Rattle.range_base.specs.Ends.{IsSetRows};

    ghost Value = { List (Row ⊤) };

    ghost view = { λ s. s.rows.entries };

    ghost invariant = { λ s. IsSetRows s.rows.entries };
}

/// Whether a row stands there with these places.
fn is_row(rows: &BTreeMap<u128, Part<()>>, lo: u128, hi: u128) -> bool
    ensures { IsTrue result ↔ (at lo rows.now.entries ≡ Some (part_of hi tt)) }
{
    match rows.get(&lo) {
        Some(part) => part.end == hi,
        None => false,
    }
}

/// A row as a range.
fn shown(row: Option<(u128, Part<()>)>) -> Option<Span>
    requires { IfSome row IsShowable }
    ensures row { option_map row_of_span result ≡ row }
    ensures whole { IfSome result IsWhole }
    ensures span { IfSome result IsSpan }
{
    match row {
        Some((start, part)) => Some(Span::at(start, part.end)),
        None => None,
    }
}

impl FreeRangeRows {
    /// No rows.
    pub fn new(alloc: Global) -> FreeRangeRows
        ensures { result ≡ [] }
    {
        FreeRangeRows {
            rows: BTreeMap::new(alloc),
        }
    }

    /// The number of rows.
    pub fn len(&self) -> usize
        ensures len { result ≡ length self.now }
        ensures valid { IsSetRows self.now }
    {
        self.rows.len()
    }

    /// The same rows beside these.
    pub fn copy(&self) -> Result<FreeRangeRows, NoMemory>
        ensures { IfOk result (λ rows. rows ≡ self.now) }
    {
        match self.rows.clone() {
            Ok(rows) => Ok(FreeRangeRows { rows }),
            Err(_) => Err(NoMemory),
        }
    }

    /// Adds a range: what it touches becomes one row with it. The answer is whether the rows differ.
    pub fn add(&mut self, s: &Span) -> Result<bool, NoMemory>
        requires { IsWhole s.now }
        ensures ok { OnOk result (self.new ≡ add (place s.now.lo) (place s.now.hi) tt self.old) }
        ensures units { OnOk result (CoverChanges (place s.now.lo) (place s.now.hi) (Some tt) self.old self.new) }
        ensures err { OnErr result (self.new ≡ self.old) }
        ensures changed { IfOk result (λ b. (b ≡ false) ↔ (self.new ≡ self.old)) }
    {
        let (lo, hi) = s.places();
        if lo == hi {
            return Ok(false);
        }
        let start = start_at(&self.rows, lo);
        let end = end_at(&self.rows, hi);
        if is_row(&self.rows, start, end) {
            return Ok(false);
        }
        put_rows(&mut self.rows, start, end, ())?;
        Ok(true)
    }

    /// Takes a range from every row. The answer is whether the rows differ.
    pub fn cut_out(&mut self, s: &Span) -> Result<bool, NoMemory>
        requires { IsWhole s.now }
        ensures ok { OnOk result (self.new ≡ cut_out (place s.now.lo) (place s.now.hi) self.old) }
        ensures units { OnOk result (CoverChanges (place s.now.lo) (place s.now.hi) None self.old self.new) }
        ensures err { OnErr result (self.new ≡ self.old) }
        ensures changed { IfOk result (λ b. (b ≡ false) ↔ (self.new ≡ self.old)) }
    {
        let (lo, hi) = s.places();
        if lo == hi || !overlaps(&self.rows, lo, hi) {
            return Ok(false);
        }
        cut_rows(&mut self.rows, lo, hi)?;
        Ok(true)
    }

    /// The row whose lower cut is the greatest at or below a cut.
    pub fn probe(&self, c: &Cut) -> Option<Span>
        requires { IsWholeCut c.now }
        ensures row { option_map row_of_span result ≡ last_up_to (place c.now) self.now }
        ensures whole { IfSome result IsWhole }
        ensures span { IfSome result IsSpan }
    {
        shown(row_up_to(&self.rows, c.place()))
    }

    /// The first row.
    pub fn first(&self) -> Option<Span>
        ensures row { option_map row_of_span result ≡ first_row self.now }
        ensures whole { IfSome result IsWhole }
        ensures span { IfSome result IsSpan }
    {
        shown(first_row(&self.rows))
    }

    /// The row after a row: the first that begins after its lower cut.
    pub fn after(&self, s: &Span) -> Option<Span>
        requires { IsWhole s.now }
        ensures row { option_map row_of_span result ≡ first_after (place s.now.lo) self.now }
        ensures whole { IfSome result IsWhole }
        ensures span { IfSome result IsSpan }
    {
        shown(row_after(&self.rows, s.lo.place()))
    }

    /// The rows are the longest runs of the units that they cover, and no other rows that are apart cover the same.
    pub fn runs_law(&self)
        ensures runs { (lo : ℕ) (hi : ℕ) → at lo self.now ≡ Some (part_of hi tt) → IsMaximalRun self.now (lo, part_of hi tt) }
        ensures told { (rows : List (Row ⊤)) → IsApart rows → ((u : ℕ) → cover rows u ≡ cover self.now u) → rows ≡ self.now }
    {
        let _ = &self.rows;
    }
}
