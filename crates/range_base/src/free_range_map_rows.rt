ghost use Rattle.std.specs.Prelude.{◌≡◌, ◌↔◌, false, length, [], Some, None, IsTrue, IfOk, IfSome, OnOk, OnErr};
ghost use Rattle.std.specs.Option.{option_map};
ghost use Rattle.elem.specs.Cuts.{IsWholeCut};
ghost use Rattle.elem.specs.Places.{place};
ghost use Rattle.elem.specs.Spans.{IsSpan, IsWhole};
ghost use Rattle.range_base.specs.Edits.{cut_out, put};
ghost use Rattle.range_base.specs.Ends.{IsMapRows, IsShowable};
ghost use Rattle.range_base.specs.Reads.{at, first_after, first_row, last_up_to};
ghost use Rattle.range_base.specs.Rows.{CoverChanges, part as part_of};
ghost use Rattle.range_base.specs.Spans.{row_of_entry};

use crate::edits::{cut_rows, put_rows};
use crate::part::Part;
use crate::reads::{first_row, overlaps, row_after, row_up_to};
use elem::{Cut, Elem, NoMemory, Span, same};
use std::alloc::Global;
use std::collections::BTreeMap;
use std::marker::Model;

/// The ranges of a range map, as `RangeMapRows`, with no count of steps.
#[derive(Drop)]
pub struct FreeRangeMapRows {
    rows: BTreeMap<u128, Part<Elem>>,
}

impl Model for FreeRangeMapRows {
    ghost use Rattle.std.specs.Prelude.{List};
    ghost use Rattle.elem.specs.declared.elements.Elem.{Elem as Element};
    ghost use Rattle.range_base.specs.Rows.{Row};
    ghost use Rattle.range_base.specs.Ends.{IsMapRows};

    ghost Value = { List (Row Element) };

    ghost view = { λ s. s.rows.entries };

    ghost invariant = { λ s. IsMapRows s.rows.entries };
}

/// Whether a row stands there with these places and this value.
fn is_row(rows: &BTreeMap<u128, Part<Elem>>, lo: u128, hi: u128, value: &Elem) -> bool
    ensures { IsTrue result ↔ (at lo rows.now.entries ≡ Some (part_of hi value.now)) }
{
    match rows.get(&lo) {
        Some(part) => part.end == hi && same(&part.value, value),
        None => false,
    }
}

/// A row as a range and its value.
fn shown(row: Option<(u128, Part<Elem>)>) -> Option<(Span, Elem)>
    requires { IfSome row IsShowable }
    ensures row { option_map row_of_entry result ≡ row }
    ensures whole { IfSome result (λ t. IsWhole t.0) }
    ensures span { IfSome result (λ t. IsSpan t.0) }
{
    match row {
        Some((start, part)) => Some((Span::at(start, part.end), part.value)),
        None => None,
    }
}

impl FreeRangeMapRows {
    /// No rows.
    pub fn new(alloc: Global) -> FreeRangeMapRows
        ensures { result ≡ [] }
    {
        FreeRangeMapRows {
            rows: BTreeMap::new(alloc),
        }
    }

    /// The number of rows.
    pub fn len(&self) -> usize
        ensures len { result ≡ length self.now }
        ensures valid { IsMapRows self.now }
    {
        self.rows.len()
    }

    /// The same rows beside these.
    pub fn copy(&self) -> Result<FreeRangeMapRows, NoMemory>
        ensures { IfOk result (λ rows. rows ≡ self.now) }
    {
        match self.rows.clone() {
            Ok(rows) => Ok(FreeRangeMapRows { rows }),
            Err(_) => Err(NoMemory),
        }
    }

    /// Gives the units of a range a value, in a row of its own. The answer is whether the rows differ.
    pub fn put(&mut self, s: &Span, v: Elem) -> Result<bool, NoMemory>
        requires { IsWhole s.now }
        ensures ok { OnOk result (self.new ≡ put (place s.now.lo) (place s.now.hi) v self.old) }
        ensures units { OnOk result (CoverChanges (place s.now.lo) (place s.now.hi) (Some v) self.old self.new) }
        ensures err { OnErr result (self.new ≡ self.old) }
        ensures changed { IfOk result (λ b. (b ≡ false) ↔ (self.new ≡ self.old)) }
    {
        let (lo, hi) = s.places();
        if lo == hi {
            return Ok(false);
        }
        if is_row(&self.rows, lo, hi, &v) {
            return Ok(false);
        }
        put_rows(&mut self.rows, lo, hi, v)?;
        Ok(true)
    }

    /// Takes a range from every row. The answer is whether the rows differ.
    pub fn cut_out(&mut self, s: &Span) -> Result<bool, NoMemory>
        requires { IsWhole s.now }
        ensures ok { OnOk result (self.new ≡ cut_out (place s.now.lo) (place s.now.hi) self.old) }
        ensures units { OnOk result (CoverChanges (place s.now.lo) (place s.now.hi) None self.old self.new) }
        ensures err { OnErr result (self.new ≡ self.old) }
        ensures changed { IfOk result (λ b. (b ≡ false) ↔ (self.new ≡ self.old)) }
    {
        let (lo, hi) = s.places();
        if lo == hi || !overlaps(&self.rows, lo, hi) {
            return Ok(false);
        }
        cut_rows(&mut self.rows, lo, hi)?;
        Ok(true)
    }

    /// The row whose lower cut is the greatest at or below a cut.
    pub fn probe(&self, c: &Cut) -> Option<(Span, Elem)>
        requires { IsWholeCut c.now }
        ensures row { option_map row_of_entry result ≡ last_up_to (place c.now) self.now }
        ensures whole { IfSome result (λ t. IsWhole t.0) }
        ensures span { IfSome result (λ t. IsSpan t.0) }
    {
        shown(row_up_to(&self.rows, c.place()))
    }

    /// The first row.
    pub fn first(&self) -> Option<(Span, Elem)>
        ensures row { option_map row_of_entry result ≡ first_row self.now }
        ensures whole { IfSome result (λ t. IsWhole t.0) }
        ensures span { IfSome result (λ t. IsSpan t.0) }
    {
        shown(first_row(&self.rows))
    }

    /// The row after a row: the first that begins after its lower cut.
    pub fn after(&self, s: &Span) -> Option<(Span, Elem)>
        requires { IsWhole s.now }
        ensures row { option_map row_of_entry result ≡ first_after (place s.now.lo) self.now }
        ensures whole { IfSome result (λ t. IsWhole t.0) }
        ensures span { IfSome result (λ t. IsSpan t.0) }
    {
        shown(row_after(&self.rows, s.lo.place()))
    }
}
