//! The calls that change the count of one element.
ghost use Rattle.std.specs.Prelude.{◌≡◌, ◌≢◌, ◌↔◌, ◌⊎◌, ◌+◌, ◌-◌, ◌<◌, ◌≤◌, IsSome, IsOk, Err, IfOk, OnOk, OnErr};
ghost use Rattle.elem.specs.Keyed.{value_at};
ghost use Rattle.bag_base.specs.Counts.{most, count_of, with_count, SetsCount};

use crate::count_rows::{MOST, write_row};
use crate::{Bag, BagFault, CountRows};
use elem::{Elem, NoMemory, Steps};
use std::sync::ledger::Ledger;

impl<R: CountRows> Bag<R> {
    /// Adds an element `n` times, and tells its count before.
    pub fn add_n<L: Ledger>(
        &mut self,
        x: Elem,
        n: u32,
        steps: &mut Steps<L>,
    ) -> Result<u32, BagFault>
        requires { n ≤ most }
        ensures before { IfOk result (λ before. before ≡ count_of self.old x) }
        ensures rows { OnOk result (self.new ≡ with_count R.inserted self.old x (count_of self.old x + n)) }
        ensures counts { OnOk result (SetsCount self.old self.new x (count_of self.old x + n)) }
        ensures too_many { (result ≡ Err BagFault.TooMany) ↔ (most < count_of self.old x + n) }
        ensures err { OnErr result (self.new ≡ self.old) }
        ensures nothing { n ≡ 0 → self.new ≡ self.old }
        ensures step { steps.new ≡ steps.old + 1 }
    {
        steps.tick();
        let found = self.rows.probe(x);
        let before = found.unwrap_or(0);
        if before + n > MOST {
            return Err(BagFault::TooMany);
        }
        match self.write(&x, found, before + n) {
            Ok(()) => Ok(before),
            Err(_) => Err(BagFault::NoMemory),
        }
    }

    /// Removes an element `n` times, or as often as it is there, and tells its count before.
    pub fn remove_n<L: Ledger>(&mut self, x: Elem, n: u32, steps: &mut Steps<L>) -> u32
        requires { n ≤ most }
        ensures before { result ≡ count_of self.old x }
        ensures rows { self.new ≡ with_count R.inserted self.old x (count_of self.old x - n) }
        ensures counts { SetsCount self.old self.new x (count_of self.old x - n) }
        ensures step { steps.new ≡ steps.old + 1 }
    {
        steps.tick();
        let found = self.rows.probe(x);
        let before = found.unwrap_or(0);
        let _written = self.write(&x, found, before.saturating_sub(n));
        before
    }

    /// Gives an element the count `n`, and tells the one before. The fault is never `TooMany`.
    pub fn set_count<L: Ledger>(
        &mut self,
        x: Elem,
        n: u32,
        steps: &mut Steps<L>,
    ) -> Result<u32, BagFault>
        requires { n ≤ most }
        ensures before { IfOk result (λ before. before ≡ count_of self.old x) }
        ensures rows { OnOk result (self.new ≡ with_count R.inserted self.old x n) }
        ensures counts { OnOk result (SetsCount self.old self.new x n) }
        ensures never { result ≢ Err BagFault.TooMany }
        ensures err { OnErr result (self.new ≡ self.old) }
        ensures step { steps.new ≡ steps.old + 1 }
    {
        steps.tick();
        let found = self.rows.probe(x);
        match self.write(&x, found, n) {
            Ok(()) => Ok(found.unwrap_or(0)),
            Err(_) => Err(BagFault::NoMemory),
        }
    }

    /// Writes the count of an element, of which the count before was found.
    fn write(&mut self, x: &Elem, found: Option<u32>, n: u32) -> Result<(), NoMemory>
        requires found { found ≡ value_at self.old x.now }
        requires most { n ≤ most }
        ensures rows { OnOk result (self.new ≡ with_count R.inserted self.old x.now n) }
        ensures counts { OnOk result (SetsCount self.old self.new x.now n) }
        ensures err { OnErr result (self.new ≡ self.old) }
        ensures fits { (n ≡ 0) ⊎ IsSome found → IsOk result }
    {
        let _rows = self.rows.len();
        let before = found.unwrap_or(0);
        write_row(&mut self.rows, x, found.is_some(), n)?;
        self.total = self.total - u128::from(before) + u128::from(n);
        Ok(())
    }
}
