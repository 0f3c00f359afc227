//! Pairs put from either side.
ghost use Rattle.std.specs.Prelude.{◌≡◌, ◌↔◌, ◌+◌, Some, Ok, Err, IfOk, OnOk, OnErr};
ghost use Rattle.elem.specs.Keyed.{value_at};
ghost use Rattle.bimap_base.specs.declared.bi_fault.BiFault.TheVariants.{Bound};
ghost use Rattle.bimap_base.specs.Pairs.{turned, key_of, IsBound, freed, with_pair};

use super::PairRows;
use crate::BiFault;
use crate::key_index::key_of;
use crate::puts::{flip_put_pair, put_pair};
use elem::{Elem, NoMemory, Steps};
use std::sync::ledger::Ledger;

impl PairRows {
    /// Gives a key a value, and tells the one before. The pair of a key that is there keeps its place.
    pub fn put<L: Ledger>(
        &mut self,
        k: Elem,
        v: Elem,
        steps: &mut Steps<L>,
    ) -> Result<Option<Elem>, BiFault>
        ensures answer { IfOk result (λ before. before ≡ value_at self.old k) }
        ensures rows { OnOk result (self.new ≡ with_pair self.old k v) }
        ensures same { value_at self.old k ≡ Some v → (result ≡ Ok (Some v)) × (self.new ≡ self.old) }
        ensures bound { (result ≡ Err Bound) ↔ IsBound self.old k v }
        ensures err { OnErr result (self.new ≡ self.old) }
        ensures step { steps.new ≡ steps.old + 1 }
    {
        steps.tick();
        let _len = self.rows.len();
        let holder = key_of(&self.keys, &v);
        if holder == Some(k) {
            return Ok(Some(v));
        }
        if holder.is_some() {
            return Err(BiFault::Bound);
        }
        let Ok(before) = put_pair(&mut self.rows, &mut self.keys, &k, &v) else {
            return Err(BiFault::NoMemory);
        };
        Ok(before)
    }

    /// Gives a key a value, and tells the one before. The pair of another key that has the value goes.
    pub fn force_put<L: Ledger>(
        &mut self,
        k: Elem,
        v: Elem,
        steps: &mut Steps<L>,
    ) -> Result<Option<Elem>, NoMemory>
        ensures answer { IfOk result (λ before. before ≡ value_at self.old k) }
        ensures rows { OnOk result (self.new ≡ with_pair (freed self.old k v) k v) }
        ensures same { value_at self.old k ≡ Some v → (result ≡ Ok (Some v)) × (self.new ≡ self.old) }
        ensures err { OnErr result (self.new ≡ self.old) }
        ensures step { steps.new ≡ steps.old + 1 }
    {
        steps.tick();
        let _len = self.rows.len();
        if key_of(&self.keys, &v) == Some(k) {
            return Ok(Some(v));
        }
        put_pair(&mut self.rows, &mut self.keys, &k, &v)
    }

    /// Gives a value a key, and tells the one before. The pair of a value that is there keeps its place.
    pub fn flip_put<L: Ledger>(
        &mut self,
        v: Elem,
        k: Elem,
        steps: &mut Steps<L>,
    ) -> Result<Option<Elem>, BiFault>
        ensures answer { IfOk result (λ before. before ≡ key_of self.old v) }
        ensures rows { OnOk result (turned self.new ≡ with_pair (turned self.old) v k) }
        ensures same { key_of self.old v ≡ Some k → (result ≡ Ok (Some k)) × (self.new ≡ self.old) }
        ensures bound { (result ≡ Err Bound) ↔ IsBound (turned self.old) v k }
        ensures err { OnErr result (self.new ≡ self.old) }
        ensures step { steps.new ≡ steps.old + 1 }
    {
        steps.tick();
        let _len = self.rows.len();
        let holder = self.rows.probe(k);
        if holder == Some(v) {
            return Ok(Some(k));
        }
        if holder.is_some() {
            return Err(BiFault::Bound);
        }
        let Ok(before) = flip_put_pair(&mut self.rows, &mut self.keys, &v, &k) else {
            return Err(BiFault::NoMemory);
        };
        Ok(before)
    }

    /// Gives a value a key, and tells the one before. The pair of another value that has the key goes.
    pub fn flip_force_put<L: Ledger>(
        &mut self,
        v: Elem,
        k: Elem,
        steps: &mut Steps<L>,
    ) -> Result<Option<Elem>, NoMemory>
        ensures answer { IfOk result (λ before. before ≡ key_of self.old v) }
        ensures rows { OnOk result (turned self.new ≡ with_pair (freed (turned self.old) v k) v k) }
        ensures same { key_of self.old v ≡ Some k → (result ≡ Ok (Some k)) × (self.new ≡ self.old) }
        ensures err { OnErr result (self.new ≡ self.old) }
        ensures step { steps.new ≡ steps.old + 1 }
    {
        steps.tick();
        let _len = self.rows.len();
        if self.rows.probe(k) == Some(v) {
            return Ok(Some(k));
        }
        flip_put_pair(&mut self.rows, &mut self.keys, &v, &k)
    }
}
