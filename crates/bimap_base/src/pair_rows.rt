ghost use Rattle.std.specs.Prelude.{◌≡◌, ◌+◌, [], length, IfOk};
ghost use Rattle.elem.specs.Elements.{same};
ghost use Rattle.elem.specs.Keyed.{value_at, IsPresent, HasDistinctKeys, without};
ghost use Rattle.elem.specs.Rows.{first_key, last_key, key_after, key_before};
ghost use Rattle.bimap_base.specs.Pairs.{turned, key_of, HasDistinctValues};

mod putting;
mod walking;

use crate::key_index::{key_of, take_key};
use crate::puts::let_go;
use elem::{Elem, NoMemory, Steps};
use hash_seed::{Seed, SeededMap};
use linked_base::FreeLinkedMap;
use std::alloc::Global;
use std::marker::Model;
use std::sync::ledger::Ledger;

/// Pairs of a key and a value with distinct keys and distinct values, a new one last, as Guava's `HashBiMap`. A call
/// named `flip` puts from the side of the value, as Guava's `inverse()` does.
///
/// Each call that takes `steps` counts one. Only the puts take memory, and where they find none all is as before.
#[derive(Drop)]
pub struct PairRows {
    rows: FreeLinkedMap<Elem>,
    keys: SeededMap<Elem, Elem>,
}

impl Model for PairRows {
    ghost use Rattle.std.specs.Prelude.{List};
    ghost use Rattle.std.specs.HashMap as hash;
    ghost use Rattle.elem.specs.declared.elements.Elem.{Elem as Element};
    ghost use Rattle.elem.specs.Elements.{same};
    ghost use Rattle.bimap_base.specs.PairRows.{IsTurned};

    ghost Value = { List (Element × Element) };

    ghost view = { λ m. m.rows };

    ghost invariant = { λ m. IsTurned m.rows (hash.get same m.keys) };
}

impl PairRows {
    /// No pairs, under the fixed seed.
    pub fn new(alloc: Global) -> Result<PairRows, NoMemory>
        ensures { IfOk result (λ m. m ≡ []) }
    {
        PairRows::with_hasher(alloc, Seed::fixed())
    }

    /// No pairs, whose keys and values are hashed by a seed.
    pub fn with_hasher(alloc: Global, seed: Seed) -> Result<PairRows, NoMemory>
        ensures { IfOk result (λ m. m ≡ []) }
    {
        Ok(PairRows {
            rows: FreeLinkedMap::with_hasher(alloc, seed),
            keys: SeededMap::with_hasher(alloc, seed),
        })
    }

    /// The number of pairs.
    pub fn len(&self) -> usize
        ensures len { result ≡ length self.now }
        ensures keys { HasDistinctKeys self.now }
        ensures values { HasDistinctValues self.now }
    {
        self.rows.len()
    }

    /// The value of a key.
    pub fn by_key<L: Ledger>(&self, k: Elem, steps: &mut Steps<L>) -> Option<Elem>
        ensures value { result ≡ value_at self.now k }
        ensures step { steps.new ≡ steps.old + 1 }
    {
        steps.tick();
        self.rows.probe(k)
    }

    /// The key of a value.
    pub fn by_value<L: Ledger>(&self, v: Elem, steps: &mut Steps<L>) -> Option<Elem>
        ensures key { result ≡ key_of self.now v }
        ensures step { steps.new ≡ steps.old + 1 }
    {
        steps.tick();
        key_of(&self.keys, &v)
    }

    /// The key of the first pair.
    pub fn first<L: Ledger>(&self, steps: &mut Steps<L>) -> Option<Elem>
        ensures key { result ≡ first_key self.now }
        ensures step { steps.new ≡ steps.old + 1 }
    {
        steps.tick();
        self.rows.first()
    }

    /// The key of the last pair.
    pub fn last<L: Ledger>(&self, steps: &mut Steps<L>) -> Option<Elem>
        ensures key { result ≡ last_key self.now }
        ensures step { steps.new ≡ steps.old + 1 }
    {
        steps.tick();
        self.rows.last()
    }

    /// The key after `k`.
    pub fn after<L: Ledger>(&self, k: Elem, steps: &mut Steps<L>) -> Option<Elem>
        requires { IsPresent self.now k }
        ensures key { result ≡ key_after (same k) self.now }
        ensures step { steps.new ≡ steps.old + 1 }
    {
        steps.tick();
        self.rows.after(k)
    }

    /// The key before `k`.
    pub fn before<L: Ledger>(&self, k: Elem, steps: &mut Steps<L>) -> Option<Elem>
        requires { IsPresent self.now k }
        ensures key { result ≡ key_before (same k) self.now }
        ensures step { steps.new ≡ steps.old + 1 }
    {
        steps.tick();
        self.rows.before(k)
    }

    /// Removes the pair of a key, and tells its value.
    pub fn remove_key<L: Ledger>(&mut self, k: Elem, steps: &mut Steps<L>) -> Option<Elem>
        ensures value { result ≡ value_at self.old k }
        ensures rows { self.new ≡ without self.old k }
        ensures step { steps.new ≡ steps.old + 1 }
    {
        steps.tick();
        let _len = self.rows.len();
        let value = self.rows.remove(k)?;
        take_key(&mut self.keys, &value);
        Some(value)
    }

    /// Removes the pair of a value, and tells its key.
    pub fn remove_value<L: Ledger>(&mut self, v: Elem, steps: &mut Steps<L>) -> Option<Elem>
        ensures key { result ≡ key_of self.old v }
        ensures rows { turned self.new ≡ without (turned self.old) v }
        ensures step { steps.new ≡ steps.old + 1 }
    {
        steps.tick();
        let _len = self.rows.len();
        let_go(&mut self.rows, &self.keys, &v);
        take_key(&mut self.keys, &v)
    }

    /// Removes every pair, and gives the memory back.
    pub fn clear(&mut self)
        ensures { self.new ≡ [] }
    {
        self.rows.clear();
        self.keys.clear();
        self.keys.shrink_to_fit();
    }
}
