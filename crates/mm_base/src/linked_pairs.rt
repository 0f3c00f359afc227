ghost use Rattle.std.specs.Prelude.{◌≡◌, ◌+◌, ◌<◌, [], None, Some, IfOk, OnOk, OnErr, MatchBool, IsTrue};
ghost use Rattle.mm_base.specs.PairRows.{IsLive, count_of, has_pair, IsPut, without_id, without_pair, without_key};
ghost use Rattle.mm_base.specs.Exchanging.{each_once, IsExchanged};
ghost use Rattle.mm_base.specs.Moving.{moved_last, key_last};
ghost use Rattle.mm_base.specs.KeyedRows.{with_key, keys_with_rows};

use crate::distinct_values::distinct_values;
use crate::key_values::{KeyValue, pair_place};
use crate::linked_keys::{add_key, settle_key};
use crate::pair_id::place_of;
use crate::pair_places::{exchange_pairs, put_pair, remove_found, remove_key_pairs, remove_place};
use crate::{FreeFlatPairs, PairId};
use elem::{Elem, NoMemory, Steps};
use hash_seed::{Seed, SeededMap};
use linked_base::FreeLinkedMap;
use std::alloc::Global;
use std::marker::Model;
use std::sync::ledger::Ledger;

mod reading;

/// Pairs in the order of their putting, each once, and their keys in an order of their own, as Guava's
/// `LinkedHashMultimap`. Each call that takes `steps` counts one.
#[derive(Drop)]
pub struct LinkedPairs {
    pairs: FreeFlatPairs,
    places: SeededMap<KeyValue, usize>,
    keys: FreeLinkedMap<()>,
    alloc: Global,
}

impl Model for LinkedPairs {
    ghost use Rattle.std.specs.Map.{keys_of};
    ghost use Rattle.std.specs.HashMap as hash;
    ghost use Rattle.mm_base.specs.KeyValues.{same_pair};
    ghost use Rattle.mm_base.specs.KeyedRows.{KeyedRows};

    ghost Value = { KeyedRows };

    ghost use Rattle.mm_base.specs.LinkedPairs.{keyed_rows, AreLinkedPairs};

    ghost view = { λ m. keyed_rows m.pairs m.keys };

    ghost invariant = { λ m. AreLinkedPairs m.pairs m.keys (hash.get same_pair m.places) };
}

impl LinkedPairs {
    /// No pairs, under the fixed seed.
    pub fn new(alloc: Global) -> Result<LinkedPairs, NoMemory>
        ensures rows { IfOk result (λ m. m.rows ≡ []) }
        ensures keys { IfOk result (λ m. m.keys ≡ []) }
    {
        LinkedPairs::with_hasher(alloc, Seed::fixed())
    }

    /// No pairs, which are hashed by a seed, as their keys are.
    pub fn with_hasher(alloc: Global, seed: Seed) -> Result<LinkedPairs, NoMemory>
        ensures rows { IfOk result (λ m. m.rows ≡ []) }
        ensures keys { IfOk result (λ m. m.keys ≡ []) }
    {
        Ok(LinkedPairs {
            pairs: FreeFlatPairs::with_hasher(alloc, seed),
            places: SeededMap::with_hasher(alloc, seed),
            keys: FreeLinkedMap::with_hasher(alloc, seed),
            alloc,
        })
    }

    /// Puts a pair that is not there, last, and its key last where it is new. The answer is whether the size grew.
    pub fn put<L: Ledger>(
        &mut self,
        k: Elem,
        v: Elem,
        steps: &mut Steps<L>,
    ) -> Result<bool, NoMemory>
        ensures ok { IfOk result (λ grew. MatchBool grew (IsPut None k v self.old.rows self.new.rows × (self.new.keys ≡ with_key k self.old.keys)) (self.new ≡ self.old)) }
        ensures answer { IfOk result (λ grew. MatchBool grew (Unit {0}) (IsTrue (has_pair k v self.old.rows))) }
        ensures err { OnErr result (self.new ≡ self.old) }
        ensures step { steps.new ≡ steps.old + 1 }
    {
        steps.tick();
        if pair_place(&self.places, &k, &v).is_some() {
            return Ok(false);
        }
        let added = add_key(&mut self.keys, &k)?;
        if put_pair(&mut self.pairs, &mut self.places, &k, &v).is_err() {
            if added {
                self.keys.remove(k);
            }
            return Err(NoMemory);
        }
        Ok(true)
    }

    /// Removes the pair of a key and a value, and tells whether there was one. A key with no pair left goes.
    pub fn remove_pair<L: Ledger>(&mut self, k: Elem, v: Elem, steps: &mut Steps<L>) -> bool
        ensures answer { result ≡ has_pair k v self.old.rows }
        ensures rows { self.new.rows ≡ without_pair k v self.old.rows }
        ensures keys { self.new.keys ≡ keys_with_rows self.new.rows self.old.keys }
        ensures step { steps.new ≡ steps.old + 1 }
    {
        steps.tick();
        let _len = self.pairs.len();
        let removed = remove_found(&mut self.pairs, &mut self.places, &k, &v);
        settle_key(&self.pairs, &mut self.keys, &k);
        removed
    }

    /// Removes the pairs of a key, and the key, and tells the number of the pairs.
    pub fn remove_key<L: Ledger>(&mut self, k: Elem, steps: &mut Steps<L>) -> usize
        ensures answer { result ≡ count_of k self.old.rows }
        ensures rows { self.new.rows ≡ without_key k self.old.rows }
        ensures keys { self.new.keys ≡ keys_with_rows self.new.rows self.old.keys }
        ensures step { steps.new ≡ steps.old + 1 }
    {
        steps.tick();
        let count = remove_key_pairs(&mut self.pairs, &mut self.places, &k);
        settle_key(&self.pairs, &mut self.keys, &k);
        count
    }

    /// Removes a pair, and its key where it was the last.
    pub fn remove_id<L: Ledger>(&mut self, p: PairId, steps: &mut Steps<L>)
        requires { IsLive self.old.rows p }
        ensures rows { self.new.rows ≡ without_id (Some p) self.old.rows }
        ensures keys { self.new.keys ≡ keys_with_rows self.new.rows self.old.keys }
        ensures step { steps.new ≡ steps.old + 1 }
    {
        steps.tick();
        let place = place_of(p);
        let (key, _value) = self.pairs.pair_at(place);
        remove_place(&mut self.pairs, &mut self.places, place);
        settle_key(&self.pairs, &mut self.keys, &key);
    }

    /// Drops the pairs of a key, and puts a pair for each value, an equal one once, last. The key keeps its place among
    /// the keys; a new one comes last, and one that gets no value goes.
    pub fn replace_values<L: Ledger>(
        &mut self,
        k: Elem,
        vs: &[Elem],
        steps: &mut Steps<L>,
    ) -> Result<(), NoMemory>
        ensures rows { OnOk result (IsExchanged k (each_once vs.now) self.old.rows self.new.rows) }
        ensures keys { OnOk result (self.new.keys ≡ keys_with_rows self.new.rows (with_key k self.old.keys)) }
        ensures err { OnErr result (self.new ≡ self.old) }
        ensures step { steps.new ≡ steps.old + 1 }
    {
        steps.tick();
        let values = distinct_values(self.alloc, *self.places.hasher(), vs)?;
        let added = add_key(&mut self.keys, &k)?;
        if exchange_pairs(&mut self.pairs, &mut self.places, &k, &values).is_err() {
            if added {
                self.keys.remove(k);
            }
            return Err(NoMemory);
        }
        settle_key(&self.pairs, &mut self.keys, &k);
        Ok(())
    }

    /// Puts a pair last. Its key keeps its place. It takes no memory.
    pub fn to_end<L: Ledger>(&mut self, p: PairId, steps: &mut Steps<L>)
        requires { IsLive self.old.rows p }
        ensures rows { self.new.rows ≡ moved_last p self.old.rows }
        ensures keys { self.new.keys ≡ self.old.keys }
        ensures step { steps.new ≡ steps.old + 1 }
    {
        steps.tick();
        self.pairs.to_end(place_of(p));
    }

    /// Puts a key last among the keys. The pairs keep their places. It takes no memory.
    pub fn key_to_end<L: Ledger>(&mut self, k: Elem, steps: &mut Steps<L>)
        requires { 0 < count_of k self.old.rows }
        ensures rows { self.new.rows ≡ self.old.rows }
        ensures keys { self.new.keys ≡ key_last k self.old.keys }
        ensures step { steps.new ≡ steps.old + 1 }
    {
        steps.tick();
        self.keys.to_end(k);
        let _len = self.keys.len();
    }

    /// Removes every pair and every key.
    pub fn clear(&mut self)
        ensures rows { self.new.rows ≡ [] }
        ensures keys { self.new.keys ≡ [] }
    {
        self.pairs.clear();
        self.places.clear();
        self.places.shrink_to_fit();
        self.keys.clear();
    }
}
