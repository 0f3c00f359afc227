ghost use Rattle.std.specs.Prelude.{◌≡◌, ◌+◌, ◌<◌, ◌≤◌, [], None, Some, IsTrue, IfOk, OnOk, OnErr};
ghost use Rattle.mm_base.specs.PairRows.{IsLive, count_of, id_of, has_pair, pair_at, with_pair, IsPut, without_id, without_pair, without_key};
ghost use Rattle.mm_base.specs.Replacing.{IsReplaced};

use crate::{FreeFlatPairs, PairId};
use elem::{Elem, NoMemory, Steps};
use hash_seed::Seed;
use std::alloc::Global;
use std::marker::Model;
use std::sync::ledger::Ledger;

mod reading;

/// Pairs in the order of their putting, a key with many values, equal ones too, as Guava's `LinkedListMultimap`. Each
/// call that takes `steps` counts one.
#[derive(Drop)]
pub struct FlatPairs {
    free: FreeFlatPairs,
}

impl Model for FlatPairs {
    ghost use Rattle.std.specs.Prelude.{List};
    ghost use Rattle.mm_base.specs.PairRows.{Row};

    ghost Value = { List Row };

    ghost view = { λ m. m.free };
}

impl FlatPairs {
    /// No pairs, under the fixed seed.
    pub fn new(alloc: Global) -> Result<FlatPairs, NoMemory>
        ensures { IfOk result (λ m. m ≡ []) }
    {
        FlatPairs::with_hasher(alloc, Seed::fixed())
    }

    /// No pairs, whose keys are hashed by a seed.
    pub fn with_hasher(alloc: Global, seed: Seed) -> Result<FlatPairs, NoMemory>
        ensures { IfOk result (λ m. m ≡ []) }
    {
        Ok(FlatPairs {
            free: FreeFlatPairs::with_hasher(alloc, seed),
        })
    }

    /// Puts a pair, last. The answer is that the size grew.
    pub fn put<L: Ledger>(
        &mut self,
        k: Elem,
        v: Elem,
        steps: &mut Steps<L>,
    ) -> Result<bool, NoMemory>
        ensures grew { IfOk result (λ grew. IsTrue grew) }
        ensures ok { OnOk result (IsPut None k v self.old self.new) }
        ensures err { OnErr result (self.new ≡ self.old) }
        ensures step { steps.new ≡ steps.old + 1 }
    {
        steps.tick();
        self.free.put(k, v)
    }

    /// Puts a pair before its key's pair number `i`, or last of all where the key has just `i`.
    pub fn put_at<L: Ledger>(
        &mut self,
        k: Elem,
        i: usize,
        v: Elem,
        steps: &mut Steps<L>,
    ) -> Result<(), NoMemory>
        requires { i ≤ count_of k self.old }
        ensures ok { OnOk result (IsPut (id_of k i self.old) k v self.old self.new) }
        ensures err { OnErr result (self.new ≡ self.old) }
        ensures step { steps.new ≡ steps.old + 1 }
    {
        steps.tick();
        self.free.put_at(k, i, v)
    }

    /// Gives a key's pair number `i` another value, and tells the one before. The pair keeps its place and its id.
    pub fn set_at<L: Ledger>(&mut self, k: Elem, i: usize, v: Elem, steps: &mut Steps<L>) -> Elem
        requires { i < count_of k self.old }
        ensures value { pair_at (id_of k i self.old) self.old ≡ Some (k, result) }
        ensures rows { self.new ≡ with_pair (id_of k i self.old) (k, v) self.old }
        ensures step { steps.new ≡ steps.old + 1 }
    {
        steps.tick();
        self.free.set_at(k, i, v)
    }

    /// Removes the first pair of a key and a value, and tells whether there was one.
    pub fn remove_pair<L: Ledger>(&mut self, k: Elem, v: Elem, steps: &mut Steps<L>) -> bool
        ensures answer { result ≡ has_pair k v self.old }
        ensures rows { self.new ≡ without_pair k v self.old }
        ensures step { steps.new ≡ steps.old + 1 }
    {
        steps.tick();
        self.free.remove_pair(k, v)
    }

    /// Removes the pairs of a key, and tells their number.
    pub fn remove_key<L: Ledger>(&mut self, k: Elem, steps: &mut Steps<L>) -> usize
        ensures answer { result ≡ count_of k self.old }
        ensures rows { self.new ≡ without_key k self.old }
        ensures step { steps.new ≡ steps.old + 1 }
    {
        steps.tick();
        self.free.remove_key(k)
    }

    /// Gives a key these values. Its pairs keep their places and ids as far as there are values; then the rest of the
    /// pairs goes, or the rest of the values comes last of all.
    pub fn replace_values<L: Ledger>(
        &mut self,
        k: Elem,
        vs: &[Elem],
        steps: &mut Steps<L>,
    ) -> Result<(), NoMemory>
        ensures ok { OnOk result (IsReplaced k vs.now self.old self.new) }
        ensures err { OnErr result (self.new ≡ self.old) }
        ensures step { steps.new ≡ steps.old + 1 }
    {
        steps.tick();
        self.free.replace_values(k, vs)
    }

    /// Removes a pair.
    pub fn remove_id<L: Ledger>(&mut self, p: PairId, steps: &mut Steps<L>)
        requires { IsLive self.old p }
        ensures rows { self.new ≡ without_id (Some p) self.old }
        ensures step { steps.new ≡ steps.old + 1 }
    {
        steps.tick();
        self.free.remove_id(p);
    }

    /// Removes every pair.
    pub fn clear(&mut self)
        ensures { self.new ≡ [] }
    {
        self.free.clear();
    }
}
