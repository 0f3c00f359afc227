ghost use Rattle.std.specs.Prelude.{◌≡◌, ◌+◌, ◌<◌, ◌≤◌, [], List, Some, IsTrue, IfOk, OnOk, OnErr};
ghost use Rattle.elem.specs.Rows.{first_key};
ghost use Rattle.mm_base.specs.PairRows.{Row, HasDistinctIds, IsLive, count_of, id_of, has_pair, pair_at, with_pair, without_id, without_pair, without_key};
ghost use Rattle.mm_base.specs.GroupedRows.{IsGrouped, IsPutInGroup, IsReplacedInGroup, IsSplit};
ghost use Rattle.mm_base.specs.Moving.{key_moved_last};

use crate::pair_id::place_of;
use crate::{FreeFlatPairs, PairId};
use elem::{Elem, NoMemory, Steps};
use hash_seed::Seed;
use std::alloc::Global;
use std::marker::Model;
use std::sync::ledger::Ledger;

mod reading;

/// Pairs grouped by key, the groups in the order of their first putting, a key with many values, equal ones too, as
/// Guava's multimap of `MultimapBuilder.linkedHashKeys().arrayListValues()`. Each call that takes `steps` counts one.
#[derive(Drop)]
pub struct GroupedLists {
    pairs: FreeFlatPairs,
}

impl Model for GroupedLists {
    ghost use Rattle.std.specs.Prelude.{List};
    ghost use Rattle.mm_base.specs.PairRows.{Row};

    ghost Value = { List Row };

    ghost use Rattle.mm_base.specs.GroupedRows.{IsGrouped};

    ghost view = { λ m. m.pairs };

    ghost invariant = { λ m. IsGrouped m.pairs };
}

impl GroupedLists {
    /// No pairs, under the fixed seed.
    pub fn new(alloc: Global) -> Result<GroupedLists, NoMemory>
        ensures { IfOk result (λ m. m ≡ []) }
    {
        GroupedLists::with_hasher(alloc, Seed::fixed())
    }

    /// No pairs, whose keys are hashed by a seed.
    pub fn with_hasher(alloc: Global, seed: Seed) -> Result<GroupedLists, NoMemory>
        ensures { IfOk result (λ m. m ≡ []) }
    {
        Ok(GroupedLists {
            pairs: FreeFlatPairs::with_hasher(alloc, seed),
        })
    }

    /// Puts a pair, last in its key's group; the group of a new key comes last. The answer is that the size grew.
    pub fn put<L: Ledger>(
        &mut self,
        k: Elem,
        v: Elem,
        steps: &mut Steps<L>,
    ) -> Result<bool, NoMemory>
        ensures grew { IfOk result (λ grew. IsTrue grew) }
        ensures ok { OnOk result (IsPutInGroup (count_of k self.old) k v self.old self.new) }
        ensures err { OnErr result (self.new ≡ self.old) }
        ensures step { steps.new ≡ steps.old + 1 }
    {
        steps.tick();
        self.put_last(&k, &v)?;
        Ok(true)
    }

    /// Puts a pair into its key's group, before the pair number `i`, or last there.
    pub fn put_at<L: Ledger>(
        &mut self,
        k: Elem,
        i: usize,
        v: Elem,
        steps: &mut Steps<L>,
    ) -> Result<(), NoMemory>
        requires { i ≤ count_of k self.old }
        ensures ok { OnOk result (IsPutInGroup i k v self.old self.new) }
        ensures err { OnErr result (self.new ≡ self.old) }
        ensures step { steps.new ≡ steps.old + 1 }
    {
        steps.tick();
        match self.pairs.place_at(&k, i) {
            None => self.put_last(&k, &v),
            Some(next) => self.pairs.link(&k, &v, Some(next), Some(next)),
        }
    }

    /// Gives a key's pair number `i` another value, and tells the one before. The pair keeps its place and its id.
    pub fn set_at<L: Ledger>(&mut self, k: Elem, i: usize, v: Elem, steps: &mut Steps<L>) -> Elem
        requires { i < count_of k self.old }
        ensures value { pair_at (id_of k i self.old) self.old ≡ Some (k, result) }
        ensures rows { self.new ≡ with_pair (id_of k i self.old) (k, v) self.old }
        ensures step { steps.new ≡ steps.old + 1 }
    {
        steps.tick();
        let _len = self.pairs.len();
        self.pairs.set_at(k, i, v)
    }

    /// Removes the first pair of a key and a value, and tells whether there was one.
    pub fn remove_pair<L: Ledger>(&mut self, k: Elem, v: Elem, steps: &mut Steps<L>) -> bool
        ensures answer { result ≡ has_pair k v self.old }
        ensures rows { self.new ≡ without_pair k v self.old }
        ensures step { steps.new ≡ steps.old + 1 }
    {
        steps.tick();
        self.pairs.remove_pair(k, v)
    }

    /// Removes the pairs of a key, and tells their number.
    pub fn remove_key<L: Ledger>(&mut self, k: Elem, steps: &mut Steps<L>) -> usize
        ensures answer { result ≡ count_of k self.old }
        ensures rows { self.new ≡ without_key k self.old }
        ensures step { steps.new ≡ steps.old + 1 }
    {
        steps.tick();
        self.pairs.remove_key(k)
    }

    /// Drops the pairs of a key, and puts a pair for each value in their place. A key without pairs comes last, and one
    /// that gets no value goes.
    pub fn replace_values<L: Ledger>(
        &mut self,
        k: Elem,
        vs: &[Elem],
        steps: &mut Steps<L>,
    ) -> Result<(), NoMemory>
        ensures ok { OnOk result (IsReplacedInGroup k vs.now self.old self.new) }
        ensures err { OnErr result (self.new ≡ self.old) }
        ensures step { steps.new ≡ steps.old + 1 }
    {
        steps.tick();
        let first = self.pairs.place_at(&k, 0);
        self.pairs.place_all(&k, vs, first)?;
        self.pairs.remove_from(&k, first);
        Ok(())
    }

    /// Puts the group of a key last. It takes no memory.
    pub fn key_to_end<L: Ledger>(&mut self, k: Elem, steps: &mut Steps<L>)
        requires { 0 < count_of k self.old }
        ensures rows { self.new ≡ key_moved_last k self.old }
        ensures step { steps.new ≡ steps.old + 1 }
    {
        steps.tick();
        self.pairs.key_to_end(&k);
    }

    /// Removes a pair.
    pub fn remove_id<L: Ledger>(&mut self, p: PairId, steps: &mut Steps<L>)
        requires { IsLive self.old p }
        ensures rows { self.new ≡ without_id (Some p) self.old }
        ensures step { steps.new ≡ steps.old + 1 }
    {
        steps.tick();
        self.pairs.remove_id(p);
    }

    /// Removes every pair.
    pub fn clear(&mut self)
        ensures { self.new ≡ [] }
    {
        self.pairs.clear();
    }

    /// Puts a pair last in its key's group.
    fn put_last(&mut self, k: &Elem, v: &Elem) -> Result<(), NoMemory>
        ensures ok { OnOk result (IsPutInGroup (count_of k.now self.old) k.now v.now self.old self.new) }
        ensures err { OnErr result (self.new ≡ self.old) }
    {
        let next = self.after_group(k);
        self.pairs.link(k, v, next, None)
    }

    /// The place after a key's group.
    pub(super) fn after_group(&self, k: &Elem) -> Option<usize>
        ensures next { (us vs : List Row) → IsSplit k.now self.now us vs → result ≡ first_key vs }
        ensures distinct { HasDistinctIds self.now }
        ensures grouped { IsGrouped self.now }
    {
        match self.pairs.last_in_key(k) {
            None => None,
            Some(last) => self.pairs.next_place(last),
        }
    }
}
