ghost use Rattle.std.specs.Prelude.{◌≡◌, ℕ, ◌<◌, ◌≤◌, List, [], ◌∷◌, ◌++◌, Some, None, IsTrue, IfOk, OnOk, OnErr};
ghost use Rattle.elem.specs.declared.elements.Elem.{Elem as Key};
ghost use Rattle.elem.specs.Elements.{same};
ghost use Rattle.elem.specs.Rows.{first_key};
ghost use Rattle.mm_base.specs.PairRows.{IsLive, IsNew, pair_of, pairs_of_key, count_of, id_of, has_pair, pair_at, with_pair, put_before, rows_from, IsPut, without_id, without_pair, without_key};

mod moving;
mod neighbours;
mod places;
mod placing;
mod reading;
mod replacing;

use crate::pair_id::{PairId, id_at, place_of};
use crate::pair_nodes::{PairNode, link_pair, unlink_pair, write_value};
use elem::{Elem, NoMemory};
use hash_seed::{Seed, SeededMap};
use linked_base::group::{Group, group_of, keep_group, write_group};
use linked_base::thread::Ends;
use slab::Slab;
use std::alloc::Global;
use std::marker::Model;

/// Pairs in the order of their putting, a key with many values, equal ones too, as Guava's `LinkedListMultimap`. Its
/// calls are not counted.
#[derive(Drop)]
pub struct FreeFlatPairs {
    nodes: Slab<PairNode>,
    groups: SeededMap<Elem, Group>,
    all: Ends,
}

impl Model for FreeFlatPairs {
    ghost use Rattle.std.specs.Prelude.{List};
    ghost use Rattle.std.specs.HashMap as hash;
    ghost use Rattle.elem.specs.Elements.{same};
    ghost use Rattle.mm_base.specs.PairRows.{Row};

    ghost Value = { List Row };

    ghost use Rattle.mm_base.specs.PairNodes.{pairs_now, places, ArePairs};

    ghost view = { λ m. pairs_now m.nodes m.all };

    ghost invariant = { λ m. ArePairs m.nodes m.all (hash.get same m.groups) (places m.nodes m.all) };
}

impl FreeFlatPairs {
    /// No pairs, under the fixed seed.
    pub fn new(alloc: Global) -> FreeFlatPairs
        ensures { result ≡ [] }
    {
        FreeFlatPairs::with_hasher(alloc, Seed::fixed())
    }

    /// No pairs, whose keys are hashed by a seed.
    pub fn with_hasher(alloc: Global, seed: Seed) -> FreeFlatPairs
        ensures { result ≡ [] }
    {
        FreeFlatPairs {
            nodes: Slab::new(alloc),
            groups: SeededMap::with_hasher(alloc, seed),
            all: Ends {
                first: None,
                last: None,
            },
        }
    }

    /// Puts a pair, last. The answer is that the size grew.
    pub fn put(&mut self, k: Elem, v: Elem) -> Result<bool, NoMemory>
        ensures grew { IfOk result (λ grew. IsTrue grew) }
        ensures ok { OnOk result (IsPut None k v self.old self.new) }
        ensures err { OnErr result (self.new ≡ self.old) }
    {
        self.link(&k, &v, None, None)?;
        Ok(true)
    }

    /// Puts a pair, last, and tells its id.
    pub fn add(&mut self, k: Elem, v: Elem) -> Result<PairId, NoMemory>
        ensures fresh { IfOk result (λ p. IsNew self.old p) }
        ensures ok { IfOk result (λ p. self.new ≡ self.old ++ (p, (k, v)) ∷ []) }
        ensures err { OnErr result (self.new ≡ self.old) }
    {
        let place = self.link_place(&k, &v, None, None)?;
        Ok(id_at(place))
    }

    /// Puts a pair before its key's pair number `i`, or last of all where the key has just `i`.
    pub fn put_at(&mut self, k: Elem, i: usize, v: Elem) -> Result<(), NoMemory>
        requires { i ≤ count_of k self.old }
        ensures ok { OnOk result (IsPut (id_of k i self.old) k v self.old self.new) }
        ensures err { OnErr result (self.new ≡ self.old) }
    {
        let next = self.place_at(&k, i);
        self.link(&k, &v, next, next)
    }

    /// Gives a key's pair number `i` another value, and tells the one before. The pair keeps its place and its id.
    pub fn set_at(&mut self, k: Elem, i: usize, v: Elem) -> Elem
        requires { i < count_of k self.old }
        ensures value { pair_at (id_of k i self.old) self.old ≡ Some (k, result) }
        ensures rows { self.new ≡ with_pair (id_of k i self.old) (k, v) self.old }
    {
        let place = self.place_at(&k, i).unwrap();
        self.write(place, &v)
    }

    /// Removes the first pair of a key and a value, and tells whether there was one.
    pub fn remove_pair(&mut self, k: Elem, v: Elem) -> bool
        ensures answer { result ≡ has_pair k v self.old }
        ensures rows { self.new ≡ without_pair k v self.old }
    {
        match self.find(&k, &v) {
            None => false,
            Some(place) => {
                self.remove_at(place);
                true
            }
        }
    }

    /// Removes the pairs of a key, and tells their number.
    pub fn remove_key(&mut self, k: Elem) -> usize
        ensures answer { result ≡ count_of k self.old }
        ensures rows { self.new ≡ without_key k self.old }
    {
        let count = group_of(&self.groups, &k).count;
        for _step in 0..count {
            if let Some(place) = self.place_at(&k, 0) {
                self.remove_at(place);
            }
        }
        count
    }

    /// Removes a pair.
    pub fn remove_id(&mut self, p: PairId)
        requires { IsLive self.old p }
        ensures { self.new ≡ without_id (Some p) self.old }
    {
        self.remove_at(place_of(p));
    }

    /// Removes every pair.
    pub fn clear(&mut self)
        ensures { self.new ≡ [] }
    {
        self.nodes.clear();
        self.nodes.shrink_to_fit();
        self.groups.clear();
        self.groups.shrink_to_fit();
        self.all = Ends {
            first: None,
            last: None,
        };
    }

    /// Gives the pair at a place another value, and tells the one before.
    pub(crate) fn write(&mut self, place: usize, v: &Elem) -> Elem
        requires { IsLive self.old place }
        ensures value { (k w : Key) → pair_of self.old place ≡ Some (k, w) → result ≡ w }
        ensures rows { (k w : Key) → pair_of self.old place ≡ Some (k, w) → self.new ≡ with_pair (Some place) (k, v.now) self.old }
    {
        let before = self.nodes[place].value;
        write_value(&mut self.nodes, place, v);
        before
    }

    /// Removes the pair at a place.
    pub(crate) fn remove_at(&mut self, place: usize)
        requires { IsLive self.old place }
        ensures { self.new ≡ without_id (Some place) self.old }
    {
        let key = self.nodes[place].key;
        let mut group = group_of(&self.groups, &key);
        unlink_pair(&mut self.nodes, &mut self.all, &mut group, place);
        keep_group(&mut self.groups, &key, group);
    }

    /// Puts a pair before that at the place `next`, or last, and in its key before that at `next_in_key`, or last there.
    pub(crate) fn link(
        &mut self,
        k: &Elem,
        v: &Elem,
        next: Option<usize>,
        next_in_key: Option<usize>,
    ) -> Result<(), NoMemory>
        requires next { (q : ℕ) → next ≡ Some q → IsLive self.old q }
        requires in_key { next_in_key ≡ first_key (pairs_of_key k.now (rows_from next self.old)) }
        ensures ok { OnOk result (IsPut next k.now v.now self.old self.new) }
        ensures err { OnErr result (self.new ≡ self.old) }
    {
        self.link_place(k, v, next, next_in_key)?;
        Ok(())
    }

    /// As `link`, and tells the place of the new pair.
    fn link_place(
        &mut self,
        k: &Elem,
        v: &Elem,
        next: Option<usize>,
        next_in_key: Option<usize>,
    ) -> Result<usize, NoMemory>
        requires next { (q : ℕ) → next ≡ Some q → IsLive self.old q }
        requires in_key { next_in_key ≡ first_key (pairs_of_key k.now (rows_from next self.old)) }
        ensures fresh { IfOk result (λ place. IsNew self.old place) }
        ensures ok { IfOk result (λ place. self.new ≡ put_before next (place, (k.now, v.now)) self.old) }
        ensures err { OnErr result (self.new ≡ self.old) }
    {
        if self.nodes.reserve(1).is_err() {
            return Err(NoMemory);
        }
        if self.groups.reserve(1).is_err() {
            return Err(NoMemory);
        }
        let mut group = group_of(&self.groups, k);
        let place = link_pair(
            &mut self.nodes,
            &mut self.all,
            &mut group,
            k,
            v,
            next,
            next_in_key,
        );
        write_group(&mut self.groups, k, group);
        Ok(place)
    }
}
