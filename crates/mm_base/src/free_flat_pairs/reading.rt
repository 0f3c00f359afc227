//! What the pairs tell.
ghost use Rattle.std.specs.Prelude.{◌≡◌, ◌<◌, length, Some, nat_eq};
ghost use Rattle.elem.specs.Elements.{same};
ghost use Rattle.elem.specs.Rows.{first_key, last_key, key_after, key_before};
ghost use Rattle.mm_base.specs.PairRows.{HasDistinctIds, IsLive, pair_of, rows_beside, first_pairs, count_of, id_of, has_pair};

use super::FreeFlatPairs;
use crate::heads::{key_at, next_head, previous_head};
use crate::pair_id::{PairId, place_of, some_id};
use elem::Elem;
use linked_base::group::group_of;

impl FreeFlatPairs {
    /// The number of pairs.
    pub fn len(&self) -> usize
        ensures len { result ≡ length self.now }
        ensures distinct { HasDistinctIds self.now }
    {
        self.nodes.len()
    }

    /// The number of a key's pairs.
    pub fn count_of(&self, k: Elem) -> usize
        ensures { result ≡ count_of k self.now }
    {
        group_of(&self.groups, &k).count
    }

    /// Whether there is a pair of a key and a value.
    pub fn has(&self, k: Elem, v: Elem) -> bool
        ensures { result ≡ has_pair k v self.now }
    {
        self.find(&k, &v).is_some()
    }

    /// A key's pair number `i`.
    pub fn at(&self, k: Elem, i: usize) -> Option<PairId>
        ensures { result ≡ id_of k i self.now }
    {
        some_id(self.place_at(&k, i))
    }

    /// The key and the value of a pair.
    pub fn pair(&self, p: PairId) -> (Elem, Elem)
        requires { IsLive self.now p }
        ensures { pair_of self.now p ≡ Some result }
    {
        self.pair_at(place_of(p))
    }

    /// The first pair.
    pub fn first_pair(&self) -> Option<PairId>
        ensures { result ≡ first_key self.now }
    {
        some_id(self.all.first)
    }

    /// The pair after another.
    pub fn after_pair(&self, p: PairId) -> Option<PairId>
        requires { IsLive self.now p }
        ensures { result ≡ key_after (nat_eq p) self.now }
    {
        some_id(self.nodes[place_of(p)].all.next)
    }

    /// The pair after another of its key.
    pub fn after_in_key(&self, p: PairId) -> Option<PairId>
        requires { IsLive self.now p }
        ensures { result ≡ key_after (nat_eq p) (rows_beside (pair_of self.now p) self.now) }
    {
        some_id(self.next_in_key(place_of(p)))
    }

    /// The first key, in the order of the first pair of each.
    pub fn first_key(&self) -> Option<Elem>
        ensures { result ≡ first_key (first_pairs self.now) }
    {
        key_at(&self.nodes, next_head(&self.nodes, self.all.first))
    }

    /// The last key, in the order of the first pair of each.
    pub fn last_key(&self) -> Option<Elem>
        ensures { result ≡ last_key (first_pairs self.now) }
    {
        key_at(&self.nodes, previous_head(&self.nodes, self.all.last))
    }

    /// The key after another, in the order of the first pair of each.
    pub fn after_key(&self, k: Elem) -> Option<Elem>
        requires { 0 < count_of k self.now }
        ensures { result ≡ key_after (same k) (first_pairs self.now) }
    {
        let place = self.place_at(&k, 0).unwrap();
        key_at(
            &self.nodes,
            next_head(&self.nodes, self.nodes[place].all.next),
        )
    }

    /// The key before another, in the order of the first pair of each.
    pub fn before_key(&self, k: Elem) -> Option<Elem>
        requires { 0 < count_of k self.now }
        ensures { result ≡ key_before (same k) (first_pairs self.now) }
    {
        let place = self.place_at(&k, 0).unwrap();
        key_at(
            &self.nodes,
            previous_head(&self.nodes, self.nodes[place].all.previous),
        )
    }
}
