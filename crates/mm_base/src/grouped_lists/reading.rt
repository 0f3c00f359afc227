//! What grouped pairs tell.
ghost use Rattle.std.specs.Prelude.{◌≡◌, ◌+◌, ◌<◌, length, Some, nat_eq};
ghost use Rattle.elem.specs.Elements.{same};
ghost use Rattle.elem.specs.Rows.{first_key, last_key, key_after, key_before};
ghost use Rattle.mm_base.specs.PairRows.{HasDistinctIds, IsLive, pair_of, rows_beside, first_pairs, count_of, id_of, has_pair};
ghost use Rattle.mm_base.specs.GroupedRows.{IsGrouped};

use super::GroupedLists;
use crate::PairId;
use elem::{Elem, Steps};
use std::sync::ledger::Ledger;

impl GroupedLists {
    /// The number of pairs.
    pub fn len(&self) -> usize
        ensures len { result ≡ length self.now }
        ensures distinct { HasDistinctIds self.now }
        ensures grouped { IsGrouped self.now }
    {
        self.pairs.len()
    }

    /// The number of a key's pairs.
    pub fn count_of<L: Ledger>(&self, k: Elem, steps: &mut Steps<L>) -> usize
        ensures count { result ≡ count_of k self.now }
        ensures step { steps.new ≡ steps.old + 1 }
    {
        steps.tick();
        self.pairs.count_of(k)
    }

    /// Whether there is a pair of a key and a value.
    pub fn has<L: Ledger>(&self, k: Elem, v: Elem, steps: &mut Steps<L>) -> bool
        ensures answer { result ≡ has_pair k v self.now }
        ensures step { steps.new ≡ steps.old + 1 }
    {
        steps.tick();
        self.pairs.has(k, v)
    }

    /// A key's pair number `i`.
    pub fn at<L: Ledger>(&self, k: Elem, i: usize, steps: &mut Steps<L>) -> Option<PairId>
        ensures id { result ≡ id_of k i self.now }
        ensures step { steps.new ≡ steps.old + 1 }
    {
        steps.tick();
        self.pairs.at(k, i)
    }

    /// The key and the value of a pair.
    pub fn pair<L: Ledger>(&self, p: PairId, steps: &mut Steps<L>) -> (Elem, Elem)
        requires { IsLive self.now p }
        ensures pair { pair_of self.now p ≡ Some result }
        ensures step { steps.new ≡ steps.old + 1 }
    {
        steps.tick();
        self.pairs.pair(p)
    }

    /// The first pair.
    pub fn first_pair<L: Ledger>(&self, steps: &mut Steps<L>) -> Option<PairId>
        ensures id { result ≡ first_key self.now }
        ensures step { steps.new ≡ steps.old + 1 }
    {
        steps.tick();
        self.pairs.first_pair()
    }

    /// The pair after another.
    pub fn after_pair<L: Ledger>(&self, p: PairId, steps: &mut Steps<L>) -> Option<PairId>
        requires { IsLive self.now p }
        ensures id { result ≡ key_after (nat_eq p) self.now }
        ensures step { steps.new ≡ steps.old + 1 }
    {
        steps.tick();
        self.pairs.after_pair(p)
    }

    /// The pair after another of its key.
    pub fn after_in_key<L: Ledger>(&self, p: PairId, steps: &mut Steps<L>) -> Option<PairId>
        requires { IsLive self.now p }
        ensures id { result ≡ key_after (nat_eq p) (rows_beside (pair_of self.now p) self.now) }
        ensures step { steps.new ≡ steps.old + 1 }
    {
        steps.tick();
        self.pairs.after_in_key(p)
    }

    /// The first key.
    pub fn first_key<L: Ledger>(&self, steps: &mut Steps<L>) -> Option<Elem>
        ensures key { result ≡ first_key (first_pairs self.now) }
        ensures step { steps.new ≡ steps.old + 1 }
    {
        steps.tick();
        self.pairs.first_key()
    }

    /// The last key.
    pub fn last_key<L: Ledger>(&self, steps: &mut Steps<L>) -> Option<Elem>
        ensures key { result ≡ last_key (first_pairs self.now) }
        ensures step { steps.new ≡ steps.old + 1 }
    {
        steps.tick();
        let place = self.pairs.last_place();
        self.pairs.key_of(place)
    }

    /// The key after another.
    pub fn after_key<L: Ledger>(&self, k: Elem, steps: &mut Steps<L>) -> Option<Elem>
        requires { 0 < count_of k self.now }
        ensures key { result ≡ key_after (same k) (first_pairs self.now) }
        ensures step { steps.new ≡ steps.old + 1 }
    {
        steps.tick();
        let place = self.after_group(&k);
        self.pairs.key_of(place)
    }

    /// The key before another.
    pub fn before_key<L: Ledger>(&self, k: Elem, steps: &mut Steps<L>) -> Option<Elem>
        requires { 0 < count_of k self.now }
        ensures key { result ≡ key_before (same k) (first_pairs self.now) }
        ensures step { steps.new ≡ steps.old + 1 }
    {
        steps.tick();
        let first = self.pairs.place_at(&k, 0).unwrap();
        let place = self.pairs.previous_place(first);
        self.pairs.key_of(place)
    }
}
