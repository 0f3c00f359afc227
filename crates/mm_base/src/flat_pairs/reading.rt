//! What the pairs tell.
ghost use Rattle.std.specs.Prelude.{◌≡◌, ◌+◌, ◌<◌, length, Some, nat_eq};
ghost use Rattle.elem.specs.Elements.{same};
ghost use Rattle.elem.specs.Rows.{first_key, last_key, key_after, key_before};
ghost use Rattle.mm_base.specs.PairRows.{HasDistinctIds, IsLive, pair_of, rows_beside, first_pairs, count_of, id_of, has_pair};

use super::FlatPairs;
use crate::PairId;
use elem::{Elem, Steps};
use std::sync::ledger::Ledger;

impl FlatPairs {
    /// The number of pairs.
    pub fn len(&self) -> usize
        ensures len { result ≡ length self.now }
        ensures distinct { HasDistinctIds self.now }
    {
        self.free.len()
    }

    /// The number of a key's pairs.
    pub fn count_of<L: Ledger>(&self, k: Elem, steps: &mut Steps<L>) -> usize
        ensures count { result ≡ count_of k self.now }
        ensures step { steps.new ≡ steps.old + 1 }
    {
        steps.tick();
        self.free.count_of(k)
    }

    /// Whether there is a pair of a key and a value.
    pub fn has<L: Ledger>(&self, k: Elem, v: Elem, steps: &mut Steps<L>) -> bool
        ensures answer { result ≡ has_pair k v self.now }
        ensures step { steps.new ≡ steps.old + 1 }
    {
        steps.tick();
        self.free.has(k, v)
    }

    /// A key's pair number `i`.
    pub fn at<L: Ledger>(&self, k: Elem, i: usize, steps: &mut Steps<L>) -> Option<PairId>
        ensures id { result ≡ id_of k i self.now }
        ensures step { steps.new ≡ steps.old + 1 }
    {
        steps.tick();
        self.free.at(k, i)
    }

    /// The key and the value of a pair.
    pub fn pair<L: Ledger>(&self, p: PairId, steps: &mut Steps<L>) -> (Elem, Elem)
        requires { IsLive self.now p }
        ensures pair { pair_of self.now p ≡ Some result }
        ensures step { steps.new ≡ steps.old + 1 }
    {
        steps.tick();
        self.free.pair(p)
    }

    /// The first pair.
    pub fn first_pair<L: Ledger>(&self, steps: &mut Steps<L>) -> Option<PairId>
        ensures id { result ≡ first_key self.now }
        ensures step { steps.new ≡ steps.old + 1 }
    {
        steps.tick();
        self.free.first_pair()
    }

    /// The pair after another.
    pub fn after_pair<L: Ledger>(&self, p: PairId, steps: &mut Steps<L>) -> Option<PairId>
        requires { IsLive self.now p }
        ensures id { result ≡ key_after (nat_eq p) self.now }
        ensures step { steps.new ≡ steps.old + 1 }
    {
        steps.tick();
        self.free.after_pair(p)
    }

    /// The pair after another of its key.
    pub fn after_in_key<L: Ledger>(&self, p: PairId, steps: &mut Steps<L>) -> Option<PairId>
        requires { IsLive self.now p }
        ensures id { result ≡ key_after (nat_eq p) (rows_beside (pair_of self.now p) self.now) }
        ensures step { steps.new ≡ steps.old + 1 }
    {
        steps.tick();
        self.free.after_in_key(p)
    }

    /// The first key, in the order of the first pair of each.
    pub fn first_key<L: Ledger>(&self, steps: &mut Steps<L>) -> Option<Elem>
        ensures key { result ≡ first_key (first_pairs self.now) }
        ensures step { steps.new ≡ steps.old + 1 }
    {
        steps.tick();
        self.free.first_key()
    }

    /// The last key, in the order of the first pair of each.
    pub fn last_key<L: Ledger>(&self, steps: &mut Steps<L>) -> Option<Elem>
        ensures key { result ≡ last_key (first_pairs self.now) }
        ensures step { steps.new ≡ steps.old + 1 }
    {
        steps.tick();
        self.free.last_key()
    }

    /// The key after another, in the order of the first pair of each.
    pub fn after_key<L: Ledger>(&self, k: Elem, steps: &mut Steps<L>) -> Option<Elem>
        requires { 0 < count_of k self.now }
        ensures key { result ≡ key_after (same k) (first_pairs self.now) }
        ensures step { steps.new ≡ steps.old + 1 }
    {
        steps.tick();
        self.free.after_key(k)
    }

    /// The key before another, in the order of the first pair of each.
    pub fn before_key<L: Ledger>(&self, k: Elem, steps: &mut Steps<L>) -> Option<Elem>
        requires { 0 < count_of k self.now }
        ensures key { result ≡ key_before (same k) (first_pairs self.now) }
        ensures step { steps.new ≡ steps.old + 1 }
    {
        steps.tick();
        self.free.before_key(k)
    }
}
