//! What the pairs and the keys tell.
ghost use Rattle.std.specs.Prelude.{◌≡◌, ◌+◌, ◌<◌, length, Some, nat_eq};
ghost use Rattle.elem.specs.Elements.{same};
ghost use Rattle.elem.specs.Rows.{first_key, last_key, key_after, key_before};
ghost use Rattle.mm_base.specs.PairRows.{HasDistinctIds, IsLive, pair_of, rows_beside, count_of, id_of, has_pair};
ghost use Rattle.mm_base.specs.KeyedRows.{as_rows, AreKeysOf, HasDistinctPairs};

use super::LinkedPairs;
use crate::PairId;
use crate::key_values::pair_place;
use elem::{Elem, Steps};
use std::sync::ledger::Ledger;

impl LinkedPairs {
    /// The number of pairs.
    pub fn len(&self) -> usize
        ensures len { result ≡ length self.now.rows }
        ensures ids { HasDistinctIds self.now.rows }
        ensures pairs { HasDistinctPairs self.now.rows }
        ensures keys { AreKeysOf self.now.rows self.now.keys }
    {
        self.pairs.len()
    }

    /// The number of a key's pairs.
    pub fn count_of<L: Ledger>(&self, k: Elem, steps: &mut Steps<L>) -> usize
        ensures count { result ≡ count_of k self.now.rows }
        ensures step { steps.new ≡ steps.old + 1 }
    {
        steps.tick();
        self.pairs.count_of(k)
    }

    /// Whether there is a pair of a key and a value.
    pub fn has<L: Ledger>(&self, k: Elem, v: Elem, steps: &mut Steps<L>) -> bool
        ensures answer { result ≡ has_pair k v self.now.rows }
        ensures step { steps.new ≡ steps.old + 1 }
    {
        steps.tick();
        pair_place(&self.places, &k, &v).is_some()
    }

    /// A key's pair number `i`.
    pub fn at<L: Ledger>(&self, k: Elem, i: usize, steps: &mut Steps<L>) -> Option<PairId>
        ensures id { result ≡ id_of k i self.now.rows }
        ensures step { steps.new ≡ steps.old + 1 }
    {
        steps.tick();
        self.pairs.at(k, i)
    }

    /// The key and the value of a pair.
    pub fn pair<L: Ledger>(&self, p: PairId, steps: &mut Steps<L>) -> (Elem, Elem)
        requires { IsLive self.now.rows p }
        ensures pair { pair_of self.now.rows p ≡ Some result }
        ensures step { steps.new ≡ steps.old + 1 }
    {
        steps.tick();
        self.pairs.pair(p)
    }

    /// The first pair.
    pub fn first_pair<L: Ledger>(&self, steps: &mut Steps<L>) -> Option<PairId>
        ensures id { result ≡ first_key self.now.rows }
        ensures step { steps.new ≡ steps.old + 1 }
    {
        steps.tick();
        self.pairs.first_pair()
    }

    /// The pair after another.
    pub fn after_pair<L: Ledger>(&self, p: PairId, steps: &mut Steps<L>) -> Option<PairId>
        requires { IsLive self.now.rows p }
        ensures id { result ≡ key_after (nat_eq p) self.now.rows }
        ensures step { steps.new ≡ steps.old + 1 }
    {
        steps.tick();
        self.pairs.after_pair(p)
    }

    /// The pair after another of its key.
    pub fn after_in_key<L: Ledger>(&self, p: PairId, steps: &mut Steps<L>) -> Option<PairId>
        requires { IsLive self.now.rows p }
        ensures id { result ≡ key_after (nat_eq p) (rows_beside (pair_of self.now.rows p) self.now.rows) }
        ensures step { steps.new ≡ steps.old + 1 }
    {
        steps.tick();
        self.pairs.after_in_key(p)
    }

    /// The first key.
    pub fn first_key<L: Ledger>(&self, steps: &mut Steps<L>) -> Option<Elem>
        ensures key { result ≡ first_key (as_rows self.now.keys) }
        ensures step { steps.new ≡ steps.old + 1 }
    {
        steps.tick();
        self.keys.first()
    }

    /// The last key.
    pub fn last_key<L: Ledger>(&self, steps: &mut Steps<L>) -> Option<Elem>
        ensures key { result ≡ last_key (as_rows self.now.keys) }
        ensures step { steps.new ≡ steps.old + 1 }
    {
        steps.tick();
        self.keys.last()
    }

    /// The key after another.
    pub fn after_key<L: Ledger>(&self, k: Elem, steps: &mut Steps<L>) -> Option<Elem>
        requires { 0 < count_of k self.now.rows }
        ensures key { result ≡ key_after (same k) (as_rows self.now.keys) }
        ensures step { steps.new ≡ steps.old + 1 }
    {
        steps.tick();
        self.keys.after(k)
    }

    /// The key before another.
    pub fn before_key<L: Ledger>(&self, k: Elem, steps: &mut Steps<L>) -> Option<Elem>
        requires { 0 < count_of k self.now.rows }
        ensures key { result ≡ key_before (same k) (as_rows self.now.keys) }
        ensures step { steps.new ≡ steps.old + 1 }
    {
        steps.tick();
        let previous = self.keys.before(k);
        previous
    }
}
