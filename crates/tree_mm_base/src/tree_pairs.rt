ghost use Rattle.std.specs.Prelude.{◌≡◌, ◌+◌, [], length, not, IsTrue, IsOk, IfOk, OnOk, OnErr, MatchBool};
ghost use Rattle.std.specs.List.{list_any};
ghost use Rattle.elem.specs.Elements.{same};
ghost use Rattle.elem.specs.Keyed.{AddsRow};
ghost use Rattle.elem.specs.Orders.{natural_before};
ghost use Rattle.elem.specs.Rows.{first_key, last_key, key_after, key_before};
ghost use Rattle.elem.specs.declared.cuts.Cut.TheVariants.{Start, End};
ghost use Rattle.plain_base.specs.Sorted.{rows_above, rows_below, rows_between};
ghost use Rattle.plain_base.specs.TwoKeys.{same_both, group, by_both, IsInBothOrder, without_group, without_both};
ghost use Rattle.tree_mm_base.specs.TreePairs.{has_pair, IsLive, count_of, pair_in, id_of};

use crate::TreePairId;
use crate::tree_pair_id::{id_in, some_id};
use crate::values::put_values;
use elem::{Cut, Elem, NoMemory, Steps, Window};
use plain_base::FreeTwoKeyRows;
use std::alloc::Global;
use std::marker::Model;
use std::sync::ledger::Ledger;

/// Pairs by key and then by value in the natural order, each once, as Guava's `TreeMultimap`. Each call that takes `steps`
/// counts one.
#[derive(Drop)]
pub struct TreePairs {
    free: FreeTwoKeyRows<()>,
}

impl Model for TreePairs {
    ghost use Rattle.std.specs.Prelude.{List};
    ghost use Rattle.tree_mm_base.specs.TreePairs.{Row};

    ghost Value = { List Row };

    ghost view = { λ m. m.free };
}

impl TreePairs {
    /// No pairs.
    pub fn new(alloc: Global) -> Result<TreePairs, NoMemory>
        ensures { IfOk result (λ m. m ≡ []) }
    {
        Ok(TreePairs {
            free: FreeTwoKeyRows::new(alloc),
        })
    }

    /// The number of pairs.
    pub fn len(&self) -> usize
        ensures len { result ≡ length self.now }
        ensures order { IsInBothOrder self.now }
    {
        self.free.len()
    }

    /// The number of a key's pairs.
    pub fn count_of<L: Ledger>(&self, k: Elem, steps: &mut Steps<L>) -> usize
        ensures count { result ≡ count_of k self.now }
        ensures step { steps.new ≡ steps.old + 1 }
    {
        steps.tick();
        self.free.count_of(&k)
    }

    /// Whether there is a pair of a key and a value.
    pub fn has<L: Ledger>(&self, k: Elem, v: Elem, steps: &mut Steps<L>) -> bool
        ensures answer { result ≡ has_pair k v self.now }
        ensures step { steps.new ≡ steps.old + 1 }
    {
        steps.tick();
        self.free.get(&k, &v).is_some()
    }

    /// A key's pair number `i`, found by walking there.
    pub fn at<L: Ledger>(&self, k: Elem, i: usize, steps: &mut Steps<L>) -> Option<TreePairId>
        ensures id { result ≡ id_of k i self.now }
        ensures step { steps.new ≡ steps.old + 1 }
    {
        steps.tick();
        id_in(&k, self.free.at(&k, i))
    }

    /// The key and the value of a pair.
    pub fn pair<L: Ledger>(&self, p: TreePairId, steps: &mut Steps<L>) -> (Elem, Elem)
        requires { IsLive self.now p }
        ensures pair { result ≡ p }
        ensures step { steps.new ≡ steps.old + 1 }
    {
        steps.tick();
        p.pair()
    }

    /// The first pair.
    pub fn first_pair<L: Ledger>(&self, steps: &mut Steps<L>) -> Option<TreePairId>
        ensures id { result ≡ first_key (by_both self.now) }
        ensures step { steps.new ≡ steps.old + 1 }
    {
        steps.tick();
        some_id(self.free.first_both())
    }

    /// The pair after another.
    pub fn after_pair<L: Ledger>(&self, p: TreePairId, steps: &mut Steps<L>) -> Option<TreePairId>
        requires { IsLive self.now p }
        ensures id { result ≡ key_after (same_both p) (by_both self.now) }
        ensures step { steps.new ≡ steps.old + 1 }
    {
        steps.tick();
        let (key, value) = p.pair();
        some_id(self.free.after_both(&key, &value))
    }

    /// The pair after another of its key.
    pub fn after_in_key<L: Ledger>(&self, p: TreePairId, steps: &mut Steps<L>) -> Option<TreePairId>
        requires { IsLive self.now p }
        ensures id { result ≡ pair_in p.0 (key_after (same p.1) (group p.0 self.now)) }
        ensures step { steps.new ≡ steps.old + 1 }
    {
        steps.tick();
        let (key, value) = p.pair();
        id_in(&key, self.free.after_in(&key, &value))
    }

    /// The pair before another of its key.
    pub fn before_in_key<L: Ledger>(
        &self,
        p: TreePairId,
        steps: &mut Steps<L>,
    ) -> Option<TreePairId>
        requires { IsLive self.now p }
        ensures id { result ≡ pair_in p.0 (key_before (same p.1) (group p.0 self.now)) }
        ensures step { steps.new ≡ steps.old + 1 }
    {
        steps.tick();
        let (key, value) = p.pair();
        id_in(&key, self.free.before_in(&key, &value))
    }

    /// The first key.
    pub fn first_key<L: Ledger>(&self, steps: &mut Steps<L>) -> Option<Elem>
        ensures key { result ≡ first_key self.now }
        ensures step { steps.new ≡ steps.old + 1 }
    {
        steps.tick();
        self.free.first()
    }

    /// The last key.
    pub fn last_key<L: Ledger>(&self, steps: &mut Steps<L>) -> Option<Elem>
        ensures key { result ≡ last_key self.now }
        ensures step { steps.new ≡ steps.old + 1 }
    {
        steps.tick();
        self.free.last()
    }

    /// The first key that comes after `k`, which need not be there.
    pub fn after_key<L: Ledger>(&self, k: Elem, steps: &mut Steps<L>) -> Option<Elem>
        ensures key { result ≡ first_key (rows_above natural_before k self.now) }
        ensures step { steps.new ≡ steps.old + 1 }
    {
        steps.tick();
        self.free.next_above(&k)
    }

    /// The last key that comes before `k`, which need not be there.
    pub fn before_key<L: Ledger>(&self, k: Elem, steps: &mut Steps<L>) -> Option<Elem>
        ensures key { result ≡ last_key (rows_below natural_before k self.now) }
        ensures step { steps.new ≡ steps.old + 1 }
    {
        steps.tick();
        self.free.next_below(&k)
    }

    /// The first key above a cut.
    pub fn first_key_from<L: Ledger>(&self, c: &Cut, steps: &mut Steps<L>) -> Option<Elem>
        ensures key { result ≡ first_key (rows_between natural_before c.now End self.now) }
        ensures step { steps.new ≡ steps.old + 1 }
    {
        steps.tick();
        self.free.first_in(&Window {
            lo: *c,
            hi: Cut::End,
        })
    }

    /// The last key below a cut.
    pub fn last_key_to<L: Ledger>(&self, c: &Cut, steps: &mut Steps<L>) -> Option<Elem>
        ensures key { result ≡ last_key (rows_between natural_before Start c.now self.now) }
        ensures step { steps.new ≡ steps.old + 1 }
    {
        steps.tick();
        self.free.last_in(&Window {
            lo: Cut::Start,
            hi: *c,
        })
    }

    /// A key's first pair whose value lies above a cut.
    pub fn first_pair_from<L: Ledger>(
        &self,
        k: Elem,
        c: &Cut,
        steps: &mut Steps<L>,
    ) -> Option<TreePairId>
        ensures id { result ≡ pair_in k (first_key (rows_between natural_before c.now End (group k self.now))) }
        ensures step { steps.new ≡ steps.old + 1 }
    {
        steps.tick();
        let window = Window {
            lo: *c,
            hi: Cut::End,
        };
        id_in(&k, self.free.first_of_in(&k, &window))
    }

    /// A key's last pair whose value lies below a cut.
    pub fn last_pair_to<L: Ledger>(
        &self,
        k: Elem,
        c: &Cut,
        steps: &mut Steps<L>,
    ) -> Option<TreePairId>
        ensures id { result ≡ pair_in k (last_key (rows_between natural_before Start c.now (group k self.now))) }
        ensures step { steps.new ≡ steps.old + 1 }
    {
        steps.tick();
        let window = Window {
            lo: Cut::Start,
            hi: *c,
        };
        id_in(&k, self.free.last_of_in(&k, &window))
    }

    /// Puts a pair that is not there, in its place. The answer is whether the size grew.
    pub fn put<L: Ledger>(
        &mut self,
        k: Elem,
        v: Elem,
        steps: &mut Steps<L>,
    ) -> Result<bool, NoMemory>
        ensures answer { IfOk result (λ grew. grew ≡ not (has_pair k v self.old)) }
        ensures ok { IfOk result (λ grew. MatchBool grew (AddsRow self.old self.new k (v, tt)) (self.new ≡ self.old)) }
        ensures there { IsTrue (has_pair k v self.old) → IsOk result }
        ensures err { OnErr result (self.new ≡ self.old) }
        ensures step { steps.new ≡ steps.old + 1 }
    {
        steps.tick();
        if self.free.get(&k, &v).is_some() {
            return Ok(false);
        }
        self.free.insert(&k, &v, ())?;
        Ok(true)
    }

    /// Removes the pair of a key and a value, and tells whether there was one.
    pub fn remove_pair<L: Ledger>(&mut self, k: Elem, v: Elem, steps: &mut Steps<L>) -> bool
        ensures answer { result ≡ has_pair k v self.old }
        ensures rows { self.new ≡ without_both k v self.old }
        ensures step { steps.new ≡ steps.old + 1 }
    {
        steps.tick();
        self.free.remove(&k, &v).is_some()
    }

    /// Removes the pairs of a key, and tells their number.
    pub fn remove_key<L: Ledger>(&mut self, k: Elem, steps: &mut Steps<L>) -> usize
        ensures answer { result ≡ count_of k self.old }
        ensures rows { self.new ≡ without_group k self.old }
        ensures step { steps.new ≡ steps.old + 1 }
    {
        steps.tick();
        self.free.remove_group(&k)
    }

    /// Gives a key these values in place of its own, equal ones once.
    pub fn replace_values<L: Ledger>(
        &mut self,
        k: Elem,
        vs: &[Elem],
        steps: &mut Steps<L>,
    ) -> Result<(), NoMemory>
        ensures values { OnOk result ((x : _) → has_pair k x self.new ≡ list_any (same x) vs.now) }
        ensures others { OnOk result (without_group k self.new ≡ without_group k self.old) }
        ensures err { OnErr result (self.new ≡ self.old) }
        ensures step { steps.new ≡ steps.old + 1 }
    {
        steps.tick();
        let mut values = self.free.no_group();
        put_values(&mut values, vs)?;
        self.free.put_group(&k, values)
    }

    /// Removes a pair.
    pub fn remove_id<L: Ledger>(&mut self, p: TreePairId, steps: &mut Steps<L>)
        requires { IsLive self.old p }
        ensures rows { self.new ≡ without_both p.0 p.1 self.old }
        ensures step { steps.new ≡ steps.old + 1 }
    {
        steps.tick();
        let (key, value) = p.pair();
        self.free.remove(&key, &value);
    }

    /// Removes every pair.
    pub fn clear(&mut self)
        ensures { self.new ≡ [] }
    {
        self.free.clear();
    }
}
