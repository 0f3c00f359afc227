ghost use Rattle.std.specs.Prelude.{◌≡◌, ◌+◌, min, length, [], IfOk};
ghost use Rattle.std.specs.List.{count_by};
ghost use Rattle.elem.specs.declared.elements.Elem.{Elem as Element};
ghost use Rattle.elem.specs.Elements.{same};
ghost use Rattle.elem.specs.Keyed.{IsPresent, HasDistinctKeys};
ghost use Rattle.elem.specs.Rows.{first_key, last_key, key_after, key_before};
ghost use Rattle.bag_base.specs.Counts.{most, count_of, AreCounts, occurrences};

mod edits;
mod walking;
mod windows;

use crate::CountRows;
use crate::count_rows::MOST;
use elem::{Elem, Natural, NoMemory, Steps};
use hash_seed::Seed;
use linked_base::FreeLinkedMap;
use plain_base::FreeTreeMapRows;
use std::alloc::Global;
use std::marker::Model;
use std::sync::ledger::Ledger;

/// Distinct elements, each with a count from 1 to 2147483647: Guava's `Multiset`.
///
/// Each call that takes `steps` counts one. Only `add_n` and `set_count` take memory, and where they find none the bag is
/// as before.
#[derive(Drop)]
pub struct Bag<R: CountRows> {
    rows: R,
    total: u128,
}

/// A bag in which a new element goes last: Guava's `LinkedHashMultiset`.
pub type LinkedBag = Bag<FreeLinkedMap<u32>>;

/// A bag in the order `C` of its elements: Guava's `TreeMultiset`.
pub type TreeBag<C = Natural> = Bag<FreeTreeMapRows<u32, C>>;

impl<R: CountRows> Model for Bag<R> {
    ghost use Rattle.std.specs.Prelude.{◌≡◌, ℕ, List};
    ghost use Rattle.elem.specs.declared.elements.Elem.{Elem as Element};
    ghost use Rattle.bag_base.specs.Counts.{AreCounts, total_of};

    ghost Value = { List (Element × ℕ) };

    ghost view = { λ b. R.rows b.rows };

    ghost invariant = { λ b. AreCounts (R.rows b.rows) × (b.total ≡ total_of (R.rows b.rows)) };
}

impl<R: CountRows> Bag<R> {
    /// A bag with no elements, under the fixed seed.
    pub fn new(alloc: Global) -> Result<Bag<R>, NoMemory>
        ensures { IfOk result (λ b. b ≡ []) }
    {
        Bag::with_hasher(alloc, Seed::fixed())
    }

    /// A bag with no elements, which are hashed by a seed where they are hashed.
    pub fn with_hasher(alloc: Global, seed: Seed) -> Result<Bag<R>, NoMemory>
        ensures { IfOk result (λ b. b ≡ []) }
    {
        Ok(Bag {
            rows: R::with_hasher(alloc, seed),
            total: 0,
        })
    }

    /// The number of distinct elements.
    pub fn distinct(&self) -> usize
        ensures len { result ≡ length self.now }
        ensures distinct { HasDistinctKeys self.now }
        ensures counts { AreCounts self.now }
        ensures occurrences { (x : Element) → count_by (same x) (occurrences self.now) ≡ count_of self.now x }
    {
        self.rows.len()
    }

    /// How many of an element there are.
    pub fn count<L: Ledger>(&self, x: Elem, steps: &mut Steps<L>) -> u32
        ensures count { result ≡ count_of self.now x }
        ensures step { steps.new ≡ steps.old + 1 }
    {
        steps.tick();
        self.rows.probe(x).unwrap_or(0)
    }

    /// The number of all occurrences, or 2147483647 where it is greater.
    pub fn total<L: Ledger>(&self, steps: &mut Steps<L>) -> u32
        ensures total { result ≡ min (length (occurrences self.now)) most }
        ensures step { steps.new ≡ steps.old + 1 }
    {
        steps.tick();
        self.total.min(u128::from(MOST)) as u32
    }

    /// The first element.
    pub fn first<L: Ledger>(&self, steps: &mut Steps<L>) -> Option<Elem>
        ensures element { result ≡ first_key self.now }
        ensures step { steps.new ≡ steps.old + 1 }
    {
        steps.tick();
        self.rows.first()
    }

    /// The last element.
    pub fn last<L: Ledger>(&self, steps: &mut Steps<L>) -> Option<Elem>
        ensures element { result ≡ last_key self.now }
        ensures step { steps.new ≡ steps.old + 1 }
    {
        steps.tick();
        self.rows.last()
    }

    /// The element after `k`.
    pub fn after<L: Ledger>(&self, k: Elem, steps: &mut Steps<L>) -> Option<Elem>
        requires { IsPresent self.now k }
        ensures element { result ≡ key_after (same k) self.now }
        ensures step { steps.new ≡ steps.old + 1 }
    {
        steps.tick();
        self.rows.after(k)
    }

    /// The element before `k`.
    pub fn before<L: Ledger>(&self, k: Elem, steps: &mut Steps<L>) -> Option<Elem>
        requires { IsPresent self.now k }
        ensures element { result ≡ key_before (same k) self.now }
        ensures step { steps.new ≡ steps.old + 1 }
    {
        steps.tick();
        self.rows.before(k)
    }

    /// Removes every element.
    pub fn clear(&mut self)
        ensures { self.new ≡ [] }
    {
        self.rows.clear();
        self.total = 0;
    }
}
