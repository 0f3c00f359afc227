ghost use Rattle.std.specs.Prelude.{◌≡◌, ◌+◌, ℕ, List, [], length, Some, OnOk, OnErr};

use crate::{Elem, NoMemory, Steps};
use std::sync::ledger::Ledger;

/// Rows of a key and a value with distinct keys, in an order that the type gives: `java.util`'s `LinkedHashMap` and
/// `TreeMap`, as far as rows go.
///
/// Each call that takes `steps` counts one. Only `insert` takes memory.
pub trait Keyed<V: Copy> {
    ghost use Rattle.std.specs.Prelude.{◌≡◌, List};
    ghost use Rattle.elem.specs.Elements.{same};
    ghost use Rattle.elem.specs.Rows.{first_key, last_key, key_after, key_before};
    ghost use Rattle.elem.specs.Keyed.{value_at, IsPresent, IsAbsent, HasDistinctKeys, with_value, without, AddsRow};
    ghost use Rattle.elem.specs.declared.elements.Elem.{Elem};

    /// The rows in order.
    ghost rows: { Self → List (Elem × V) };

    /// The rows with a new one, at the place that the type gives.
    ghost inserted: { List (Elem × V) → Elem → V → List (Elem × V) };

    /// The number of rows.
    fn len(&self) -> usize
        ensures len { result ≡ length (rows self.now) }
        ensures distinct { HasDistinctKeys (rows self.now) };

    /// The value of a key.
    fn probe<L: Ledger>(&self, k: Elem, steps: &mut Steps<L>) -> Option<V>
        ensures value { result ≡ value_at (rows self.now) k }
        ensures step { steps.new ≡ steps.old + 1 };

    /// The key of the first row.
    fn first<L: Ledger>(&self, steps: &mut Steps<L>) -> Option<Elem>
        ensures key { result ≡ first_key (rows self.now) }
        ensures step { steps.new ≡ steps.old + 1 };

    /// The key of the last row.
    fn last<L: Ledger>(&self, steps: &mut Steps<L>) -> Option<Elem>
        ensures key { result ≡ last_key (rows self.now) }
        ensures step { steps.new ≡ steps.old + 1 };

    /// The key after `k`.
    fn after<L: Ledger>(&self, k: Elem, steps: &mut Steps<L>) -> Option<Elem>
        requires { IsPresent (rows self.now) k }
        ensures key { result ≡ key_after (same k) (rows self.now) }
        ensures step { steps.new ≡ steps.old + 1 };

    /// The key before `k`.
    fn before<L: Ledger>(&self, k: Elem, steps: &mut Steps<L>) -> Option<Elem>
        requires { IsPresent (rows self.now) k }
        ensures key { result ≡ key_before (same k) (rows self.now) }
        ensures step { steps.new ≡ steps.old + 1 };

    /// Adds a row, at the place that the type gives.
    fn insert<L: Ledger>(&mut self, k: Elem, v: V, steps: &mut Steps<L>) -> Result<(), NoMemory>
        requires { IsAbsent (rows self.old) k }
        ensures ok { OnOk result (rows self.new ≡ inserted (rows self.old) k v) }
        ensures err { OnErr result (rows self.new ≡ rows self.old) }
        ensures step { steps.new ≡ steps.old + 1 };

    /// Gives a key another value, and tells the one before.
    fn replace<L: Ledger>(&mut self, k: Elem, v: V, steps: &mut Steps<L>) -> V
        requires { IsPresent (rows self.old) k }
        ensures value { value_at (rows self.old) k ≡ Some result }
        ensures rows { rows self.new ≡ with_value (rows self.old) k v }
        ensures step { steps.new ≡ steps.old + 1 };

    /// Removes the row of a key, and tells its value.
    fn remove<L: Ledger>(&mut self, k: Elem, steps: &mut Steps<L>) -> Option<V>
        ensures value { result ≡ value_at (rows self.old) k }
        ensures rows { rows self.new ≡ without (rows self.old) k }
        ensures step { steps.new ≡ steps.old + 1 };

    /// Removes every row.
    fn clear(&mut self)
        ensures { rows self.new ≡ [] };

    /// An insertion adds one row at one place, and the others keep their order.
    ghost adds_row: { (old : List (Elem × V)) (k : Elem) (v : V) → AddsRow old (inserted old k v) k v };
}
