ghost use Rattle.std.specs.Prelude.{◌≡◌, ◌+◌, cond, is_some, length, true, [], None, Some, OnOk, OnErr, IfOk, IfSome};
ghost use Rattle.std.specs.Option.{option_map};
ghost use Rattle.elem.specs.Cuts.{cut_upto};
ghost use Rattle.elem.specs.Elements.{same};
ghost use Rattle.elem.specs.Keyed.{value_at, HasDistinctKeys, IsPresent, with_value};
ghost use Rattle.elem.specs.Rows.{first_key, last_key, key_after, key_before};
ghost use Rattle.plain_base.specs.Sorted.{IsInOrder, placed, rows_above, rows_below, rows_between};
ghost use Rattle.plain_base.specs.SortedLaws.{placed-adds};

use crate::FreeTreeMapRows;
use elem::{Compare, Elem, Keyed, Natural, NoMemory, Steps, Window};
use std::alloc::Global;
use std::marker::Model;
use std::sync::ledger::Ledger;

/// Rows of a key and a value in the order `C` of their keys: `java.util.TreeMap` with a comparator.
///
/// Each call that takes `steps` counts one. Only `insert` and `put` take memory, and where it finds none the rows are as before.
#[derive(Drop)]
pub struct TreeMapRows<V: Copy, C: Compare = Natural> {
    free: FreeTreeMapRows<V, C>,
}

/// The keys of a sorted set: `java.util.TreeSet` with a comparator.
pub type TreeSetRows<C = Natural> = TreeMapRows<(), C>;

impl<V: Copy, C: Compare> Model for TreeMapRows<V, C> {
    ghost use Rattle.std.specs.Prelude.{List};
    ghost use Rattle.elem.specs.declared.elements.Elem.{Elem as Element};

    ghost Value = { List (Element × V) };

    ghost view = { λ s. s.free };
}

impl<V: Copy, C: Compare> TreeMapRows<V, C> {
    /// No rows.
    pub fn new(alloc: Global) -> TreeMapRows<V, C>
        ensures { result ≡ [] }
    {
        TreeMapRows {
            free: FreeTreeMapRows::new(alloc),
        }
    }

    /// The first key in a window, whose cuts are read in the order `C`.
    pub fn first_in<L: Ledger>(&self, w: &Window, steps: &mut Steps<L>) -> Option<Elem>
        requires { cut_upto C.before w.now.lo w.now.hi ≡ true }
        ensures key { result ≡ first_key (rows_between C.before w.now.lo w.now.hi self.now) }
        ensures step { steps.new ≡ steps.old + 1 }
    {
        steps.tick();
        self.free.first_in(w)
    }

    /// The last key in a window, whose cuts are read in the order `C`.
    pub fn last_in<L: Ledger>(&self, w: &Window, steps: &mut Steps<L>) -> Option<Elem>
        requires { cut_upto C.before w.now.lo w.now.hi ≡ true }
        ensures key { result ≡ last_key (rows_between C.before w.now.lo w.now.hi self.now) }
        ensures step { steps.new ≡ steps.old + 1 }
    {
        steps.tick();
        self.free.last_in(w)
    }

    /// The first key that comes after `k`.
    pub fn next_above<L: Ledger>(&self, k: Elem, steps: &mut Steps<L>) -> Option<Elem>
        ensures key { result ≡ first_key (rows_above C.before k self.now) }
        ensures step { steps.new ≡ steps.old + 1 }
    {
        steps.tick();
        self.free.next_above(k)
    }

    /// The last key that comes before `k`.
    pub fn next_below<L: Ledger>(&self, k: Elem, steps: &mut Steps<L>) -> Option<Elem>
        ensures key { result ≡ last_key (rows_below C.before k self.now) }
        ensures step { steps.new ≡ steps.old + 1 }
    {
        steps.tick();
        self.free.next_below(k)
    }

    /// The first row.
    pub fn first_row<L: Ledger>(&self, steps: &mut Steps<L>) -> Option<(Elem, V)>
        ensures key { option_map (λ row. row.0) result ≡ first_key self.now }
        ensures value { IfSome result (λ row. value_at self.now row.0 ≡ Some row.1) }
        ensures step { steps.new ≡ steps.old + 1 }
    {
        steps.tick();
        self.free.first_row()
    }

    /// The last row.
    pub fn last_row<L: Ledger>(&self, steps: &mut Steps<L>) -> Option<(Elem, V)>
        ensures key { option_map (λ row. row.0) result ≡ last_key self.now }
        ensures value { IfSome result (λ row. value_at self.now row.0 ≡ Some row.1) }
        ensures step { steps.new ≡ steps.old + 1 }
    {
        steps.tick();
        self.free.last_row()
    }

    /// The row after that of `k`.
    pub fn row_after<L: Ledger>(&self, k: Elem, steps: &mut Steps<L>) -> Option<(Elem, V)>
        requires { IsPresent self.now k }
        ensures key { option_map (λ row. row.0) result ≡ key_after (same k) self.now }
        ensures value { IfSome result (λ row. value_at self.now row.0 ≡ Some row.1) }
        ensures step { steps.new ≡ steps.old + 1 }
    {
        steps.tick();
        self.free.row_after(k)
    }

    /// The row before that of `k`.
    pub fn row_before<L: Ledger>(&self, k: Elem, steps: &mut Steps<L>) -> Option<(Elem, V)>
        requires { IsPresent self.now k }
        ensures key { option_map (λ row. row.0) result ≡ key_before (same k) self.now }
        ensures value { IfSome result (λ row. value_at self.now row.0 ≡ Some row.1) }
        ensures step { steps.new ≡ steps.old + 1 }
    {
        steps.tick();
        self.free.row_before(k)
    }

    /// The first row in a window, whose cuts are read in the order `C`.
    pub fn first_row_in<L: Ledger>(&self, w: &Window, steps: &mut Steps<L>) -> Option<(Elem, V)>
        requires { cut_upto C.before w.now.lo w.now.hi ≡ true }
        ensures key { option_map (λ row. row.0) result ≡ first_key (rows_between C.before w.now.lo w.now.hi self.now) }
        ensures value { IfSome result (λ row. value_at self.now row.0 ≡ Some row.1) }
        ensures step { steps.new ≡ steps.old + 1 }
    {
        steps.tick();
        self.free.first_row_in(w)
    }

    /// The last row in a window, whose cuts are read in the order `C`.
    pub fn last_row_in<L: Ledger>(&self, w: &Window, steps: &mut Steps<L>) -> Option<(Elem, V)>
        requires { cut_upto C.before w.now.lo w.now.hi ≡ true }
        ensures key { option_map (λ row. row.0) result ≡ last_key (rows_between C.before w.now.lo w.now.hi self.now) }
        ensures value { IfSome result (λ row. value_at self.now row.0 ≡ Some row.1) }
        ensures step { steps.new ≡ steps.old + 1 }
    {
        steps.tick();
        self.free.last_row_in(w)
    }

    /// Gives a key a value, in its row or in a new row in the order. It tells the value before, and takes memory only
    /// for a new key.
    pub fn put<L: Ledger>(
        &mut self,
        k: Elem,
        v: V,
        steps: &mut Steps<L>,
    ) -> Result<Option<V>, NoMemory>
        ensures before { IfOk result (λ before. before ≡ value_at self.old k) }
        ensures rows { OnOk result (self.new ≡ cond (is_some (value_at self.old k)) (with_value self.old k v) (placed C.before self.old k v)) }
        ensures err { OnErr result (self.new ≡ self.old) }
        ensures memory { OnErr result (value_at self.old k ≡ None) }
        ensures step { steps.new ≡ steps.old + 1 }
    {
        steps.tick();
        self.free.put(k, v)
    }
}

impl<V: Copy, C: Compare> Keyed<V> for TreeMapRows<V, C> {
    ghost rows = { λ s. s };

    ghost inserted = { placed C.before };

    fn len(&self) -> usize
        ensures len { result ≡ length self.now }
        ensures distinct { HasDistinctKeys self.now }
        ensures order { IsInOrder C.before self.now }
    {
        self.free.len()
    }

    fn probe<L: Ledger>(&self, k: Elem, steps: &mut Steps<L>) -> Option<V> {
        steps.tick();
        self.free.probe(k)
    }

    fn first<L: Ledger>(&self, steps: &mut Steps<L>) -> Option<Elem> {
        steps.tick();
        self.free.first()
    }

    fn last<L: Ledger>(&self, steps: &mut Steps<L>) -> Option<Elem> {
        steps.tick();
        self.free.last()
    }

    fn after<L: Ledger>(&self, k: Elem, steps: &mut Steps<L>) -> Option<Elem> {
        steps.tick();
        self.free.after(k)
    }

    fn before<L: Ledger>(&self, k: Elem, steps: &mut Steps<L>) -> Option<Elem> {
        steps.tick();
        self.free.before(k)
    }

    fn insert<L: Ledger>(&mut self, k: Elem, v: V, steps: &mut Steps<L>) -> Result<(), NoMemory> {
        steps.tick();
        self.free.insert(k, v)
    }

    fn replace<L: Ledger>(&mut self, k: Elem, v: V, steps: &mut Steps<L>) -> V {
        steps.tick();
        self.free.replace(k, v)
    }

    fn remove<L: Ledger>(&mut self, k: Elem, steps: &mut Steps<L>) -> Option<V> {
        steps.tick();
        self.free.remove(k)
    }

    fn clear(&mut self) {
        self.free.clear();
    }

    ghost adds_row = { λ old k v. placed-adds C.before k v old };
}
