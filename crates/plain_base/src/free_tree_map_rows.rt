ghost use Rattle.std.specs.Prelude.{◌≡◌, cond, length, true, [], None, Some, OnOk, OnErr, IfOk, is_some, slice_get};
ghost use Rattle.std.specs.Map.{keys_of};
ghost use Rattle.std.specs.Option.{option_copied};
ghost use Rattle.elem.specs.Cuts.{cut_upto};
ghost use Rattle.elem.specs.Elements.{same};
ghost use Rattle.elem.specs.Keyed.{value_at, IsPresent, IsAbsent, HasDistinctKeys, with_value, without};
ghost use Rattle.elem.specs.Rows.{first_key, last_key, key_after, key_before};
ghost use Rattle.plain_base.specs.Sorted.{IsInOrder, placed, rows_above, rows_below, rows_between};

mod nested;
mod whole_rows;

use crate::bounds::{first_between, last_between, lower_bound, upper_bound};
use crate::ranked::Ranked;
use elem::{Compare, Cut, Elem, Natural, NoMemory, Window, same_cut};
use std::alloc::Global;
use std::collections::BTreeMap;
use std::marker::Model;
use std::mem;
use std::ops::Bound;

/// The rows of a sorted map, as `TreeMapRows`, with no count of steps.
#[derive(Drop)]
pub struct FreeTreeMapRows<V, C: Compare = Natural> {
    rows: BTreeMap<Ranked<C>, V>,
}

impl<V, C: Compare> Model for FreeTreeMapRows<V, C> {
    ghost use Rattle.std.specs.Prelude.{List};
    ghost use Rattle.elem.specs.declared.elements.Elem.{Elem as Element};

    ghost Value = { List (Element × V) };

    ghost view = { λ s. s.rows.entries };
}

impl<V: Drop, C: Compare> FreeTreeMapRows<V, C> {
    /// No rows.
    pub fn new(alloc: Global) -> FreeTreeMapRows<V, C>
        ensures { result ≡ [] }
    {
        FreeTreeMapRows {
            rows: BTreeMap::new(alloc),
        }
    }

    /// The number of rows.
    pub fn len(&self) -> usize
        ensures len { result ≡ length self.now }
        ensures distinct { HasDistinctKeys self.now }
        ensures order { IsInOrder C.before self.now }
    {
        self.rows.len()
    }

    /// The value of a key, where it stands.
    pub fn get(&self, k: &Elem) -> Option<&V>
        ensures { option_copied result ≡ value_at self.now k.now }
    {
        self.rows.get(&Ranked::new(*k))
    }

    /// Whether a key has a value.
    pub fn contains(&self, k: &Elem) -> bool
        ensures { result ≡ is_some (value_at self.now k.now) }
    {
        self.rows.contains_key(&Ranked::new(*k))
    }

    /// The key of row number `i`, found by walking there.
    pub fn at(&self, i: usize) -> Option<Elem>
        ensures { result ≡ slice_get (keys_of self.now) i }
    {
        let _len = self.len();
        let mut place = self.first();
        for _step in 0..i {
            match place {
                Some(k) => place = self.after(k),
                None => return None,
            }
        }
        place
    }

    /// The key of the first row.
    pub fn first(&self) -> Option<Elem>
        ensures { result ≡ first_key self.now }
    {
        match self.rows.first_key_value() {
            Some((key, _)) => Some(key.elem()),
            None => None,
        }
    }

    /// The key of the last row.
    pub fn last(&self) -> Option<Elem>
        ensures { result ≡ last_key self.now }
    {
        match self.rows.iter().next_back() {
            Some((key, _)) => Some(key.elem()),
            None => None,
        }
    }

    /// The key after `k`.
    pub fn after(&self, k: Elem) -> Option<Elem>
        requires { IsPresent self.now k }
        ensures { result ≡ key_after (same k) self.now }
    {
        first_between(
            &self.rows,
            Bound::Excluded(Ranked::new(k)),
            Bound::Unbounded,
        )
    }

    /// The key before `k`.
    pub fn before(&self, k: Elem) -> Option<Elem>
        requires { IsPresent self.now k }
        ensures { result ≡ key_before (same k) self.now }
    {
        last_between(
            &self.rows,
            Bound::Unbounded,
            Bound::Excluded(Ranked::new(k)),
        )
    }

    /// The first key in a window, whose cuts are read in the order `C`.
    pub fn first_in(&self, w: &Window) -> Option<Elem>
        requires { cut_upto C.before w.now.lo w.now.hi ≡ true }
        ensures { result ≡ first_key (rows_between C.before w.now.lo w.now.hi self.now) }
    {
        if same_cut(&w.lo, &Cut::End) || same_cut(&w.hi, &Cut::Start) {
            return None;
        }
        first_between(&self.rows, lower_bound(&w.lo), upper_bound(&w.hi))
    }

    /// The last key in a window, whose cuts are read in the order `C`.
    pub fn last_in(&self, w: &Window) -> Option<Elem>
        requires { cut_upto C.before w.now.lo w.now.hi ≡ true }
        ensures { result ≡ last_key (rows_between C.before w.now.lo w.now.hi self.now) }
    {
        if same_cut(&w.lo, &Cut::End) || same_cut(&w.hi, &Cut::Start) {
            return None;
        }
        last_between(&self.rows, lower_bound(&w.lo), upper_bound(&w.hi))
    }

    /// The first key that comes after `k`.
    pub fn next_above(&self, k: Elem) -> Option<Elem>
        ensures { result ≡ first_key (rows_above C.before k self.now) }
    {
        first_between(
            &self.rows,
            Bound::Excluded(Ranked::new(k)),
            Bound::Unbounded,
        )
    }

    /// The last key that comes before `k`.
    pub fn next_below(&self, k: Elem) -> Option<Elem>
        ensures { result ≡ last_key (rows_below C.before k self.now) }
    {
        last_between(
            &self.rows,
            Bound::Unbounded,
            Bound::Excluded(Ranked::new(k)),
        )
    }

    /// Adds a row in the order.
    pub fn insert(&mut self, k: Elem, v: V) -> Result<(), NoMemory>
        requires { IsAbsent self.old k }
        ensures ok { OnOk result (self.new ≡ placed C.before self.old k v) }
        ensures err { OnErr result (self.new ≡ self.old) }
    {
        match self.rows.insert(Ranked::new(k), v) {
            Ok(_) => Ok(()),
            Err(_) => Err(NoMemory),
        }
    }

    /// Gives a key another value, and tells the one before.
    pub fn replace(&mut self, k: Elem, v: V) -> V
        requires { IsPresent self.old k }
        ensures value { value_at self.old k ≡ Some result }
        ensures rows { self.new ≡ with_value self.old k v }
    {
        match self.rows.get_mut(&Ranked::new(k)) {
            Some(place) => mem::replace(place, v),
            None => v,
        }
    }

    /// Gives a key a value, in its row or in a new row in the order. It tells the value before, and takes memory only
    /// for a new key.
    pub fn put(&mut self, k: Elem, v: V) -> Result<Option<V>, NoMemory>
        ensures before { IfOk result (λ before. before ≡ value_at self.old k) }
        ensures rows { OnOk result (self.new ≡ cond (is_some (value_at self.old k)) (with_value self.old k v) (placed C.before self.old k v)) }
        ensures err { OnErr result (self.new ≡ self.old) }
        ensures memory { OnErr result (value_at self.old k ≡ None) }
    {
        match self.rows.insert(Ranked::new(k), v) {
            Ok(before) => Ok(before),
            Err(_) => Err(NoMemory),
        }
    }

    /// Removes the row of a key, and tells its value.
    pub fn remove(&mut self, k: Elem) -> Option<V>
        ensures value { result ≡ value_at self.old k }
        ensures rows { self.new ≡ without self.old k }
    {
        self.rows.remove(&Ranked::new(k))
    }

    /// Removes every row.
    pub fn clear(&mut self)
        ensures { self.new ≡ [] }
    {
        self.rows.clear();
    }
}

impl<V: Copy, C: Compare> FreeTreeMapRows<V, C> {
    /// The value of a key.
    pub fn probe(&self, k: Elem) -> Option<V>
        ensures { result ≡ value_at self.now k }
    {
        self.rows.get(&Ranked::new(k)).copied()
    }
}
